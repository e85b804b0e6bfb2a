//! Reports of how far a search is, which may end it.
ghost use Rattle.std.specs.Prelude.{◌≡◌, false};

/// Receives reports of how far a search of all points is, and may end the search. No contract depends on what else it
/// does with them.
pub trait Progress {
    /// What holds if it may end a search.
    ghost CanStop: { Type 0 };

    /// A search begins, or several that go on together.
    fn begin(&mut self);

    /// The search continues from points after `depth` calls, has found this many states, and keeps about this many
    /// bytes for them. A state that several threads found counts once for each until all from this depth are tried.
    /// Returns whether the search is to go on.
    fn level(&mut self, depth: usize, states: usize, bytes: usize) -> bool
        ensures { result ≡ false → CanStop };
}

/// Ignores all reports, and never ends a search.
#[derive(Clone, Copy, Debug)]
pub struct NoProgress;

impl Progress for NoProgress {
    ghost CanStop = { ⊥ };

    fn begin(&mut self) {}

    fn level(&mut self, _depth: usize, _states: usize, _bytes: usize) -> bool {
        true
    }
}
