//! The history of a channel's writes, which only contracts see. The program keeps its length.
use apex_types::Sample;
use logbook::{Gain, Plain, Play, Rule, Word};

/// The rule for a history: its first word counts the writes.
pub struct Counted;

impl Rule<Sample, u64> for Counted {
    ghost use Rattle.std.specs.Prelude.{[]};
    ghost use base.Fml.{ftrue};
    ghost use Rattle.apex_observers.specs.History.{IsCounted};

    ghost holds = { λ cells log. IsCounted cells log };

    ghost first = { [] };

    ghost hinted = { λ n log. Unit {0} };

    ghost shows = { λ log. [] };

    ghost keeps = { λ names log. ftrue };

    ghost moves = { λ ask before after answer. Unit {0} };
}

/// The word that counts a channel's writes.
pub type Count = Word<Sample, u64, Counted>;

/// A step trades nothing.
pub struct Nothing;

impl Gain<Sample, u64> for Nothing {
    ghost use base.Fml.{ftrue};

    ghost after = { λ names about answer. ftrue };
}

/// The step that adds a write.
pub struct Add;

impl Play<Sample, u64> for Add {
    ghost use Rattle.apex_observers.specs.History.{Adds};

    ghost then = { Adds };
}

impl Plain<Sample, Sample, u64> for Add {
    ghost use Rattle.std.specs.Prelude.{None};

    ghost ask = { λ sample. sample };

    ghost state = { λ sample. None };
}
