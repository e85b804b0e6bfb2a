//! Showing people how far a long search is.
use std::fmt;
use std::fmt::{Display, Formatter};
use std::io::{IsTerminal, Write};
use std::time::{Clock, Duration, Instant};

/// The number of milliseconds before a line is rewritten.
const STANDS_FOR: u64 = 500;

/// How far a search is.
#[derive(Clone, Copy, Debug, PartialEq, Eq)]
pub enum Reached {
    /// The number of calls in the order that is tried, and of dead ends before it.
    Calls { placed: usize, dead_ends: u64 },
    /// The number of states found, and of calls that lead to those from which the search goes on.
    States { found: usize, depth: usize },
}

impl Display for Reached {
    fn fmt<W: fmt::Write>(&self, f: &mut Formatter<W>) -> fmt::Result {
        match self {
            Reached::Calls { placed, dead_ends } => {
                write!(f, "calls placed {placed}, dead ends {dead_ends}")
            }
            Reached::States { found, depth } => write!(f, "states {found}, depth {depth}"),
        }
    }
}

/// Shows how far a search is, and what time it is.
pub trait Progress {
    /// The search is so far.
    fn show(&mut self, reached: Reached);

    /// The search has ended: nothing is left of what was shown.
    fn wipe(&mut self);

    /// The time on a clock that never goes back, if the clock can be read.
    fn now(&self) -> Option<Instant>;
}

/// A line that is rewritten repeatedly if the output is a terminal, and never written otherwise.
#[derive(Drop)]
pub struct ProgressLine<'a, C, W> {
    clock: &'a C,
    output: W,
    /// When the line was made, if it can be shown.
    made: Option<Instant>,
    /// When it was written last, if it is on the screen.
    written: Option<Instant>,
}

impl<'a, C: Clock, W: Write + IsTerminal> ProgressLine<'a, C, W> {
    /// The line is shown when it has something to show half a second from now.
    pub fn new(clock: &'a C, output: W) -> ProgressLine<'a, C, W> {
        let made = if output.is_terminal() {
            Instant::now(clock).ok()
        } else {
            None
        };
        ProgressLine {
            clock,
            output,
            made,
            written: None,
        }
    }
}

impl<C: Clock, W: Write> Progress for ProgressLine<'_, C, W> {
    fn show(&mut self, reached: Reached) {
        let Some(made) = self.made else {
            return;
        };
        let Some(now) = self.now() else {
            return;
        };
        if now.duration_since(self.written.unwrap_or(made)) < Duration::from_millis(STANDS_FOR) {
            return;
        }
        let seconds = now.duration_since(made).as_secs();
        let _ = write!(self.output, "\r{reached}, {seconds} s\x1b[K");
        self.written = Some(now);
    }

    fn wipe(&mut self) {
        if self.written.is_some() {
            let _ = self.output.write_all(b"\r\x1b[K");
            self.written = None;
        }
    }

    fn now(&self) -> Option<Instant> {
        Instant::now(self.clock).ok()
    }
}
