//! The history of all calls, which only contracts see: it has no bytes, and its functions do nothing when they run.
ghost use Rattle.std.specs.Prelude.{◌≡◌, List, ◌++◌, ◌∷◌, []};
ghost use Rattle.apex_ports.specs.declared.history.Entry.{Entry};
ghost use Rattle.apex_ports.specs.History.{entry_of};
ghost use Rattle.apex_ports.specs.Noted.{entry_by, call_by, reply_by};

use crate::noted::{CallRef, Event, ReplyRef};
use apex_types::Moment;
use std::marker::Model;

/// A history. A contract sees it as the list of its entries, oldest first.
#[derive(Drop)]
pub(crate) struct GhostHistory {
    log: Log,
}

impl Model for GhostHistory {
    ghost use Rattle.std.specs.Prelude.{List};
    ghost use Rattle.apex_ports.specs.declared.history.Entry.{Entry};

    ghost Value = { List Entry };

    ghost view = { λ history. history.log.entries };
}

// The entries, as data that only proofs see.
#[derive(Drop)]
struct Log {
    ghost entries: { List Entry },
}

impl Model for Log {
    ghost use Rattle.std.specs.Borrow.{ftrue};

    ghost also_owns = { λ _. ftrue };
}

// SAFETY: it owns nothing.
unsafe impl Send for Log {}

// The entries are only ghost data, so the body `Log {}` meets any clause: these three clauses are trusted as written.
impl Log {
    fn new() -> Log
        ensures { result.entries ≡ [] }
    {
        Log {}
    }

    #[inline(always)]
    fn copy(&self) -> Log
        ensures { result.entries ≡ self.now.entries }
    {
        Log {}
    }

    // The log with one more entry.
    #[inline(always)]
    fn after(&self, _event: &Event<'_>) -> Log
        ensures { result.entries ≡ self.now.entries ++ entry_by _event.now ∷ [] }
    {
        Log {}
    }
}

impl GhostHistory {
    /// The empty history.
    pub(crate) fn new() -> GhostHistory
        ensures { result ≡ [] }
    {
        GhostHistory { log: Log::new() }
    }

    /// A copy of the history.
    #[inline(always)]
    pub(crate) fn copy(&self) -> GhostHistory
        ensures { result ≡ self.now }
    {
        GhostHistory {
            log: self.log.copy(),
        }
    }

    /// Adds one entry to the history.
    #[inline(always)]
    pub(crate) fn push(
        &mut self,
        partition: usize,
        at: Moment,
        call: CallRef<'_>,
        reply: ReplyRef<'_>,
    )
        ensures { self.new ≡ self.old
            ++ entry_of partition at (call_by call.entry) (reply_by reply.entry) ∷ [] }
    {
        let event = Event {
            partition,
            at,
            call,
            reply,
        };
        self.log = self.log.after(&event);
    }
}
