//! The log of all entries, which only contracts see: it has no bytes that a program reads.
ghost use Rattle.std.specs.Prelude.{◌≡◌, ◌++◌, ◌∷◌, []};

use apex_types::{Call, Moment, Reply};
use std::marker::Model;
use std::snapshot::Snapshot;

/// A log. It takes no memory and no time; a contract sees the entries, oldest first.
#[cycle(past)]
#[derive(Drop)]
pub(crate) struct Past {
    latest: Latest,
}

// The latest entry, after the entries before it.
#[cycle(past)]
#[derive(Drop)]
enum Latest {
    Nothing,
    Entry {
        before: Snapshot<Past>,
        partition: Snapshot<usize>,
        at: Snapshot<Moment>,
        call: Snapshot<Call>,
        reply: Snapshot<Reply>,
    },
}

impl Model for Past {
    ghost use Rattle.apex_judge.specs.Prelude.{List, length, Entry};

    ghost Value = { List Entry };

    ghost use Rattle.apex_judge.specs.Past.{log_of};
    ghost use Rattle.std.proofs.Common.{arith, length-append};

    ghost view = { λ past. log_of past.latest };

    ghost size = { length };

    ghost size_decreases = { λ past sound. Prim.grind (arith, length-append) };
}

impl Past {
    ghost use Rattle.apex_ports.specs.History.{entry_of};

    /// The empty log.
    pub(crate) fn new() -> Past
        ensures { result ≡ [] }
    {
        Past {
            latest: Latest::Nothing,
        }
    }

    /// The log gains one entry.
    pub(crate) fn push(&mut self, partition: usize, at: Moment, call: &Call, reply: &Reply)
        ensures { self.new ≡ self.old ++ entry_of partition at call.now reply.now ∷ [] }
    {
        self.latest = Latest::Entry {
            before: Snapshot::of(self),
            partition: Snapshot::of(&partition),
            at: Snapshot::of(&at),
            call: Snapshot::of(call),
            reply: Snapshot::of(reply),
        };
    }
}
