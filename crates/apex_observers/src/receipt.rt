//! Receipts.
ghost use Rattle.std.specs.Prelude.{◌≡◌, [], IfSome, MatchBool};
ghost use mathlib.Core.List.{IsPrefix};
ghost use Rattle.apex_observers.specs.History.{count_of};
ghost use Rattle.apex_observers.specs.Published.{with_write};

use crate::history::{Add, Count, Counted, Nothing};
use apex_types::Sample;
use logbook::{Offer, Seen, Start, Word};
use std::marker::Model;

/// A token for all writes that were published on a sampling channel when it was made. It doesn't contain a sample.
#[derive(Drop)]
pub struct Receipt {
    count: u64,
    seen: Seen<Sample, u64, Counted>,
}

impl Model for Receipt {
    ghost use Rattle.std.specs.Prelude.{◌≡◌, length};
    ghost use Rattle.apex_observers.specs.Published.{Published};

    ghost Value = { Published };

    ghost view = { λ receipt. record { channel = receipt.seen.book; writes = receipt.seen.log } };

    ghost invariant = { λ receipt. receipt.count ≡ length receipt.seen.log };
}

impl Receipt {
    /// A new channel with no writes, and the word that counts them.
    pub(crate) fn open() -> (Count, Receipt)
        ensures writes { result.1.writes ≡ [] }
        ensures count { result.0 ≡ count_of result.1.channel }
    {
        let (seen, mut first, _second) = Seen::open(Start::alone(), 0, 0);
        (Word::tracked(0, &mut first), Receipt { count: 0, seen })
    }

    /// A copy of the receipt.
    pub fn copy(&self) -> Receipt
        ensures { result ≡ self.now }
    {
        Receipt {
            count: self.count,
            seen: self.seen.again(),
        }
    }

    /// Adds a write to the channel's history. `None` if the history has writes that this receipt lacks, or 2^64 - 1
    /// writes.
    pub(crate) fn followed_by(&self, count: &Count, sample: &Sample) -> Option<Receipt>
        requires { count.now ≡ count_of self.now.channel }
        ensures { IfSome result (λ receipt. receipt ≡ with_write self.now sample.now) }
    {
        let more = self.count.checked_add(1)?;
        let mut seen = self.seen.again();
        let mut offer: Offer<Sample, u64, Counted, Nothing> = seen.plain::<Nothing, Sample, Add>(
            sample,
        );
        let mut pen = seen.no_pen();
        let found = count.compare_exchange::<Add, Nothing>(
            self.count, more, &mut seen, &mut offer, &mut pen,
        );
        if found != self.count {
            return None;
        }
        Some(Receipt { count: more, seen })
    }

    /// Whether the other receipt has all writes of this one. If not, this one has all of the other.
    pub(crate) fn begins(&self, other: &Receipt) -> bool
        requires { other.now.channel ≡ self.now.channel }
        ensures { MatchBool result
            (IsPrefix self.now.writes other.now.writes)
            (IsPrefix other.now.writes self.now.writes) }
    {
        let mut both = self.seen.again();
        both.learn(&other.seen);
        self.count <= other.count
    }
}
