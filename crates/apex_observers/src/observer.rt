//! Observers.
ghost use Rattle.std.specs.Prelude.{◌≡◌, ◌⊎◌, IfSome, IfNone};
ghost use mathlib.Core.List.{IsPrefix};
ghost use Rattle.left_right.specs.Sides.{view as known_at};
ghost use Rattle.apex_observers.specs.OneChannel.{Knows};
ghost use Rattle.apex_observers.specs.Published.{Published};
ghost use Rattle.apex_observers.specs.Shown.{shown_of};
ghost use Rattle.apex_observers.specs.declared.sampled.Sampled.TheVariants.{Gone};

use crate::receipt::Receipt;
use crate::rule::{OneChannel, Taken};
use crate::sampled::Sampled;
use crate::version::Version;
use apex_types::Moment;
use core::mem::replace_with;
use left_right::reader::Reader;
use std::alloc::{Allocator, Global};
use std::marker::Model;

pub(crate) type ChannelReader<A> = Reader<Version, Option<Receipt>, OneChannel, A>;

/// Reads a sampling channel's last sample outside the board's lock. It never waits and doesn't allocate.
///
/// A contract sees it as the longest list of writes that it read or learned. All others that it read or learned are
/// prefixes of that one.
#[derive(Drop)]
pub struct Observer<A: Allocator = Global> {
    reader: ChannelReader<A>,
    receipt: Receipt,
}

impl<A: Allocator> Model for Observer<A> {
    ghost use Rattle.left_right.specs.Sides.{view as known_at};
    ghost use Rattle.apex_observers.specs.OneChannel.{Knows};
    ghost use Rattle.apex_observers.specs.Published.{Published};

    ghost Value = { Published };

    ghost view = { λ observer. observer.receipt };

    ghost invariant = { λ observer.
        Knows observer.receipt.channel (known_at observer.reader.place) };
}

impl<A: Allocator> Observer<A> {
    pub(crate) fn new(reader: ChannelReader<A>, receipt: Receipt) -> Observer<A>
        requires { Knows receipt.channel (known_at reader.place) }
        ensures { result ≡ receipt }
    {
        Observer { reader, receipt }
    }

    /// From now on reads show no earlier state than the receipt's.
    pub fn learn(&mut self, receipt: Receipt)
        requires { receipt.channel ≡ self.old.channel }
        ensures channel { self.new.channel ≡ self.old.channel }
        ensures seen { IsPrefix self.old.writes self.new.writes }
        ensures learned { IsPrefix receipt.writes self.new.writes }
        ensures longest { (self.new ≡ self.old) ⊎ (self.new ≡ receipt) }
    {
        if self.receipt.begins(&receipt) {
            self.receipt = receipt;
        }
    }

    /// Shows the channel's last sample at a moment. The refresh period is in nanoseconds.
    pub fn read(&mut self, now: Moment, refresh: u64) -> Sampled
        ensures shown { (result ≡ Gone) ⊎ (result ≡ shown_of now.0 refresh self.new.writes) }
        ensures seen { IsPrefix self.old.writes self.new.writes }
        ensures gone { result ≡ Gone → self.new ≡ self.old }
        ensures channel { self.new.channel ≡ self.old.channel }
    {
        let found = replace_with(
            &mut self.reader,
            (&self.receipt, now, refresh),
            |reader, asked| { look(reader, asked.0, asked.1, asked.2) },
        );
        match found {
            Some((sampled, receipt)) => {
                self.receipt = receipt;
                sampled
            }
            None => Sampled::Gone,
        }
    }
}

/// What is published now, and the writes up to it. `None` if the publisher has ended.
///
/// It is also `None` if the version lacks known writes. Receipts are made only for published writes, so this never
/// happens; but no contract ties a receipt to what is published when it is learned.
fn look<A: Allocator>(
    reader: ChannelReader<A>,
    known: &Receipt,
    now: Moment,
    refresh: u64,
) -> (ChannelReader<A>, Option<(Sampled, Receipt)>)
    requires { Knows known.now.channel (known_at reader.place) }
    ensures place { Knows known.now.channel (known_at result.0.place) }
    ensures shown { IfSome result.1 (λ found. found.0 ≡ shown_of now.0 refresh found.1.writes) }
    ensures seen { IfSome result.1 (λ found. IsPrefix known.now.writes found.1.writes) }
    ensures channel { IfSome result.1 (λ found. found.1.channel ≡ known.now.channel) }
{
    match reader.enter_as::<Taken>() {
        Ok(reading) => {
            let version = reading.get();
            let found = if known.begins(version.receipt()) {
                Some((version.shown(now, refresh), version.receipt().copy()))
            } else {
                None
            };
            (reading.leave(), found)
        }
        Err(reader) => (reader, None),
    }
}
