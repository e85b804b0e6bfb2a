//! Publishers.
ghost use Rattle.std.specs.Prelude.{◌≡◌, ◌<◌, ◌^◌, [], drop, Some, IfOk, MatchResult};
ghost use Rattle.left_right.specs.Sides.{view as known_by};
ghost use Rattle.apex_observers.specs.Published.{with_write};
ghost use Rattle.apex_observers.specs.declared.publisher.ObserverFault.TheVariants as fault;

use crate::history::Count;
use crate::observer::Observer;
use crate::receipt::Receipt;
use crate::rule::{OneChannel, PassedOn, Taken};
use crate::version::Version;
use apex_types::{Message, Moment, OutOfMemory, Sample};
use core::mem::replace_with;
use left_right::writer::Writer;
use std::alloc::{AllocFailed, Allocator, Global};
use std::marker::Model;
use std::sync::Wait;
use thiserror::Error;

/// No observer could be made.
#[derive(Clone, Copy, Debug, PartialEq, Eq, Error)]
#[error("no place for an observer")]
pub struct NoPlace;

/// Why no observers could be made.
#[derive(Clone, Copy, Debug, PartialEq, Eq, Error)]
pub enum ObserverFault {
    #[error("out of memory")]
    OutOfMemory,
    #[error("no place for an observer")]
    NoPlace,
}

impl From<NoPlace> for ObserverFault {
    ghost from_gives = { λ _ given. given ≡ fault.NoPlace };

    fn from(_full: NoPlace) -> ObserverFault {
        ObserverFault::NoPlace
    }
}

impl<T: Drop> From<AllocFailed<T>> for ObserverFault {
    ghost from_gives = { λ _ given. given ≡ fault.OutOfMemory };

    fn from(_refused: AllocFailed<T>) -> ObserverFault {
        ObserverFault::OutOfMemory
    }
}

type ChannelWriter<A> = Writer<Version, Version, Option<Receipt>, OneChannel, A>;

/// Publishes what is written on one sampling channel. A contract sees it as the list of published writes.
///
/// It is not `Drop`: end it with `close`.
pub struct Publisher<A: Allocator = Global> {
    writer: ChannelWriter<A>,
    count: Count,
    receipt: Receipt,
}

impl<A: Allocator> Model for Publisher<A> {
    ghost use Rattle.std.specs.Prelude.{◌≡◌, [], drop, Some};
    ghost use Rattle.left_right.specs.Sides.{view as known_by};
    ghost use Rattle.apex_observers.specs.History.{count_of};
    ghost use Rattle.apex_observers.specs.Published.{Published};

    ghost Value = { Published };

    ghost view = { λ publisher. publisher.receipt };

    ghost invariant = { λ publisher. (publisher.count ≡ count_of publisher.receipt.channel)
        × (publisher.writer.desk.shown.value ≡ publisher.receipt)
        × (drop publisher.writer.behind publisher.writer.log.items ≡ [])
        × (known_by publisher.writer.desk.place ≡ Some publisher.receipt) };
}

/// Shows observers this version instead of the one that they see. It waits for reads in progress.
fn show<A: Allocator, R: Wait>(
    rt: &R,
    mut writer: ChannelWriter<A>,
    version: Version,
) -> (ChannelWriter<A>, Result<(), OutOfMemory>)
    requires nothing_pending { drop writer.behind writer.log.items ≡ [] }
    requires channel { version.channel ≡ writer.desk.shown.value.channel }
    ensures shown { MatchResult result.1
        (λ _. (result.0.desk.shown.value ≡ version)
        × (known_by result.0.desk.place ≡ Some version))
        (λ _. result.0.desk ≡ writer.desk) }
    ensures nothing_pending { drop result.0.behind result.0.log.items ≡ [] }
{
    match writer.append(version) {
        Ok(()) => {
            let (writer, published) = writer.publish_as::<Taken, R>(rt);
            published.unwrap();
            (writer, Ok(()))
        }
        Err(_refused) => (writer, Err(OutOfMemory)),
    }
}

/// The version before the first write, shown twice so that later publications have all that they need.
fn show_empty<A: Allocator, R: Wait>(
    rt: &R,
    writer: ChannelWriter<A>,
    receipt: &Receipt,
) -> (ChannelWriter<A>, Result<(), OutOfMemory>)
    requires empty { receipt.now.writes ≡ [] }
    requires nothing_pending { drop writer.behind writer.log.items ≡ [] }
    requires channel { receipt.now.channel ≡ writer.desk.shown.value.channel }
    ensures shown { IfOk result.1 (λ _. (result.0.desk.shown.value ≡ receipt.now)
        × (known_by result.0.desk.place ≡ Some receipt.now)) }
    ensures nothing_pending { drop result.0.behind result.0.log.items ≡ [] }
{
    let (writer, shown) = show(rt, writer, Version::empty(receipt.copy()));
    match shown {
        Ok(()) => show(rt, writer, Version::empty(receipt.copy())),
        Err(refused) => (writer, Err(refused)),
    }
}

impl<A: Allocator> Publisher<A> {
    /// A channel with no writes, with room for this many observers at a time.
    pub fn new<R: Wait>(rt: &R, alloc: A, observers: usize) -> Result<Publisher<A>, OutOfMemory>
    where
        A: Clone,
        requires observers { (0 < observers) × (observers < 2 ^ 32) }
        ensures { IfOk result (λ publisher. publisher.writes ≡ []) }
    {
        let (count, receipt) = Receipt::open();
        let first = Version::empty(receipt.copy());
        let second = Version::empty(receipt.copy());
        let writer = Writer::new(alloc, first, second, observers)?;
        let (writer, shown) = show_empty(rt, writer, &receipt);
        match shown {
            Ok(()) => Ok(Publisher {
                writer,
                count,
                receipt,
            }),
            Err(refused) => {
                drop(writer.take(rt));
                Err(refused)
            }
        }
    }

    /// Publishes a write. It waits for reads in progress. If memory runs out, nothing is published.
    ///
    /// `new` allocated all memory that a publication needs. If a publication were refused all the same, the channel
    /// would refuse all later ones.
    pub fn publish<R: Wait>(
        &mut self,
        rt: &R,
        message: &Message,
        at: Moment,
    ) -> Result<(), OutOfMemory>
        ensures writes { MatchResult result
            (λ _. self.new ≡ with_write self.old (record { message = message.now; at = at }))
            (λ _. self.new ≡ self.old) }
        ensures channel { self.new.channel ≡ self.old.channel }
    {
        let sample = Sample {
            message: message.copy(),
            at,
        };
        let next = self
            .receipt
            .followed_by(&self.count, &sample)
            .ok_or(OutOfMemory)?;
        let version = Version::new(sample, next.copy());
        replace_with(&mut self.writer, (rt, version), |writer, (rt, version)| {
            show(rt, writer, version)
        })?;
        self.receipt = next;
        Ok(())
    }

    /// A token for all writes published so far.
    pub fn receipt(&self) -> Receipt
        ensures { result ≡ self.now }
    {
        self.receipt.copy()
    }

    /// A new observer, which knows the writes so far. No contract says when there is no room.
    pub fn observer(&mut self) -> Result<Observer<A>, NoPlace>
        ensures observer { IfOk result (λ observer. observer ≡ self.old) }
        ensures unchanged { self.new ≡ self.old }
    {
        let mut reader = self.writer.factory().reader().map_err(|_full| NoPlace)?;
        reader.learn::<PassedOn>(self.writer.tell::<PassedOn>());
        Ok(Observer::new(reader, self.receipt.copy()))
    }

    /// Ends the channel: observers show `Gone` from now on. It waits for reads in progress.
    pub fn close<R: Wait>(self, rt: &R) {
        let Publisher {
            writer,
            count: _,
            receipt: _,
        } = self;
        drop(writer.take(rt));
    }
}
