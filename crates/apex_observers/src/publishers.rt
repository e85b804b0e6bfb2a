//! The publishers of a module's sampling channels.
ghost use Rattle.std.specs.Prelude.{◌≡◌, ◌<◌, ◌^◌, ◌∷◌, ◌++◌, [], length, None, Some, slice_get, IfOk, MatchResult, OnErr};
ghost use Rattle.std.specs.Option.{option_to_list};
ghost use Rattle.apex_observers.specs.Channels.{AreObservers, KnowAll, written_on, sampling_of};
ghost use Rattle.apex_observers.specs.Published.{Published};

use crate::observer::Observer;
use crate::publisher::{ObserverFault, Publisher};
use crate::receipt::Receipt;
use apex_types::{Message, Moment, OutOfMemory};
use std::alloc::{Allocator, Global};
use std::marker::Model;
use std::sync::Wait;

/// The publishers of a module's channels: one for each sampling channel, and none for a queuing channel. A contract
/// sees what is published on each.
///
/// It is not `Drop`: end it with `close`.
pub struct Publishers<A: Allocator = Global> {
    list: Vec<Option<Publisher<A>>, A>,
}

impl<A: Allocator> Model for Publishers<A> {
    ghost use Rattle.apex_observers.specs.Channels.{Channels};

    ghost Value = { Channels };

    ghost view = { λ publishers. publishers.list.items };
}

fn end<A: Allocator, R: Wait>(rt: &R, entry: Option<Publisher<A>>) {
    if let Some(publisher) = entry {
        publisher.close(rt);
    }
}

fn observe<A: Allocator>(
    entry: &mut Option<Publisher<A>>,
    observers: &mut Vec<Observer<A>, A>,
) -> Result<(), ObserverFault>
    ensures observer { IfOk result (λ _.
        observers.new.items ≡ observers.old.items ++ option_to_list entry.old) }
    ensures unchanged { entry.new ≡ entry.old }
{
    if let Some(publisher) = entry {
        let observer = publisher.observer()?;
        observers.push(observer)?;
    }
    Ok(())
}

impl<A: Allocator> Publishers<A> {
    /// The publishers of no channels.
    pub fn new(alloc: A) -> Publishers<A>
        ensures { result ≡ [] }
    {
        Publishers {
            list: Vec::new(alloc),
        }
    }

    /// Adds a queuing channel.
    pub fn add_queuing<R: Wait>(&mut self, rt: &R) -> Result<(), OutOfMemory>
        ensures { MatchResult result
            (λ _. self.new ≡ self.old ++ None ∷ [])
            (λ _. self.new ≡ self.old) }
    {
        self.add(rt, None)
    }

    /// Adds a sampling channel without writes, with room for this many observers at a time.
    pub fn add_sampling<R: Wait>(
        &mut self,
        rt: &R,
        alloc: A,
        observers: usize,
    ) -> Result<(), OutOfMemory>
    where
        A: Clone,
        requires observers { (0 < observers) × (observers < 2 ^ 32) }
        ensures { MatchResult result
            (λ _. (published : Published) × (published.writes ≡ [])
            × (self.new ≡ self.old ++ Some published ∷ []))
            (λ _. self.new ≡ self.old) }
    {
        let publisher = Publisher::new(rt, alloc, observers)?;
        self.add(rt, Some(publisher))
    }

    fn add<R: Wait>(&mut self, rt: &R, entry: Option<Publisher<A>>) -> Result<(), OutOfMemory>
        ensures { MatchResult result
            (λ _. self.new ≡ self.old ++ entry ∷ [])
            (λ _. self.new ≡ self.old) }
    {
        match self.list.push(entry) {
            Ok(()) => Ok(()),
            Err(failed) => {
                end(rt, failed.value);
                Err(OutOfMemory)
            }
        }
    }

    /// Publishes a write on a sampling channel. It waits for reads in progress. If memory runs out, nothing is
    /// published.
    pub fn publish<R: Wait>(
        &mut self,
        rt: &R,
        channel: usize,
        message: &Message,
        at: Moment,
    ) -> Result<(), OutOfMemory>
        requires { (published : Published) × (slice_get self.old channel ≡ Some (Some published)) }
        ensures { MatchResult result
            (λ _. self.new
            ≡ written_on channel (record { message = message.now; at = at }) self.old)
            (λ _. self.new ≡ self.old) }
    {
        match &mut self.list[channel] {
            Some(publisher) => publisher.publish(rt, message, at),
            None => unreachable!(),
        }
    }

    /// A token for all writes published on a sampling channel so far.
    pub fn receipt(&self, channel: usize) -> Receipt
        requires { (published : Published) × (slice_get self.now channel ≡ Some (Some published)) }
        ensures { slice_get self.now channel ≡ Some (Some result) }
    {
        match &self.list[channel] {
            Some(publisher) => publisher.receipt(),
            None => unreachable!(),
        }
    }

    /// An observer of each sampling channel, in the channels' order.
    pub fn observers(&mut self, alloc: A) -> Result<Vec<Observer<A>, A>, ObserverFault>
        ensures observers { IfOk result (λ observers. observers.items ≡ sampling_of self.old) }
        ensures each { IfOk result (λ observers. AreObservers self.old observers.items) }
        ensures unchanged { self.new ≡ self.old }
    {
        let mut observers = Vec::new(alloc);
        for channel in 0..self.list.len() {
            observe(&mut self.list[channel], &mut observers)?;
        }
        Ok(observers)
    }

    /// Each observer learns the receipt of its channel: from now on it shows no earlier state.
    pub fn tell(&self, observers: &mut [Observer<A>])
        requires { AreObservers self.now observers.old }
        ensures observers { AreObservers self.now observers.new }
        ensures learned { KnowAll (sampling_of self.now) observers.new }
    {
        let mut index = 0;
        for entry in &self.list {
            if let Some(publisher) = entry {
                observers[index].learn(publisher.receipt());
                index += 1;
            }
        }
    }

    /// Ends all channels. It waits for reads in progress.
    pub fn close<R: Wait>(self, rt: &R) {
        let Publishers { mut list } = self;
        while let Some(entry) = list.pop() {
            end(rt, entry);
        }
        list.destroy_empty();
    }
}
