//! What the workers of a run share, behind a lock.
ghost use Rattle.std.specs.Prelude.{◌≡◌, ◌↔◌, ◌≤◌, ◌∷◌, ◌++◌, [], length, IfOk, IfErr, IsErrOf, OnErr, OnOk};
ghost use Rattle.apex_ports.specs.History.{entry_of};
ghost use Rattle.apex_ports.specs.Noted.{call_by};
ghost use Rattle.apex_ports.specs.ReplyTable.{reply_to};
ghost use Rattle.apex_runs.specs.Run.{IsPortsFault};
ghost use Rattle.apex_ports.specs.Services.{length_sent};

use crate::observers::compare;
use apex_module::Config;
use apex_observers::{Observer, Publishers};
use apex_ports::{CallRef, Ports, RunFault};
use apex_texts::Fault;
use apex_threads::{AskFault, SharedBoard, fault_without, new_publishers, publish_by};
use apex_types::{Call, MESSAGE_LIMIT, Moment, Reply};
use std::alloc::Allocator;
use std::marker::Model;
use std::mem;
use std::sync::{Mutex, MutexGuard, Wait};

/// The ports of a run, what is published on their sampling channels, an observer of each, which partition made each call, in
/// the order of the calls, and the place for a reply's message.
///
/// It is not `Drop`: end it with `close`.
pub(crate) struct RunPorts<A: Allocator> {
    ports: Ports<A>,
    publishers: Publishers<A>,
    observers: Vec<Observer<A>, A>,
    order: Vec<u8, A>,
    buffer: [u8; MESSAGE_LIMIT],
}

impl<A: Allocator> Model for RunPorts<A> {
    ghost use Rattle.apex_runs.specs.RunPortsView.{RunPortsView, IsObserved};

    ghost Value = { RunPortsView };

    ghost view = { λ run. record {
      config = run.ports.config;
      history = run.ports.history;
      published = run.publishers;
      observers = run.observers.items;
    } };

    ghost invariant = { λ run. IsObserved (record {
      config = run.ports.config;
      history = run.ports.history;
      published = run.publishers;
      observers = run.observers.items;
    }) };
}

impl<A: Allocator + Copy> RunPorts<A> {
    /// New ports, with observers that have seen nothing, and room for the order of this many calls.
    pub(crate) fn new<R: Wait>(
        rt: &R,
        alloc: A,
        config: &Config,
        calls: usize,
    ) -> Result<RunPorts<A>, RunFault>
        ensures config { IfOk result (λ run. run.config ≡ config.now) }
        ensures history { IfOk result (λ run. run.history ≡ []) }
        ensures fault { IfErr result IsPortsFault }
    {
        let order = Vec::with_capacity(alloc, calls)?;
        let ports = Ports::new(alloc, config.copy()?)?;
        let mut publishers = new_publishers(rt, alloc, ports.config())?;
        match publishers.observers(alloc) {
            Ok(observers) => Ok(RunPorts {
                ports,
                publishers,
                observers,
                order,
                buffer: [0; MESSAGE_LIMIT],
            }),
            Err(fault) => {
                publishers.close(rt);
                Err(fault_without(fault))
            }
        }
    }
}

impl<A: Allocator> RunPorts<A> {
    ghost use Rattle.apex_runs.specs.Observers.{ShowSamples, IsReadFault};

    /// Takes out which partition made each call, in the order of the calls. No contract says what it contains.
    pub(crate) fn take_order(&mut self, alloc: A) -> Vec<u8, A>
        ensures { self.new ≡ self.old }
    {
        mem::replace(&mut self.order, Vec::new(alloc))
    }

    /// Lets each observer learn the last receipt of its channel, and compares what it shows with the sample that the
    /// channel has in other ports.
    pub(crate) fn compare<B: Allocator>(&mut self, ports: &Ports<B>) -> Result<(), Fault>
        ensures config { self.new.config ≡ self.old.config }
        ensures published { self.new.published ≡ self.old.published }
        ensures shown { IfOk result (λ _.
            ShowSamples ports.now.config ports.now.history self.new.observers) }
        ensures fault { IfErr result IsReadFault }
    {
        self.publishers.tell(self.observers.as_mut_slice());
        compare(ports, self.observers.as_mut_slice())
    }

    /// Answers one call of a partition, with its reply in `reply`. A refusal changes only `reply`.
    fn ask_into<R: Wait>(
        &mut self,
        rt: &R,
        partition: usize,
        at: Moment,
        call: CallRef<'_>,
        reply: &mut Reply,
    ) -> Result<(), AskFault>
        requires { length_sent (call_by call) ≤ MESSAGE_LIMIT }
        // The reply is the reply table's, and the history gains exactly this entry.
        ensures reply { OnOk result
            (reply.new
            ≡ reply_to self.old.config self.old.history partition at (call_by call.entry)) }
        ensures entry { OnOk result (self.new.history
            ≡ self.old.history ++ entry_of partition at (call_by call.entry) reply.new ∷ []) }
        ensures config { self.new.config ≡ self.old.config }
        ensures partition { IsErrOf result AskFault.NoPartition
            ↔ (length self.old.config.partitions ≤ partition) }
        ensures refused { OnErr result (self.new ≡ self.old) }
    {
        if partition >= self.ports.config().partitions() {
            return Err(AskFault::NoPartition);
        }
        if self.order.reserve(1).is_err() {
            return Err(AskFault::OutOfMemory);
        }
        match publish_by(rt, &mut self.publishers, &self.ports, partition, at, call) {
            Ok(()) => {
                self.order.push_reserved(partition as u8);
                let lent = self.ports.answer(partition, at, call, &mut self.buffer);
                lent.copy_to(reply);
                Ok(())
            }
            Err(_refused) => Err(AskFault::OutOfMemory),
        }
    }

    /// Ends the observers' channels. It waits for reads in progress.
    pub(crate) fn close<R: Wait>(self, rt: &R) {
        let RunPorts {
            ports: _,
            publishers,
            observers: _,
            order: _,
            buffer: _,
        } = self;
        publishers.close(rt);
    }
}

/// The ports of a run, which one thread at a time holds.
pub(crate) struct SharedPorts<A: Allocator> {
    ports: Mutex<RunPorts<A>>,
}

impl<A: Allocator> SharedPorts<A> {
    /// The ports behind a free lock.
    pub(crate) fn new(ports: RunPorts<A>) -> SharedPorts<A> {
        SharedPorts {
            ports: Mutex::new(ports),
        }
    }

    /// Returns the ports. No contract says which calls they have answered by then.
    pub(crate) fn into_ports(self) -> RunPorts<A> {
        let SharedPorts { ports } = self;
        ports.into_inner()
    }
}

impl<A: Allocator + Send + Sync> SharedBoard for SharedPorts<A> {
    fn ask<R: Wait>(
        &self,
        rt: &R,
        partition: usize,
        at: Moment,
        call: &Call,
    ) -> Result<Reply, AskFault> {
        let mut reply = Reply::NotMade;
        self.ask_into(rt, partition, at, CallRef::of(call), &mut reply)?;
        Ok(reply)
    }

    /// Holds the lock only for this call.
    fn ask_into<R: Wait>(
        &self,
        rt: &R,
        partition: usize,
        at: Moment,
        call: CallRef<'_>,
        reply: &mut Reply,
    ) -> Result<(), AskFault> {
        let mut guard = self.ports.lock(rt);
        let answer = guard.ask_into(rt, partition, at, call, reply);
        MutexGuard::unlock(guard);
        answer
    }
}
