//! The board: its public interface.
ghost use Rattle.std.specs.Prelude.{◌≡◌, ◌+◌, ◌<◌, ◌≤◌, ◌∷◌, ◌++◌, [], true, false, length, Some, slice_get, IfOk, OnOk, OnErr, IsOk};

use crate::asked::asked_port;
use crate::records::Records;
use crate::samples::{new_samples, put_sample};
use apex_module::Config;
use apex_observers::{Observer, ObserverFault, Publishers, Receipt};
use apex_ports::{Entry, Ports};
use apex_threads::{new_publishers, publish};
use apex_types::{Call, Moment, OutOfMemory, Reply, Sample};
use std::alloc::{Allocator, Global};
use std::marker::Model;
use std::sync::Wait;

mod readers;

/// The board of a module: it answers the calls of all partitions and keeps their log.
///
/// A contract sees its configuration, its log, what is published on its channels, and its room. The log is lawful, and
/// whatever the board shows or publishes follows from the log.
///
/// It is not `Drop`: end it with `close`.
pub struct Board<A: Allocator = Global> {
    ports: Ports<A>,
    records: Records<A>,
    samples: Vec<Option<Sample>, A>,
    publishers: Publishers<A>,
}

impl<A: Allocator> Model for Board<A> {
    ghost use Rattle.apex_board.specs.BoardView.{BoardView};

    ghost Value = { BoardView };

    ghost use Rattle.apex_board.specs.Recorded.{IsBoard};
    ghost use Rattle.apex_board.specs.Room.{room_of, spare};

    ghost view = { λ board. record {
      config = board.ports.config;
      log = board.records.log.items;
      published = board.publishers;
      room = room_of board.records;
      log_room = spare board.records.log;
    } };

    ghost invariant = { λ board. IsBoard board.ports board.records
        board.samples.items board.publishers };
}

impl<A: Allocator + Copy> Board<A> {
    ghost use Rattle.apex_board.specs.Prelude.{ArePublished, AreObservers, sampling_of};

    /// A board with the empty log and every partition in COLD_START. If memory runs out, the configuration is dropped.
    pub fn new<R: Wait>(rt: &R, alloc: A, config: Config) -> Result<Board<A>, OutOfMemory>
        ensures config { IfOk result (λ board. board.config ≡ config) }
        ensures log { IfOk result (λ board. board.log ≡ []) }
    {
        let records = Records::new(alloc, &config)?;
        let samples = new_samples(alloc, &config)?;
        let ports = Ports::new(alloc, config)?;
        let publishers = new_publishers(rt, alloc, ports.config())?;
        Ok(Board {
            ports,
            records,
            samples,
            publishers,
        })
    }

    /// A board as `new` gives it, and an observer of each of its sampling channels, in the channels' order. On a fault
    /// the configuration is dropped.
    pub fn with_observers<R: Wait>(
        rt: &R,
        alloc: A,
        config: Config,
    ) -> Result<(Board<A>, Vec<Observer<A>, A>), ObserverFault>
        ensures config { IfOk result (λ made. made.0.config ≡ config) }
        ensures log { IfOk result (λ made. made.0.log ≡ []) }
        ensures observers { IfOk result (λ made. made.1.items ≡ sampling_of made.0.published) }
        ensures each { IfOk result (λ made. AreObservers made.0.published made.1.items) }
        ensures published { IfOk result (λ made. ArePublished config [] made.0.published) }
    {
        let Ok(mut board) = Board::new(rt, alloc, config) else {
            return Err(ObserverFault::OutOfMemory);
        };
        match board.publishers.observers(alloc) {
            Ok(observers) => Ok((board, observers)),
            Err(fault) => {
                board.close(rt);
                Err(fault)
            }
        }
    }
}

impl<A: Allocator> Board<A> {
    ghost use Rattle.apex_board.specs.Prelude.{ArePublished, AreObservers, KnowAll, books_of, sampling_of, writes_on, entry_of, StaysIdle, SameChannels, is_send, is_code_no_error, IsLawful, is_queuing, reply_to, WritesNothing};
    ghost use Rattle.apex_ports.specs.OneChannel.{ChangesOneChannel};

    /// Makes room for this many more calls. Whether it succeeds or not, nothing else that a reader shows changes.
    pub fn reserve(&mut self, calls: usize) -> Result<(), OutOfMemory>
        ensures room { OnOk result (calls ≤ self.new.room) }
        ensures succeeds { calls ≤ self.old.room → IsOk result }
        ensures grows { self.old.room ≤ self.new.room }
        ensures log_grows { self.old.log_room ≤ self.new.log_room }
        ensures config { self.new.config ≡ self.old.config }
        ensures log { self.new.log ≡ self.old.log }
        ensures published { self.new.published ≡ self.old.published }
    {
        self.records.reserve(self.ports.config(), calls)?;
        Ok(())
    }

    /// Makes room for the entries of this many more calls.
    pub(crate) fn reserve_log(&mut self, calls: usize) -> Result<(), OutOfMemory>
        ensures grows { self.old.room ≤ self.new.room }
        ensures config { self.new.config ≡ self.old.config }
        ensures log { self.new.log ≡ self.old.log }
        ensures lawful { IsLawful self.new.config self.new.log }
        ensures published { self.new.published ≡ self.old.published }
    {
        self.records.log.reserve(calls)?;
        Ok(())
    }

    /// Makes one call of the partition at the moment. What it writes is published before the board changes.
    ///
    /// If memory runs out, nothing changes but the room, which doesn't shrink: the next call is answered as if this one
    /// had not been made.
    pub fn call<R: Wait>(
        &mut self,
        rt: &R,
        partition: usize,
        at: Moment,
        call: &Call,
    ) -> Result<Reply, OutOfMemory>
        requires { partition < length self.old.config.partitions }

        // The reply is the reply table's, and the log gains exactly this entry.
        ensures reply { IfOk result
            (λ reply. reply ≡ reply_to self.old.config self.old.log partition at call.now) }
        ensures entry { IfOk result (λ reply.
            self.new.log ≡ self.old.log ++ entry_of partition at call.now reply ∷ []) }
        ensures config { self.new.config ≡ self.old.config }

        // Success or not, the same channels are published.
        ensures channels { books_of self.new.published ≡ books_of self.old.published }

        // If memory runs out, nothing changes but the room. If there is room, memory can run out only for a write that
        // is to be published. A call that isn't a send needs only room in the log.
        ensures refused { OnErr result (self.new.log ≡ self.old.log) }
        ensures refused_published { OnErr result (self.new.published ≡ self.old.published) }
        ensures refused_room { OnErr result (self.old.room ≤ self.new.room) }
        ensures refused_log_room { OnErr result (self.old.log_room ≤ self.new.log_room) }
        ensures room { OnOk result (self.old.room ≤ self.new.room + 1) }
        ensures log_room { OnOk result (self.old.log_room ≤ self.new.log_room + 1) }
        ensures succeeds { WritesNothing self.old.config self.old.log partition call.now →
            1 ≤ self.old.room → IsOk result }
        ensures answers { WritesNothing self.old.config self.old.log partition call.now →
            is_send call.now ≡ false → 1 ≤ self.old.log_room → IsOk result }

        ensures lawful { IsLawful self.new.config self.new.log }

        // At most one channel changes, none by a refused send, and a partition in IDLE stays there and sends nothing.
        ensures one_channel { ChangesOneChannel self.old.config self.old.log self.new.log }
        ensures refused_send { IfOk result
            (λ reply. is_send call.now ≡ true → is_code_no_error reply ≡ false →
            SameChannels self.old.config self.old.log self.new.log) }
        ensures idle { StaysIdle self.old.config self.old.log self.new.log }
    {
        let port = asked_port(self.ports.config(), partition, call);
        self.records.make_room(self.ports.config(), port, call)?;
        publish(rt, &mut self.publishers, &self.ports, partition, at, call)?;
        put_sample(
            self.samples.as_mut_slice(),
            &self.ports,
            partition,
            at,
            call,
        );
        let reply = self.ports.call(partition, at, call);
        let entry = Entry {
            partition,
            at,
            call: call.copy(),
            reply: reply.copy(),
        };
        self.records.push(self.ports.config(), port, entry);
        Ok(reply)
    }

    /// A token for all writes published on sampling channel `c` so far.
    pub fn receipt(&self, c: usize) -> Receipt
        requires channel { c < length self.now.config.channels }
        requires sampling { is_queuing self.now.config c ≡ false }
        ensures published { slice_get self.now.published c ≡ Some (Some result) }
        ensures writes { result.writes ≡ writes_on self.now.config c self.now.log }
    {
        self.publishers.receipt(c)
    }

    /// Each observer learns the receipt of its channel: from now on it shows no earlier state.
    pub fn tell(&self, observers: &mut [Observer<A>])
        requires { AreObservers self.now.published observers.old }
        ensures observers { AreObservers self.now.published observers.new }
        ensures learned { KnowAll (sampling_of self.now.published) observers.new }
        ensures published { ArePublished self.now.config self.now.log self.now.published }
    {
        self.publishers.tell(observers);
    }

    /// Ends the board: its observers show `Gone` from now on. It waits for their reads in progress.
    pub fn close<R: Wait>(self, rt: &R) {
        let Board {
            ports: _,
            records: _,
            samples: _,
            publishers,
        } = self;
        publishers.close(rt);
    }
}
