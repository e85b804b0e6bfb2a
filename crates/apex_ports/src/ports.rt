//! The ports of a module.
ghost use Rattle.std.specs.Prelude.{◌≡◌, ◌<◌, ◌≤◌, ◌∷◌, ◌++◌, [], length, true, IfOk};

use crate::initial_state::new_counts;
use crate::noted::{CallRef, ReplyRef};
use crate::state::State;
use apex_module::Config;
use apex_types::{Call, MESSAGE_LIMIT, Moment, OutOfMemory, Reply};
use std::alloc::{Allocator, Global};
use std::marker::Model;

mod readers;
pub mod saved;
mod services;

/// The ports of a module. They answer the calls of all partitions, and keep only what later calls need and the number of
/// calls. `new` allocates all their memory.
///
/// A contract sees their configuration and the history of all calls with their replies, which no program stores. The
/// history is lawful, and whatever the ports show follows from it.
#[derive(Drop)]
pub struct Ports<A: Allocator = Global> {
    config: Config,
    state: State<A>,
    calls: Vec<u64, A>,
}

impl<A: Allocator> Model for Ports<A> {
    ghost use Rattle.apex_ports.specs.PortsView.{PortsView};

    ghost Value = { PortsView };

    ghost use Rattle.apex_ports.specs.Kept.{IsPortsKept};

    ghost view = { λ ports. record { config = ports.config; history = ports.state.history } };

    ghost invariant = { λ ports. IsPortsKept ports.config ports.state ports.calls };
}

impl<A: Allocator + Copy> Ports<A> {
    ghost use Rattle.apex_ports.specs.Sound.{IsSound};

    /// The ports before the first call, with every partition in COLD_START. If memory runs out, the configuration is
    /// dropped.
    pub fn new(alloc: A, config: Config) -> Result<Ports<A>, OutOfMemory>
        ensures config { IfOk result (λ ports. ports.config ≡ config) }
        ensures history { IfOk result (λ ports. ports.history ≡ []) }
        ensures sound { IfOk result (λ ports. IsSound ports.config ports.history) }
    {
        let state = State::new(alloc, &config)?;
        let calls = new_counts(alloc, config.partitions())?;
        Ok(Ports {
            config,
            state,
            calls,
        })
    }
}

impl<A: Allocator> Ports<A> {
    ghost use Rattle.apex_ports.specs.History.{entry_of};
    ghost use Rattle.apex_ports.specs.Noted.{call_by, reply_by};
    ghost use Rattle.apex_ports.specs.ReplyTable.{reply_to};
    ghost use Rattle.apex_ports.specs.Services.{is_plain, message_length};
    ghost use Rattle.apex_ports.specs.Sound.{IsSound};

    /// Makes one call of the partition at the moment. It always answers, and doesn't allocate.
    pub fn call(&mut self, partition: usize, at: Moment, call: &Call) -> Reply
        requires { partition < length self.old.config.partitions }

        // The reply is the reply table's, and the history gains exactly this entry.
        ensures reply { result ≡ reply_to self.old.config self.old.history partition at call.now }
        ensures entry { self.new.history ≡ self.old.history
            ++ entry_of partition at call.now result ∷ [] }
        ensures config { self.new.config ≡ self.old.config }
        ensures sound { IsSound self.new.config self.new.history }
    {
        let mut buffer = [0; MESSAGE_LIMIT];
        let reply = self.answer(partition, at, CallRef::of(call), &mut buffer);
        reply.to_reply()
    }

    /// Makes the call as `call` does. The message of the reply is in the buffer.
    pub fn answer<'a>(
        &mut self,
        partition: usize,
        at: Moment,
        call: CallRef<'_>,
        buffer: &'a mut [u8],
    ) -> ReplyRef<'a>
        requires partition { partition < length self.old.config.partitions }
        requires room { MESSAGE_LIMIT ≤ length buffer.old }
        ensures reply { reply_by result
            ≡ reply_to self.old.config self.old.history partition at (call_by call.entry) }
        ensures short { message_length (reply_by result) ≤ MESSAGE_LIMIT }
        ensures entry { self.new.history ≡ self.old.history
            ++ entry_of partition at (call_by call.entry) (reply_by result) ∷ [] }
        ensures config { self.new.config ≡ self.old.config }
        ensures sound { IsSound self.new.config self.new.history }
    {
        let reply = self.state.answer(&self.config, partition, at, call, buffer);
        self.state
            .note(&self.config, &mut self.calls, partition, at, call, reply);
        reply
    }

    /// Makes a call whose reply has no message, as `answer` does. It needs no buffer.
    #[inline(always)]
    pub fn answer_plain(
        &mut self,
        partition: usize,
        at: Moment,
        call: CallRef<'_>,
    ) -> ReplyRef<'static>
        requires partition { partition < length self.old.config.partitions }
        requires plain { is_plain (call_by call) ≡ true }
        ensures reply { reply_by result
            ≡ reply_to self.old.config self.old.history partition at (call_by call.entry) }
        ensures entry { self.new.history ≡ self.old.history
            ++ entry_of partition at (call_by call.entry) (reply_by result) ∷ [] }
        ensures config { self.new.config ≡ self.old.config }
        ensures sound { IsSound self.new.config self.new.history }
    {
        let reply = self.state.answer_plain(&self.config, partition, at, call);
        self.state
            .note(&self.config, &mut self.calls, partition, at, call, reply);
        reply
    }
}
