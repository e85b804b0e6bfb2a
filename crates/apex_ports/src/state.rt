//! The state of the ports of a module, which follows from the calls so far.
ghost use Rattle.std.specs.Prelude.{◌≡◌, ◌<◌, ◌∷◌, ◌++◌, [], length};
ghost use Rattle.apex_ports.specs.History.{entry_of};
ghost use Rattle.apex_ports.specs.Kept.{AreCounted, IsKeptWith, IsPortsKept};
ghost use Rattle.apex_ports.specs.Noted.{call_by, reply_by};
ghost use Rattle.apex_ports.specs.ReplyTable.{reply_to};
ghost use Rattle.apex_ports.specs.Sound.{IsSound};

use crate::channel::ChannelState;
use crate::ghost_history::GhostHistory;
use crate::noted::{CallRef, ReplyRef};
use crate::partition::PartitionState;
use apex_module::Config;
use apex_types::Moment;
use std::alloc::Allocator;

/// A state for each partition and each channel, and the history from which they follow.
#[derive(Drop)]
pub(crate) struct State<A: Allocator> {
    pub(crate) history: GhostHistory,
    pub(crate) partitions: Vec<PartitionState<A>, A>,
    pub(crate) channels: Vec<ChannelState<A>, A>,
}

impl<A: Allocator> State<A> {
    /// Counts a call for its partition, and adds it with its reply to the history, once the state is what follows from that.
    #[inline(always)]
    pub(crate) fn note(
        &mut self,
        config: &Config,
        calls: &mut Vec<u64, A>,
        partition: usize,
        at: Moment,
        call: CallRef<'_>,
        reply: ReplyRef<'_>,
    )
        requires partition { partition < length config.now.partitions }
        requires sound { IsSound config.now self.old.history }
        requires counted { AreCounted config.now self.old.history calls.old.items }
        requires reply { reply_by reply
            ≡ reply_to config.now self.old.history partition at (call_by call) }
        requires kept { let entry = entry_of partition at (call_by call) (reply_by reply) in
            IsKeptWith config.now self.old entry self.old }
        ensures history { let entry =
            entry_of partition at (call_by call.entry) (reply_by reply.entry) in
            self.new.history ≡ self.old.history ++ entry ∷ [] }
        ensures kept { IsPortsKept config.now self.new calls.new }
    {
        calls[partition] = calls[partition].saturating_add(1);
        self.history.push(partition, at, call, reply);
    }
}
