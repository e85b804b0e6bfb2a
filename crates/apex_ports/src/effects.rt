//! What an accepted row does to the state.
ghost use Rattle.std.specs.Prelude.{◌≡◌, ◌<◌, ◌≤◌, length};
ghost use Rattle.apex_types.specs.declared.call.Call.TheVariants as call;
ghost use Rattle.apex_types.specs.declared.reply.Reply.TheVariants.{Code, Id};
ghost use Rattle.apex_types.specs.declared.return_code.ReturnCode.TheVariants.{NoError};
ghost use Rattle.apex_ports.specs.declared.rows.Row.TheVariants as row;
ghost use Rattle.apex_ports.specs.History.{entry_of};
ghost use Rattle.apex_ports.specs.Kept.{IsCurrent, IsKeptWith};
ghost use Rattle.apex_ports.specs.Noted.{call_by};
ghost use Rattle.apex_ports.specs.ReplyTable.{row_of, oldest_reply, last_reply};
ghost use Rattle.apex_ports.specs.Seen.{seen};

use crate::noted::CallRef;
use crate::partition::PortState;
use crate::state::State;
use crate::table::lookup::configured_port;
use apex_module::Config;
use apex_types::{Mode, Moment, Validity};
use std::alloc::Allocator;

/// The state of a port that was created and has not read yet.
const CREATED: PortState = PortState {
    created: true,
    last: Validity::Invalid,
};

impl<A: Allocator> State<A> {
    /// Creates the port of the identifier.
    pub(crate) fn create(
        &mut self,
        config: &Config,
        partition: usize,
        at: Moment,
        call: CallRef<'_>,
        id: u32,
    )
        requires partition { partition < length config.now.partitions }
        requires current { IsCurrent config.now self.old }
        requires row { let here = seen config.now self.old.history partition in
            row_of config.now here partition at (call_by call) ≡ row.Created id }
        ensures kept { let entry = entry_of partition at (call_by call.entry) (Id id) in
            IsKeptWith config.now self.old entry self.new }
        ensures history { self.new.history ≡ self.old.history }
    {
        self.partitions[partition].set_port(id, CREATED);
    }

    /// Appends the message of a send.
    #[inline(always)]
    pub(crate) fn send(
        &mut self,
        config: &Config,
        partition: usize,
        at: Moment,
        id: u32,
        message: &[u8],
    )
        requires partition { partition < length config.now.partitions }
        requires current { IsCurrent config.now self.old }
        requires row { let here = seen config.now self.old.history partition in
            row_of config.now here partition at (call.SendQueuing id message.now) ≡ row.Sent }
        ensures kept { let asked = call.SendQueuing id message.now in
            let entry = entry_of partition at asked (Code NoError) in
            IsKeptWith config.now self.old entry self.new }
        ensures history { self.new.history ≡ self.old.history }
    {
        let Some(port) = configured_port(config, partition, id) else {
            unreachable!();
        };
        self.channels[port.channel].send(message);
    }

    /// Removes the oldest message, which is received.
    pub(crate) fn receive(&mut self, config: &Config, partition: usize, at: Moment, id: u32)
        requires partition { partition < length config.now.partitions }
        requires current { IsCurrent config.now self.old }
        requires row { let here = seen config.now self.old.history partition in
            row_of config.now here partition at (call.ReceiveQueuing id) ≡ row.OldestReceived id }
        ensures kept { let here = seen config.now self.old.history partition in
            let received = oldest_reply (here.waiting id) in
            let entry = entry_of partition at (call.ReceiveQueuing id) received in
            IsKeptWith config.now self.old entry self.new }
        ensures history { self.new.history ≡ self.old.history }
    {
        let Some(port) = configured_port(config, partition, id) else {
            unreachable!();
        };
        self.channels[port.channel].receive();
    }

    /// Discards the messages that wait.
    pub(crate) fn clear(&mut self, config: &Config, partition: usize, at: Moment, id: u32)
        requires partition { partition < length config.now.partitions }
        requires current { IsCurrent config.now self.old }
        requires row { let here = seen config.now self.old.history partition in
            row_of config.now here partition at (call.ClearQueuing id) ≡ row.Cleared }
        ensures kept { let entry = entry_of partition at (call.ClearQueuing id) (Code NoError) in
            IsKeptWith config.now self.old entry self.new }
        ensures history { self.new.history ≡ self.old.history }
    {
        let Some(port) = configured_port(config, partition, id) else {
            unreachable!();
        };
        self.channels[port.channel].clear();
    }

    /// Replaces the sample with the message of a write.
    #[inline(always)]
    pub(crate) fn write(
        &mut self,
        config: &Config,
        partition: usize,
        at: Moment,
        id: u32,
        message: &[u8],
    )
        requires partition { partition < length config.now.partitions }
        requires current { IsCurrent config.now self.old }
        requires row { let here = seen config.now self.old.history partition in
            row_of config.now here partition at (call.WriteSampling id message.now) ≡ row.Written }
        ensures kept { let asked = call.WriteSampling id message.now in
            let entry = entry_of partition at asked (Code NoError) in
            IsKeptWith config.now self.old entry self.new }
        ensures history { self.new.history ≡ self.old.history }
    {
        let Some(port) = configured_port(config, partition, id) else {
            unreachable!();
        };
        self.channels[port.channel].write(message, at);
    }

    /// Notes the validity that a read showed.
    pub(crate) fn read(
        &mut self,
        config: &Config,
        partition: usize,
        at: Moment,
        id: u32,
        validity: Validity,
    )
        requires partition { partition < length config.now.partitions }
        requires current { IsCurrent config.now self.old }
        requires row { let here = seen config.now self.old.history partition in
            row_of config.now here partition at (call.ReadSampling id)
            ≡ row.LastRead id validity }
        ensures kept { let here = seen config.now self.old.history partition in
            let shown = last_reply validity (here.sample id) in
            let entry = entry_of partition at (call.ReadSampling id) shown in
            IsKeptWith config.now self.old entry self.new }
        ensures history { self.new.history ≡ self.old.history }
    {
        let read = PortState {
            created: true,
            last: validity,
        };
        self.partitions[partition].set_port(id, read);
    }

    /// Changes the mode.
    pub(crate) fn change_mode(&mut self, config: &Config, partition: usize, at: Moment, number: u32)
        requires partition { partition < length config.now.partitions }
        requires current { IsCurrent config.now self.old }
        requires row { let here = seen config.now self.old.history partition in
            row_of config.now here partition at (call.SetMode number) ≡ row.ModeSet }
        ensures kept { let entry = entry_of partition at (call.SetMode number) (Code NoError) in
            IsKeptWith config.now self.old entry self.new }
        ensures history { self.new.history ≡ self.old.history }
    {
        let Some(mode) = Mode::from_number(number) else {
            unreachable!();
        };
        self.partitions[partition].set_mode(mode);
    }
}
