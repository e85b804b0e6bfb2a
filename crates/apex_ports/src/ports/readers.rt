//! What the ports of a module show.
ghost use Rattle.std.specs.Prelude.{◌≡◌, [], ◌<◌, ◌≤◌, ◌++◌, true, false, length, None, slice_get, IfSome, MatchOption};
ghost use Rattle.std.specs.Option.{option_copied};

use crate::noted::{CallRef, SampleRef};
use crate::ports::Ports;
use crate::rows::Row;
use crate::table::lookup::{configured_port, sampling_port};
use crate::table::row;
use apex_module::Config;
use apex_types::{Call, MESSAGE_LIMIT, Message, Mode, Moment, Validity};
use std::alloc::Allocator;

impl<A: Allocator> Ports<A> {
    ghost use Rattle.apex_ports.specs.Channels.{accepted_on, received_on, cleared_on, waiting_on, last_write_on};
    ghost use Rattle.apex_ports.specs.Counts.{count_of};
    ghost use Rattle.apex_ports.specs.History.{entries_of};
    ghost use Rattle.apex_ports.specs.Modes.{mode_of};
    ghost use Rattle.apex_ports.specs.Noted.{call_by, IsSampleBy};
    ghost use Rattle.apex_ports.specs.Ports.{is_created, is_queuing};
    ghost use Rattle.apex_ports.specs.ReplyTable.{row_of, size_at};
    ghost use Rattle.apex_ports.specs.Rules.{IsConserved};
    ghost use Rattle.apex_ports.specs.Seen.{seen, sampling_port, validity_shown};
    ghost use Rattle.apex_ports.specs.Sound.{IsSound};
    ghost use Rattle.apex_ports.specs.Writes.{Writes, WritesNothing};

    /// The configuration.
    pub fn config(&self) -> &Config
        ensures config { result.now ≡ self.now.config }
        ensures sound { IsSound self.now.config self.now.history }
    {
        &self.config
    }

    /// The mode of partition `p`.
    pub fn mode(&self, p: usize) -> Mode
        requires { p < length self.now.config.partitions }
        ensures { result ≡ mode_of p self.now.history }
    {
        self.state.partitions[p].mode
    }

    /// The maximum length of a message at the port of partition `p` with the identifier, in bytes, whether the port is created
    /// or not; 0 if there is no such port.
    pub fn size_at(&self, p: usize, id: u32) -> usize
        ensures size { result ≡ size_at self.now.config p id }
        ensures short { result ≤ MESSAGE_LIMIT }
    {
        match configured_port(&self.config, p, id) {
            Some(port) => self.config.channel(port.channel).size as usize,
            None => 0,
        }
    }

    /// The number of calls of partition `p`, including those that were not made; at most `u64::MAX`.
    pub fn calls(&self, p: usize) -> u64
        requires { p < length self.now.config.partitions }
        ensures { result ≡ count_of (entries_of p self.now.history) }
    {
        self.calls[p]
    }

    /// The row of the reply table that a call of partition `p` would get at the moment. The call isn't made.
    pub fn row(&self, p: usize, at: Moment, call: CallRef<'_>) -> Row
        requires { p < length self.now.config.partitions }
        ensures { let here = seen self.now.config self.now.history p in
            result ≡ row_of self.now.config here p at (call_by call.entry) }
    {
        row(&self.state, &self.config, p, at, call)
    }

    /// The sampling channel that a call of partition `p` would write into, with the message; `None` if the call would write
    /// nothing. The call's moment makes no difference.
    pub fn write_of<'a>(&self, p: usize, call: &'a Call) -> Option<(usize, &'a Message)>
        requires { p < length self.now.config.partitions }
        ensures writes { MatchOption result
            (WritesNothing self.now.config self.now.history p call.now)
            (λ write. Writes self.now.config self.now.history p call.now write.0 write.1.now) }
        ensures channel { IfSome result (λ write. write.0 < length self.now.config.channels) }
        ensures sampling { IfSome result (λ write. is_queuing self.now.config write.0 ≡ false) }
    {
        self.state.write_of(&self.config, p, call)
    }

    /// Whether partition `p` has created the port with the identifier since its last restart.
    pub fn created(&self, p: usize, id: u32) -> bool
        requires { p < length self.now.config.partitions }
        ensures { result ≡ is_created p id self.now.history }
    {
        self.state.partitions[p].is_created(id)
    }

    /// What the last read of a created sampling port showed since the port's creation; INVALID for any
    /// other identifier.
    pub fn last_validity(&self, p: usize, id: u32) -> Validity
        requires { p < length self.now.config.partitions }
        ensures { let here = seen self.now.config self.now.history p in
            result ≡ validity_shown here id (sampling_port self.now.config here p id) }
    {
        let last = self.state.partitions[p].last_validity(id);
        match last {
            Validity::Invalid => Validity::Invalid,
            Validity::Valid => match sampling_port(&self.state, &self.config, p, id) {
                Some(_) => last,
                None => Validity::Invalid,
            },
        }
    }

    /// The number of messages that channel `c` accepted; at most `u64::MAX`, and 0 for a sampling channel.
    pub fn accepted_count(&self, c: usize) -> u64
        requires { c < length self.now.config.channels }
        ensures { result ≡ count_of (accepted_on self.now.config c self.now.history) }
    {
        self.state.channels[c].accepted()
    }

    /// The number of messages that were received from channel `c`; at most `u64::MAX`, and 0 for a sampling channel.
    pub fn received_count(&self, c: usize) -> u64
        requires { c < length self.now.config.channels }
        ensures { result ≡ count_of (received_on self.now.config c self.now.history) }
    {
        self.state.channels[c].received()
    }

    /// The number of messages of channel `c` that were cleared; at most `u64::MAX`, and 0 for a sampling channel.
    pub fn cleared_count(&self, c: usize) -> u64
        requires { c < length self.now.config.channels }
        ensures count { result ≡ count_of (cleared_on self.now.config c self.now.history) }
        ensures accepted { length (cleared_on self.now.config c self.now.history)
            ≤ length (accepted_on self.now.config c self.now.history) }
    {
        self.state.channels[c].cleared()
    }

    /// The number of messages that wait on channel `c`; 0 for a sampling channel.
    pub fn waiting_count(&self, c: usize) -> usize
        requires { c < length self.now.config.channels }
        ensures count { result ≡ length (waiting_on self.now.config c self.now.history) }
        ensures sampling { is_queuing self.now.config c ≡ false → result ≡ 0 }

        // At most the depth wait, and the messages received or cleared, followed by those that wait, are the accepted
        // ones, in order.
        ensures conserved { IsConserved self.now.config self.now.history c }
    {
        self.state.channels[c].waiting_count()
    }

    /// The message at index `i` of those that wait on channel `c`; index 0 has the oldest.
    pub fn waiting(&self, c: usize, i: usize) -> Option<&[u8]>
        requires { c < length self.now.config.channels }
        ensures message { option_copied result
            ≡ slice_get (waiting_on self.now.config c self.now.history) i }
        ensures short { IfSome result (λ message. length message.now ≤ MESSAGE_LIMIT) }
        ensures sampling { is_queuing self.now.config c ≡ false → result ≡ None }
    {
        self.state.channels[c].waiting(i)
    }

    /// The message that channel `c` holds, with the moment it was written; none for a queuing channel, or before the first
    /// write.
    pub fn last_sample(&self, c: usize) -> Option<SampleRef<'_>>
        requires { c < length self.now.config.channels }
        ensures sample { IsSampleBy (last_write_on self.now.config c self.now.history) result }
        ensures short { IfSome result (λ sample. length sample.message.now ≤ MESSAGE_LIMIT) }
        ensures queuing { is_queuing self.now.config c ≡ true → result ≡ None }
    {
        self.state.channels[c].sample()
    }
}
