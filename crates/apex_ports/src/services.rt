//! The services that put a message into the caller's buffer.
ghost use Rattle.std.specs.Prelude.{◌≡◌, ◌<◌, ◌≤◌, length, take, drop};
ghost use Rattle.apex_types.specs.declared.call.Call.TheVariants as call;
ghost use Rattle.apex_ports.specs.History.{entry_of};
ghost use Rattle.apex_ports.specs.Kept.{IsCurrent, IsKeptWith};
ghost use Rattle.apex_ports.specs.ReplyTable.{reply_to, size_at};
ghost use Rattle.apex_ports.specs.Services.{length_read, length_received, reply_read, reply_received};

use crate::modes::is_idle;
use crate::state::State;
use crate::table::queuing::received_message;
use crate::table::sampling::read_sample;
use crate::view::View;
use apex_module::Config;
use apex_types::{MESSAGE_LIMIT, Moment, ReturnCode, Validity};
use std::alloc::Allocator;

impl<A: Allocator> State<A> {
    /// RECEIVE_QUEUING_MESSAGE, with the message in the first bytes of the buffer: its length, or the return code.
    pub(crate) fn answer_receive(
        &mut self,
        config: &Config,
        partition: usize,
        at: Moment,
        id: u32,
        buffer: &mut [u8],
    ) -> Result<usize, Option<ReturnCode>>
        requires partition { partition < length config.now.partitions }
        requires current { IsCurrent config.now self.old }
        requires room { size_at config.now partition id ≤ length buffer.old }
        ensures reply { let asked = call.ReceiveQueuing id in reply_received result buffer.new
            ≡ reply_to config.now self.old.history partition at asked }
        ensures short { length_received result ≤ MESSAGE_LIMIT }
        ensures within { length_received result ≤ length buffer.new }
        ensures rest { let count = length_received result in
            drop count buffer.new ≡ drop count buffer.old }
        ensures kept { let received = reply_received result buffer.new in
            let entry = entry_of partition at (call.ReceiveQueuing id) received in
            IsKeptWith config.now self.old entry self.new }
        ensures history { self.new.history ≡ self.old.history }
    {
        if is_idle(self.mode(config, partition)) {
            return Err(None);
        }
        match received_message(self, config, partition, id) {
            Ok(message) => {
                let length = put_bytes(message, buffer);
                self.receive(config, partition, at, id);
                Ok(length)
            }
            Err(refusal) => Err(Some(refusal.code())),
        }
    }

    /// READ_SAMPLING_MESSAGE, with the message in the first bytes of the buffer: its length and validity, or the return
    /// code.
    pub(crate) fn answer_read(
        &mut self,
        config: &Config,
        partition: usize,
        at: Moment,
        id: u32,
        buffer: &mut [u8],
    ) -> Result<(usize, Validity), Option<ReturnCode>>
        requires partition { partition < length config.now.partitions }
        requires current { IsCurrent config.now self.old }
        requires room { size_at config.now partition id ≤ length buffer.old }
        ensures reply { let asked = call.ReadSampling id in reply_read result buffer.new
            ≡ reply_to config.now self.old.history partition at asked }
        ensures short { length_read result ≤ MESSAGE_LIMIT }
        ensures within { length_read result ≤ length buffer.new }
        ensures rest { let count = length_read result in
            drop count buffer.new ≡ drop count buffer.old }
        ensures kept { let shown = reply_read result buffer.new in
            let entry = entry_of partition at (call.ReadSampling id) shown in
            IsKeptWith config.now self.old entry self.new }
        ensures history { self.new.history ≡ self.old.history }
    {
        if is_idle(self.mode(config, partition)) {
            return Err(None);
        }
        match read_sample(self, config, partition, at, id) {
            Ok((sample, validity)) => {
                let length = put_bytes(sample.message, buffer);
                self.read(config, partition, at, id, validity);
                Ok((length, validity))
            }
            Err(refusal) => Err(Some(refusal.code())),
        }
    }
}

// Copies the bytes to the start of the buffer, and returns their number.
fn put_bytes(bytes: &[u8], buffer: &mut [u8]) -> usize
    requires { length bytes.now ≤ length buffer.old }
    ensures length { result ≡ length bytes.now }
    ensures bytes { take result buffer.new ≡ bytes.now }
    ensures within { result ≤ length buffer.new }
    ensures rest { drop result buffer.new ≡ drop result buffer.old }
{
    buffer[..bytes.len()].copy_from_slice(bytes);
    bytes.len()
}
