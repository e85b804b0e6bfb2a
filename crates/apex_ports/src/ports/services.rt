//! Services by the standard's names. Each makes a call as `Ports::call` does: it gives the reply table's reply, and adds one
//! entry to the history. A message is in the caller's buffer, so it isn't copied into a `Call` or a `Reply`.
ghost use Rattle.std.specs.Prelude.{◌≡◌, ◌<◌, ◌≤◌, ◌∷◌, ◌++◌, [], length, drop};
ghost use Rattle.apex_types.specs.declared.call.Call.TheVariants as call;

use crate::noted::{CallRef, ReplyRef};
use crate::ports::Ports;
use apex_types::{MESSAGE_LIMIT, Moment, Name, ReturnCode, Validity};
use std::alloc::Allocator;

impl<A: Allocator> Ports<A> {
    ghost use Rattle.apex_ports.specs.Answered.{IsAnswered};
    ghost use Rattle.apex_ports.specs.History.{entry_of};
    ghost use Rattle.apex_ports.specs.Noted.{reply_by};
    ghost use Rattle.apex_ports.specs.ReplyTable.{reply_to, size_at};
    ghost use Rattle.apex_ports.specs.Services.{length_read, length_received, reply_read, reply_received};
    ghost use Rattle.apex_ports.specs.Sound.{IsSound};

    /// CREATE_SAMPLING_PORT, with the size in bytes and the refresh period in nanoseconds.
    pub fn create_sampling(
        &mut self,
        partition: usize,
        at: Moment,
        name: &Name,
        size: u32,
        direction: u32,
        refresh: u64,
    ) -> ReplyRef<'static>
        requires { partition < length self.old.config.partitions }
        ensures { let asked = call.CreateSampling name.now size direction refresh in
            IsAnswered self.old self.new partition at asked (reply_by result) }
    {
        self.answer_plain(
            partition,
            at,
            CallRef::CreateSampling {
                name,
                size,
                direction,
                refresh,
            },
        )
    }

    /// WRITE_SAMPLING_MESSAGE.
    pub fn write(
        &mut self,
        partition: usize,
        at: Moment,
        id: u32,
        message: &[u8],
    ) -> ReplyRef<'static>
        requires { partition < length self.old.config.partitions }
        ensures { let asked = call.WriteSampling id message.now in
            IsAnswered self.old self.new partition at asked (reply_by result) }
    {
        self.answer_plain(partition, at, CallRef::WriteSampling { id, message })
    }

    /// GET_SAMPLING_PORT_ID.
    pub fn sampling_id(&mut self, partition: usize, at: Moment, name: &Name) -> ReplyRef<'static>
        requires { partition < length self.old.config.partitions }
        ensures { let asked = call.SamplingId name.now in
            IsAnswered self.old self.new partition at asked (reply_by result) }
    {
        self.answer_plain(partition, at, CallRef::SamplingId { name })
    }

    /// GET_SAMPLING_PORT_STATUS.
    pub fn sampling_status(&mut self, partition: usize, at: Moment, id: u32) -> ReplyRef<'static>
        requires { partition < length self.old.config.partitions }
        ensures { let asked = call.SamplingStatus id in
            IsAnswered self.old self.new partition at asked (reply_by result) }
    {
        self.answer_plain(partition, at, CallRef::SamplingStatus { id })
    }

    /// CREATE_QUEUING_PORT, with the size in bytes and the depth in messages.
    pub fn create_queuing(
        &mut self,
        partition: usize,
        at: Moment,
        name: &Name,
        size: u32,
        depth: u32,
        direction: u32,
        discipline: u32,
    ) -> ReplyRef<'static>
        requires { partition < length self.old.config.partitions }
        ensures { let asked = call.CreateQueuing name.now size depth direction discipline in
            IsAnswered self.old self.new partition at asked (reply_by result) }
    {
        self.answer_plain(
            partition,
            at,
            CallRef::CreateQueuing {
                name,
                size,
                depth,
                direction,
                discipline,
            },
        )
    }

    /// SEND_QUEUING_MESSAGE with a time-out of zero.
    pub fn send(
        &mut self,
        partition: usize,
        at: Moment,
        id: u32,
        message: &[u8],
    ) -> ReplyRef<'static>
        requires { partition < length self.old.config.partitions }
        ensures { let asked = call.SendQueuing id message.now in
            IsAnswered self.old self.new partition at asked (reply_by result) }
    {
        self.answer_plain(partition, at, CallRef::SendQueuing { id, message })
    }

    /// GET_QUEUING_PORT_ID.
    pub fn queuing_id(&mut self, partition: usize, at: Moment, name: &Name) -> ReplyRef<'static>
        requires { partition < length self.old.config.partitions }
        ensures { let asked = call.QueuingId name.now in
            IsAnswered self.old self.new partition at asked (reply_by result) }
    {
        self.answer_plain(partition, at, CallRef::QueuingId { name })
    }

    /// GET_QUEUING_PORT_STATUS.
    pub fn queuing_status(&mut self, partition: usize, at: Moment, id: u32) -> ReplyRef<'static>
        requires { partition < length self.old.config.partitions }
        ensures { let asked = call.QueuingStatus id in
            IsAnswered self.old self.new partition at asked (reply_by result) }
    {
        self.answer_plain(partition, at, CallRef::QueuingStatus { id })
    }

    /// CLEAR_QUEUING_PORT.
    pub fn clear(&mut self, partition: usize, at: Moment, id: u32) -> ReplyRef<'static>
        requires { partition < length self.old.config.partitions }
        ensures { let asked = call.ClearQueuing id in
            IsAnswered self.old self.new partition at asked (reply_by result) }
    {
        self.answer_plain(partition, at, CallRef::ClearQueuing { id })
    }

    /// SET_PARTITION_MODE, to the mode with a number.
    pub fn set_mode(&mut self, partition: usize, at: Moment, mode: u32) -> ReplyRef<'static>
        requires { partition < length self.old.config.partitions }
        ensures { let asked = call.SetMode mode in
            IsAnswered self.old self.new partition at asked (reply_by result) }
    {
        self.answer_plain(partition, at, CallRef::SetMode { mode })
    }

    /// RECEIVE_QUEUING_MESSAGE with a time-out of zero: the message's length, with its bytes at the start of the buffer; or
    /// the return code, and the buffer is unchanged. `Err(None)` if the partition is in IDLE.
    pub fn receive(
        &mut self,
        partition: usize,
        at: Moment,
        id: u32,
        buffer: &mut [u8],
    ) -> Result<usize, Option<ReturnCode>>
        requires partition { partition < length self.old.config.partitions }
        requires room { size_at self.old.config partition id ≤ length buffer.old }
        ensures reply { let asked = call.ReceiveQueuing id in reply_received result buffer.new
            ≡ reply_to self.old.config self.old.history partition at asked }
        ensures short { length_received result ≤ MESSAGE_LIMIT }
        ensures within { length_received result ≤ length buffer.new }
        ensures rest { let count = length_received result in
            drop count buffer.new ≡ drop count buffer.old }
        ensures entry { let asked = call.ReceiveQueuing id in
            self.new.history ≡ self.old.history
            ++ entry_of partition at asked (reply_received result buffer.new) ∷ [] }
        ensures config { self.new.config ≡ self.old.config }
        ensures sound { IsSound self.new.config self.new.history }
    {
        let answer = self
            .state
            .answer_receive(&self.config, partition, at, id, buffer);
        let asked = CallRef::ReceiveQueuing { id };
        let reply = ReplyRef::received(answer, buffer);
        self.state
            .note(&self.config, &mut self.calls, partition, at, asked, reply);
        answer
    }

    /// READ_SAMPLING_MESSAGE: the message's length and validity, with its bytes at the start of the buffer; or the return
    /// code, and the buffer is unchanged. `Err(None)` if the partition is in IDLE.
    pub fn read(
        &mut self,
        partition: usize,
        at: Moment,
        id: u32,
        buffer: &mut [u8],
    ) -> Result<(usize, Validity), Option<ReturnCode>>
        requires partition { partition < length self.old.config.partitions }
        requires room { size_at self.old.config partition id ≤ length buffer.old }
        ensures reply { let asked = call.ReadSampling id in reply_read result buffer.new
            ≡ reply_to self.old.config self.old.history partition at asked }
        ensures short { length_read result ≤ MESSAGE_LIMIT }
        ensures within { length_read result ≤ length buffer.new }
        ensures rest { let count = length_read result in
            drop count buffer.new ≡ drop count buffer.old }
        ensures entry { let asked = call.ReadSampling id in
            self.new.history ≡ self.old.history
            ++ entry_of partition at asked (reply_read result buffer.new) ∷ [] }
        ensures config { self.new.config ≡ self.old.config }
        ensures sound { IsSound self.new.config self.new.history }
    {
        let answer = self
            .state
            .answer_read(&self.config, partition, at, id, buffer);
        let asked = CallRef::ReadSampling { id };
        let reply = ReplyRef::read(answer, buffer);
        self.state
            .note(&self.config, &mut self.calls, partition, at, asked, reply);
        answer
    }
}
