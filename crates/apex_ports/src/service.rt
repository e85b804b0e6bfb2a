//! Answers calls: what a call decides, and what it does.
ghost use Rattle.std.specs.Prelude.{◌≡◌, ◌<◌, ◌≤◌, length, false, true, IfErr, IfOk, MatchResult};
ghost use Rattle.apex_types.specs.declared.reply.Reply.TheVariants.{Code};
ghost use Rattle.apex_ports.specs.History.{entry_of};
ghost use Rattle.apex_ports.specs.Kept.{IsCurrent, IsKept, IsKeptWith};
ghost use Rattle.apex_ports.specs.Modes.{is_idle, mode_of};
ghost use Rattle.apex_ports.specs.Noted.{call_by, reply_by};
ghost use Rattle.apex_ports.specs.ReplyTable.{reply_to};
ghost use Rattle.apex_ports.specs.Rows.{code_of};
ghost use Rattle.apex_ports.specs.Services.{is_plain, message_length};

use crate::modes::is_idle;
use crate::noted::{CallRef, ReplyRef};
use crate::rows::Refusal;
use crate::state::State;
use crate::table::creation::{created_queuing_id, created_sampling_id, queuing_id, sampling_id};
use crate::table::modes::set_mode_row;
use crate::table::queuing::{clear_row, send_row};
use crate::table::replies::{queuing_status, sampling_status};
use crate::table::sampling::write_row;
use crate::view::View;
use apex_module::Config;
use apex_types::{MESSAGE_LIMIT, Moment, ReturnCode};
use std::alloc::Allocator;

impl<A: Allocator> State<A> {
    /// Answers a call. The message of the reply is in the buffer. It doesn't add the call's entry to the history.
    pub(crate) fn answer<'a>(
        &mut self,
        config: &Config,
        partition: usize,
        at: Moment,
        call: CallRef<'_>,
        buffer: &'a mut [u8],
    ) -> ReplyRef<'a>
        requires partition { partition < length config.now.partitions }
        requires current { IsCurrent config.now self.old }
        requires room { MESSAGE_LIMIT ≤ length buffer.old }
        ensures reply { reply_by result
            ≡ reply_to config.now self.old.history partition at (call_by call.entry) }
        ensures short { message_length (reply_by result) ≤ MESSAGE_LIMIT }
        ensures kept { let entry = entry_of partition at (call_by call.entry) (reply_by result) in
            IsKeptWith config.now self.old entry self.new }
        ensures history { self.new.history ≡ self.old.history }
    {
        match call {
            CallRef::ReadSampling { id } => {
                let answer = self.answer_read(config, partition, at, id, buffer);
                ReplyRef::read(answer, buffer)
            }
            CallRef::ReceiveQueuing { id } => {
                let answer = self.answer_receive(config, partition, at, id, buffer);
                ReplyRef::received(answer, buffer)
            }
            _ => self.answer_plain(config, partition, at, call),
        }
    }

    /// Answers a call whose reply has no message, as `answer` does.
    #[inline(always)]
    pub(crate) fn answer_plain(
        &mut self,
        config: &Config,
        partition: usize,
        at: Moment,
        call: CallRef<'_>,
    ) -> ReplyRef<'static>
        requires partition { partition < length config.now.partitions }
        requires current { IsCurrent config.now self.old }
        requires plain { is_plain (call_by call) ≡ true }
        ensures reply { reply_by result
            ≡ reply_to config.now self.old.history partition at (call_by call.entry) }
        ensures short { message_length (reply_by result) ≤ MESSAGE_LIMIT }
        ensures kept { let entry = entry_of partition at (call_by call.entry) (reply_by result) in
            IsKeptWith config.now self.old entry self.new }
        ensures history { self.new.history ≡ self.old.history }
    {
        if is_idle(self.mode(config, partition)) {
            return ReplyRef::NotMade;
        }
        match self.serve(config, partition, at, call) {
            Ok(reply) => reply,
            Err(refusal) => ReplyRef::Code(refusal.code()),
        }
    }

    // Serves a call of a partition that isn't in IDLE, or says why it is refused.
    #[inline(always)]
    fn serve(
        &mut self,
        config: &Config,
        partition: usize,
        at: Moment,
        call: CallRef<'_>,
    ) -> Result<ReplyRef<'static>, Refusal>
        requires partition { partition < length config.now.partitions }
        requires current { IsCurrent config.now self.old }
        requires plain { is_plain (call_by call) ≡ true }
        requires active { is_idle (mode_of partition self.old.history) ≡ false }
        ensures reply { let given =
            reply_to config.now self.old.history partition at (call_by call.entry) in
            MatchResult result (λ reply. reply_by reply ≡ given)
            (λ refusal. Code (code_of refusal) ≡ given) }
        ensures short { IfOk result (λ reply. message_length (reply_by reply) ≤ MESSAGE_LIMIT) }
        ensures kept { IfOk result (λ reply.
            let entry = entry_of partition at (call_by call.entry) (reply_by reply) in
            IsKeptWith config.now self.old entry self.new) }
        ensures refused { IfErr result (λ _. IsKept config.now self.old.history self.new) }
        ensures history { self.new.history ≡ self.old.history }
    {
        match call {
            CallRef::CreateSampling { .. } => {
                let id = created_sampling_id(self, config, partition, call)?;
                self.create(config, partition, at, call, id);
                Ok(ReplyRef::Id(id))
            }
            CallRef::CreateQueuing { .. } => {
                let id = created_queuing_id(self, config, partition, call)?;
                self.create(config, partition, at, call, id);
                Ok(ReplyRef::Id(id))
            }
            CallRef::SamplingId { name } => {
                let id = sampling_id(self, config, partition, name)?;
                Ok(ReplyRef::Id(id))
            }
            CallRef::QueuingId { name } => {
                let id = queuing_id(self, config, partition, name)?;
                Ok(ReplyRef::Id(id))
            }
            CallRef::SamplingStatus { id } => Ok(sampling_status(self, config, partition, id)),
            CallRef::QueuingStatus { id } => Ok(queuing_status(self, config, partition, id)),
            CallRef::WriteSampling { id, message } => {
                write_row(self, config, partition, id, message)?;
                self.write(config, partition, at, id, message);
                Ok(ReplyRef::Code(ReturnCode::NoError))
            }
            CallRef::SendQueuing { id, message } => {
                send_row(self, config, partition, id, message)?;
                self.send(config, partition, at, id, message);
                Ok(ReplyRef::Code(ReturnCode::NoError))
            }
            CallRef::ClearQueuing { id } => {
                clear_row(self, config, partition, id)?;
                self.clear(config, partition, at, id);
                Ok(ReplyRef::Code(ReturnCode::NoError))
            }
            CallRef::SetMode { mode } => {
                set_mode_row(self.mode(config, partition), mode)?;
                self.change_mode(config, partition, at, mode);
                Ok(ReplyRef::Code(ReturnCode::NoError))
            }
            CallRef::ReadSampling { .. } | CallRef::ReceiveQueuing { .. } => unreachable!(),
        }
    }
}
