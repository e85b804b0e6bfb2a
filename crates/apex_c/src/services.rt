//! Calls through a handle whose replies have no message. Each answers the number of the return code, or a number of `answer`.
ghost use Rattle.std.specs.Prelude.{◌≡◌, None, Ok, Some, true, MatchResult};
ghost use Rattle.apex_ports.specs.Noted.{call_by, reply_by};
ghost use Rattle.apex_ports.specs.Services.{is_plain};
ghost use Rattle.apex_c.specs.Asked.{IsCalled};
ghost use Rattle.apex_c.specs.Calls.{answer_in, moment_of, ports_after, reply_in, reply_number};
ghost use Rattle.apex_c.specs.Places.{id_after};

use crate::answer::{NO_PARTITION, NOT_MADE, NOT_OPEN};
use crate::handle::Handle;
use apex_ports::{CallRef, ReplyRef};
use apex_types::{Moment, ReturnCode};
use std::alloc::Global;

impl Handle {
    /// Makes a call.
    #[inline(always)]
    pub(crate) fn answer(
        &mut self,
        alloc: Global,
        partition: u32,
        at: u64,
        call: CallRef<'_>,
    ) -> u32
        requires { is_plain (call_by call) ≡ true }
        ensures { IsCalled self.old.held.ports self.new.held.ports
            partition (moment_of at) (Ok (call_by call.entry)) result }
    {
        match self.reply(alloc, partition, at, call) {
            Ok(reply) => number_of(reply),
            Err(number) => number,
        }
    }

    /// Makes a call, and puts the identifier of the reply into its place.
    #[inline(always)]
    pub(crate) fn identify(
        &mut self,
        alloc: Global,
        partition: u32,
        at: u64,
        call: CallRef<'_>,
        id: &mut u32,
    ) -> u32
        requires { is_plain (call_by call) ≡ true }
        ensures called { IsCalled self.old.held.ports self.new.held.ports
            partition (moment_of at) (Ok (call_by call.entry)) result }
        ensures id { let asked = call_by call.entry in
            id.new ≡ id_after (reply_in self.old.held.ports partition (moment_of at) asked) id.old }
    {
        match self.reply(alloc, partition, at, call) {
            Ok(reply) => {
                if let ReplyRef::Id(number) = reply {
                    *id = number;
                }
                number_of(reply)
            }
            Err(number) => number,
        }
    }

    /// The reply to a call; or `NOT_OPEN` or `NO_PARTITION`, and the call isn't made.
    #[inline(always)]
    pub(crate) fn reply(
        &mut self,
        alloc: Global,
        partition: u32,
        at: u64,
        call: CallRef<'_>,
    ) -> Result<ReplyRef<'static>, u32>
        requires { is_plain (call_by call) ≡ true }
        ensures reply { let reply =
            reply_in self.old.held.ports partition (moment_of at) (call_by call.entry) in
            MatchResult result (λ given. reply ≡ Some (reply_by given)) (λ _. reply ≡ None) }
        ensures answer { let answer =
            answer_in self.old.held.ports partition (moment_of at) (call_by call.entry) in
            MatchResult result (λ given. answer ≡ reply_number (reply_by given))
            (λ none. answer ≡ none) }
        ensures ports { self.new.held.ports
            ≡ ports_after self.old.held.ports partition (moment_of at) (call_by call.entry) }
    {
        let Some(mut ports) = self.take(alloc) else {
            return Err(NOT_OPEN);
        };
        let reply = if (partition as usize) < ports.config().partitions() {
            Ok(ports.answer_plain(partition as usize, Moment(at), call))
        } else {
            Err(NO_PARTITION)
        };
        *self = Handle::of(ports);
        reply
    }
}

/// The number of a reply's return code, or `NOT_MADE`.
#[inline(always)]
pub(crate) fn number_of(reply: ReplyRef<'_>) -> u32
    ensures { result ≡ reply_number (reply_by reply.entry) }
{
    match reply {
        ReplyRef::NotMade => NOT_MADE,
        ReplyRef::Code(code) => code.number(),
        _ => ReturnCode::NoError.number(),
    }
}
