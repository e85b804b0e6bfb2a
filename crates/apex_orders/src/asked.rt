//! A question about a call of a script.
ghost use Rattle.std.specs.Prelude.{◌≡◌, ◌↔◌, map, IfOk, IsTrue};
ghost use Rattle.apex_orders.specs.Outcomes.{Admits, Answers, admitted_by, others_of};
ghost use Rattle.apex_orders.specs.Searching.{asked_hash};

use crate::hash::mix;
use crate::hash_index::HashIndex;
use crate::replies::{PossibleReply, is_same_reply};
use apex_types::{OutOfMemory, Reply, ReturnCode};
use std::alloc::Global;

/// The replies that a question admits.
#[derive(Debug, Drop, PartialEq, Eq)]
pub enum Admitted {
    /// Only this reply.
    Reply(Reply),
    /// Every reply with this return code.
    Code(ReturnCode),
    /// Every reply but this one.
    NotReply(Reply),
    /// Every reply without this return code.
    NotCode(ReturnCode),
}

/// A question: whether a call of a script can get an admitted reply.
#[derive(Debug, Drop, PartialEq, Eq)]
pub struct Asked {
    /// The partition's number, from 0.
    pub partition: usize,
    /// The index of the call in the partition's script, from 0.
    pub index: usize,
    pub admitted: Admitted,
}

impl Admitted {
    /// What a reply asks for: a return code without data admits every reply with that code, and any other reply only
    /// itself.
    pub fn of(reply: Reply) -> Admitted
        ensures { result ≡ admitted_by reply }
    {
        match reply {
            Reply::Code(code) => Admitted::Code(code),
            _ => Admitted::Reply(reply),
        }
    }

    /// Whether the reply is admitted.
    pub fn admits(&self, reply: &Reply) -> bool
        ensures { IsTrue result ↔ Admits self.now reply.now }
    {
        match self {
            Admitted::Reply(one) => is_same_reply(reply, one),
            Admitted::Code(code) => reply.code() == Some(*code),
            Admitted::NotReply(one) => !is_same_reply(reply, one),
            Admitted::NotCode(code) => reply.code() != Some(*code),
        }
    }

    /// The replies that are not admitted.
    pub fn others(&self) -> Admitted
        ensures { result ≡ others_of self.now }
    {
        match self {
            Admitted::Reply(one) => Admitted::NotReply(one.copy()),
            Admitted::Code(code) => Admitted::NotCode(*code),
            Admitted::NotReply(one) => Admitted::Reply(one.copy()),
            Admitted::NotCode(code) => Admitted::Code(*code),
        }
    }

    /// The same replies.
    pub fn copy(&self) -> Admitted
        ensures { result ≡ self.now }
    {
        match self {
            Admitted::Reply(one) => Admitted::Reply(one.copy()),
            Admitted::Code(code) => Admitted::Code(*code),
            Admitted::NotReply(one) => Admitted::NotReply(one.copy()),
            Admitted::NotCode(code) => Admitted::NotCode(*code),
        }
    }
}

impl Asked {
    /// Whether the reply is to the asked call, and admitted.
    pub(crate) fn is_answered_by(&self, one: &PossibleReply) -> bool
        ensures { IsTrue result ↔ Answers self.now one.now }
    {
        one.index == self.index
            && one.partition == self.partition
            && self.admitted.admits(&one.reply)
    }
}

/// The hashes of the calls that the questions are about, to look up the questions by their calls.
pub(crate) fn asked_hashes(alloc: Global, asked: &[Asked]) -> Result<HashIndex, OutOfMemory>
    ensures { IfOk result (λ hashes. hashes ≡ map asked_hash asked.now) }
{
    let mut hashes = HashIndex::new(alloc)?;
    for one in asked {
        hashes.push(alloc, mix(one.partition as u64, one.index as u64))?;
    }
    Ok(hashes)
}
