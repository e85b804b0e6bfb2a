//! Replies that calls can get.
ghost use Rattle.std.specs.Prelude.{◌≡◌, ◌⊎◌, ◌↔◌, ◌++◌, ◌∷◌, [], IsTrue, IfOk, OnOk};
ghost use Rattle.apex_orders.specs.declared.replies.PossibleReply.{PossibleReply};
ghost use Rattle.apex_orders.specs.Lists.{Has};
ghost use Rattle.apex_orders.specs.Searching.{Includes};
ghost use Rattle.apex_orders.specs.Steps.{IsShort, possible};
ghost use Rattle.apex_ports.specs.Noted.{reply_by};

use crate::hash::mix;
use crate::hash_index::HashIndex;
use crate::step::MadeCall;
use apex_ports::ReplyRef;
use apex_types::{OutOfMemory, Reply};
use std::alloc::Global;
use std::marker::Model;

/// A reply that a call of a script can get.
#[derive(Debug, Drop, PartialEq, Eq)]
pub struct PossibleReply {
    /// The partition's number, from 0.
    pub partition: usize,
    /// The index of the call in the partition's script, from 0.
    pub index: usize,
    pub reply: Reply,
}

impl PossibleReply {
    /// The same reply to the same call.
    pub fn copy(&self) -> PossibleReply
        ensures { result ≡ self.now }
    {
        PossibleReply {
            partition: self.partition,
            index: self.index,
            reply: self.reply.copy(),
        }
    }
}

/// The replies that were found, and hashes to look them up. A contract sees the list of replies.
#[derive(Drop)]
pub(crate) struct Replies {
    pub(crate) found: Vec<PossibleReply>,
    hashes: HashIndex,
}

impl Model for Replies {
    ghost use Rattle.std.specs.Prelude.{List};
    ghost use Rattle.apex_orders.specs.declared.replies.PossibleReply.{PossibleReply};

    ghost Value = { List PossibleReply };

    ghost view = { λ replies. replies.found.items };
}

impl Replies {
    /// No replies.
    pub(crate) fn new(alloc: Global) -> Result<Replies, OutOfMemory>
        ensures { IfOk result (λ replies. replies ≡ []) }
    {
        let hashes = HashIndex::new(alloc)?;
        Ok(Replies {
            found: Vec::new(alloc),
            hashes,
        })
    }

    /// Removes all replies, and keeps their memory.
    pub(crate) fn clear(&mut self)
        ensures { self.new ≡ [] }
    {
        self.found.clear();
        self.hashes.clear();
    }

    /// Adds the reply, unless it is there already.
    pub(crate) fn add(&mut self, alloc: Global, one: &PossibleReply) -> Result<(), OutOfMemory>
        ensures { OnOk result ((other : PossibleReply) →
            Has self.new other ↔ (Has self.old other ⊎ (other ≡ one.now))) }
    {
        let made = MadeCall::of(one);
        let hash = reply_hash(made);
        if self.has(made, hash) {
            return Ok(());
        }
        self.push(alloc, one.copy(), hash)?;
        Ok(())
    }

    /// Adds the reply to the call, unless it is there already, or among the known ones.
    pub(crate) fn add_unless_known(
        &mut self,
        alloc: Global,
        known: &Replies,
        made: MadeCall<'_>,
    ) -> Result<(), OutOfMemory>
        requires { IsShort made }
        ensures kept { OnOk result (Includes self.old self.new) }
        ensures added { OnOk result (Has (known.now ++ self.new) (possible made.entry)) }
        ensures only { OnOk result ((other : PossibleReply) →
            Has self.new other → Has self.old other ⊎ (other ≡ possible made.entry)) }
    {
        let hash = reply_hash(made);
        if known.has(made, hash) || self.has(made, hash) {
            return Ok(());
        }
        self.push(alloc, made.to_possible(), hash)?;
        Ok(())
    }

    /// Whether the reply to the call, which has this hash, is among them.
    fn has(&self, made: MadeCall<'_>, hash: u64) -> bool
        ensures { IsTrue result → Has self.now (possible made.entry) }
    {
        let mut count = self.hashes.up_to_last(hash);
        while count > 0 {
            let k = count - 1;
            if let Some(known) = self.found.get(k) {
                if is_reply_to(known, made) {
                    return true;
                }
            }
            count = self.hashes.up_to_earlier(hash, k);
        }
        false
    }

    /// Adds the reply with its hash.
    fn push(&mut self, alloc: Global, one: PossibleReply, hash: u64) -> Result<(), OutOfMemory>
        ensures { OnOk result (self.new ≡ self.old ++ one ∷ []) }
    {
        self.hashes.push(alloc, hash)?;
        self.found.push(one)?;
        Ok(())
    }

    /// Adds all of these replies.
    pub(crate) fn add_all(&mut self, alloc: Global, other: &Replies) -> Result<(), OutOfMemory>
        ensures kept { OnOk result (Includes self.old self.new) }
        ensures added { OnOk result (Includes other.now self.new) }
        ensures only { OnOk result ((one : PossibleReply) →
            Has self.new one → Has self.old one ⊎ Has other.now one) }
    {
        let others = other.list();
        for k in 0..others.len() {
            let one = &others[k];
            self.add(alloc, one)?;
        }
        Ok(())
    }

    /// The replies as a slice.
    fn list(&self) -> &[PossibleReply]
        ensures { result.now ≡ self.now }
    {
        self.found.as_slice()
    }

    /// The replies alone.
    pub(crate) fn into_found(self) -> Vec<PossibleReply>
        ensures { result.items ≡ self }
    {
        self.found
    }
}

/// A number that is the same for equal replies to one call.
fn reply_hash(made: MadeCall<'_>) -> u64 {
    let call = mix(made.partition as u64, made.index as u64);
    match made.reply {
        ReplyRef::Received(message) => bytes_hash(call, message),
        ReplyRef::Read { message, .. } => bytes_hash(call, message),
        ReplyRef::QueuingStatus { waiting, .. } => mix(call, waiting as u64),
        _ => call,
    }
}

fn bytes_hash(before: u64, bytes: &[u8]) -> u64 {
    let mut hash = before;
    for byte in bytes {
        hash = mix(hash, *byte as u64);
    }
    hash
}

/// Whether it is the reply to the call.
fn is_reply_to(one: &PossibleReply, made: MadeCall<'_>) -> bool
    ensures { IsTrue result ↔ (one.now ≡ possible made.entry) }
{
    one.index == made.index
        && one.partition == made.partition
        && is_same_by_reference(ReplyRef::of(&one.reply), made.reply)
}

/// Whether they are equal.
fn is_same_by_reference(a: ReplyRef<'_>, b: ReplyRef<'_>) -> bool
    ensures { IsTrue result ↔ (reply_by a.entry ≡ reply_by b.entry) }
{
    match (a, b) {
        (ReplyRef::NotMade, ReplyRef::NotMade) => true,
        (ReplyRef::Code(code), ReplyRef::Code(other)) => code == other,
        (ReplyRef::Id(id), ReplyRef::Id(other)) => id == other,
        (ReplyRef::Received(message), ReplyRef::Received(other)) => message == other,
        (
            ReplyRef::Read { message, validity },
            ReplyRef::Read {
                message: other,
                validity: other_validity,
            },
        ) => validity == other_validity && message == other,
        (
            ReplyRef::QueuingStatus {
                waiting,
                depth,
                size,
                direction,
            },
            ReplyRef::QueuingStatus {
                waiting: other_waiting,
                depth: other_depth,
                size: other_size,
                direction: other_direction,
            },
        ) => {
            waiting == other_waiting
                && depth == other_depth
                && size == other_size
                && direction == other_direction
        }
        (
            ReplyRef::SamplingStatus {
                refresh,
                size,
                direction,
                last,
            },
            ReplyRef::SamplingStatus {
                refresh: other_refresh,
                size: other_size,
                direction: other_direction,
                last: other_last,
            },
        ) => {
            refresh == other_refresh
                && size == other_size
                && direction == other_direction
                && last == other_last
        }
        _ => false,
    }
}

/// Whether they are equal.
pub(crate) fn is_same_reply(a: &Reply, b: &Reply) -> bool
    ensures { IsTrue result ↔ (a.now ≡ b.now) }
{
    a == b
}
