//! The replies that a worker got.
ghost use Rattle.std.specs.Prelude.{◌≡◌, IfOk};

use apex_threads::PackedReplies;
use apex_types::Reply;
use std::alloc::{AllocError, Allocator, Global};
use std::marker::Model;

/// The replies to the calls of one partition, in order. A contract sees them as a list.
#[derive(Debug, Drop)]
pub struct Replies<A: Allocator = Global> {
    replies: Vec<Reply, A>,
}

impl<A: Allocator> Model for Replies<A> {
    ghost use Rattle.std.specs.Prelude.{List};
    ghost use Rattle.apex_types.specs.declared.reply.Reply.{Reply};

    ghost Value = { List Reply };

    ghost view = { λ replies. replies.replies.items };
}

impl<A: Allocator> Replies<A> {
    /// The replies of a list, oldest first.
    pub fn new(replies: Vec<Reply, A>) -> Replies<A>
        ensures { result ≡ replies.items }
    {
        Replies { replies }
    }

    /// The replies, oldest first.
    pub fn list(&self) -> &[Reply]
        ensures { result.now ≡ self.now }
    {
        self.replies.as_slice()
    }
}

/// The replies of each partition as a list of its own.
pub(crate) fn unpack_all<A: Allocator + Copy>(
    alloc: A,
    packed: &[PackedReplies<A>],
) -> Result<Vec<Replies<A>, A>, AllocError>
    ensures { IfOk result (λ replies. replies.items ≡ packed.now) }
{
    let mut all = Vec::with_capacity(alloc, packed.len())?;
    for replies in packed {
        let list = unpack(alloc, replies)?;
        all.push_reserved(list);
    }
    Ok(all)
}

fn unpack<A: Allocator + Copy>(
    alloc: A,
    packed: &PackedReplies<A>,
) -> Result<Replies<A>, AllocError>
    ensures { IfOk result (λ replies. replies ≡ packed.now) }
{
    let mut replies = Vec::with_capacity(alloc, packed.len())?;
    for index in 0..packed.len() {
        match packed.get(index) {
            Some(reply) => replies.push_reserved(reply.to_reply()),
            None => unreachable!(),
        }
    }
    Ok(Replies::new(replies))
}
