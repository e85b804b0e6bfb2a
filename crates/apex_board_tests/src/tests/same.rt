//! Boards that show the same.
ghost use Rattle.std.specs.Prelude.{◌<◌, length};

use crate::tests::boards::{config_of, holds, requests_of, run};
use apex_board::{Board, Request};
use std::alloc::{AllocGlobal, Allocator};
use std::process::Abort;
use std::sync::Wait;
use std::test::Fail;

// Whether both boards show the same for a partition.
fn is_same_partition<A: Allocator, B: Allocator>(one: &Board<A>, other: &Board<B>, p: usize) -> bool
    requires one { p < length one.now.config.partitions }
    requires other { p < length other.now.config.partitions }
{
    let mut is_same = one.mode(p) == other.mode(p);
    for id in 0..4u32 {
        is_same &= one.created(p, id) == other.created(p, id);
        is_same &= one.last_validity(p, id) == other.last_validity(p, id);
    }
    is_same
}

// Whether both boards show the same accepted and taken messages of a channel, and the same sample.
fn is_same_past<A: Allocator, B: Allocator>(one: &Board<A>, other: &Board<B>, c: usize) -> bool
    requires one { c < length one.now.config.channels }
    requires other { c < length other.now.config.channels }
{
    one.accepted(c) == other.accepted(c)
        && one.taken(c) == other.taken(c)
        && one.last_sample(c) == other.last_sample(c)
}

// Whether both boards show the same waiting messages on a channel.
fn is_same_queue<A: Allocator, B: Allocator>(one: &Board<A>, other: &Board<B>, c: usize) -> bool
    requires one { c < length one.now.config.channels }
    requires other { c < length other.now.config.channels }
{
    let mut is_same = one.waiting_count(c) == other.waiting_count(c);
    for i in 0..3 {
        is_same &= one.waiting(c, i) == other.waiting(c, i);
    }
    is_same
}

/// Both boards show the same, except for their rooms.
pub(crate) fn shows_same<A: Allocator, B: Allocator>(
    rt: &impl Abort,
    one: &Board<A>,
    other: &Board<B>,
) {
    holds(rt, one.config() == other.config(), 0);
    holds(rt, one.log() == other.log(), 1);
    for p in 0..one.config().partitions() {
        assert!(rt; p < other.config().partitions());
        holds(rt, is_same_partition(one, other, p), 2);
    }
    for c in 0..one.config().channels() {
        assert!(rt; c < other.config().channels());
        holds(rt, is_same_past(one, other, c), 3);
        holds(rt, is_same_queue(one, other, c), 4);
    }
}

/// The board shows the same as one with ample memory that has answered the requests.
pub(crate) fn shows_same_after<R: AllocGlobal + Abort + Wait, A: Allocator>(
    rt: &R,
    board: &Board<A>,
    requests: &[Request],
) -> Result<(), Fail> {
    let mut ample = Board::new(rt, rt.alloc(), config_of(rt)?)?;
    let answered = run(rt, &mut ample, requests);
    shows_same(rt, board, &ample);
    ample.close(rt);
    Ok(answered?)
}

/// The board shows the same as one with ample memory that has answered the calls of the trace.
pub(crate) fn shows_same_as<R: AllocGlobal + Abort + Wait, A: Allocator>(
    rt: &R,
    board: &Board<A>,
    trace: &str,
) -> Result<(), Fail> {
    let requests = requests_of(rt, trace)?;
    shows_same_after(rt, board, &requests)
}
