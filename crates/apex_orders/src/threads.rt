//! Work in several threads that are all started by one. If a new thread starts the next one, the system often lets both
//! share a processor for some milliseconds, though others are idle.
ghost use Rattle.std.specs.Prelude.{◌<◌};
ghost use Rattle.std.specs.Fork.{AcceptsAt, AcceptsEach, ChangesAt, ChangesEach};
ghost use Rattle.apex_orders.specs.Threads.{AreChanged};
ghost use denote.Param.Send.{IsSend, IsSync};

use std::thread::{Threads, join_mut};

/// Calls `f` with each item and its index: in this thread for items that are `short` and for the first that isn't, in a
/// thread of its own for each other. Items past the end of `short` count as short.
pub(crate) fn for_each_mut<R: Threads + Sync, T: Send, F: Fn(usize, &mut T) + Sync>(
    rt: &R,
    items: &mut [T],
    short: &[bool],
    f: &F,
)
    requires accepts { AcceptsEach F.Fn f.now items.old }
    ensures { ChangesEach F.Fn f.now items.old items.new }
{
    run_all(rt, f, short, items);
}

/// Calls `f` at each item, and starts threads from the last one on.
#[cycle(threads)]
fn run_all<R: Threads + Sync, T: Send, F: Fn(usize, &mut T) + Sync>(
    rt: &R,
    f: &F,
    short: &[bool],
    items: &mut [T],
)
    requires { AcceptsEach F.Fn f.now items.old }
    ensures { AreChanged F.Fn f.now items.old items.new }
{
    let count = items.len();
    if count == 0 {
        return;
    }
    let (before, rest) = items.split_at_mut(count - 1);
    run_last(rt, f, short, before, count - 1, &mut rest[0]);
}

/// Calls `f` at the item with this index, in a new thread unless it or all before it are short, and at the items before it.
#[cycle(threads)]
fn run_last<R: Threads + Sync, T: Send, F: Fn(usize, &mut T) + Sync>(
    rt: &R,
    f: &F,
    short: &[bool],
    before: &mut [T],
    index: usize,
    item: &mut T,
)
    requires before { AcceptsEach F.Fn f.now before.old }
    requires item { AcceptsAt F.Fn f.now index item.old }
    ensures before { AreChanged F.Fn f.now before.old before.new }
    ensures item { ChangesAt F.Fn f.now index item.old item.new }
{
    if is_short(short, index) || are_short_before(short, index) {
        run_all(rt, f, short, before);
        run_at(f, index, item);
    } else {
        run_both(rt, f, short, before, index, item);
    }
}

/// Calls `f` at the item with this index, in a new thread, and at the items before it.
#[cycle(threads)]
fn run_both<R: Threads + Sync, T: Send, F: Fn(usize, &mut T) + Sync>(
    rt: &R,
    f: &F,
    short: &[bool],
    before: &mut [T],
    index: usize,
    item: &mut T,
)
    requires before { AcceptsEach F.Fn f.now before.old }
    requires item { AcceptsAt F.Fn f.now index item.old }
    ensures before { AreChanged F.Fn f.now before.old before.new }
    ensures item { ChangesAt F.Fn f.now index item.old item.new }
{
    let mut there = ||
        requires { IsSync F.row × IsSend T.row × AcceptsAt F.Fn f.now index item.now }
        ensures { ChangesAt F.Fn f.entry.now index item.entry.now item.exit.now }
    { run_at(f, index, item) };
    let mut here = ||
        requires { IsSync R.row × IsSync F.row × IsSend T.row × AcceptsEach F.Fn f.now before.now }
        ensures { AreChanged F.Fn f.entry.now before.entry.now before.exit.now }
    { run_all(rt, f, short, before) };
    // (the first of them runs in the new thread)
    join_mut(rt, &mut there, &mut here);
}

fn run_at<T, F: Fn(usize, &mut T)>(f: &F, index: usize, item: &mut T)
    requires { AcceptsAt F.Fn f.now index item.old }
    ensures { ChangesAt F.Fn f.now index item.old item.new }
{
    f(index, item);
}

/// Whether all items before the one with this index are short.
fn are_short_before(short: &[bool], index: usize) -> bool {
    for k in 0..index {
        if !is_short(short, k) {
            return false;
        }
    }
    true
}

fn is_short(short: &[bool], index: usize) -> bool {
    match short.get(index) {
        None => true,
        Some(is_short) => *is_short,
    }
}
