//! Compares what the workers left with what was handed out to them.
ghost use Rattle.std.specs.Prelude.{◌≡◌, ◌↔◌, ◌+◌, ◌^◌, ◌<◌, length, replicate, IsTrue};
ghost use Rattle.std.specs.Bool.{OnTrue, OnFalse};
ghost use Rattle.apex_threads.specs.Collected.{IsNext, AreCounted, IsCollected, IsCollectedFor};

use apex_board::{Board, Entry};
use apex_module::Config;
use apex_threads::{PackedReplies, PackedScript, are_complete};
use std::alloc::Allocator;

/// Whether the board has the configuration, and its log has the calls of each partition's script with the replies to
/// them.
pub(crate) fn is_collected_for<A: Allocator>(
    config: &Config,
    scripts: &[PackedScript<A>],
    board: &Board<A>,
    replies: &[PackedReplies<A>],
    counts: &mut [usize],
) -> bool
    requires none { counts.old ≡ replicate (length scripts.now) 0 }
    requires each { length replies.now ≡ length scripts.now }
    ensures { IsTrue result ↔
        IsCollectedFor config.now scripts.now board.now.config board.now.log replies.now }
{
    board.config().eq(config) && is_collected(board.log(), scripts, replies, counts)
}

/// Whether the log has the calls of each partition's script with the replies to them, each once and in order.
///
/// It goes over the log once, and counts each partition's calls in `counts`, which are 0 before.
pub fn is_collected<A: Allocator>(
    log: &[Entry],
    scripts: &[PackedScript<A>],
    replies: &[PackedReplies<A>],
    counts: &mut [usize],
) -> bool
    requires none { counts.old ≡ replicate (length scripts.now) 0 }
    requires each { length replies.now ≡ length scripts.now }
    ensures { IsTrue result ↔ IsCollected log.now scripts.now replies.now }
{
    count_entries(log, scripts, replies, counts) && are_complete(scripts, replies, counts)
}

/// Counts the entries of each partition, as long as each has the next call of the script and the reply to it.
fn count_entries<A: Allocator>(
    log: &[Entry],
    scripts: &[PackedScript<A>],
    replies: &[PackedReplies<A>],
    counts: &mut [usize],
) -> bool
    requires none { counts.old ≡ replicate (length scripts.now) 0 }
    requires each { length replies.now ≡ length scripts.now }
    ensures counted { OnTrue result (AreCounted log.now scripts.now replies.now counts.new) }
    ensures refused { OnFalse result (¬ IsCollected log.now scripts.now replies.now) }
{
    for entry in log {
        let p = entry.partition;
        if p >= counts.len() {
            return false;
        }
        let done = counts[p];
        if !is_next(entry, &scripts[p], &replies[p], done) {
            return false;
        }
        counts[p] = done + 1;
    }
    true
}

/// Whether the call at an index of the script, with the reply at the same index, is the entry's.
fn is_next<A: Allocator>(
    entry: &Entry,
    script: &PackedScript<A>,
    replies: &PackedReplies<A>,
    index: usize,
) -> bool
    ensures next { IsTrue result ↔ IsNext entry.now script.now replies.now index }
    ensures within { OnTrue result (index + 1 < 2 ^ 64) }
{
    script.is_at(index, entry.at, &entry.call) && replies.is_at(index, &entry.reply)
}
