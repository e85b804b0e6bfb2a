//! Compares the workers' replies with a log or with those of another run of the calls.
ghost use Rattle.std.specs.Prelude.{◌≡◌, ◌↔◌, length, IsTrue};
ghost use Rattle.apex_threads.specs.Collected.{AreComplete};

use crate::packed::PackedReplies;
use crate::packed_script::PackedScript;
use std::alloc::Allocator;

/// Whether all calls and all replies of each partition were counted.
pub fn are_complete<A: Allocator>(
    scripts: &[PackedScript<A>],
    replies: &[PackedReplies<A>],
    counts: &[usize],
) -> bool
    requires counts { length counts.now ≡ length scripts.now }
    requires each { length replies.now ≡ length scripts.now }
    ensures { IsTrue result ↔ AreComplete scripts.now replies.now counts.now }
{
    for (p, count) in counts.iter().enumerate() {
        if !is_complete(&scripts[p], &replies[p], *count) {
            return false;
        }
    }
    true
}

/// Whether these numbers of calls and replies are all of them.
fn is_complete<A: Allocator>(
    script: &PackedScript<A>,
    replies: &PackedReplies<A>,
    count: usize,
) -> bool
    ensures { IsTrue result ↔ (count ≡ length script.now) × (count ≡ length replies.now) }
{
    count == script.len() && count == replies.len()
}
