//! Compares the states of the ports of two runs of one configuration.
ghost use Rattle.std.specs.Prelude.{◌≡◌, ◌<◌, ◌↔◌, length, IsTrue};
ghost use Rattle.apex_orders.specs.Prelude.{option_copied, waiting_on, last_write_on};
ghost use Rattle.apex_orders.specs.States.{IsSameState, IsSamePartition, IsSamePorts, IsSameChannel};

use apex_ports::Ports;
use std::alloc::Allocator;

/// Whether both histories led to one state. Messages are compared by their bytes, without a copy.
pub fn is_same_state<A: Allocator>(a: &Ports<A>, b: &Ports<A>) -> bool
    requires { a.now.config ≡ b.now.config }
    ensures { IsTrue result ↔ IsSameState a.now.config a.now.history b.now.history }
{
    for p in 0..a.config().partitions() {
        if !is_same_partition(a, b, p) {
            return false;
        }
    }
    for c in 0..a.config().channels() {
        if !is_same_channel(a, b, c) {
            return false;
        }
    }
    true
}

fn is_same_partition<A: Allocator>(a: &Ports<A>, b: &Ports<A>, p: usize) -> bool
    requires configuration { a.now.config ≡ b.now.config }
    requires partition { p < length a.now.config.partitions }
    ensures { IsTrue result ↔ IsSamePartition a.now.config a.now.history b.now.history p }
{
    a.mode(p) == b.mode(p) && has_same_ports(a, b, p)
}

fn has_same_ports<A: Allocator>(a: &Ports<A>, b: &Ports<A>, p: usize) -> bool
    requires configuration { a.now.config ≡ b.now.config }
    requires partition { p < length a.now.config.partitions }
    ensures { IsTrue result ↔ IsSamePorts a.now.config a.now.history b.now.history p }
{
    for i in 0..a.config().ports(p) {
        let id = i as u32 + 1;
        if a.created(p, id) != b.created(p, id) {
            return false;
        }
        if a.last_validity(p, id) != b.last_validity(p, id) {
            return false;
        }
    }
    true
}

fn is_same_channel<A: Allocator>(a: &Ports<A>, b: &Ports<A>, c: usize) -> bool
    requires configuration { a.now.config ≡ b.now.config }
    requires channel { c < length a.now.config.channels }
    ensures { IsTrue result ↔ IsSameChannel a.now.config a.now.history b.now.history c }
{
    has_same_sample(a, b, c) && has_same_messages(a, b, c)
}

fn has_same_sample<A: Allocator>(a: &Ports<A>, b: &Ports<A>, c: usize) -> bool
    requires configuration { a.now.config ≡ b.now.config }
    requires channel { c < length a.now.config.channels }
    ensures { IsTrue result ↔ (last_write_on a.now.config c a.now.history
        ≡ last_write_on a.now.config c b.now.history) }
{
    match (a.last_sample(c), b.last_sample(c)) {
        (None, None) => true,
        (Some(sample), Some(other)) => sample.at == other.at && sample.message == other.message,
        _ => false,
    }
}

fn has_same_messages<A: Allocator>(a: &Ports<A>, b: &Ports<A>, c: usize) -> bool
    requires configuration { a.now.config ≡ b.now.config }
    requires channel { c < length a.now.config.channels }
    ensures { IsTrue result ↔ (waiting_on a.now.config c a.now.history
        ≡ waiting_on a.now.config c b.now.history) }
{
    if a.waiting_count(c) != b.waiting_count(c) {
        return false;
    }
    for i in 0..a.waiting_count(c) {
        if !is_same_message(a.waiting(c, i), b.waiting(c, i)) {
            return false;
        }
    }
    true
}

fn is_same_message(a: Option<&[u8]>, b: Option<&[u8]>) -> bool
    ensures { IsTrue result ↔ (option_copied a.entry ≡ option_copied b.entry) }
{
    match (a, b) {
        (None, None) => true,
        (Some(message), Some(other)) => message == other,
        _ => false,
    }
}
