//! Compares the points that two orders lead to.
ghost use Rattle.std.specs.Prelude.{◌≡◌, ◌↔◌, IsTrue};
ghost use Rattle.apex_orders.specs.Points.{IsSamePoint, IsSameCalls, IsSameCounts};

use crate::same_state::is_same_state;
use apex_ports::Ports;

/// Whether both made the same number of calls of each partition and led to one state, with the same counts of messages.
pub(crate) fn is_same_point(a: &Ports, b: &Ports) -> bool
    requires { a.now.config ≡ b.now.config }
    ensures { IsTrue result ↔ IsSamePoint a.now.config a.now.history b.now.history }
{
    has_same_calls(a, b) && has_same_counts(a, b) && is_same_state(a, b)
}

fn has_same_calls(a: &Ports, b: &Ports) -> bool
    requires { a.now.config ≡ b.now.config }
    ensures { IsTrue result ↔ IsSameCalls a.now.config a.now.history b.now.history }
{
    for p in 0..a.config().partitions() {
        if a.calls(p) != b.calls(p) {
            return false;
        }
    }
    true
}

fn has_same_counts(a: &Ports, b: &Ports) -> bool
    requires { a.now.config ≡ b.now.config }
    ensures { IsTrue result ↔ IsSameCounts a.now.config a.now.history b.now.history }
{
    for c in 0..a.config().channels() {
        if a.accepted_count(c) != b.accepted_count(c) {
            return false;
        }
        if a.received_count(c) != b.received_count(c) {
            return false;
        }
        if a.cleared_count(c) != b.cleared_count(c) {
            return false;
        }
    }
    true
}
