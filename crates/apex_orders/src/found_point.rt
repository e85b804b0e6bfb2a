//! The points that a worker of a search finds.
ghost use Rattle.std.specs.Prelude.{◌≡◌, Some, slice_get, IsTrue, ◌↔◌};
ghost use Rattle.apex_orders.specs.Hashes.{hash_of};
ghost use Rattle.apex_orders.specs.Points.{IsSamePoint};
ghost use Rattle.apex_orders.specs.Workers.{AreHashed, HasPoint};
ghost use Rattle.apex_orders.specs.declared.found_point.FoundPoint.{FoundPoint};

use crate::hash_index::HashIndex;
use crate::point::is_same_point;
use crate::trial::Trial;
use apex_ports::SavedPorts;
use std::collections::VecDeque;

/// A point that was found one call after one of a worker's points.
#[derive(Drop)]
pub(crate) struct FoundPoint {
    /// The index of the point before the call among the worker's points.
    pub(crate) before: usize,
    /// The partition that makes the call.
    pub(crate) partition: usize,
    pub(crate) hash: u64,
    pub(crate) saved: SavedPorts,
}

/// Whether one of these points is that of the trial's ports, which are saved and have this hash.
pub(crate) fn has_found(
    found: &VecDeque<FoundPoint>,
    hashes: &HashIndex,
    saved: &SavedPorts,
    trial: &mut Trial,
    hash: u64,
) -> bool
    requires hashed { AreHashed trial.old.ports.config found.now.items hashes.now }
    requires hash { hash ≡ hash_of trial.old.ports.config trial.old.ports.history }
    requires config { trial.old.other.config ≡ trial.old.ports.config }
    requires saved { saved.now ≡ trial.old.ports }
    ensures found { IsTrue result ↔ HasPoint found.now.items trial.old.ports }
    ensures ports { trial.new.ports ≡ trial.old.ports }
    ensures other { trial.new.other.config ≡ trial.old.other.config }
{
    let mut count = hashes.up_to_last(hash);
    while count > 0 {
        let k = count - 1;
        if is_point_at(found, k, saved, trial) {
            return true;
        }
        count = hashes.up_to_earlier(hash, k);
    }
    false
}

/// Whether the point at the index is that of the trial's ports.
fn is_point_at(
    found: &VecDeque<FoundPoint>,
    k: usize,
    saved: &SavedPorts,
    trial: &mut Trial,
) -> bool
    requires configured { (one : FoundPoint) → slice_get found.now.items k ≡ Some one
        → one.saved.config ≡ trial.old.other.config }
    requires config { trial.old.other.config ≡ trial.old.ports.config }
    requires saved { saved.now ≡ trial.old.ports }
    ensures same { IsTrue result → (one : FoundPoint) × (slice_get found.now.items k ≡ Some one)
        × IsSamePoint trial.old.ports.config trial.old.ports.history one.saved.history }
    ensures other { (one : FoundPoint) → slice_get found.now.items k ≡ Some one
        → IsSamePoint trial.old.ports.config trial.old.ports.history one.saved.history
        → IsTrue result }
    ensures ports { trial.new.ports ≡ trial.old.ports }
    ensures config { trial.new.other.config ≡ trial.old.other.config }
{
    match found.get(k) {
        None => false,
        Some(one) => is_point(&one.saved, saved, trial),
    }
}

/// Whether the point was saved there. Mostly its bytes tell.
fn is_point(point: &SavedPorts, saved: &SavedPorts, trial: &mut Trial) -> bool
    requires configured { point.now.config ≡ trial.old.other.config }
    requires config { trial.old.other.config ≡ trial.old.ports.config }
    requires saved { saved.now ≡ trial.old.ports }
    ensures same { IsTrue result
        ↔ IsSamePoint trial.old.ports.config trial.old.ports.history point.now.history }
    ensures ports { trial.new.ports ≡ trial.old.ports }
    ensures config { trial.new.other.config ≡ trial.old.other.config }
{
    if saved.is_same(point) {
        return true;
    }
    trial.other.restore(point);
    is_same_point(&trial.ports, &trial.other)
}
