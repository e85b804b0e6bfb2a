//! How much of a level each worker is given. Neither points nor processors are equal, so the shares follow the workers' speed.
ghost use Rattle.std.specs.Prelude.{◌≡◌, ◌<◌, ◌≤◌, ◌+◌};

use crate::worker::Worker;
use apex_ports::SavedPorts;
use std::alloc::AllocError;
use std::collections::VecDeque;

/// The weight of a worker before its speed is known.
pub(crate) const FIRST_WEIGHT: usize = 1 << 20;

/// For how many points that a worker has left it is worth to share them with another one.
pub(crate) const POINTS_SHARED: usize = 256;

/// The slowest worker gives away its weight divided by this.
const WEIGHT_STEPS: usize = 64;

/// How many of the points that are left are given to the worker at the index, of so many workers. The last one is given all
/// of them.
pub(crate) fn share_of(left: usize, weights: &[usize], k: usize, count: usize) -> usize
    requires { k < count }
    ensures within { result ≤ left }
    ensures last { count ≤ k + 1 → result ≡ left }
{
    if k + 1 >= count || k >= weights.len() {
        return left;
    }
    let mut all: usize = 0;
    for weight in &weights[k..] {
        all = all.saturating_add(*weight);
    }
    let share = left.saturating_mul(weights[k]) / all.max(1);
    share.min(left)
}

/// How many points are left after the next of `parts` equal parts of them.
pub(crate) fn rest_after(points: usize, parts: usize) -> usize
    ensures { parts ≤ 1 → result ≡ 0 }
{
    if parts <= 1 {
        return 0;
    }
    points - points / parts
}

/// Lets the slowest worker give a little of its weight to the others.
pub(crate) fn lighten(weights: &mut [usize], slowest: usize) {
    let count = weights.len();
    if slowest >= count {
        return;
    }
    let more = weights[slowest] / WEIGHT_STEPS / count;
    weights[slowest] = weights[slowest].saturating_sub(more.saturating_mul(count));
    for weight in weights.iter_mut() {
        *weight = weight.saturating_add(more);
    }
}

/// Moves the saved ports to the workers, about as many to each.
pub(crate) fn share_out(
    saved: &mut VecDeque<SavedPorts>,
    workers: &mut [Worker],
) -> Result<(), AllocError> {
    for k in 0..workers.len() {
        let share = saved.len() / (workers.len() - k);
        let at = saved.len() - share;
        workers[k].points = saved.split_off(at)?;
    }
    Ok(())
}
