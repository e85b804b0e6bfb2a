//! Ends that differ in a count of a channel.
ghost use Rattle.std.specs.Prelude.{◌≡◌, length, IfOk};
ghost use Rattle.apex_groups.specs.Counts.{KeepTotals, totals_below};

use apex_module::Config;
use apex_orders::{Order, Replayer};
use apex_ports::{Ports, Script};
use apex_types::OutOfMemory;
use std::alloc::{AllocError, Global};
use std::collections::BTreeSet;

/// How many numbers tell what a channel counts.
const EACH: usize = 4;

/// Of the orders that lead to the same totals on every channel the first.
pub(crate) fn different_ends(
    alloc: Global,
    config: &Config,
    scripts: &[Script],
    ends: Vec<Order>,
) -> Result<Vec<Order>, OutOfMemory>
    requires { length scripts.now ≡ length config.now.partitions }
    ensures { IfOk result
        (λ kept. KeepTotals config.now scripts.now ends.items kept.items) }
{
    let mut kept = Vec::new(alloc);
    let mut seen = BTreeSet::new(alloc);
    let mut replayer = Replayer::new(alloc, config)?;
    for end in ends {
        replayer.run(scripts, &end);
        let totals = totals_of(alloc, replayer.ports())?;
        if seen.insert(totals)? {
            kept.push(end)?;
        }
    }
    Ok(kept)
}

/// What each channel counts: how many messages are accepted, received and cleared, and how many wait.
fn totals_of(alloc: Global, ports: &Ports) -> Result<Vec<u64>, AllocError>
    ensures { let channels = length ports.now.config.channels in IfOk result (λ totals.
        totals.items ≡ totals_below ports.now.config ports.now.history channels) }
{
    let channels = ports.config().channels();
    let mut totals = Vec::with_capacity(alloc, channels.saturating_mul(EACH))?;
    for c in 0..channels {
        totals.push(ports.accepted_count(c))?;
        totals.push(ports.received_count(c))?;
        totals.push(ports.cleared_count(c))?;
        totals.push(ports.waiting_count(c) as u64)?;
    }
    Ok(totals)
}
