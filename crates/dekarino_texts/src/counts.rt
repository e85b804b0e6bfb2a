//! The counts of queuing channels, over the ends of all orders.
ghost use Rattle.std.specs.Prelude.{◌≡◌, ◌<◌, length, IfOk};
ghost use Rattle.dekarino_texts.specs.Counts.{AreOnly, AreRanges, AreWidened, counts_after, lesser, greater, only, widened};

use apex_module::Config;
use apex_orders::{Order, Replayer};
use apex_ports::{Ports, Script};
use apex_types::OutOfMemory;
use std::alloc::{AllocError, Global};

/// How many messages a channel accepted, how many were received and cleared, and how many wait.
#[derive(Clone, Copy, Debug, PartialEq, Eq)]
pub struct Counts {
    pub accepted: u64,
    pub received: u64,
    pub cleared: u64,
    pub waiting: u64,
}

/// From the lowest to the highest of each count.
#[derive(Clone, Copy, Debug, PartialEq, Eq)]
pub struct Ranges {
    pub lowest: Counts,
    pub highest: Counts,
}

/// The ranges of each channel's counts after these orders of the scripts' calls; before the first call if there is no
/// order.
#[tactic(auto, unfolding(crate::specs::Counts::widened_by))]
pub fn ranges_of(
    alloc: Global,
    config: &Config,
    scripts: &[Script],
    orders: &[Order],
) -> Result<Vec<Ranges>, OutOfMemory>
    requires { length scripts.now ≡ length config.now.partitions }
    ensures { IfOk result (λ all. AreRanges config.now scripts.now orders.now all.items) }
{
    let Some((first, rest)) = orders.split_first() else {
        let ports = Ports::new(alloc, config.copy()?)?;
        return Ok(ranges_at(alloc, &ports)?);
    };
    let mut replayer = Replayer::new(alloc, config)?;
    replayer.run(scripts, first);
    let mut all = ranges_at(alloc, replayer.ports())?;
    for order in rest {
        replayer.run(scripts, order);
        widen(&mut all, replayer.ports());
    }
    Ok(all)
}

/// From each channel's counts to themselves.
fn ranges_at(alloc: Global, ports: &Ports) -> Result<Vec<Ranges>, AllocError>
    ensures { IfOk result (λ all. AreOnly ports.now.config ports.now.history all.items) }
{
    let channels = ports.config().channels();
    let mut all = Vec::with_capacity(alloc, channels)?;
    for c in 0..channels {
        all.push(only(counts_of(ports, c)))?;
    }
    Ok(all)
}

/// Makes the ranges so wide that each channel's counts are within.
fn widen(all: &mut Vec<Ranges>, ports: &Ports)
    requires { length all.old.items ≡ length ports.now.config.channels }
    ensures { AreWidened ports.now.config ports.now.history all.old.items all.new.items }
{
    for c in 0..all.len() {
        all[c] = widened(all[c], counts_of(ports, c));
    }
}

fn only(counts: Counts) -> Ranges
    ensures { result ≡ only counts }
{
    Ranges {
        lowest: counts,
        highest: counts,
    }
}

fn widened(ranges: Ranges, counts: Counts) -> Ranges
    ensures { result ≡ widened ranges counts }
{
    Ranges {
        lowest: lesser(ranges.lowest, counts),
        highest: greater(ranges.highest, counts),
    }
}

fn lesser(a: Counts, b: Counts) -> Counts
    ensures { result ≡ lesser a b }
{
    Counts {
        accepted: a.accepted.min(b.accepted),
        received: a.received.min(b.received),
        cleared: a.cleared.min(b.cleared),
        waiting: a.waiting.min(b.waiting),
    }
}

fn greater(a: Counts, b: Counts) -> Counts
    ensures { result ≡ greater a b }
{
    Counts {
        accepted: a.accepted.max(b.accepted),
        received: a.received.max(b.received),
        cleared: a.cleared.max(b.cleared),
        waiting: a.waiting.max(b.waiting),
    }
}

fn counts_of(ports: &Ports, c: usize) -> Counts
    requires { c < length ports.now.config.channels }
    ensures { result ≡ counts_after ports.now.config ports.now.history c }
{
    Counts {
        accepted: ports.accepted_count(c),
        received: ports.received_count(c),
        cleared: ports.cleared_count(c),
        waiting: ports.waiting_count(c) as u64,
    }
}
