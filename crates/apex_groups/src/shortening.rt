//! Orders of a decision without the calls that it doesn't need.
ghost use Rattle.std.specs.Prelude.{◌≡◌, length, IfOk};
ghost use Rattle.apex_groups.specs.Deciding.{Decides};

use crate::decision::{Decision, decision_by};
use crate::two_orders::TwoOrders;
use apex_module::Config;
use apex_orders::Asked;
use apex_ports::Script;
use apex_types::OutOfMemory;
use std::alloc::{AllocError, Global};

/// The most orders that are tried for a partition.
const TRIES: usize = 64;

/// The orders up to the asked call and the two, which come last.
pub(crate) fn up_to_call(
    alloc: Global,
    asked: &Asked,
    orders: TwoOrders,
) -> Result<TwoOrders, AllocError> {
    let p = asked.partition;
    let mut made = count_of(orders.before.as_slice(), p);
    for partition in [orders.first, orders.second] {
        if partition == p {
            made = made.saturating_add(1);
        }
    }
    let mut after = Vec::new(alloc);
    for q in orders.after.iter() {
        if made <= asked.index {
            after.push(*q)?;
            if *q == p {
                made = made.saturating_add(1);
            }
        }
    }
    Ok(TwoOrders {
        before: orders.before,
        first: orders.first,
        second: orders.second,
        after,
    })
}

/// The decision, with fewer calls if both replies stay the same without a partition's last calls.
pub(crate) fn shortened(
    alloc: Global,
    config: &Config,
    scripts: &[Script],
    clock: bool,
    asked: &Asked,
    decision: Decision,
) -> Result<Decision, OutOfMemory>
    requires count { length scripts.now ≡ length config.now.partitions }
    requires decides { Decides clock config.now scripts.now asked.now decision }
    ensures { IfOk result (Decides clock config.now scripts.now asked.now) }
{
    let mut short = decision;
    for p in 0..config.partitions() {
        short = shortened_by(alloc, config, scripts, clock, asked, short, p)?;
    }
    Ok(short)
}

/// The decision, with fewer last calls of the partition: first it is tried without all that can be left out, then without
/// half as many each time that a reply changes.
fn shortened_by(
    alloc: Global,
    config: &Config,
    scripts: &[Script],
    clock: bool,
    asked: &Asked,
    decision: Decision,
    p: usize,
) -> Result<Decision, OutOfMemory>
    requires count { length scripts.now ≡ length config.now.partitions }
    requires decides { Decides clock config.now scripts.now asked.now decision }
    ensures { IfOk result (Decides clock config.now scripts.now asked.now) }
{
    let mut short = decision;
    let mut size = last_calls(asked, &short.orders, p);
    for _ in 0..TRIES {
        if size == 0 {
            return Ok(short);
        }
        let before = last_calls(asked, &short.orders, p);
        short = without(alloc, config, scripts, clock, asked, short, p, size)?;
        let left = last_calls(asked, &short.orders, p);
        size = if left < before {
            size.min(left)
        } else {
            size / 2
        };
    }
    Ok(short)
}

/// The decision without as many last calls of the partition, if both replies stay the same.
fn without(
    alloc: Global,
    config: &Config,
    scripts: &[Script],
    clock: bool,
    asked: &Asked,
    decision: Decision,
    p: usize,
    count: usize,
) -> Result<Decision, OutOfMemory>
    requires count { length scripts.now ≡ length config.now.partitions }
    requires decides { Decides clock config.now scripts.now asked.now decision }
    ensures { IfOk result (Decides clock config.now scripts.now asked.now) }
{
    let orders = with_fewer(alloc, &decision.orders, p, count)?;
    match decision_by(alloc, config, scripts, clock, asked, orders)? {
        Some(shorter) if shorter.given == decision.given && shorter.other == decision.other => {
            Ok(shorter)
        }
        _ => Ok(decision),
    }
}

/// How many last calls of the partition can be left out: not the two, nor the asked one or a call before it.
fn last_calls(asked: &Asked, orders: &TwoOrders, p: usize) -> usize {
    if p == asked.partition {
        return 0;
    }
    let after = count_of(orders.after.as_slice(), p);
    if p == orders.first || p == orders.second {
        return after;
    }
    count_of(orders.before.as_slice(), p).saturating_add(after)
}

/// The orders without as many last calls of the partition.
fn with_fewer(
    alloc: Global,
    orders: &TwoOrders,
    p: usize,
    count: usize,
) -> Result<TwoOrders, AllocError> {
    let before = count_of(orders.before.as_slice(), p);
    let all = before.saturating_add(count_of(orders.after.as_slice(), p));
    let kept = all.saturating_sub(count);
    Ok(TwoOrders {
        before: with_at_most(alloc, orders.before.as_slice(), p, kept)?,
        first: orders.first,
        second: orders.second,
        after: with_at_most(
            alloc,
            orders.after.as_slice(),
            p,
            kept.saturating_sub(before),
        )?,
    })
}

/// The calls, but of the partition's only the first `most`.
fn with_at_most(
    alloc: Global,
    calls: &[usize],
    p: usize,
    most: usize,
) -> Result<Vec<usize>, AllocError> {
    let mut kept = Vec::new(alloc);
    let mut made: usize = 0;
    for q in calls {
        if *q == p {
            made = made.saturating_add(1);
        }
        if *q != p || made <= most {
            kept.push(*q)?;
        }
    }
    Ok(kept)
}

/// How many of the calls are the partition's.
fn count_of(calls: &[usize], p: usize) -> usize {
    let mut count: usize = 0;
    for q in calls {
        if *q == p {
            count = count.saturating_add(1);
        }
    }
    count
}
