//! Two calls that decide, looked for between two orders.
ghost use Rattle.std.specs.Prelude.{◌≡◌, length, IfOk, IfSome};
ghost use Rattle.apex_groups.specs.Deciding.{Decides};

use crate::decision::{Decision, decision_by, reply_in};
use crate::shortening::{shortened, up_to_call};
use crate::two_orders::TwoOrders;
use apex_module::Config;
use apex_orders::{Asked, Order};
use apex_ports::Script;
use apex_types::OutOfMemory;
use std::alloc::{AllocError, Global};

/// The most halvings of a distance between two places of an order.
const HALVINGS: usize = 64;

/// Two calls that decide, found between an order that gives an admitted reply and one that gives another reply. The first
/// order becomes the second in steps: its first `n` calls become those of the second, and the others follow as they were.
/// Between two such steps one call moves ahead, past one other after the other. Halving finds a place at which the reply
/// turns.
pub(crate) fn decision_between(
    alloc: Global,
    config: &Config,
    scripts: &[Script],
    clock: bool,
    asked: &Asked,
    given: &Order,
    other: &Order,
) -> Result<Option<Decision>, OutOfMemory>
    requires { length scripts.now ≡ length config.now.partitions }
    ensures { IfOk result (λ found. IfSome found (λ decision.
        Decides clock config.now scripts.now asked.now decision)) }
{
    let count = config.partitions();
    let from = followed_by(alloc, given.partitions(), other.partitions(), count)?;
    let to = followed_by(alloc, other.partitions(), given.partitions(), count)?;
    let (from, to) = (from.as_slice(), to.as_slice());
    let Some(orders) = orders_between(alloc, config, scripts, clock, asked, from, to)? else {
        return Ok(None);
    };
    let orders = up_to_call(alloc, asked, orders)?;
    match decision_by(alloc, config, scripts, clock, asked, orders)? {
        None => Ok(None),
        Some(decision) => {
            let short = shortened(alloc, config, scripts, clock, asked, decision)?;
            Ok(Some(short))
        }
    }
}

/// The two orders at a place at which the reply turns, if there is one.
fn orders_between(
    alloc: Global,
    config: &Config,
    scripts: &[Script],
    clock: bool,
    asked: &Asked,
    from: &[usize],
    to: &[usize],
) -> Result<Option<TwoOrders>, OutOfMemory>
    requires { length scripts.now ≡ length config.now.partitions }
{
    let (mut low, mut high) = (0, to.len());
    for _ in 0..HALVINGS {
        if let Some(middle) = between(low, high) {
            let order = followed_by(alloc, first_of(to, middle), from, config.partitions())?;
            if is_admitted(alloc, config, scripts, clock, asked, order)? {
                low = middle;
            } else {
                high = middle;
            }
        }
    }
    let order = followed_by(alloc, first_of(to, low), from, config.partitions())?;
    let Some(p) = to.get(low) else {
        return Ok(None);
    };
    turning(
        alloc,
        config,
        scripts,
        clock,
        asked,
        order.as_slice(),
        low,
        *p,
    )
}

/// The two orders at the place at which the reply turns if the partition's first call from a place on moves ahead to that
/// place.
fn turning(
    alloc: Global,
    config: &Config,
    scripts: &[Script],
    clock: bool,
    asked: &Asked,
    order: &[usize],
    place: usize,
    p: usize,
) -> Result<Option<TwoOrders>, OutOfMemory>
    requires { length scripts.now ≡ length config.now.partitions }
{
    let Some(last) = place_of(order, place, p) else {
        return Ok(None);
    };
    let (mut low, mut high) = (place, last);
    for _ in 0..HALVINGS {
        if let Some(middle) = between(low, high) {
            let moved = with_moved(alloc, order, last, middle)?;
            if is_admitted(alloc, config, scripts, clock, asked, moved)? {
                high = middle;
            } else {
                low = middle;
            }
        }
    }
    Ok(orders_at(alloc, order, last, low)?)
}

/// The order in which the call at a place comes after the call at another place, behind which it was, and that in which
/// it comes before that call.
fn orders_at(
    alloc: Global,
    order: &[usize],
    last: usize,
    place: usize,
) -> Result<Option<TwoOrders>, AllocError> {
    let (Some(first), Some(second)) = (order.get(place), order.get(last)) else {
        return Ok(None);
    };
    let mut before = Vec::new(alloc);
    let mut after = Vec::new(alloc);
    for (k, p) in order.iter().enumerate() {
        if k < place {
            before.push(*p)?;
        } else if k > place && k != last {
            after.push(*p)?;
        }
    }
    Ok(Some(TwoOrders {
        before,
        first: *first,
        second: *second,
        after,
    }))
}

/// Whether the asked call gets an admitted reply in the order.
fn is_admitted(
    alloc: Global,
    config: &Config,
    scripts: &[Script],
    clock: bool,
    asked: &Asked,
    order: Vec<usize>,
) -> Result<bool, OutOfMemory>
    requires { length scripts.now ≡ length config.now.partitions }
{
    let order = Order::new(order);
    let reply = reply_in(alloc, config, scripts, clock, asked, &order)?;
    match reply {
        Some(reply) => Ok(asked.admitted.admits(&reply)),
        None => Ok(false),
    }
}

/// A number in the middle between two, if there is one between them.
fn between(low: usize, high: usize) -> Option<usize> {
    if low < high && high - low > 1 {
        Some(low + (high - low) / 2)
    } else {
        None
    }
}

/// The first calls, `count` of them.
fn first_of(calls: &[usize], count: usize) -> &[usize] {
    if count < calls.len() {
        &calls[..count]
    } else {
        calls
    }
}

/// The first place from `start` on at which the partition makes a call.
fn place_of(order: &[usize], start: usize, p: usize) -> Option<usize> {
    for k in start..order.len() {
        if order[k] == p {
            return Some(k);
        }
    }
    None
}

/// The calls, then those of others that are not among them.
fn followed_by(
    alloc: Global,
    calls: &[usize],
    others: &[usize],
    partitions: usize,
) -> Result<Vec<usize>, AllocError> {
    let mut all = Vec::new(alloc);
    let mut made = vec![in alloc; 0usize; partitions]?;
    let made = made.as_mut_slice();
    for p in calls {
        all.push(*p)?;
        if let Some(count) = made.get_mut(*p) {
            *count = count.saturating_add(1);
        }
    }
    for p in others {
        match made.get_mut(*p) {
            Some(count) if *count > 0 => *count -= 1,
            _ => all.push(*p)?,
        }
    }
    Ok(all)
}

/// The order with the call at a place moved ahead to another.
fn with_moved(
    alloc: Global,
    order: &[usize],
    last: usize,
    place: usize,
) -> Result<Vec<usize>, AllocError> {
    let mut moved = Vec::new(alloc);
    for (k, p) in order.iter().enumerate() {
        if k == place {
            if let Some(it) = order.get(last) {
                moved.push(*it)?;
            }
        }
        if k != last {
            moved.push(*p)?;
        }
    }
    Ok(moved)
}
