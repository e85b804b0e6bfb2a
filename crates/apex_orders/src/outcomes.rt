//! All that can happen to scripts.
ghost use Rattle.std.specs.Prelude.{◌≡◌, ◌↔◌, length, min, IfOk, IsTrue};
ghost use Rattle.std.specs.List.{sum_by};
ghost use Rattle.apex_orders.specs.Orders.{times};
ghost use Rattle.apex_orders.specs.Outcomes.{AreReplies, AreEnds, IsUndecided};
ghost use Rattle.apex_orders.specs.Searching.{AreEndsOf, NamesAll};

use crate::order::{Order, PackedOrder};
use crate::orders::Orders;
use crate::orders_fault::OrdersFault;
use crate::outcome_search::{OutcomeSearch, Searched};
use crate::progress::NoProgress;
use crate::replies::PossibleReply;
use apex_module::Config;
use apex_ports::Script;
use apex_types::OutOfMemory;
use std::alloc::Global;
use std::thread::Threads;

/// All that can happen to scripts, over every order of their calls.
#[derive(Debug, Drop)]
pub struct Outcomes {
    /// The replies that the calls can get, each once.
    pub replies: Vec<PossibleReply>,
    /// One order for each point that all calls can lead to.
    pub ends: Vec<Order>,
    /// The number of points, including those on the way.
    pub states: usize,
}

/// All that can happen to the partitions' scripts on new ports of the configuration, over every order of their calls.
/// It is undecided if they lead to more states than the bound.
pub fn all_outcomes<R: Threads + Sync>(
    rt: &R,
    alloc: Global,
    config: &Config,
    scripts: &[Script],
    bound: usize,
) -> Result<Outcomes, OrdersFault>
    requires { length scripts.now ≡ length config.now.partitions }
    ensures replies { IfOk result
        (λ found. AreReplies config.now scripts.now found.replies.items) }
    ensures ends { IfOk result (λ found. AreEnds config.now scripts.now found.ends.items) }
    ensures undecided { IsUndecided ⊥ config.now scripts.now bound result }
{
    let search = OutcomeSearch::new(alloc, config, scripts)?;
    let searched = search.run(
        rt,
        usize::MAX,
        alloc,
        config,
        scripts,
        false,
        bound,
        &mut NoProgress,
    )?;
    match searched {
        Searched::All(found) => Ok(found),
        Searched::GivenUp(search, fault) => {
            search.free(rt);
            Err(fault)
        }
    }
}

/// The orders that make all calls. Only an order that is as long as all scripts together can be one.
pub(crate) fn ends_of(
    alloc: Global,
    config: &Config,
    scripts: &[Script],
    orders: &Orders,
) -> Result<Vec<Order>, OutOfMemory>
    requires { length scripts.now ≡ length config.now.partitions }
    ensures ends { IfOk result
        (λ ends. AreEndsOf config.now scripts.now orders.now ends.items) }
{
    let lengths = orders.lengths(alloc)?;
    let total = calls_in(scripts);
    let mut ends = Vec::new(alloc);
    for k in 0..orders.len() {
        if lengths[k] >= total {
            let order = orders.order(alloc, k)?;
            if names_all(&order, scripts) {
                ends.push(order.unpacked(alloc)?)?;
            }
        }
    }
    Ok(ends)
}

/// The number of calls of all scripts; at most `usize::MAX`.
fn calls_in(scripts: &[Script]) -> usize
    ensures { result ≡ min (sum_by length scripts.now) usize.MAX }
{
    let mut calls: usize = 0;
    for script in scripts {
        calls = calls.saturating_add(script.calls.len());
    }
    calls
}

/// Whether the order has as many calls of each partition as its script has, or more.
fn names_all(order: &PackedOrder, scripts: &[Script]) -> bool
    ensures { IsTrue result ↔ NamesAll scripts.now order.now }
{
    for (p, script) in scripts.iter().enumerate() {
        if calls_by(order, p) < script.calls.len() {
            return false;
        }
    }
    true
}

/// How many of the order's calls are the partition's.
fn calls_by(order: &PackedOrder, p: usize) -> usize
    ensures { result ≡ times p order.now }
{
    let partitions = order.partitions();
    partitions.iter().filter(|q| **q as usize == p).count()
}
