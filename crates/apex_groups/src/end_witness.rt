//! Orders of all calls that lead to ends.
ghost use Rattle.std.specs.Prelude.{◌≡◌, ◌<◌, ◌↔◌, length, IfOk, IsTrue};
ghost use Rattle.apex_groups.specs.Prelude.{history_of, IsUndecidedWith};
ghost use Rattle.apex_groups.specs.Ends.{AreEndAnswers, FindEnds, FindsEnd, IsSuchEnd};

use crate::asked_end::AskedEnd;
use crate::outcomes::all_outcomes_apart;
use apex_module::Config;
use apex_orders::{Order, OrdersFault, Progress, Replayer};
use apex_ports::Script;
use apex_types::OutOfMemory;
use std::alloc::{AllocError, Global};
use std::thread::Threads;

/// For each question an order of all calls that leads to the end that is asked for; `None` if no order does, or if there
/// is no such channel. With `clock`, the moments of all partitions are of one clock, as for `all_outcomes_apart`. One
/// search of all ends answers all questions.
pub fn orders_to_ends<R: Threads + Sync, P: Progress>(
    rt: &R,
    alloc: Global,
    config: &Config,
    scripts: &[Script],
    clock: bool,
    asked: &[AskedEnd],
    bound: usize,
    progress: &mut P,
) -> Result<Vec<Option<Order>>, OrdersFault>
    requires { length scripts.now ≡ length config.now.partitions }
    ensures answers { IfOk result (λ answers.
        AreEndAnswers clock config.now scripts.now asked.now answers.items) }
    ensures undecided { IsUndecidedWith clock P.CanStop config.now scripts.now bound result }
{
    if asked.is_empty() {
        return Ok(Vec::new(alloc));
    }
    let found = match all_outcomes_apart(rt, alloc, config, scripts, clock, bound, progress) {
        Err(fault) => return Err(fault),
        Ok(found) => found,
    };
    let answers = answers_among(alloc, config, scripts, found.ends.as_slice(), asked)?;
    Ok(answers)
}

/// The first of the orders that leads to each end.
fn answers_among(
    alloc: Global,
    config: &Config,
    scripts: &[Script],
    orders: &[Order],
    asked: &[AskedEnd],
) -> Result<Vec<Option<Order>>, OutOfMemory>
    requires { length scripts.now ≡ length config.now.partitions }
    ensures { IfOk result (λ answers.
        FindEnds config.now scripts.now orders.now asked.now answers.items) }
{
    let mut answers = Vec::with_capacity(alloc, asked.len())?;
    for one in asked {
        answers.push(first_to_end(alloc, config, scripts, orders, one)?)?;
    }
    Ok(answers)
}

/// The first of the orders that leads to the end; `None` if there is no such channel.
fn first_to_end(
    alloc: Global,
    config: &Config,
    scripts: &[Script],
    orders: &[Order],
    asked: &AskedEnd,
) -> Result<Option<Order>, OutOfMemory>
    requires { length scripts.now ≡ length config.now.partitions }
    ensures { IfOk result (FindsEnd config.now scripts.now orders.now asked.now) }
{
    if asked.channel >= config.channels() {
        return Ok(None);
    }
    let mut replayer = Replayer::new(alloc, config)?;
    for order in orders {
        if leads_to(scripts, order, asked, &mut replayer) {
            return Ok(Some(copy_of(alloc, order)?));
        }
    }
    Ok(None)
}

/// The same order.
fn copy_of(alloc: Global, order: &Order) -> Result<Order, AllocError>
    ensures { IfOk result (λ copy. copy ≡ order.now) }
{
    let partitions = Vec::from_slice(alloc, order.partitions())?;
    Ok(Order::new(partitions))
}

/// Whether the order leads to the end.
fn leads_to(scripts: &[Script], order: &Order, asked: &AskedEnd, replayer: &mut Replayer) -> bool
    requires scripts { length scripts.now ≡ length replayer.old.config.partitions }
    requires channel { asked.now.channel < length replayer.old.config.channels }
    ensures leads { let history = history_of replayer.old.config scripts.now order.now in
        IsTrue result ↔ IsSuchEnd replayer.old.config asked.now history }
    ensures config { replayer.new.config ≡ replayer.old.config }
{
    replayer.run(scripts, order);
    asked.is_reached(replayer.ports())
}
