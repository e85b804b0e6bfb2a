//! Orders that end with replies.
ghost use Rattle.std.specs.Prelude.{◌≡◌, ℕ, None, Ok, Some, length, map, slice_get, IfOk};
ghost use Rattle.apex_groups.specs.Answers.{AreReplyOrders, question_about, answer_with};
ghost use Rattle.apex_groups.specs.Prelude.{CanOccurWith, Has, PossibleReply};

use crate::questions::Found;
use crate::witness::orders_giving_apart;
use apex_module::Config;
use apex_orders::{Admitted, Asked, Order, OrdersFault, PossibleReply, Progress};
use apex_ports::Script;
use apex_types::OutOfMemory;
use std::alloc::{AllocError, Global};
use std::thread::Threads;

/// For each of these replies, each of which some order of all calls gives: an order that ends with its call and gives that
/// reply, or why none is known. It searches like `orders_giving_apart`.
pub fn orders_of_replies<R: Threads + Sync, P: Progress>(
    rt: &R,
    alloc: Global,
    config: &Config,
    scripts: &mut [Script],
    clock: bool,
    replies: Vec<PossibleReply>,
    bound: usize,
    progress: &mut P,
) -> Result<Vec<Result<Order, OrdersFault>>, OutOfMemory>
    requires count { length scripts.old ≡ length config.now.partitions }
    requires possible { (one : PossibleReply) → Has replies.items one
        → CanOccurWith clock config.now scripts.old one }
    ensures same { scripts.new ≡ scripts.old }
    ensures orders { IfOk result (λ orders.
        AreReplyOrders clock P.CanStop config.now scripts.old bound replies.items orders.items) }
{
    let asked = questions_about(alloc, replies)?;
    let asked = asked.as_slice();
    let answers = orders_giving_apart(rt, alloc, config, scripts, clock, asked, bound, progress)?;
    let orders = orders_in(alloc, answers)?;
    Ok(orders)
}

/// For each reply the question whether its call gets it.
fn questions_about(alloc: Global, replies: Vec<PossibleReply>) -> Result<Vec<Asked>, AllocError>
    ensures { IfOk result (λ asked. asked.items ≡ map question_about replies.items) }
{
    let mut asked = Vec::with_capacity(alloc, replies.len())?;
    for one in replies {
        asked.push(Asked {
            partition: one.partition,
            index: one.index,
            admitted: Admitted::Reply(one.reply),
        })?;
    }
    Ok(asked)
}

/// The orders in the answers, of which none says that there is no order.
fn orders_in(
    alloc: Global,
    answers: Vec<Found>,
) -> Result<Vec<Result<Order, OrdersFault>>, AllocError>
    requires { (k : ℕ) → ¬ (slice_get answers.items k ≡ Some (Ok None)) }
    ensures { IfOk result (λ orders. map answer_with orders.items ≡ answers.items) }
{
    let mut orders = Vec::with_capacity(alloc, answers.len())?;
    for answer in answers {
        match answer {
            Err(fault) => orders.push(Err(fault))?,
            Ok(Some(order)) => orders.push(Ok(order))?,
            Ok(None) => unreachable!(),
        }
    }
    Ok(orders)
}
