//! Orders in which calls get asked replies.
ghost use Rattle.std.specs.Prelude.{◌≡◌, length, IfOk};
ghost use Rattle.apex_orders.specs.Outcomes.{AreAnswersTo};
ghost use Rattle.apex_orders.specs.Searching.{answer_by};

use crate::asked::Asked;
use crate::order::{Order, PackedOrder};
use crate::orders_fault::OrdersFault;
use crate::progress::Progress;
use crate::rounds::search_points;
use apex_module::Config;
use apex_ports::Script;
use apex_types::OutOfMemory;
use std::alloc::Global;
use std::thread::Threads;

/// For each question an order in which the asked call gets an admitted reply: the calls up to that one, which is the last.
/// `None` if no order of all calls gives it such a reply. One search answers all questions, and ends once each has its
/// order; if it is given up before, the questions that have none are undecided. The bound, `clock` and `progress` are
/// those of `OutcomeSearch`.
pub fn orders_giving<R: Threads + Sync, P: Progress>(
    rt: &R,
    alloc: Global,
    config: &Config,
    scripts: &[Script],
    clock: bool,
    asked: &[Asked],
    bound: usize,
    progress: &mut P,
) -> Result<Vec<Result<Option<Order>, OrdersFault>>, OutOfMemory>
    requires { length scripts.now ≡ length config.now.partitions }
    ensures { IfOk result (λ answers.
        AreAnswersTo clock P.CanStop config.now scripts.now bound asked.now answers.items) }
{
    let partitions = config.partitions();
    prove!(scripts.len() == partitions);
    let found = search_points(rt, alloc, config, scripts, clock, asked, bound, progress)?;
    let mut answers = Vec::with_capacity(alloc, found.answers.len())?;
    for q in 0..found.answers.len() {
        let answer = answer_of(alloc, &found.answers[q], found.given_up)?;
        answers.push(answer)?;
    }
    Ok(answers)
}

/// The answer to a question: its order, or none, or why the search was given up.
fn answer_of(
    alloc: Global,
    order: &Option<PackedOrder>,
    given_up: Option<OrdersFault>,
) -> Result<Result<Option<Order>, OrdersFault>, OutOfMemory>
    ensures { IfOk result (λ answer. answer ≡ answer_by given_up order.now) }
{
    match (order, given_up) {
        (Some(order), _) => {
            let order = order.unpacked(alloc)?;
            Ok(Ok(Some(order)))
        }
        (None, None) => Ok(Ok(None)),
        (None, Some(fault)) => Ok(Err(fault)),
    }
}
