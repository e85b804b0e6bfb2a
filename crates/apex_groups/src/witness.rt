//! Orders in which calls get replies, searched for in the parts of the calls.
ghost use Rattle.std.specs.Prelude.{◌≡◌, length, IfOk, IfSome, IfNone};
ghost use Rattle.apex_orders.specs.Outcomes.{AreAnswersTo};
ghost use Rattle.apex_groups.specs.Prelude.{CanBeAnsweredWith, IsAnsweredByWith, IsUndecidedWith};
ghost use Rattle.apex_groups.specs.Answers.{AreKnown};

use crate::part_answers::answer_part;
use crate::parts::Parts;
use crate::questions::{Found, Picked, all_answers, no_answers, put_all};
use apex_module::Config;
use apex_orders::{Asked, Order, OrdersFault, Progress, orders_giving};
use apex_ports::Script;
use apex_types::OutOfMemory;
use std::alloc::Global;
use std::slice;
use std::thread::Threads;

/// The answer to each question, like `orders_giving` of `apex_orders`, but the questions about one partition's calls of one
/// part are answered by one search of the partitions at the ends of its channels. With `clock`, the moments of all partitions are
/// of one clock, and each order also has the calls of the others that come before. Questions that are then undecided,
/// since their parts lead to more states than the bound, are answered by one search of all calls. The scripts change only
/// during the search.
pub fn orders_giving_apart<R: Threads + Sync, P: Progress>(
    rt: &R,
    alloc: Global,
    config: &Config,
    scripts: &mut [Script],
    clock: bool,
    asked: &[Asked],
    bound: usize,
    progress: &mut P,
) -> Result<Vec<Result<Option<Order>, OrdersFault>>, OutOfMemory>
    requires { length scripts.old ≡ length config.now.partitions }
    ensures same { scripts.new ≡ scripts.old }
    ensures answers { IfOk result (λ answers.
        AreAnswersTo clock P.CanStop config.now scripts.old bound asked.now answers.items) }
{
    let answers = answers_of_parts(rt, alloc, config, scripts, clock, asked, bound, progress)?;
    with_missing(
        rt, alloc, config, scripts, clock, asked, bound, progress, answers,
    )
}

/// The answers that searches of the parts give. A search always tries the next calls of the partitions that it is asked
/// about, so those of two of them would multiply the states: each has a search of its own.
fn answers_of_parts<R: Threads + Sync, P: Progress>(
    rt: &R,
    alloc: Global,
    config: &Config,
    scripts: &mut [Script],
    clock: bool,
    asked: &[Asked],
    bound: usize,
    progress: &mut P,
) -> Result<Vec<Option<Found>>, OutOfMemory>
    requires { length scripts.old ≡ length config.now.partitions }
    ensures same { scripts.new ≡ scripts.old }
    ensures count { IfOk result (λ answers. length answers.items ≡ length asked.now) }
    ensures known { IfOk result (λ answers.
        AreKnown clock P.CanStop config.now scripts.old bound asked.now answers.items) }
{
    let parts = Parts::new(alloc, config)?;
    let mut answers = no_answers(alloc, asked.len())?;
    for part in 0..parts.count {
        for p in 0..config.partitions() {
            let picked = Picked::of_part(alloc, config, &parts, part, p, scripts, asked)?;
            let answers = answers.as_mut_slice();
            answer_part(
                rt, alloc, config, &parts, part, scripts, clock, &picked, bound, progress, answers,
            )?;
        }
    }
    Ok(answers)
}

/// The answers, with those that were missing: one search of all calls gives them.
fn with_missing<R: Threads + Sync, P: Progress>(
    rt: &R,
    alloc: Global,
    config: &Config,
    scripts: &[Script],
    clock: bool,
    asked: &[Asked],
    bound: usize,
    progress: &mut P,
    mut answers: Vec<Option<Found>>,
) -> Result<Vec<Found>, OutOfMemory>
    requires scripts { length scripts.now ≡ length config.now.partitions }
    requires count { length answers.items ≡ length asked.now }
    requires known { AreKnown clock P.CanStop config.now scripts.now bound asked.now answers.items }
    ensures { IfOk result (λ all.
        AreAnswersTo clock P.CanStop config.now scripts.now bound asked.now all.items) }
{
    let missing = Picked::unanswered(alloc, asked, answers.as_slice())?;
    let asked = missing.asked.as_slice();
    let found = orders_of_all(rt, alloc, config, scripts, clock, asked, bound, progress)?;
    put_all(missing.indexes.as_slice(), found, answers.as_mut_slice());
    let all = all_answers(alloc, answers)?;
    Ok(all)
}

/// The answers that a search of all calls gives. Without questions there is no search.
fn orders_of_all<R: Threads + Sync, P: Progress>(
    rt: &R,
    alloc: Global,
    config: &Config,
    scripts: &[Script],
    clock: bool,
    asked: &[Asked],
    bound: usize,
    progress: &mut P,
) -> Result<Vec<Found>, OutOfMemory>
    requires { length scripts.now ≡ length config.now.partitions }
    ensures { IfOk result (λ answers.
        AreAnswersTo clock P.CanStop config.now scripts.now bound asked.now answers.items) }
{
    if asked.is_empty() {
        return Ok(Vec::new(alloc));
    }
    orders_giving(rt, alloc, config, scripts, clock, asked, bound, progress)
}

/// An order in which the asked call gets an admitted reply: the answer of `orders_giving_apart` to one question.
pub fn order_giving_apart<R: Threads + Sync, P: Progress>(
    rt: &R,
    alloc: Global,
    config: &Config,
    scripts: &mut [Script],
    clock: bool,
    asked: &Asked,
    bound: usize,
    progress: &mut P,
) -> Result<Option<Order>, OrdersFault>
    requires { length scripts.old ≡ length config.now.partitions }
    ensures same { scripts.new ≡ scripts.old }
    ensures found { IfOk result (λ answer. IfSome answer (λ order.
        IsAnsweredByWith clock config.now scripts.old asked.now order)) }
    ensures never { IfOk result
        (λ answer. IfNone answer (¬ CanBeAnsweredWith clock config.now scripts.old asked.now)) }
    ensures undecided { IsUndecidedWith clock P.CanStop config.now scripts.old bound result }
{
    let asked = slice::from_ref(asked);
    let mut answers = orders_giving_apart(
        rt, alloc, config, scripts, clock, asked, bound, progress,
    )?;
    match answers.pop() {
        Some(answer) => answer,
        None => unreachable!(),
    }
}
