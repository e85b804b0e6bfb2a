//! Answers to questions about calls of one part.
ghost use Rattle.std.specs.Prelude.{◌≡◌, ◌<◌, ℕ, length, IfOk, IfSome, OnOk};
ghost use Rattle.apex_orders.specs.Outcomes.{IsAnswerTo};
ghost use Rattle.apex_groups.specs.Prelude.{Has};
ghost use Rattle.apex_groups.specs.Answers.{AreOfPart, AreOrdersOf, ArePut, IsMergedAnswer, IsOrderOf};
ghost use Rattle.apex_groups.specs.Groups.{in_group};

use crate::groups::Groups;
use crate::merging::merge_calls;
use crate::parts::Parts;
use crate::questions::{Found, Picked, put_at};
use crate::script_parts::orders_of;
use apex_module::Config;
use apex_orders::{Order, OrdersFault, Progress};
use apex_ports::Script;
use apex_types::OutOfMemory;
use std::alloc::{AllocError, Global};
use std::thread::Threads;

/// Answers questions about the calls of a part by one search of the part, and puts the answers to their indexes. There
/// is no answer if other partitions can change what the part's calls are answered; nor, with `clock`, if it is undecided
/// since the part has too many states. The scripts stay as they were.
pub(crate) fn answer_part<R: Threads + Sync, P: Progress>(
    rt: &R,
    alloc: Global,
    config: &Config,
    parts: &Parts,
    part: usize,
    scripts: &mut [Script],
    clock: bool,
    picked: &Picked,
    bound: usize,
    progress: &mut P,
    answers: &mut [Option<Found>],
) -> Result<(), OutOfMemory>
    requires count { length scripts.old ≡ length config.now.partitions }
    requires part { AreOfPart config.now parts.now scripts.old part picked.now.asked.items }
    requires within { (k : ℕ) → Has picked.now.indexes.items k → k < length answers.old }
    requires alike { length picked.now.asked.items ≡ length picked.now.indexes.items }
    ensures same { scripts.new ≡ scripts.old }
    ensures put { OnOk result
        (ArePut (IsAnswerTo clock P.CanStop config.now scripts.old bound)
        picked.now.indexes.items picked.now.asked.items answers.old answers.new) }
{
    if picked.asked.is_empty() {
        return Ok(());
    }
    let members = parts.members(alloc, config, part)?;
    if !parts.hold(config, part, &members) {
        return Ok(());
    }
    let asked = picked.asked.as_slice();
    let found = orders_of(
        rt, alloc, config, &members, 1, scripts, clock, asked, bound, progress,
    )?;
    let indexes = picked.indexes.as_slice();
    put_merged(
        alloc,
        config,
        &members,
        scripts,
        clock,
        found.as_slice(),
        indexes,
        answers,
    )?;
    Ok(())
}

/// Puts the answers of a part to their indexes, each order with the calls of the other partitions.
fn put_merged(
    alloc: Global,
    config: &Config,
    members: &Groups,
    scripts: &[Script],
    clock: bool,
    found: &[Found],
    indexes: &[usize],
    answers: &mut [Option<Found>],
) -> Result<(), AllocError>
    requires count { length scripts.now ≡ length config.now.partitions }
    requires part { AreOrdersOf clock config.now
        (in_group members.now.of_partitions.items 1) scripts.now found.now }
    requires alike { length found.now ≡ length indexes.now }
    requires within { (k : ℕ) → Has indexes.now k → k < length answers.old }
    ensures { OnOk result (ArePut (IsMergedAnswer clock config.now scripts.now
        (in_group members.now.of_partitions.items 1))
        indexes.now found.now answers.old answers.new) }
{
    for (index, one) in found.iter().enumerate() {
        let answer = merged_answer(alloc, config, members, scripts, clock, one)?;
        put_at(answers, indexes[index], answer);
    }
    Ok(())
}

/// The answer for all scripts, if the part's answer says it: an order gets the calls of the other partitions.
fn merged_answer(
    alloc: Global,
    config: &Config,
    members: &Groups,
    scripts: &[Script],
    clock: bool,
    found: &Found,
) -> Result<Option<Found>, AllocError>
    requires count { length scripts.now ≡ length config.now.partitions }
    requires part { IsOrderOf clock config.now
        (in_group members.now.of_partitions.items 1) scripts.now found.now }
    ensures { IfOk result (λ answer. IfSome answer (IsMergedAnswer clock config.now scripts.now
        (in_group members.now.of_partitions.items 1) found.now)) }
{
    match found {
        Err(OrdersFault::TooManyStates) if clock => Ok(None),
        Err(fault) => Ok(Some(Err(*fault))),
        Ok(None) => Ok(Some(Ok(None))),
        Ok(Some(order)) => {
            let merge = merge_calls(alloc, config, members, scripts, clock, order)?;
            Ok(Some(Ok(Some(Order::new(merge.order)))))
        }
    }
}
