//! Judges the entries of an order.
ghost use Rattle.std.specs.Prelude.{◌≡◌, ◌++◌, ◌∷◌, [], IfOk};
ghost use Rattle.apex_log_orders.specs.LogOrders.{entries_at};
ghost use Rattle.apex_log_orders.specs.Walking.{AreOwn, IsOwn};

use crate::answer::{CallPlace, OwnLog};
use apex_judge::Judge;
use apex_module::Config;
use apex_types::OutOfMemory;
use std::alloc::Global;

/// A judge after the entries at these places.
pub(crate) fn judge_at(
    alloc: Global,
    config: &Config,
    logs: &[OwnLog],
    places: &[CallPlace],
) -> Result<Judge, OutOfMemory>
    requires { AreOwn config.now logs.now places.now }
    ensures config { IfOk result (λ judge. judge.config ≡ config.now) }
    ensures log { IfOk result (λ judge. judge.log ≡ entries_at logs.now places.now) }
{
    let mut judge = Judge::new(alloc, config.copy()?)?;
    for place in places {
        add_at(&mut judge, config, logs, *place)?;
    }
    Ok(judge)
}

/// Applies the entry at a place to the judge.
pub(crate) fn add_at(
    judge: &mut Judge,
    config: &Config,
    logs: &[OwnLog],
    place: CallPlace,
) -> Result<(), OutOfMemory>
    requires config { judge.old.config ≡ config.now }
    requires own { IsOwn config.now logs.now place }
    ensures config { judge.new.config ≡ config.now }
    ensures log { IfOk result
        (λ _. judge.new.log ≡ judge.old.log ++ entries_at logs.now (place ∷ [])) }
{
    prove!(place.partition < logs.len());
    let log = &logs[place.partition];
    prove!(place.index < log.entries.len());
    let entry = &log.entries[place.index];
    judge.add(place.partition, entry.at, &entry.call, &entry.reply)
}
