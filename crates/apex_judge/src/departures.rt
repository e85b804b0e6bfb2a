//! The departures of a whole log.
ghost use Rattle.std.specs.Prelude.{◌≡◌, ◌++◌, ◌↔◌, IfOk, IsTrue};
ghost use Rattle.apex_judge.specs.Departures.{departure_at, departures_of};
ghost use Rattle.apex_judge.specs.DepartureLaws.{HasPartitions};

use crate::departure::{Departure, Expected};
use crate::judge::Judge;
use apex_module::Config;
use apex_ports::Entry;
use apex_types::OutOfMemory;
use std::alloc::{AllocFailed, Allocator};

/// The departures of a log from the standard, in order. Each entry has a partition of the configuration.
pub fn judge_log<A: Allocator + Copy>(
    alloc: A,
    config: Config,
    log: &[Entry],
) -> Result<Vec<Departure, A>, OutOfMemory>
    requires { HasPartitions config log.now }
    ensures { IfOk result (λ found. found.items ≡ departures_of config log.now) }
{
    let mut judge = Judge::new(alloc, config)?;
    let mut found = Vec::new(alloc);
    for (index, entry) in log.iter().enumerate() {
        let instead = judge.judge(entry.partition, entry.at, &entry.call, &entry.reply)?;
        push_departure(&mut found, index, instead)?;
    }
    Ok(found)
}

/// Whether each entry has a partition of the configuration, as `judge_log` asks.
pub fn has_partitions(config: &Config, log: &[Entry]) -> bool
    ensures { IsTrue result ↔ HasPartitions config.now log.now }
{
    for entry in log {
        if entry.partition >= config.partitions() {
            return false;
        }
    }
    true
}

// Notes what the standard has instead of the reply at an index, if they differ.
fn push_departure<A: Allocator>(
    found: &mut Vec<Departure, A>,
    index: usize,
    instead: Option<Expected>,
) -> Result<(), AllocFailed<Departure>>
    ensures { IfOk result (λ _. found.new.items ≡ found.old.items ++ departure_at index instead) }
{
    let Some(expected) = instead else {
        return Ok(());
    };
    found.push(Departure { index, expected })
}
