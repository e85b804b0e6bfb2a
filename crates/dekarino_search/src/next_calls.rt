//! The calls that are next after an order of logs that partitions kept apart.
ghost use Rattle.std.specs.Prelude.{◌≡◌};

use crate::own_logs::{OwnLine, OwnLogs};
use apex_judge::Judge;
use apex_log_orders::{CallPlace, OwnLog};
use apex_module::Config;
use apex_ports::Entry;
use apex_types::{OutOfMemory, Reply};
use dekarino_texts::DepartureWords;
use std::alloc::{AllocError, Global};

/// Appends the words of the next call of each partition after an order, if its reply isn't the standard's there.
pub(crate) fn push_next_calls<D: DepartureWords>(
    alloc: Global,
    config: &Config,
    all: &OwnLogs<'_>,
    order: &[CallPlace],
    words: &mut D,
) -> Result<(), OutOfMemory> {
    let (judge, made) = judge_after(alloc, config, all.logs.as_slice(), order)?;
    for (p, (log, file)) in all.logs.iter().zip(all.files.iter()).enumerate() {
        let next = made.get(p).copied().unwrap_or(0);
        if let (Some(entry), Some(line)) = (log.entries.get(next), file.lines.get(next)) {
            push_call(&judge, file.path, *line, entry, words)?;
        }
    }
    Ok(())
}

/// A judge after the entries at these places, and how many of them are each partition's.
fn judge_after(
    alloc: Global,
    config: &Config,
    logs: &[OwnLog],
    places: &[CallPlace],
) -> Result<(Judge, Vec<usize>), OutOfMemory> {
    let mut judge = Judge::new(alloc, config.copy()?)?;
    let mut made = vec![in alloc; 0; logs.len()]?;
    for place in places {
        add_entry(logs, &mut judge, &mut made, *place)?;
    }
    Ok((judge, made))
}

/// Adds the entry at a place to the judge's log, and counts it.
fn add_entry(
    logs: &[OwnLog],
    judge: &mut Judge,
    made: &mut Vec<usize>,
    place: CallPlace,
) -> Result<(), OutOfMemory> {
    let p = place.partition;
    let Some(entry) = logs.get(p).and_then(|log| log.entries.get(place.index)) else {
        return Ok(());
    };
    if p < judge.config().partitions() {
        judge.add(p, entry.at, &entry.call, &entry.reply)?;
    }
    if let Some(count) = made.get_mut(p) {
        *count = count.saturating_add(1);
    }
    Ok(())
}

/// Appends the words of a call, if its reply isn't the standard's.
fn push_call<D: DepartureWords>(
    judge: &Judge,
    file: &str,
    line: OwnLine,
    entry: &Entry,
    words: &mut D,
) -> Result<(), AllocError> {
    let config = judge.config();
    if entry.partition >= config.partitions() {
        return Ok(());
    }
    match judge.instead_of(entry.partition, entry.at, &entry.call, &entry.reply) {
        None => Ok(()),
        Some(mut expected) => {
            line.place.wait.wait(&mut expected.reply);
            let logged = logged(entry, line);
            words.push_departure(config, file, line.place, &logged, &entry.call, &expected)
        }
    }
}

/// An entry as it was logged.
fn logged(entry: &Entry, line: OwnLine) -> Entry
    ensures { result.partition ≡ entry.now.partition }
{
    Entry {
        partition: entry.partition,
        at: entry.at,
        call: entry.call.copy(),
        reply: match line.code {
            Some(code) => Reply::Code(code),
            None => entry.reply.copy(),
        },
    }
}
