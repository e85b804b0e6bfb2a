//! Scripts whose moments are of one clock.
ghost use Rattle.std.specs.Prelude.{◌<◌, length, IfNone, IfSome};
ghost use Rattle.apex_orders.specs.Clock.{IsAscending};

use crate::unfinished::Unfinished;
use apex_files::partition_and_path;
use apex_module::Config;
use apex_ports::Script;
use dekarino_texts::LineNumbers;
use std::alloc::{AllocError, Global};

/// Refuses the first script in which a call has a smaller moment than the call before it, by its argument and the line.
pub(crate) fn check_moments<'a>(
    alloc: Global,
    config: &Config,
    arguments: &[&'a str],
    scripts: &[Script],
    lines: &[LineNumbers],
) -> Result<(), Unfinished<'a>> {
    for argument in arguments {
        let Some((p, _)) = partition_and_path(config, argument) else {
            continue;
        };
        if let (Some(script), Some(lines)) = (scripts.get(p), lines.get(p)) {
            if let Some(index) = first_fall(script) {
                let reason = reason_of(alloc, script, lines, index)?;
                return Err(Unfinished::BadArgument {
                    words: argument,
                    reason,
                });
            }
        }
    }
    Ok(())
}

/// The index of the first call that has a smaller moment than the call before it.
fn first_fall(script: &Script) -> Option<usize>
    ensures none { IfNone result (IsAscending script.now) }
    ensures within { IfSome result (λ index. index < length script.now) }
    ensures later { IfSome result (λ index. 0 < index) }
{
    let calls = script.calls.as_slice();
    for k in 1..calls.len() {
        if calls[k].0.0 < calls[k - 1].0.0 {
            return Some(k);
        }
    }
    None
}

fn reason_of(
    alloc: Global,
    script: &Script,
    lines: &LineNumbers,
    index: usize,
) -> Result<String, AllocError>
    requires within { index < length script.now }
    requires later { 0 < index }
{
    let line = lines.numbers.get(index).copied().unwrap_or(0);
    let (at, _) = &script.calls[index];
    let (last, _) = &script.calls[index - 1];
    let mut reason = String::new(alloc);
    write!(
        reason,
        "line {line}: moment {} is before {}; --clock takes moments in order",
        at.0, last.0
    )?;
    Ok(reason)
}
