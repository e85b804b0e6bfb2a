//! The faulty lines of a log, with the places of their faults.
ghost use Rattle.std.specs.Prelude.{◌≡◌, ◌≤◌, ℕ, List, length, slice_get, option_map, IfOk};
ghost use Rattle.apex_mistakes.specs.Prelude.{result_err, lines, Configuration, script_of, trace_of};
ghost use Rattle.apex_logs.specs.Log.{log_of, own_log_of};
ghost use Rattle.apex_mistakes.specs.FaultyLines.{faulty_line, script_places, trace_places};
ghost use Rattle.apex_mistakes.specs.LogFaults.{log_places_from, log_places, own_log_places, faulty_log_line, AreFirstOfLog};

use crate::faulty_lines::{SCRIPT_FRONT, TRACE_FRONT};
use crate::log_place::{LogPlace, log_place_in};
use apex_logs::{ANY_ENTRY, LogForm, ModuleLog, PartitionLog, ends_calls};
use apex_module::Config;
use apex_texts::Expected;
use apex_texts::text::next_line;
use std::alloc::{AllocError, Global};

/// The first faulty lines of a log, and the number of all.
#[derive(Debug, Drop)]
pub struct LogFaults {
    /// The places of the first faults, one for each line.
    pub first: Vec<LogPlace>,
    /// The number of faulty lines.
    pub count: usize,
}

/// The faulty lines of a module's log, up to the line that ends its calls: the places of the first `most`, and the
/// number of all. The only error is a failed allocation.
pub fn log_faults(
    alloc: Global,
    config: &Config,
    text: &[u8],
    most: usize,
) -> Result<LogFaults, AllocError>
    ensures { IfOk result (AreFirstOfLog most (log_places config.now text.now)) }
{
    find_log_faults(alloc, &ModuleLog { config }, &TRACE_FRONT, text, most)
}

/// The same for a partition's own log.
pub fn own_log_faults(
    alloc: Global,
    partition: usize,
    text: &[u8],
    most: usize,
) -> Result<LogFaults, AllocError>
    ensures { IfOk result (AreFirstOfLog most (own_log_places partition text.now)) }
{
    find_log_faults(
        alloc,
        &PartitionLog { partition },
        &SCRIPT_FRONT,
        text,
        most,
    )
}

/// The law that the first place has the line and the fault for which a trace, a script or a log is refused. There is
/// nothing to run.
pub fn first_place_is_of_the_refusal()
    ensures trace { (config : Configuration) (text : List ℕ) →
        option_map faulty_line (slice_get (trace_places config text) 0)
        ≡ result_err (trace_of config text) }
    ensures script { (text : List ℕ) →
        option_map faulty_line (slice_get (script_places text) 0) ≡ result_err (script_of text) }
    ensures module { (config : Configuration) (text : List ℕ) →
        option_map faulty_log_line (slice_get (log_places config text) 0)
        ≡ result_err (log_of config text) }
    ensures own { (partition : ℕ) (text : List ℕ) →
        option_map faulty_log_line (slice_get (own_log_places partition text) 0)
        ≡ result_err (own_log_of partition text) }
{}

fn find_log_faults<F: LogForm>(
    alloc: Global,
    form: &F,
    front: &[Expected],
    text: &[u8],
    most: usize,
) -> Result<LogFaults, AllocError>
    requires { length front.now ≤ 2 }
    ensures { IfOk result (AreFirstOfLog most
        (log_places_from (F.asked_by form.now) front.now 1 (lines text.now))) }
{
    let mut first = Vec::new(alloc);
    let mut count: usize = 0;
    let mut number: usize = 0;
    let mut entry = ANY_ENTRY;
    let mut rest = text;
    while let Some((line, after)) = next_line(rest) {
        if ends_calls(line) {
            return Ok(LogFaults { first, count });
        }
        number += 1;
        if let Err(fault) = form.read_line(line, &mut entry) {
            if count < most {
                first.push(log_place_in(alloc, form, front, number, fault, line)?)?;
            }
            count += 1;
        }
        rest = after;
    }
    Ok(LogFaults { first, count })
}
