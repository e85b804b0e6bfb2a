//! The caller of CALLING.md of `apex_logs`, and `read_log`.
ghost use Rattle.std.specs.Prelude.{◌≡◌, Some, IfOk, length, option_map};
ghost use Rattle.apex_texts.specs.Arguments.{value_of};
ghost use Rattle.apex_logs.specs.Log.{log_of};

use crate::tests::readers::same::{prints, same};
use crate::tests::texts::REDUCED;
use apex_config::ReadConfig;
use apex_logs::{FaultyLine, LogError, LogFault, ModuleLog, read_log};
use apex_module::Config;
use std::alloc::Global;
use std::test::Fail;

/// How many calls a log has.
fn count_logged(alloc: Global, config: &Config, text: &[u8]) -> Result<usize, LogError>
    ensures { IfOk result
        (λ count. option_map length (value_of (log_of config.now text.now)) ≡ Some count) }
{
    let log = read_log(alloc, &ModuleLog { config }, text)?;
    Ok(log.len())
}

/// A line without a reply.
const FAULTY: FaultyLine = FaultyLine {
    line: 3,
    fault: LogFault::NoReply,
};

#[test]
fn calls_are_counted(rt: HostRuntime) -> Result<(), Fail> {
    let config = Config::read(rt.alloc(), REDUCED.as_bytes())?;
    let text =
        b"# two calls\n1 FMS mode 3 -> NO_ERROR\n\n2 DSP mode 9 -> INVALID_PARAM\nafter 2 calls\n3\n";
    same(&rt, count_logged(rt.alloc(), &config, text), Ok(2));
    Ok(())
}

#[test]
fn the_first_faulty_line_of_a_log_is_answered(rt: HostRuntime) -> Result<(), Fail> {
    let config = Config::read(rt.alloc(), REDUCED.as_bytes())?;
    let text = b"\n1 FMS mode 3 -> NO_ERROR\n2 FMS mode 3\n2 FMS mod 3 -> NO_ERROR\n";
    let counted = count_logged(rt.alloc(), &config, text);
    same(&rt, counted, Err(LogError::Line(FAULTY)));
    Ok(())
}

#[test]
fn errors_of_a_log_have_their_words(rt: HostRuntime) -> Result<(), Fail> {
    prints(&rt, &FAULTY, "line 3 fault 10: no reply")?;
    prints(&rt, &LogError::Line(FAULTY), "line 3 fault 10: no reply")?;
    prints(&rt, &LogError::OutOfMemory, "out of memory")
}
