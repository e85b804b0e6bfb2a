//! The caller of CALLING.md of `apex_texts`, and `read_script`.
ghost use Rattle.std.specs.Prelude.{◌≡◌, Some, IfOk, length, option_map};
ghost use Rattle.apex_texts.specs.Arguments.{value_of};
ghost use Rattle.apex_texts.specs.Script.{script_of};

use crate::tests::readers::same::same;
use apex_texts::{TraceFault, read_script};
use std::alloc::Global;
use std::test::Fail;

/// How many calls a script has.
fn count_calls(alloc: Global, text: &[u8]) -> Result<usize, TraceFault>
    ensures { IfOk result
        (λ count. option_map length (value_of (script_of text.now)) ≡ Some count) }
{
    let script = read_script(alloc, text)?;
    Ok(script.calls.len())
}

#[test]
fn calls_of_a_script_are_counted(rt: HostRuntime) -> Result<(), Fail> {
    let text = b"1 mode 3\r\n# a comment\n\t\n2 receive 1";
    same(&rt, count_calls(rt.alloc(), text), Ok(2));
    Ok(())
}

#[test]
fn the_first_faulty_line_of_a_script_is_answered(rt: HostRuntime) -> Result<(), Fail> {
    let fault = TraceFault::Line { line: 3, fault: 9 };
    let text = b"1 mode 3\n\n20 send 1 0g\n20 sned\n";
    same(&rt, count_calls(rt.alloc(), text), Err(fault));
    Ok(())
}
