//! Reads a script into little memory.
ghost use Rattle.apex_texts.specs.Script.{IsScriptRead, script_of};

use apex_texts::{TraceFault, next_line, read_script_line};
use apex_threads::PackedScript;
use apex_types::ANY_CALL;
use std::alloc::Global;

/// The calls of a script's lines, in order, or its first faulty line, as `read_script` of `apex_texts` reads them. Each call
/// is packed as soon as it is read.
pub fn read_packed_script(alloc: Global, text: &[u8]) -> Result<PackedScript, TraceFault>
    ensures { IsScriptRead result (script_of text.now) }
{
    let mut script = PackedScript::new(alloc);
    let mut call = ANY_CALL;
    let mut rest = text;
    let mut number: usize = 0;
    while let Some((line, after)) = next_line(rest) {
        number += 1;
        match read_script_line(line, &mut call) {
            Ok(Some(at)) => script.push(at, &call)?,
            Ok(None) => {}
            Err(fault) => {
                return Err(TraceFault::Line {
                    line: number,
                    fault: fault.number(),
                });
            }
        }
        rest = after;
    }
    Ok(script)
}
