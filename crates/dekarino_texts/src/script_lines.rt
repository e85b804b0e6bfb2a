//! The numbers of the lines of a script that have a call.
ghost use Rattle.std.specs.Prelude.{◌≡◌, IfOk};
ghost use Rattle.dekarino_texts.specs.Prelude.{script_of};
ghost use Rattle.dekarino_texts.specs.ScriptLines.{has_call, call_numbers, AreLinesOf};

use apex_texts::lines::line_words;
use apex_texts::next_line;
use std::alloc::{AllocError, Global};

/// The number of the line of each call in the text of a script, from 1.
#[derive(Debug, Drop)]
pub struct LineNumbers {
    pub numbers: Vec<usize>,
}

/// The numbers of a script's lines that have a call: those with a word that are no comment. Of a script that is read,
/// the number at an index is that of the line of the call at that index.
pub fn call_lines(alloc: Global, script: &[u8]) -> Result<LineNumbers, AllocError>
    ensures numbers { IfOk result (λ lines. lines.numbers.items ≡ call_numbers script.now) }
    ensures calls { IfOk result
        (λ lines. AreLinesOf script.now lines.numbers.items (script_of script.now)) }
{
    let mut numbers = Vec::new(alloc);
    let mut rest = script;
    let mut number: usize = 0;
    while let Some((line, after)) = next_line(rest) {
        number += 1;
        if has_call(line) {
            numbers.push(number)?;
        }
        rest = after;
    }
    Ok(LineNumbers { numbers })
}

/// Whether a line has a word, and is no comment.
fn has_call(line: &[u8]) -> bool
    ensures { result ≡ has_call line.now }
{
    match line_words(line) {
        Ok(Some(_)) => true,
        Ok(None) | Err(_) => false,
    }
}
