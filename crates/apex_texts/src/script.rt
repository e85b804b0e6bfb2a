//! Scripts: the calls of one partition. A script's line is a trace's line without the partition.
ghost use Rattle.std.specs.Prelude.{◌≡◌};
ghost use Rattle.std.specs.Option.{option_map};
ghost use Rattle.apex_texts.specs.Arguments.{Gives};
ghost use Rattle.apex_texts.specs.Lines.{item_of_line};
ghost use Rattle.apex_texts.specs.Text.{words_of};
ghost use Rattle.apex_texts.specs.Script.{IsScriptRead, timed_call_at, script_of};

use crate::arguments::{moment_of, read_call, service_at, word_at};
use crate::fault::TraceFault;
use crate::line_fault::LineFault;
use crate::lines::{LineForm, line_words, read_lines};
use apex_ports::Script;
use apex_types::{ANY_CALL, Call, Moment};
use std::alloc::Global;

/// The calls of a script's lines, in order, or its first faulty line.
pub fn read_script(alloc: Global, text: &[u8]) -> Result<Script, TraceFault>
    ensures exact { IsScriptRead result (script_of text.now) }
{
    match read_lines(alloc, &ScriptLine, text) {
        Ok(calls) => Ok(Script { calls }),
        Err(fault) => Err(fault),
    }
}

/// `MOMENT CALL ARGUMENTS`.
#[derive(Drop)]
pub struct ScriptLine;

impl LineForm for ScriptLine {
    type Item = (Moment, Call);

    ghost item_at = { λ _. timed_call_at };

    fn item_at(&self, first: &[u8], words: &[u8]) -> Result<(Moment, Call), LineFault> {
        timed_call_at(first, words)
    }
}

/// The call with a moment and the words after it.
fn timed_call_at(moment: &[u8], words: &[u8]) -> Result<(Moment, Call), LineFault>
    ensures { result ≡ timed_call_at moment.now (words_of words.now) }
{
    let mut call = ANY_CALL;
    let at = read_timed_call(moment, words, &mut call)?;
    Ok((at, call))
}

/// Reads the call with a moment and the words after it into `call`, and returns the moment. After a fault `call` is
/// unspecified.
#[tactic(auto, unfolding(crate::specs::Script::timed_call_at, crate::specs::Arguments::call_of))]
fn read_timed_call(moment: &[u8], words: &[u8], call: &mut Call) -> Result<Moment, LineFault>
    ensures { Gives (λ at. (at, call.new)) result
        (timed_call_at moment.now (words_of words.now)) }
{
    let (word, words) = word_at(words)?;
    let at = moment_of(moment)?;
    read_call(service_at(word)?, words, call)?;
    Ok(at)
}

/// Reads the call of a line into `call`, and returns its moment; none if the line has no words or is a comment. After a
/// fault `call` is unspecified.
#[tactic(auto, unfolding(crate::specs::Lines::item_of_line))]
pub fn read_script_line(line: &[u8], call: &mut Call) -> Result<Option<Moment>, LineFault>
    ensures { Gives (option_map (λ at. (at, call.new))) result
        (item_of_line timed_call_at line.now) }
{
    match line_words(line)? {
        None => Ok(None),
        Some((first, words)) => Ok(Some(read_timed_call(first, words, call)?)),
    }
}
