//! The faulty lines of a text, with the places of their faults.
ghost use Rattle.std.specs.Prelude.{◌≡◌, ◌+◌, ◌<◌, ◌≤◌, ◌^◌, ◌∷◌, [], length, MatchOption, IfSome, IfOk};
ghost use Rattle.apex_mistakes.specs.Prelude.{lines};
ghost use Rattle.apex_mistakes.specs.FaultyLines.{places_from, places_of, trace_places, script_places, AreFirst};

use crate::line_place::{LinePlace, place_in};
use apex_module::Config;
use apex_texts::Expected;
use apex_texts::lines::{LineForm, item_of_line};
use apex_texts::script::ScriptLine;
use apex_texts::text::next_line;
use apex_texts::trace::TraceLine;
use std::alloc::{AllocError, Global};

/// The first faulty lines of a text, and the number of all.
#[derive(Debug, Drop)]
pub struct FaultyLines {
    /// The places of the first faults, one for each line.
    pub first: Vec<LinePlace>,
    /// The number of faulty lines.
    pub count: usize,
}

/// The faulty lines of a trace: the places of the first `most`, and the number of all.
pub fn trace_faults(
    alloc: Global,
    config: &Config,
    text: &[u8],
    most: usize,
) -> Result<FaultyLines, AllocError>
    ensures { IfOk result (AreFirst most (trace_places config.now text.now)) }
{
    find_faults(alloc, &TraceLine { config }, &TRACE_FRONT, text, most)
}

/// The faulty lines of a script: the places of the first `most`, and the number of all.
pub fn script_faults(alloc: Global, text: &[u8], most: usize) -> Result<FaultyLines, AllocError>
    ensures { IfOk result (AreFirst most (script_places text.now)) }
{
    find_faults(alloc, &ScriptLine, &SCRIPT_FRONT, text, most)
}

// The words before the call word in a trace's line.
pub(crate) const TRACE_FRONT: [Expected; 2] = [Expected::Moment, Expected::Partition];

// The words before the call word in a script's line.
pub(crate) const SCRIPT_FRONT: [Expected; 1] = [Expected::Moment];

fn find_faults<F: LineForm>(
    alloc: Global,
    form: &F,
    front: &[Expected],
    text: &[u8],
    most: usize,
) -> Result<FaultyLines, AllocError>
    requires { length front.now ≤ 2 }
    ensures { IfOk result (AreFirst most (places_of (F.item_at form.now) front.now text.now)) }
{
    let mut first = Vec::new(alloc);
    let mut count: usize = 0;
    let mut number: usize = 0;
    let mut rest = text;
    while let Some((place, after)) = next_fault(form, front, number, rest) {
        if count < most {
            first.push(place)?;
        }
        count += 1;
        number = place.line;
        rest = after;
    }
    Ok(FaultyLines { first, count })
}

// The place of the first fault in a text that follows `before` lines, and the text after that line.
fn next_fault<'a, F: LineForm>(
    form: &F,
    front: &[Expected],
    before: usize,
    text: &'a [u8],
) -> Option<(LinePlace, &'a [u8])>
    requires small { length front.now ≤ 2 }
    requires room { before + length text.now < 2 ^ 64 }
    ensures first { MatchOption result
        (places_from (F.item_at form.now) front.now (before + 1) (lines text.now) ≡ [])
        (λ x. places_from (F.item_at form.now) front.now (before + 1) (lines text.now) ≡
        x.0 ∷ places_from (F.item_at form.now) front.now (x.0.line + 1) (lines x.1.now)) }
    ensures later { IfSome result (λ x. before < x.0.line) }
    ensures room { IfSome result
        (λ x. x.0.line + length x.1.now ≤ before + length text.now) }
{
    let mut rest = text;
    let mut number = before;
    while let Some((line, after)) = next_line(rest) {
        number += 1;
        if let Err(fault) = item_of_line(form, line) {
            return Some((place_in(front, number, fault, line), after));
        }
        rest = after;
    }
    None
}
