//! The line of a text on which a part of its document begins.
ghost use Rattle.std.specs.Prelude.{◌≡◌, ◌≤◌, ◌<◌, ◌+◌, ◌++◌, option_map, length, IfOk};
ghost use Rattle.std.specs.Option.{option_copied};
ghost use Rattle.toml.specs.View.{view};
ghost use Rattle.apex_config.specs.Meaning.{document_of};
ghost use Rattle.apex_refusals.specs.PlaceLines.{line_ends, first_lines, document_in, beginning_has, IsLineNumber};

use crate::places::document_has;
use apex_config::place::Part;
use apex_config::reading::document_of;
use std::alloc::{AllocError, Global};
use toml::Value;

/// The maximum length in bytes of a text in which lines are looked for, since each look reads the text up to a line.
const SEARCH_LIMIT: usize = 65_536;

/// The document of a text; none if it is not TOML.
fn document_in_text(alloc: Global, text: &[u8]) -> Result<Option<Value>, AllocError>
    ensures { IfOk result (λ found. option_map view found ≡ document_of text.now) }
{
    match document_of(alloc, text)? {
        Ok(document) => Ok(Some(document)),
        Err(_) => Ok(None),
    }
}

/// The document of the beginning of a text with this ending.
fn document_ended(alloc: Global, begin: &[u8], ending: &[u8]) -> Result<Option<Value>, AllocError>
    ensures { IfOk result (λ found.
        option_map view found ≡ document_of (begin.now ++ ending.now)) }
{
    let mut text = Vec::new(alloc);
    text.extend_from_slice(begin)?;
    text.extend_from_slice(ending)?;
    document_in_text(alloc, text.as_slice())
}

/// The document of the beginning of a text: as it is, or with the open arrays closed.
fn document_in(alloc: Global, begin: &[u8]) -> Result<Option<Value>, AllocError>
    ensures { IfOk result (λ found. option_map view found ≡ document_in begin.now) }
{
    if let Some(whole) = document_in_text(alloc, begin)? {
        return Ok(Some(whole));
    }
    if let Some(ended) = document_ended(alloc, begin, b"\n]")? {
        return Ok(Some(ended));
    }
    document_ended(alloc, begin, b"\n]}]")
}

/// Whether the beginning of a text has the part, or the key in it.
fn beginning_has(
    alloc: Global,
    begin: &[u8],
    part: Part,
    key: Option<&str>,
) -> Result<bool, AllocError>
    ensures { IfOk result (λ there.
        there ≡ beginning_has begin.now part (option_copied key.entry)) }
{
    match document_in(alloc, begin)? {
        Some(document) => Ok(document_has(&document, part, key)),
        None => Ok(false),
    }
}

/// Where each line of a text ends.
fn ends_of_lines(alloc: Global, text: &[u8]) -> Result<Vec<usize>, AllocError>
    ensures { IfOk result (λ ends. ends.items ≡ line_ends 0 text.now) }
{
    let mut ends = Vec::new(alloc);
    for (offset, byte) in text.iter().enumerate() {
        if *byte == b'\n' {
            ends.push(offset)?;
        }
    }
    ends.push(text.len())?;
    Ok(ends)
}

/// A text up to the end of the line of this number, from 1.
fn first_lines<'a>(text: &'a [u8], ends: &[usize], number: usize) -> &'a [u8]
    requires ends { ends.now ≡ line_ends 0 text.now }
    requires from_one { 1 ≤ number }
    ensures { result.now ≡ first_lines number text.now }
{
    let end = ends.get(number - 1).copied().unwrap_or(text.len());
    text.get(..end).unwrap_or(text)
}

/// The next line to look at, of those between two: this one, if it is one of them, and otherwise the middle.
fn between(look: usize, without: usize, with: usize) -> usize
    requires apart { without + 1 < with }
    ensures behind { without < result }
    ensures before { result < with }
{
    if without < look && look < with {
        look
    } else {
        without + (with - without) / 2
    }
}

/// The line of a part or of a key in it, from 1: the text up to this line has the place, and the text before it
/// doesn't. None if the text is too long or lacks the place. The search starts at line `near`, with steps that double,
/// and then bisects; `near` becomes the line that is found, so that consecutive places need few looks.
pub(crate) fn line_of(
    alloc: Global,
    text: &[u8],
    part: Part,
    key: Option<&str>,
    near: &mut usize,
) -> Result<Option<usize>, AllocError>
    ensures { IfOk result (IsLineNumber text.now part (option_copied key.entry)) }
{
    if text.len() > SEARCH_LIMIT || !beginning_has(alloc, text, part, key)? {
        return Ok(None);
    }
    let ends = ends_of_lines(alloc, text)?;
    let mut without: usize = 0;
    let mut with = ends.len();
    let mut look = near.saturating_sub(1);
    let mut step: usize = 1;
    while with - without > 1 {
        let middle = between(look, without, with);
        let begin = first_lines(text, ends.as_slice(), middle);
        if beginning_has(alloc, begin, part, key)? {
            with = middle;
            look = 0;
        } else {
            without = middle;
            if look == middle {
                look = middle.saturating_add(step);
                step = step.saturating_mul(2);
            }
        }
    }
    *near = with;
    Ok(Some(with))
}
