//! Reads a text line by line: the items of its lines, or its first faulty line. Traces and scripts are such texts; they
//! differ in how the words of a line are read.
ghost use Rattle.std.specs.Prelude.{◌≡◌};
ghost use Rattle.apex_texts.specs.Prelude.{list_all};
ghost use Rattle.std.specs.Option.{option_map};
ghost use Rattle.apex_texts.specs.Text.{words_of};
ghost use Rattle.apex_texts.specs.Arguments.{Gives};
ghost use Rattle.apex_texts.specs.Lines.{IsRead, is_ascii, line_words, item_of_line, items_of};

use crate::fault::TraceFault;
use crate::line_fault::LineFault;
use crate::text::{next_line, next_word};
use std::alloc::Global;

/// How the words of a line are read.
pub trait LineForm {
    ghost use Rattle.std.specs.Prelude.{ℕ, List, Result};
    ghost use Rattle.apex_texts.specs.declared.line_fault.LineFault.{LineFault};

    type Item: Drop;

    // The item that a first word and the words after it give.
    ghost item_at: { Self → List ℕ → List (List ℕ) → Result Self.Item LineFault };

    /// The item of a first word and the words after it.
    fn item_at(&self, first: &[u8], words: &[u8]) -> Result<Self::Item, LineFault>
        ensures { result ≡ item_at self.now first.now (words_of words.now) };
}

/// The items of a text's lines, in order, or its first faulty line.
pub fn read_lines<F: LineForm>(
    alloc: Global,
    form: &F,
    text: &[u8],
) -> Result<Vec<F::Item>, TraceFault>
    ensures { IsRead (λ items. items.items) result (items_of (F.item_at form.now) text.now) }
{
    let mut items = Vec::new(alloc);
    let mut rest = text;
    let mut number: usize = 0;
    while let Some((line, after)) = next_line(rest) {
        number += 1;
        match item_of_line(form, line) {
            Ok(Some(item)) => items.push(item)?,
            Ok(None) => {}
            Err(fault) => return Err(TraceFault::at(number, fault)),
        }
        rest = after;
    }
    Ok(items)
}

/// The item of a line; none if the line has no words or is a comment.
#[tactic(auto, unfolding(crate::specs::Lines::item_of_line))]
pub fn item_of_line<F: LineForm>(form: &F, line: &[u8]) -> Result<Option<F::Item>, LineFault>
    ensures { result ≡ item_of_line (F.item_at form.now) line.now }
{
    match line_words(line)? {
        None => Ok(None),
        Some((first, words)) => Ok(Some(form.item_at(first, words)?)),
    }
}

/// The first word of a line and the words after it; none if the line has no words or is a comment.
#[tactic(auto, unfolding(crate::specs::Lines::line_words))]
pub fn line_words(line: &[u8]) -> Result<Option<(&[u8], &[u8])>, LineFault>
    ensures { Gives (option_map (λ x. (x.0.now, words_of x.1.now))) result (line_words line.now) }
{
    if !is_ascii(line) {
        return Err(LineFault::NotAscii);
    }
    match next_word(line) {
        None | Some(([b'#', ..], _)) => Ok(None),
        words => Ok(words),
    }
}

fn is_ascii(line: &[u8]) -> bool
    ensures { result ≡ list_all is_ascii line.now }
{
    line.is_ascii()
}
