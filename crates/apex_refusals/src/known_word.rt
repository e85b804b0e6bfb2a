//! The known word that a mistyped word was most likely meant to be.
ghost use Rattle.std.specs.Prelude.{◌≡◌, ◌≤◌, map, length, option_map, IfOk};
ghost use Rattle.apex_refusals.specs.Nearest.{edits, most_edits, IsNearest, nearest_of};

use std::alloc::{AllocError, Global};
use strsim::generic_levenshtein;

/// The maximum length in bytes of a word for which a known one is suggested.
pub const WORD_LIMIT: usize = 64;

/// The number of letters to insert, remove or replace to turn one word into the other, ignoring case.
#[tactic(auto, unfolding(crate::specs::Nearest::edits))]
fn edits_between(alloc: Global, word: &[u8], known: &[u8]) -> Result<usize, AllocError>
    ensures { IfOk result (λ count. count ≡ edits word.now known.now) }
{
    let word = word.to_ascii_lowercase(alloc)?;
    let known = known.to_ascii_lowercase(alloc)?;
    generic_levenshtein(alloc, word.as_slice(), known.as_slice())
}

/// The maximum number of edits between a mistyped word and what was meant.
fn most_edits(word: &[u8]) -> usize
    ensures exact { result ≡ most_edits word.now }
    ensures few { result ≤ 2 }
{
    if word.len() <= 3 { 1 } else { 2 }
}

/// The first of the known words with the fewest edits, ignoring case: at most one for a word of up to three bytes, and
/// two for a longer one. A word of more than `WORD_LIMIT` bytes has none. The only error is a failed allocation.
pub fn nearest<'a>(
    alloc: Global,
    word: &[u8],
    known: &[&'a str],
) -> Result<Option<&'a str>, AllocError>
    ensures exact { let words = map (λ name. name.now) known.now in
        IfOk result (λ found. option_map (λ name. name.now) found ≡ nearest_of word.now words) }
    ensures nearest { let words = map (λ name. name.now) known.now in
        length word.now ≤ WORD_LIMIT
        → IfOk result (λ found. IsNearest word.now words (option_map (λ name. name.now) found)) }
{
    if word.len() > WORD_LIMIT {
        return Ok(None);
    }
    let mut least = most_edits(word) + 1;
    let mut found = None;
    for name in known {
        let edits = edits_between(alloc, word, name.as_bytes())?;
        if edits < least {
            least = edits;
            found = Some(*name);
        }
    }
    Ok(found)
}
