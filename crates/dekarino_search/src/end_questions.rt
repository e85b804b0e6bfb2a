//! Reading a question about the ends of all orders.
ghost use Rattle.std.specs.Prelude.{◌<◌, length, IfSome};

use crate::question_faults::QuestionFault;
use apex_groups::{AskedEnd, Comparison, Count};
use apex_module::Config;

/// The words of the counts.
pub(crate) const COUNTS: [&str; 4] = ["accepted", "received", "cleared", "waiting"];

/// The question that words `CHANNEL COUNT OP NUMBER` ask.
pub(crate) fn read_end<'a>(config: &Config, words: &'a str) -> Result<AskedEnd, QuestionFault<'a>> {
    let (counted, comparison, said) = compared(words).ok_or(QuestionFault::Form)?;
    if has_other_sign(counted, said) {
        return Err(QuestionFault::NoComparison);
    }
    let (name, count) = counted.trim().split_once(' ').ok_or(QuestionFault::Form)?;
    let Some(channel) = channel_called(config, name) else {
        return Err(QuestionFault::NoChannel { name });
    };
    if !config.channel(channel).kind.is_queuing() {
        return Err(QuestionFault::NoCounts { name });
    }
    let count = count.trim();
    let Some(count) = count_called(count) else {
        return Err(QuestionFault::NoCount { said: count });
    };
    let said = said.trim();
    let Ok(number) = said.parse() else {
        return Err(QuestionFault::NoNumber { said });
    };
    Ok(AskedEnd {
        channel,
        count,
        comparison,
        number,
    })
}

/// What is compared, how, and with what.
fn compared(words: &str) -> Option<(&str, Comparison, &str)> {
    if let Some((counted, rest)) = words.split_once('<') {
        return Some(match rest.strip_prefix('=') {
            Some(number) => (counted, Comparison::AtMost, number),
            None => (counted, Comparison::Less, rest),
        });
    }
    if let Some((counted, rest)) = words.split_once('>') {
        return Some(match rest.strip_prefix('=') {
            Some(number) => (counted, Comparison::AtLeast, number),
            None => (counted, Comparison::More, rest),
        });
    }
    let (counted, number) = words.split_once('=')?;
    Some((counted, Comparison::Equal, number))
}

/// Whether a sign of a comparison is left before or behind the one that was read, as in `!=` and `==`.
fn has_other_sign(counted: &str, said: &str) -> bool {
    counted.ends_with(['!', '=']) || said.starts_with(['=', '<', '>'])
}

/// The count that has the word.
fn count_called(word: &str) -> Option<Count> {
    match word {
        "accepted" => Some(Count::Accepted),
        "received" => Some(Count::Received),
        "cleared" => Some(Count::Cleared),
        "waiting" => Some(Count::Waiting),
        _ => None,
    }
}

/// The number of the channel with the name.
fn channel_called(config: &Config, name: &str) -> Option<usize>
    ensures { IfSome result (λ c. c < length config.now.channels) }
{
    for c in 0..config.channels() {
        if config.channel(c).name.text() == name {
            return Some(c);
        }
    }
    None
}
