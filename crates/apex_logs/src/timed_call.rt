//! The call of a log's line: that of a trace's line, and after the arguments of a send or a receive its time-out.
ghost use Rattle.std.specs.Prelude.{◌≡◌, option_map};
ghost use Rattle.apex_logs.specs.Prelude.{Gives, or_fault, message_in, words_of, number_up_to};
ghost use Rattle.apex_logs.specs.TimedCall.{time_out_in, time_out_word, time_out_of, timed_call_with};

use crate::time_out::TimeOut;
use apex_texts::arguments::{MOMENT_LIMIT, NUMBER_LIMIT, read_call, word_at};
use apex_texts::text::{next_word, number_up_to};
use apex_texts::{LineFault, Service};
use apex_types::{Call, Message};
use std::str;

/// Reads the call to a service, with the arguments that the words give, into `call`, and returns its time-out. After a
/// fault, `call` is unspecified.
#[tactic(auto, unfolding(crate::specs::TimedCall::timed_call_with))]
pub(crate) fn read_timed_call(
    service: Service,
    words: &[u8],
    call: &mut Call,
) -> Result<TimeOut, LineFault>
    ensures { Gives (λ time_out. (call.new, time_out)) result
        (timed_call_with service (words_of words.now)) }
{
    match service {
        Service::SendQueuing => read_send(words, call),
        Service::ReceiveQueuing => read_receive(words, call),
        _ => {
            read_call(service, words, call)?;
            Ok(TimeOut::Unsaid)
        }
    }
}

// Not inlined, since a function that makes a call with a message clears its stack room when it begins.
#[inline(never)]
#[tactic(auto, unfolding(crate::specs::TimedCall::timed_call_with, apex_texts::specs::Arguments::call_at))]
fn read_send(words: &[u8], call: &mut Call) -> Result<TimeOut, LineFault>
    ensures { Gives (λ time_out. (call.new, time_out)) result
        (timed_call_with Service.SendQueuing (words_of words.now)) }
{
    let (number, rest) = word_at(words)?;
    let (text, rest) = word_at(rest)?;
    let time_out = time_out_word(rest)?;
    if !matches!(call, Call::SendQueuing { .. }) {
        let message = Message::empty();
        *call = Call::SendQueuing { id: 0, message };
    }
    if let Call::SendQueuing { id, message } = call {
        *id = number_in(number)?;
        read_message(text, message)?;
    }
    time_out_of(time_out)
}

#[tactic(auto, unfolding(crate::specs::TimedCall::timed_call_with, apex_texts::specs::Arguments::call_at))]
fn read_receive(words: &[u8], call: &mut Call) -> Result<TimeOut, LineFault>
    ensures { Gives (λ time_out. (call.new, time_out)) result
        (timed_call_with Service.ReceiveQueuing (words_of words.now)) }
{
    let (number, rest) = word_at(words)?;
    let time_out = time_out_word(rest)?;
    let number = number_in(number)?;
    match call {
        Call::ReceiveQueuing { id } => *id = number,
        _ => *call = Call::ReceiveQueuing { id: number },
    }
    time_out_of(time_out)
}

// The word of the time-out after arguments, if there is one.
fn time_out_word(words: &[u8]) -> Result<Option<&[u8]>, LineFault>
    ensures { Gives (option_map (λ word. word.now)) result (time_out_word (words_of words.now)) }
{
    match next_word(words) {
        None => Ok(None),
        Some((word, rest)) if word == "timeout".as_bytes() => {
            let (said, rest) = word_at(rest)?;
            match next_word(rest) {
                None => Ok(Some(said)),
                Some(_) => Err(LineFault::TooManyWords),
            }
        }
        Some(_) => Err(LineFault::TooManyWords),
    }
}

// The time-out that a word says, if there is one.
fn time_out_of(word: Option<&[u8]>) -> Result<TimeOut, LineFault>
    ensures { result ≡ time_out_of (option_map (λ said. said.now) word.entry) }
{
    match word {
        None => Ok(TimeOut::Unsaid),
        Some(word) => time_out_in(word).ok_or(LineFault::Number),
    }
}

fn time_out_in(word: &[u8]) -> Option<TimeOut>
    ensures { result ≡ time_out_in word.now }
{
    if word == "infinite".as_bytes() {
        return Some(TimeOut::Infinite);
    }
    let nanoseconds = number_up_to(MOMENT_LIMIT, word)?;
    Some(TimeOut::Nanoseconds(nanoseconds))
}

fn number_in(word: &[u8]) -> Result<u32, LineFault>
    ensures { result ≡ or_fault LineFault.Number (number_up_to NUMBER_LIMIT word.now) }
{
    let number = number_up_to(NUMBER_LIMIT, word).ok_or(LineFault::Number)?;
    Ok(number as u32)
}

/// Reads the message that a word is into `message`.
pub(crate) fn read_message(word: &[u8], message: &mut Message) -> Result<(), LineFault>
    ensures { Gives (λ _. message.new) result
        (or_fault LineFault.Message (message_in word.now)) }
{
    let Ok(text) = str::from_utf8(word) else {
        return Err(LineFault::Message);
    };
    message.read_hex(text).map_err(|_| LineFault::Message)
}
