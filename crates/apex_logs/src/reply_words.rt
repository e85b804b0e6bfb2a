//! The reply that words say, in the words of a report.
ghost use Rattle.std.specs.Prelude.{◌≡◌, [], ◌∷◌};
ghost use Rattle.apex_logs.specs.Prelude.{words_of};
ghost use Rattle.apex_types.specs.declared.reply.Reply.TheVariants as replies;
ghost use Rattle.apex_logs.specs.ReplyWords.{Gives, first_word, after_word, named_at, number_at, number_after, no_word, code_named, direction_named, validity_named, not_made_at, id_at, message_of, shown_by, message_reply_at, queuing_status_at, sampling_status_at, data_at, behind_no_error, behind_code, reply_by, reply_of};

use crate::log_fault::LogFault;
use crate::timed_call;
use apex_texts::LineFault;
use apex_texts::arguments::NUMBER_LIMIT;
use apex_texts::text::{next_word, number_up_to};
use apex_types::{Direction, Message, Reply, ReturnCode, Validity};

/// The greatest refresh period of a logged status, in nanoseconds: that of 64 bits.
pub const REFRESH_LIMIT: u64 = 18_446_744_073_709_551_615;

/// Reads the reply that the words are into `reply`. After a fault `reply` is unspecified.
#[tactic(auto, unfolding(crate::specs::ReplyWords::reply_of))]
pub fn read_reply(words: &[u8], reply: &mut Reply) -> Result<(), LogFault>
    ensures { Gives (λ _. reply.new) result (reply_of (words_of words.now)) }
{
    let (word, rest) = first_word(words)?;
    read_reply_by(word, rest, reply)
}

/// The first of the words, and the words after it.
pub(crate) fn first_word(words: &[u8]) -> Result<(&[u8], &[u8]), LogFault>
    ensures { Gives (λ x. (x.0.now, words_of x.1.now)) result (first_word (words_of words.now)) }
{
    next_word(words).ok_or(LogFault::Line(LineFault::TooFewWords))
}

#[tactic(auto, unfolding(crate::specs::ReplyWords::reply_by))]
fn read_reply_by(word: &[u8], words: &[u8], reply: &mut Reply) -> Result<(), LogFault>
    ensures { Gives (λ _. reply.new) result (reply_by word.now (words_of words.now)) }
{
    if word == "not".as_bytes() {
        return read_not_made(words, reply);
    }
    let code = code_named(word).ok_or(LogFault::UnknownReply)?;
    read_behind_code(code, words, reply)
}

#[tactic(auto, unfolding(crate::specs::ReplyWords::behind_code))]
fn read_behind_code(code: ReturnCode, words: &[u8], reply: &mut Reply) -> Result<(), LogFault>
    ensures { Gives (λ _. reply.new) result (behind_code code (words_of words.now)) }
{
    match code {
        ReturnCode::NoError => read_behind_no_error(words, reply),
        _ => {
            no_word(words)?;
            set_code(reply, code);
            Ok(())
        }
    }
}

// Makes a reply a bare return code. If it already is one, only the code is written, and not the room for a message.
fn set_code(reply: &mut Reply, code: ReturnCode)
    ensures { reply.new ≡ replies.Code code }
{
    match reply {
        Reply::Code(old) => *old = code,
        _ => *reply = Reply::Code(code),
    }
}

fn read_behind_no_error(words: &[u8], reply: &mut Reply) -> Result<(), LogFault>
    ensures { Gives (λ _. reply.new) result (behind_no_error (words_of words.now)) }
{
    match next_word(words) {
        None => set_code(reply, ReturnCode::NoError),
        Some((word, rest)) => read_data(word, rest, reply)?,
    }
    Ok(())
}

// Reads the data that a word announces.
#[tactic(auto, unfolding(crate::specs::ReplyWords::data_at))]
fn read_data(word: &[u8], words: &[u8], reply: &mut Reply) -> Result<(), LogFault>
    ensures { Gives (λ _. reply.new) result (data_at word.now (words_of words.now)) }
{
    if word == "id".as_bytes() {
        return read_id(words, reply);
    }
    if word == "message".as_bytes() {
        return read_message_reply(words, reply);
    }
    if word == "waiting".as_bytes() {
        return read_queuing_status(words, reply);
    }
    if word == "refresh".as_bytes() {
        return read_sampling_status(words, reply);
    }
    Err(LogFault::UnknownReply)
}

#[tactic(auto, unfolding(crate::specs::ReplyWords::not_made_at))]
fn read_not_made(words: &[u8], reply: &mut Reply) -> Result<(), LogFault>
    ensures { Gives (λ _. reply.new) result (not_made_at (words_of words.now)) }
{
    no_word(after_word("made", words)?)?;
    *reply = Reply::NotMade;
    Ok(())
}

#[tactic(auto, unfolding(crate::specs::ReplyWords::id_at))]
fn read_id(words: &[u8], reply: &mut Reply) -> Result<(), LogFault>
    ensures { Gives (λ _. reply.new) result (id_at (words_of words.now)) }
{
    let (id, rest) = number_at(words)?;
    no_word(rest)?;
    *reply = Reply::Id(id);
    Ok(())
}

#[tactic(auto, unfolding(crate::specs::ReplyWords::message_reply_at))]
fn read_message_reply(words: &[u8], reply: &mut Reply) -> Result<(), LogFault>
    ensures { Gives (λ _. reply.new) result (message_reply_at (words_of words.now)) }
{
    let (message, rest) = first_word(words)?;
    match next_word(rest) {
        None => read_received(message, reply),
        Some((validity, rest)) => read_sample(message, validity, rest, reply),
    }
}

// A function clears the stack room of its values when it begins, including those of functions inlined into it. So no
// function that makes a reply with a message is inlined.
#[inline(never)]
fn read_received(word: &[u8], reply: &mut Reply) -> Result<(), LogFault>
    ensures { Gives (λ _. reply.new) result (shown_by word.now []) }
{
    if !matches!(reply, Reply::Received(_)) {
        *reply = Reply::Received(Message::empty());
    }
    if let Reply::Received(message) = reply {
        read_message(word, message)?;
    }
    Ok(())
}

#[inline(never)]
fn read_sample(
    word: &[u8],
    validity_word: &[u8],
    words: &[u8],
    reply: &mut Reply,
) -> Result<(), LogFault>
    ensures { Gives (λ _. reply.new) result
        (shown_by word.now (validity_word.now ∷ words_of words.now)) }
{
    if !matches!(reply, Reply::Read { .. }) {
        let message = Message::empty();
        let validity = Validity::Invalid;
        *reply = Reply::Read { message, validity };
    }
    if let Reply::Read { message, validity } = reply {
        read_message(word, message)?;
        *validity = validity_named(validity_word).ok_or(LogFault::UnknownReply)?;
        no_word(words)?;
    }
    Ok(())
}

// Reads the message that a word is into `message`.
fn read_message(word: &[u8], message: &mut Message) -> Result<(), LogFault>
    ensures { Gives (λ _. message.new) result (message_of word.now) }
{
    timed_call::read_message(word, message).map_err(LogFault::Line)
}

#[tactic(auto, unfolding(crate::specs::ReplyWords::queuing_status_at))]
fn read_queuing_status(words: &[u8], reply: &mut Reply) -> Result<(), LogFault>
    ensures { Gives (λ _. reply.new) result (queuing_status_at (words_of words.now)) }
{
    let (waiting, rest) = number_at(words)?;
    let (depth, rest) = number_after("depth", rest)?;
    let (size, rest) = number_after("size", rest)?;
    let (direction, rest) = direction_at(rest)?;
    let rest = after_word("processes", rest)?;
    no_word(after_word("0", rest)?)?;
    *reply = Reply::QueuingStatus {
        waiting,
        depth,
        size,
        direction,
    };
    Ok(())
}

#[tactic(auto, unfolding(crate::specs::ReplyWords::sampling_status_at))]
fn read_sampling_status(words: &[u8], reply: &mut Reply) -> Result<(), LogFault>
    ensures { Gives (λ _. reply.new) result (sampling_status_at (words_of words.now)) }
{
    let (refresh, rest) = refresh_at(words)?;
    let (size, rest) = number_after("size", rest)?;
    let (direction, rest) = direction_at(rest)?;
    let (last, rest) = validity_at(after_word("last", rest)?)?;
    no_word(rest)?;
    *reply = Reply::SamplingStatus {
        refresh,
        size,
        direction,
        last,
    };
    Ok(())
}

// The words after one that has to be this.
fn after_word<'a>(expected: &str, words: &'a [u8]) -> Result<&'a [u8], LogFault>
    ensures { Gives (λ rest. words_of rest.now) result
        (after_word expected.now (words_of words.now)) }
{
    let (word, rest) = first_word(words)?;
    if word == expected.as_bytes() {
        Ok(rest)
    } else {
        Err(LogFault::UnknownReply)
    }
}

fn no_word(words: &[u8]) -> Result<(), LogFault>
    ensures { Gives (λ _. []) result (no_word (words_of words.now)) }
{
    match next_word(words) {
        None => Ok(()),
        Some(_) => Err(LogFault::Line(LineFault::TooManyWords)),
    }
}

fn number_at(words: &[u8]) -> Result<(u32, &[u8]), LogFault>
    ensures { Gives (λ x. (x.0, words_of x.1.now)) result
        (number_at NUMBER_LIMIT (words_of words.now)) }
{
    let (word, rest) = first_word(words)?;
    match number_up_to(NUMBER_LIMIT, word) {
        Some(number) => Ok((number as u32, rest)),
        None => Err(LogFault::Line(LineFault::Number)),
    }
}

fn refresh_at(words: &[u8]) -> Result<(u64, &[u8]), LogFault>
    ensures { Gives (λ x. (x.0, words_of x.1.now)) result
        (number_at REFRESH_LIMIT (words_of words.now)) }
{
    let (word, rest) = first_word(words)?;
    match number_up_to(REFRESH_LIMIT, word) {
        Some(number) => Ok((number, rest)),
        None => Err(LogFault::Line(LineFault::Number)),
    }
}

fn number_after<'a>(expected: &str, words: &'a [u8]) -> Result<(u32, &'a [u8]), LogFault>
    ensures { Gives (λ x. (x.0, words_of x.1.now)) result
        (number_after expected.now (words_of words.now)) }
{
    number_at(after_word(expected, words)?)
}

fn direction_at(words: &[u8]) -> Result<(Direction, &[u8]), LogFault>
    ensures { Gives (λ x. (x.0, words_of x.1.now)) result
        (named_at direction_named (words_of words.now)) }
{
    let (word, rest) = first_word(words)?;
    let direction = direction_named(word).ok_or(LogFault::UnknownReply)?;
    Ok((direction, rest))
}

fn validity_at(words: &[u8]) -> Result<(Validity, &[u8]), LogFault>
    ensures { Gives (λ x. (x.0, words_of x.1.now)) result
        (named_at validity_named (words_of words.now)) }
{
    let (word, rest) = first_word(words)?;
    let validity = validity_named(word).ok_or(LogFault::UnknownReply)?;
    Ok((validity, rest))
}

const CODES: [ReturnCode; 7] = [
    ReturnCode::NoError,
    ReturnCode::NoAction,
    ReturnCode::NotAvailable,
    ReturnCode::InvalidParam,
    ReturnCode::InvalidConfig,
    ReturnCode::InvalidMode,
    ReturnCode::TimedOut,
];

fn code_named(word: &[u8]) -> Option<ReturnCode>
    ensures { result ≡ code_named word.now }
{
    CODES
        .iter()
        .copied()
        .find(|code| code.word().as_bytes() == word)
}

const DIRECTIONS: [Direction; 2] = [Direction::Source, Direction::Destination];

fn direction_named(word: &[u8]) -> Option<Direction>
    ensures { result ≡ direction_named word.now }
{
    DIRECTIONS
        .iter()
        .copied()
        .find(|direction| direction.word().as_bytes() == word)
}

const VALIDITIES: [Validity; 2] = [Validity::Invalid, Validity::Valid];

fn validity_named(word: &[u8]) -> Option<Validity>
    ensures { result ≡ validity_named word.now }
{
    VALIDITIES
        .iter()
        .copied()
        .find(|validity| validity.word().as_bytes() == word)
}
