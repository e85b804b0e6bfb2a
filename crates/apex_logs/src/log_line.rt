//! The lines of a log: each has the entry of its call and its logged reply, or is passed over.
ghost use Rattle.std.specs.Prelude.{◌≡◌, ◌+◌, ◌<◌, ◌≤◌, length, position, option_map, false, IfOk, IfSome, OnOk};
ghost use Rattle.apex_logs.specs.Prelude.{words_of, is_blank};
ghost use Rattle.apex_texts.specs.Arguments as of_trace;
ghost use Rattle.apex_texts.specs.Trace.{partition_of};
ghost use Rattle.apex_logs.specs.ReplyWords.{Gives};
ghost use Rattle.apex_logs.specs.LogLine.{arrow_in, sides_of, is_bracket, is_closed, before_note, reply_behind, parts_of, request_in, logged_at, own_logged_at, ends_calls};
ghost use Rattle.apex_logs.specs.TimedCall.{logged_request_at, own_request_at};

use crate::log_fault::LogFault;
use crate::reply_words::{first_word, read_reply};
use crate::time_out::TimeOut;
use crate::timed_call::read_timed_call;
use apex_module::Config;
use apex_ports::Entry;
use apex_texts::LineFault;
use apex_texts::arguments::{moment_of, service_at, word_at};
use apex_texts::lines::line_words;
use apex_texts::text::{next_word, word_in};
use apex_types::{Call, Moment, Reply};
use memchr::{memchr, memmem};

/// An entry that others are read into.
pub const ANY_ENTRY: Entry = Entry {
    partition: 0,
    at: Moment(0),
    call: Call::SetMode { mode: 0 },
    reply: Reply::NotMade,
};

/// Reads the entry of a log's line into `entry`, and answers its time-out, if the line has an entry: a line without
/// words and a comment have none. After a fault `entry` is unspecified.
#[tactic(auto, unfolding(crate::specs::LogLine::entry_of_line, crate::specs::LogLine::entry_of_parts))]
pub fn read_log_line(
    config: &Config,
    line: &[u8],
    entry: &mut Entry,
) -> Result<Option<TimeOut>, LogFault>
    ensures exact { Gives (option_map (λ time_out. (entry.new, time_out))) result
        (logged_at config.now line.now) }
    ensures known { IfOk result
        (λ found. IfSome found (λ _. entry.new.partition < length config.now.partitions)) }
{
    match parts_of(line)? {
        None => Ok(None),
        Some(parts) => {
            let asked = read_request(config, parts.moment, parts.words, entry);
            let time_out = asked.map_err(LogFault::Line)?;
            read_reply_behind(parts.reply, &mut entry.reply)?;
            Ok(Some(time_out))
        }
    }
}

/// Reads the entry of a line in the log of one partition, which the line doesn't name, into
/// `entry`, and answers as `read_log_line` does.
#[tactic(auto, unfolding(crate::specs::LogLine::entry_of_line, crate::specs::LogLine::entry_of_parts))]
pub fn read_partition_log_line(
    partition: usize,
    line: &[u8],
    entry: &mut Entry,
) -> Result<Option<TimeOut>, LogFault>
    ensures exact { Gives (option_map (λ time_out. (entry.new, time_out))) result
        (own_logged_at partition line.now) }
    ensures own { IfOk result (λ found. IfSome found (λ _. entry.new.partition ≡ partition)) }
{
    match parts_of(line)? {
        None => Ok(None),
        Some(parts) => {
            let asked = read_own_request(partition, parts.moment, parts.words, entry);
            let time_out = asked.map_err(LogFault::Line)?;
            read_reply_behind(parts.reply, &mut entry.reply)?;
            Ok(Some(time_out))
        }
    }
}

/// Whether a line ends the calls of its log: its first word is `after`.
pub fn ends_calls(line: &[u8]) -> bool
    ensures { result ≡ ends_calls line.now }
{
    if !may_end_calls(line) {
        return false;
    }
    match next_word(line) {
        None => false,
        Some((word, _)) => word == "after".as_bytes(),
    }
}

// Whether the first byte that isn't blank is that of `after`. In most lines this byte alone shows that they don't end the
// calls.
fn may_end_calls(line: &[u8]) -> bool
    ensures { result ≡ false → ends_calls line.now ≡ false }
{
    match word_in(line) {
        None => false,
        Some(start) => line[start] == b'a',
    }
}

// The first word of a line's call, the words after it, and the text behind the arrow.
#[derive(Drop)]
struct LineParts<'a> {
    moment: &'a [u8],
    words: &'a [u8],
    reply: &'a [u8],
}

#[tactic(auto, unfolding(crate::specs::LogLine::parts_of))]
fn parts_of(line: &[u8]) -> Result<Option<LineParts<'_>>, LogFault>
    ensures { Gives (option_map (λ x. record {
      moment = x.moment.now;
      words = words_of x.words.now;
      reply = x.reply.now;
    }))
        result (parts_of line.now) }
{
    match line_words(line).map_err(LogFault::Line)? {
        None => Ok(None),
        Some(_) => {
            let (asked, reply) = sides_of(line)?;
            let (moment, words) = first_word(asked)?;
            Ok(Some(LineParts {
                moment,
                words,
                reply,
            }))
        }
    }
}

/// The text before the first arrow of a line, and the text behind it.
pub fn sides_of(line: &[u8]) -> Result<(&[u8], &[u8]), LogFault>
    ensures { Gives (λ x. (x.0.now, x.1.now)) result (sides_of line.now) }
{
    match arrow_in(line) {
        None => Err(LogFault::NoReply),
        Some(at) => Ok((&line[..at], &line[at + 2..])),
    }
}

fn arrow_in(line: &[u8]) -> Option<usize>
    ensures found { result ≡ arrow_in line.now }
    ensures within { IfSome result (λ at. at + 2 ≤ length line.now) }
{
    memmem::find(line, b"->")
}

// Reads what is asked in a line that names its partition, and answers its time-out.
#[tactic(auto, unfolding(crate::specs::TimedCall::logged_request_at, crate::specs::TimedCall::timed_call_of))]
fn read_request(
    config: &Config,
    moment: &[u8],
    words: &[u8],
    entry: &mut Entry,
) -> Result<TimeOut, LineFault>
    ensures exact { of_trace.Gives (λ time_out. (request_in entry.new, time_out)) result
        (logged_request_at config.now moment.now (words_of words.now)) }
    ensures known { OnOk result (entry.new.partition < length config.now.partitions) }
{
    let (partition, words) = word_at(words)?;
    let (call, words) = word_at(words)?;
    entry.at = moment_of(moment)?;
    entry.partition = partition_of(config, partition)?;
    read_timed_call(service_at(call)?, words, &mut entry.call)
}

fn partition_of(config: &Config, word: &[u8]) -> Result<usize, LineFault>
    ensures { result ≡ partition_of config.now word.now }
{
    config.partition_called(word).ok_or(LineFault::Partition)
}

// Reads what is asked in a line of a partition's own log, and answers its time-out.
#[tactic(auto, unfolding(crate::specs::TimedCall::own_request_at, crate::specs::TimedCall::timed_call_of))]
fn read_own_request(
    partition: usize,
    moment: &[u8],
    words: &[u8],
    entry: &mut Entry,
) -> Result<TimeOut, LineFault>
    ensures exact { of_trace.Gives (λ time_out. (request_in entry.new, time_out)) result
        (own_request_at partition moment.now (words_of words.now)) }
    ensures own { entry.new.partition ≡ partition }
{
    entry.partition = partition;
    let (call, words) = word_at(words)?;
    entry.at = moment_of(moment)?;
    read_timed_call(service_at(call)?, words, &mut entry.call)
}

#[tactic(auto, unfolding(crate::specs::LogLine::reply_behind))]
fn read_reply_behind(text: &[u8], reply: &mut Reply) -> Result<(), LogFault>
    ensures { Gives (λ _. reply.new) result (reply_behind text.now) }
{
    read_reply(before_note(text)?, reply)
}

/// The text behind an arrow without its note, if it has one.
pub fn before_note(text: &[u8]) -> Result<&[u8], LogFault>
    ensures { Gives (λ x. x.now) result (before_note text.now) }
{
    match bracket_in(text) {
        None => Ok(text),
        Some(at) if is_closed(&text[at..]) => Ok(&text[..at]),
        Some(_) => Err(LogFault::OpenNote),
    }
}

fn bracket_in(text: &[u8]) -> Option<usize>
    ensures { result ≡ position is_bracket text.now }
{
    memchr(b'(', text)
}

// Whether the last byte that isn't blank is a closing bracket.
fn is_closed(note: &[u8]) -> bool
    ensures { result ≡ is_closed false note.now }
{
    let mut closed = false;
    for byte in note {
        if *byte != b' ' && *byte != b'\t' {
            closed = *byte == b')';
        }
    }
    closed
}
