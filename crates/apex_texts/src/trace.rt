//! Reads a trace: the requests of its lines, or its first faulty line.
ghost use Rattle.std.specs.Prelude.{◌≡◌, ◌<◌, if◌then◌else◌, length, Some, None, IsTrue, IfOk, OnOk};
ghost use Rattle.apex_texts.specs.Arguments.{Gives};
ghost use Rattle.apex_texts.specs.Lines.{item_of_line};
ghost use Rattle.apex_texts.specs.Text.{words_of};
ghost use Rattle.apex_texts.specs.Trace.{IsTraceRead, HavePartitions, partition_of, request_at, trace_of};

use crate::arguments::{moment_of, read_call, service_at, word_at};
use crate::fault::TraceFault;
use crate::line_fault::LineFault;
use crate::lines::{LineForm, line_words, read_lines};
use apex_module::Config;
use apex_ports::Request;
use apex_types::{ANY_CALL, Moment};
use std::alloc::Global;

/// The requests of a trace's lines, in order, or its first faulty line.
pub fn read_trace(alloc: Global, config: &Config, text: &[u8]) -> Result<Vec<Request>, TraceFault>
    ensures exact { IsTraceRead result (trace_of config.now text.now) }
    ensures known { IfOk result (λ requests. HavePartitions config.now requests.items) }
{
    read_lines(alloc, &TraceLine { config }, text)
}

/// `MOMENT PARTITION CALL ARGUMENTS`.
#[derive(Drop)]
pub struct TraceLine<'a> {
    pub config: &'a Config,
}

impl LineForm for TraceLine<'_> {
    type Item = Request;

    ghost item_at = { λ form. request_at form.config.now };

    fn item_at(&self, first: &[u8], words: &[u8]) -> Result<Request, LineFault> {
        request_at(self.config, first, words)
    }
}

/// A placeholder to read requests into.
pub const ANY_REQUEST: Request = Request {
    partition: 0,
    at: Moment(0),
    call: ANY_CALL,
};

/// The request with a moment and the words after it.
fn request_at(config: &Config, moment: &[u8], words: &[u8]) -> Result<Request, LineFault>
    ensures { result ≡ request_at config.now moment.now (words_of words.now) }
{
    let mut request = ANY_REQUEST;
    read_request(config, moment, words, &mut request)?;
    Ok(request)
}

/// Reads the request with a moment and the words after it into `request`. After a fault `request` is unspecified.
#[tactic(auto, unfolding(crate::specs::Trace::request_at, crate::specs::Arguments::call_of))]
fn read_request(
    config: &Config,
    moment: &[u8],
    words: &[u8],
    request: &mut Request,
) -> Result<(), LineFault>
    ensures exact { Gives (λ _. request.new) result
        (request_at config.now moment.now (words_of words.now)) }
    ensures known { OnOk result (request.new.partition < length config.now.partitions) }
{
    let (partition, words) = word_at(words)?;
    let (call, words) = word_at(words)?;
    request.at = moment_of(moment)?;
    request.partition = partition_of(config, partition)?;
    read_call(service_at(call)?, words, &mut request.call)
}

/// Reads the request of a line into `request`, and returns whether the line has one: a line without words and a comment
/// have none. After a fault `request` is unspecified.
#[tactic(auto, unfolding(crate::specs::Lines::item_of_line))]
pub fn read_trace_line(
    config: &Config,
    line: &[u8],
    request: &mut Request,
) -> Result<bool, LineFault>
    ensures exact { Gives (λ has_call. if has_call then Some request.new else None) result
        (item_of_line (request_at config.now) line.now) }
    ensures known { IfOk result
        (λ has_call. IsTrue has_call → request.new.partition < length config.now.partitions) }
{
    match line_words(line)? {
        None => Ok(false),
        Some((first, words)) => {
            read_request(config, first, words, request)?;
            Ok(true)
        }
    }
}

fn partition_of(config: &Config, word: &[u8]) -> Result<usize, LineFault>
    ensures { result ≡ partition_of config.now word.now }
{
    config.partition_called(word).ok_or(LineFault::Partition)
}
