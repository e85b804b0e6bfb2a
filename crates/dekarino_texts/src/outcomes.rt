//! The outcomes of scripts: each call with the replies that it can get, and each queuing channel with the ranges of its
//! counts.
ghost use Rattle.std.specs.Prelude.{◌≡◌, ◌<◌, [], length, map, IfOk};
ghost use Rattle.apex_ports.specs.Kept.{EachAt};
ghost use Rattle.dekarino_texts.specs.Outcomes.{is_to, line_at, numbers_of, replies_to};

use crate::counts::{Ranges, ranges_of};
use crate::script_lines::LineNumbers;
use apex_groups::{OutcomesApart, PartCounts};
use apex_module::{ChannelKind, Config};
use apex_orders::{Order, PossibleReply};
use apex_ports::Script;
use apex_types::{Call, Moment, Name, OutOfMemory, Reply};
use std::alloc::{AllocError, Global};

/// A call of a script, on its line of the script's text.
#[derive(Debug, Drop)]
pub struct ScriptCall<'a> {
    /// The number of the line, from 1.
    pub line: usize,
    /// The name of the script's partition.
    pub partition: &'a Name,
    pub at: Moment,
    pub call: &'a Call,
    /// The names of the files with an order for each of its replies, if they are written. The last ones can lack a file.
    pub files: &'a [String],
}

/// Takes the outcomes of scripts: the calls, then the queuing channels, then the parts.
pub trait OutcomeSink {
    /// Takes a call with the replies that it can get.
    fn call(&mut self, call: &ScriptCall<'_>, replies: &[&Reply]) -> Result<(), AllocError>;

    /// Takes a queuing channel with the ranges of its counts in the end.
    fn channel(&mut self, name: &Name, ranges: &Ranges) -> Result<(), AllocError>;

    /// Takes how many states and ends each part of the scripts has.
    fn parts(&mut self, config: &Config, parts: &[PartCounts]) -> Result<(), AllocError>;
}

/// Hands all outcomes to the sink. `lines` has the numbers of the lines of each partition's calls, and `files` the names of
/// the files of the replies to calls that have several, in the order of the calls.
pub fn walk_outcomes<S: OutcomeSink>(
    alloc: Global,
    config: &Config,
    scripts: &[Script],
    lines: &[LineNumbers],
    outcomes: &OutcomesApart,
    files: &[String],
    sink: &mut S,
) -> Result<(), OutOfMemory>
    requires { length scripts.now ≡ length config.now.partitions }
{
    let replies = outcomes.replies.as_slice();
    let mut files = files;
    for (p, script) in scripts.iter().enumerate() {
        let numbers = numbers_of(lines, p);
        files = walk_script(alloc, config, p, script, numbers, replies, files, sink)?;
    }
    walk_channels(alloc, config, scripts, outcomes.ends.as_slice(), sink)?;
    sink.parts(config, outcomes.parts.as_slice())?;
    Ok(())
}

/// The numbers of the lines of a partition's calls; none if there are none for it.
pub fn numbers_of(lines: &[LineNumbers], p: usize) -> &[usize]
    ensures { result.now ≡ numbers_of lines.now p }
{
    match lines.get(p) {
        Some(of) => of.numbers.as_slice(),
        None => &[],
    }
}

/// Hands the calls of a partition's script to the sink, and returns the files of later calls.
fn walk_script<'f, S: OutcomeSink>(
    alloc: Global,
    config: &Config,
    p: usize,
    script: &Script,
    numbers: &[usize],
    replies: &[PossibleReply],
    files: &'f [String],
    sink: &mut S,
) -> Result<&'f [String], AllocError>
    requires { p < length config.now.partitions }
{
    let found = replies_of(alloc, p, script.calls.len(), replies)?;
    let mut files = files;
    for (index, replies) in found.into_iter().enumerate() {
        let (at, call) = &script.calls[index];
        let count = if replies.len() > 1 { replies.len() } else { 0 };
        let (own, later) = files.split_at(count.min(files.len()));
        files = later;
        let call = ScriptCall {
            line: line_at(numbers, index),
            partition: config.partition_name(p),
            at: *at,
            call,
            files: own,
        };
        sink.call(&call, replies.as_slice())?;
    }
    Ok(files)
}

/// The number at an index; 0 if there is none.
pub fn line_at(numbers: &[usize], index: usize) -> usize
    ensures { result ≡ line_at numbers.now index }
{
    numbers.get(index).copied().unwrap_or(0)
}

/// For each of the first calls of the partition's script, as many as `calls` says, the replies to it, in their order.
pub fn replies_of<'a>(
    alloc: Global,
    p: usize,
    calls: usize,
    replies: &'a [PossibleReply],
) -> Result<Vec<Vec<&'a Reply>>, AllocError>
    ensures count { IfOk result (λ found. length found.items ≡ calls) }
    ensures each { IfOk result (λ found. EachAt (λ index own.
        map (λ reply. reply.now) own.items ≡ replies_to p index replies.now) found.items) }
{
    let mut found = no_replies(alloc, calls)?;
    for one in replies {
        if one.partition == p {
            if let Some(own) = found.get_mut(one.index) {
                own.push(&one.reply)?;
            }
        }
    }
    Ok(found)
}

/// For each of as many calls as `calls` says, no replies.
fn no_replies<'a>(alloc: Global, calls: usize) -> Result<Vec<Vec<&'a Reply>>, AllocError>
    ensures count { IfOk result (λ found. length found.items ≡ calls) }
    ensures each { IfOk result (λ found. EachAt (λ _ own. own.items ≡ []) found.items) }
{
    let mut found = Vec::new(alloc);
    for _ in 0..calls {
        found.push(Vec::new(alloc))?;
    }
    Ok(found)
}

/// Whether it is a reply to the call at an index of the partition's script.
pub fn is_to(one: &PossibleReply, p: usize, index: usize) -> bool
    ensures { result ≡ is_to p index one.now }
{
    one.partition == p && one.index == index
}

/// Hands the queuing channels to the sink.
fn walk_channels<S: OutcomeSink>(
    alloc: Global,
    config: &Config,
    scripts: &[Script],
    ends: &[Order],
    sink: &mut S,
) -> Result<(), OutOfMemory>
    requires { length scripts.now ≡ length config.now.partitions }
{
    let all = ranges_of(alloc, config, scripts, ends)?;
    for (c, ranges) in all.iter().enumerate() {
        let channel = config.channel(c);
        if let ChannelKind::Queuing { .. } = channel.kind {
            sink.channel(&channel.name, ranges)?;
        }
    }
    Ok(())
}
