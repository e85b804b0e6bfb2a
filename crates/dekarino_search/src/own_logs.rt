//! The logs that partitions kept apart, as files give them.
ghost use Rattle.std.specs.Prelude.{◌≡◌, ◌<◌, [], length, replicate, IfOk, IfSome};
ghost use Rattle.dekarino_search.specs.OwnLogs.{AreOwnLogs, SaysOwnLog};

use crate::mistakes::mistakes_of_own_log;
use crate::unfinished::Unfinished;
use apex_files::{Opener, Refusal, partition_and_path, read_file};
use apex_log_orders::OwnLog;
use apex_logs::{ANY_ENTRY, LogError, MaxWait, PartitionLog, next_entry};
use apex_module::Config;
use apex_types::{Reply, ReturnCode};
use dekarino_command_line::Form;
use dekarino_texts::LogPlace;
use std::alloc::{AllocError, Global};

/// A log for each partition of a configuration, without time-outs, and the lines of its entries.
#[derive(Drop)]
pub(crate) struct OwnLogs<'a> {
    pub(crate) logs: Vec<OwnLog>,
    pub(crate) files: Vec<LogFile<'a>>,
}

/// The file of a partition's log, and the line of each of its entries.
#[derive(Drop)]
pub(crate) struct LogFile<'a> {
    pub(crate) path: &'a str,
    pub(crate) lines: Vec<OwnLine>,
}

/// The line of an entry.
#[derive(Clone, Copy, Debug)]
pub(crate) struct OwnLine {
    pub(crate) place: LogPlace,
    /// The logged return code, if the reply is one. The entry has the one without the time-out.
    pub(crate) code: Option<ReturnCode>,
}

/// The log of each partition, in the file that the argument `NAME=LOG` with its name names, or the empty one. If
/// `time_outs` is set, a send or a receive whose line says no time-out is taken to have one.
pub(crate) fn read_own_logs<'a, O: Opener>(
    alloc: Global,
    opener: &O,
    config: &Config,
    arguments: &[&'a str],
    time_outs: bool,
    form: Form,
) -> Result<OwnLogs<'a>, Unfinished<'a>>
    ensures { IfOk result (λ all. AreOwnLogs (O.bytes_at opener.now) time_outs
        config.now arguments.now all.logs.items) }
{
    let mut all = no_logs(alloc, config.partitions())?;
    let mut named = vec![in alloc; false; config.partitions()]?;
    for (index, argument) in arguments.iter().enumerate() {
        let (p, path) = match partition_and_path(config, argument) {
            Some((p, path)) if !named[p] => (p, path),
            _ => return Err(Unfinished::Refused(Refusal::Argument(argument))),
        };
        let later = &arguments[index + 1..];
        let (log, file) = read_own_log(alloc, opener, config, p, path, later, time_outs, form)?;
        all.logs[p] = log;
        all.files[p] = file;
        named[p] = true;
    }
    Ok(all)
}

/// `count` empty logs.
fn no_logs<'a>(alloc: Global, count: usize) -> Result<OwnLogs<'a>, AllocError>
    ensures logs { IfOk result (λ all. all.logs.items ≡ replicate count []) }
    ensures files { IfOk result (λ all. length all.files.items ≡ count) }
{
    let mut logs = Vec::with_capacity(alloc, count)?;
    let mut files = Vec::with_capacity(alloc, count)?;
    for _ in 0..count {
        logs.push_reserved(OwnLog {
            entries: Vec::new(alloc),
        });
        files.push_reserved(LogFile {
            path: "",
            lines: Vec::new(alloc),
        });
    }
    Ok(OwnLogs { logs, files })
}

/// The log of partition `p` in a file. If it is refused, the error has its mistakes, and those of the later arguments.
fn read_own_log<'a, O: Opener>(
    alloc: Global,
    opener: &O,
    config: &Config,
    p: usize,
    path: &'a str,
    later: &[&'a str],
    time_outs: bool,
    form: Form,
) -> Result<(OwnLog, LogFile<'a>), Unfinished<'a>>
    ensures { IfOk result (λ read. IfSome (O.bytes_at opener.now path.now)
        (λ bytes. SaysOwnLog time_outs p bytes read.0)) }
{
    let text = read_file(alloc, opener, path)?;
    match entries_in(alloc, p, text.as_slice(), time_outs) {
        Ok((log, lines)) => Ok((log, LogFile { path, lines })),
        Err(LogError::Line(faulty)) => {
            let mut mistakes = mistakes_of_own_log(alloc, path, config, p, text.as_slice(), form)?;
            push_later(alloc, opener, config, later, form, &mut mistakes)?;
            Err(Unfinished::FaultyOwnLog {
                text: mistakes.into_bytes(),
                file: path,
                faulty,
            })
        }
        Err(LogError::OutOfMemory) => Err(Unfinished::from(AllocError)),
    }
}

/// Adds the mistakes of the logs that these arguments name, of those that can be read.
fn push_later<'a, O: Opener>(
    alloc: Global,
    opener: &O,
    config: &Config,
    arguments: &[&'a str],
    form: Form,
    mistakes: &mut String,
) -> Result<(), Unfinished<'a>> {
    for argument in arguments {
        let Some((p, path)) = partition_and_path(config, argument) else {
            continue;
        };
        match read_file(alloc, opener, path) {
            Ok(text) => {
                let more = mistakes_of_own_log(alloc, path, config, p, text.as_slice(), form)?;
                mistakes.push_str(more.as_str())?;
            }
            Err(Refusal::File { .. }) => {}
            Err(refusal) => return Err(Unfinished::Refused(refusal)),
        }
    }
    Ok(())
}

/// The entries of partition `p` that a text has, without time-outs, and their lines.
fn entries_in(
    alloc: Global,
    p: usize,
    text: &[u8],
    time_outs: bool,
) -> Result<(OwnLog, Vec<OwnLine>), LogError>
    ensures { IfOk result (λ read. SaysOwnLog time_outs p text.now read.0) }
{
    let form = PartitionLog { partition: p };
    let mut entries = Vec::new(alloc);
    let mut lines = Vec::new(alloc);
    let mut rest = text;
    let mut number = 0;
    loop {
        let mut entry = ANY_ENTRY;
        match next_entry(&form, number, rest, &mut entry)? {
            Some((line, time_out, after)) => {
                let wait = MaxWait::of(time_outs, &entry.call, time_out);
                let place = LogPlace {
                    line,
                    time_out,
                    wait,
                    known: None,
                };
                let code = code_in(&entry.reply);
                lines.push(OwnLine { place, code })?;
                wait.poll(&mut entry.reply);
                entries.push(entry)?;
                number = line;
                rest = after;
            }
            None => return Ok((OwnLog { entries }, lines)),
        }
    }
}

/// The return code that a reply is, if it has no data.
fn code_in(reply: &Reply) -> Option<ReturnCode> {
    match reply {
        Reply::Code(code) => Some(*code),
        _ => None,
    }
}
