//! Orders for the replies of calls that have several, each in a file of its own.
ghost use Rattle.std.specs.Prelude.{◌≡◌, ◌⊎◌, ◌<◌, length, IfOk, OnOk};
ghost use Rattle.apex_orders.specs.Lists.{Has};
ghost use Rattle.apex_orders.specs.Outcomes.{AreRepliesWith};
ghost use Rattle.apex_orders.specs.declared.replies.PossibleReply.{PossibleReply};

use crate::file_writer::FileWriter;
use crate::occurrences::order_text;
use crate::progress::Progress;
use crate::script_outcomes::unfinished_by;
use crate::search_progress::SearchProgress;
use crate::unfinished::Unfinished;
use apex_groups::orders_of_replies;
use apex_module::Config;
use apex_orders::{Order, PossibleReply};
use apex_ports::{ReplyRef, Script};
use apex_texts::push_reply;
use apex_types::OutOfMemory;
use dekarino_texts::{LineNumbers, is_to, line_at, numbers_of, replies_of};
use std::alloc::{AllocError, Global};
use std::thread::Threads;

/// The most files that are written.
const MOST_FILES: usize = 1_000;

/// The most characters of a reply that are in the name of a file.
const MOST_CHARACTERS: usize = 80;

/// Makes the folder, if one is given. A folder that can't be made is a fault before anything is searched.
pub(crate) fn make_folder<'a, O: FileWriter>(
    files: &O,
    folder: Option<&'a str>,
) -> Result<(), Unfinished<'a>> {
    match folder {
        Some(folder) if files.make_folder(folder).is_err() => {
            Err(Unfinished::UnwritableFile(folder))
        }
        _ => Ok(()),
    }
}

/// Writes an order for each reply of the calls that have several to a file in the folder, if one is given, and returns the
/// names of the files, in the order of the calls. If a search is given up, the orders that it found are still written.
pub(crate) fn write_witnesses<'a, R: Threads + Sync, O: FileWriter, P: Progress>(
    rt: &R,
    alloc: Global,
    files: &O,
    config: &Config,
    scripts: &mut [Script],
    clock: bool,
    lines: &[LineNumbers],
    replies: &[PossibleReply],
    folder: Option<&'a str>,
    progress: &mut SearchProgress<'_, P>,
) -> Result<Vec<String>, Unfinished<'a>>
    requires count { length scripts.old ≡ length config.now.partitions }
    requires replies { AreRepliesWith clock config.now scripts.old replies.now }
    ensures same { scripts.new ≡ scripts.old }
{
    let Some(folder) = folder else {
        return Ok(Vec::new(alloc));
    };
    let Witnesses { names, replies } = witnesses_of(alloc, config, scripts, lines, replies)?;
    let states = progress.states();
    let orders = orders_of_replies(rt, alloc, config, scripts, clock, replies, states, progress)?;
    let mut unknown = None;
    for (k, order) in orders.iter().enumerate() {
        match order {
            Err(fault) => unknown = unknown.or(Some(*fault)),
            Ok(order) => write_order(alloc, files, config, scripts, order, folder, &names[k])?,
        }
    }
    match unknown {
        None => Ok(names),
        Some(fault) => Err(unfinished_by(fault, progress)),
    }
}

/// The replies of the calls that have several, and the names of the files for their orders, in the order of the calls.
fn witnesses_of(
    alloc: Global,
    config: &Config,
    scripts: &[Script],
    lines: &[LineNumbers],
    replies: &[PossibleReply],
) -> Result<Witnesses, OutOfMemory>
    requires { length scripts.now ≡ length config.now.partitions }
    ensures each { IfOk result (λ found. (one : PossibleReply) → Has found.replies.items one
        → Has replies.now one) }
    ensures count { IfOk result (λ found. length found.names.items ≡ length found.replies.items) }
{
    let mut found = Witnesses {
        names: Vec::new(alloc),
        replies: Vec::new(alloc),
    };
    for p in 0..config.partitions() {
        let numbers = numbers_of(lines, p);
        let script = &scripts[p];
        let of_calls = replies_of(alloc, p, script.calls.len(), replies)?;
        for index in 0..of_calls.len() {
            if of_calls[index].len() > 1 && found.names.len() < MOST_FILES {
                let line = line_at(numbers, index);
                found.add_call(alloc, config, p, index, line, replies)?;
            }
        }
    }
    Ok(found)
}

/// Some replies, and the name of a file for the order of each.
#[derive(Drop)]
struct Witnesses {
    names: Vec<String>,
    replies: Vec<PossibleReply>,
}

impl Witnesses {
    /// Adds the replies to the call at an index of the partition's script.
    fn add_call(
        &mut self,
        alloc: Global,
        config: &Config,
        p: usize,
        index: usize,
        line: usize,
        replies: &[PossibleReply],
    ) -> Result<(), OutOfMemory>
        requires partition { p < length config.now.partitions }
        requires count { length self.old.names.items ≡ length self.old.replies.items }
        ensures each { OnOk result ((one : PossibleReply) → Has self.new.replies.items one
            → Has self.old.replies.items one ⊎ Has replies.now one) }
        ensures count { OnOk result (length self.new.names.items ≡ length self.new.replies.items) }
    {
        let mut number: usize = 0;
        for one in replies {
            if is_to(one, p, index) {
                number = number.saturating_add(1);
                self.add(alloc, config, p, line, number, one)?;
            }
        }
        Ok(())
    }

    /// Adds the reply and the name of its file, unless there are too many.
    fn add(
        &mut self,
        alloc: Global,
        config: &Config,
        p: usize,
        line: usize,
        number: usize,
        one: &PossibleReply,
    ) -> Result<(), OutOfMemory>
        requires partition { p < length config.now.partitions }
        requires count { length self.old.names.items ≡ length self.old.replies.items }
        ensures each { OnOk result ((other : PossibleReply) → Has self.new.replies.items other
            → Has self.old.replies.items other ⊎ (one.now ≡ other)) }
        ensures count { OnOk result (length self.new.names.items ≡ length self.new.replies.items) }
    {
        if self.names.len() < MOST_FILES {
            let name = file_name(alloc, config, p, line, number, one)?;
            self.names.push(name)?;
            self.replies.push(one.copy())?;
        }
        Ok(())
    }
}

/// Writes the order to the file with this name in the folder.
fn write_order<'a, O: FileWriter>(
    alloc: Global,
    files: &O,
    config: &Config,
    scripts: &[Script],
    order: &Order,
    folder: &'a str,
    name: &str,
) -> Result<(), Unfinished<'a>>
    requires { length scripts.now ≡ length config.now.partitions }
{
    let text = order_text(alloc, config, scripts, order)?;
    let path = format!(in alloc; "{folder}/{name}")?;
    match files.write_file(&path, text.as_bytes()) {
        Ok(()) => Ok(()),
        Err(_) => Err(Unfinished::UnwritableFileIn {
            folder,
            name: String::from_str(alloc, name)?,
        }),
    }
}

/// The name of a reply's file: `NAME_LINE_REPLY.log`, with `_` for each space of the reply. A reply that is too long is cut,
/// and its number among those of the call follows.
fn file_name(
    alloc: Global,
    config: &Config,
    p: usize,
    line: usize,
    number: usize,
    one: &PossibleReply,
) -> Result<String, AllocError>
    requires { p < length config.now.partitions }
{
    let mut words = String::new(alloc);
    push_reply(&mut words, ReplyRef::of(&one.reply))?;
    let mut name = String::new(alloc);
    write!(name, "{}_{line}_", config.partition_name(p).text())?;
    for (place, letter) in words.chars().enumerate() {
        if place < MOST_CHARACTERS {
            name.push(if letter == ' ' { '_' } else { letter })?;
        }
    }
    if words.len() > MOST_CHARACTERS {
        write!(name, "_{number}")?;
    }
    name.push_str(".log")?;
    Ok(name)
}
