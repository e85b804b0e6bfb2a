//! Whether logs that partitions kept apart have an order in which each reply is the standard's.
ghost use Rattle.std.specs.Prelude.{◌≡◌, length, IfOk, IfSome};
ghost use Rattle.dekarino_search.specs.OrderAnswer.{IsOrderAnswer};

use crate::configuration::read_config;
use crate::file_writer::FileWriter;
use crate::order_answer::{OrderAnswer, answer_text};
use crate::order_log::order_log;
use crate::outcome::Outcome;
use crate::own_logs::{OwnLogs, read_own_logs};
use crate::progress::Progress;
use crate::search_progress::SearchProgress;
use crate::unfinished::Unfinished;
use apex_files::Opener;
use apex_groups::find_order_apart;
use apex_log_orders::{Answer, CallPlace};
use apex_module::Config;
use dekarino_command_line::{Form, SearchLimits};
use std::alloc::Global;

/// Looks for an order of all calls of the logs that the arguments `NAME=LOG` name, on the configuration in a file, in which
/// each reply is the standard's. If there is one, it is written as a log to `order`, if that is given. The search gives up
/// at the limit of seconds, and keeps dead ends within that of memory. If `time_outs` is set, a send or a receive whose line says no time-out is taken to have one.
pub fn order_of_logs<'a, O: Opener + FileWriter, P: Progress>(
    alloc: Global,
    files: &O,
    config: &'a str,
    arguments: &[&'a str],
    order: Option<&'a str>,
    limits: SearchLimits,
    time_outs: bool,
    form: Form,
    progress: &mut P,
) -> Result<Outcome, Unfinished<'a>> {
    let (answer, text) = search(
        alloc, files, config, arguments, order, limits, time_outs, form, progress,
    )?;
    Ok(match answer {
        OrderAnswer::Exists => Outcome::Done(text),
        OrderAnswer::Impossible => Outcome::Negative(text),
        OrderAnswer::Undecided(_) => Outcome::Undecided(text),
    })
}

/// Whether there is an order, and the text that says so.
fn search<'a, O: Opener + FileWriter, P: Progress>(
    alloc: Global,
    files: &O,
    config: &'a str,
    arguments: &[&'a str],
    order: Option<&'a str>,
    limits: SearchLimits,
    time_outs: bool,
    form: Form,
    progress: &mut P,
) -> Result<(OrderAnswer, Vec<u8>), Unfinished<'a>>
    ensures { IfOk result (λ found. IfSome (O.bytes_at files.now config.now)
        (IsOrderAnswer (O.bytes_at files.now) time_outs arguments.now found.0)) }
{
    let config = read_config(alloc, files, config, form)?;
    let mut all = read_own_logs(alloc, files, &config, arguments, time_outs, form)?;
    let mut progress = SearchProgress::new(progress, limits);
    let logs = all.logs.as_mut_slice();
    let (steps, memory) = (u64::MAX, limits.bytes());
    let (answer, longest) = match find_order_apart(
        alloc,
        &config,
        logs,
        steps,
        memory,
        &mut progress,
    )? {
        Answer::Order(places) => (OrderAnswer::Exists, places),
        Answer::NoOrder(longest) => (OrderAnswer::Impossible, longest),
        Answer::Undecided(longest) => (OrderAnswer::Undecided(progress.bound()), longest),
    };
    if let (OrderAnswer::Exists, Some(file)) = (answer, order) {
        write_order(alloc, files, &config, &all, longest.as_slice(), file)?;
    }
    let text = answer_text(alloc, &config, &all, answer, longest.as_slice(), form)?;
    Ok((answer, text.into_bytes()))
}

/// Writes an order as a log to a file.
fn write_order<'a, O: FileWriter>(
    alloc: Global,
    files: &O,
    config: &Config,
    all: &OwnLogs<'a>,
    order: &[CallPlace],
    file: &'a str,
) -> Result<(), Unfinished<'a>>
    requires { length all.now.logs.items ≡ length config.now.partitions }
{
    let text = order_log(alloc, config, all, order)?;
    match files.write_file(file, text.as_bytes()) {
        Ok(()) => Ok(()),
        Err(_) => Err(Unfinished::UnwritableFile(file)),
    }
}
