//! An order of the entries of logs as one log.
ghost use Rattle.std.specs.Prelude.{◌≡◌, ◌<◌, length};

use crate::own_logs::{OwnLine, OwnLogs};
use apex_log_orders::CallPlace;
use apex_module::Config;
use apex_ports::{Entry, ReplyRef};
use apex_texts::push_reply;
use apex_words::push_request;
use dekarino_texts::push_time_out;
use std::alloc::{AllocError, Global};

/// The bytes that are reserved for each line.
const LINE_BYTES: usize = 48;

/// The entries at these places as they were logged, a line each, as `judge` reads them.
pub(crate) fn order_log(
    alloc: Global,
    config: &Config,
    all: &OwnLogs<'_>,
    order: &[CallPlace],
) -> Result<String, AllocError>
    requires { length all.now.logs.items ≡ length config.now.partitions }
{
    let mut text = String::with_capacity(alloc, order.len().saturating_mul(LINE_BYTES))?;
    for place in order {
        let (p, index) = (place.partition, place.index);
        if p >= all.logs.len() {
            continue;
        }
        let Some(file) = all.files.get(p) else {
            continue;
        };
        if let (Some(entry), Some(line)) = (all.logs[p].entries.get(index), file.lines.get(index)) {
            push_logged(&mut text, config, p, entry, *line)?;
        }
    }
    Ok(text)
}

/// Writes an entry of a partition with its time-out and the reply that was logged.
fn push_logged(
    text: &mut String,
    config: &Config,
    p: usize,
    entry: &Entry,
    line: OwnLine,
) -> Result<(), AllocError>
    requires { p < length config.now.partitions }
{
    push_request(text, config, p, entry.at, &entry.call)?;
    push_time_out(text, line.place.time_out)?;
    text.push_str(" -> ")?;
    match line.code {
        Some(code) => push_reply(text, ReplyRef::Code(code))?,
        None => push_reply(text, ReplyRef::of(&entry.reply))?,
    }
    text.push_str("\n")
}
