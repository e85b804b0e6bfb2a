//! The report of a board, from its log and its ports.
ghost use Rattle.std.specs.Prelude.{◌≡◌, ◌++◌, string_bytes, IfOk, OnOk};
ghost use Rattle.apex_texts.specs.Report.{entry_lines, report_of};

use apex_board::Board;
use apex_ports::{CallRef, ReplyRef};
use apex_texts::{push_entry, push_totals};
use apex_types::OutOfMemory;
use std::alloc::{AllocError, Global};

/// The number of bytes that are reserved for each line of the log.
const LINE_BYTES: usize = 64;

/// The report of a board.
#[tactic(auto, unfolding(apex_texts::specs::Report::report_of))]
pub fn report(alloc: Global, board: &Board) -> Result<String, OutOfMemory>
    ensures { IfOk result (λ text. string_bytes text ≡ report_of board.now.config board.now.log) }
{
    let bytes = board.log().len().saturating_mul(LINE_BYTES);
    let mut text = String::with_capacity(alloc, bytes)?;
    push_log(&mut text, board)?;
    push_totals(&mut text, board.ports())?;
    Ok(text)
}

/// A line for each entry of the log.
#[tactic(auto, unfolding(apex_texts::specs::Report::entry_lines))]
fn push_log(text: &mut String, board: &Board) -> Result<(), AllocError>
    ensures { OnOk result (string_bytes text.new
        ≡ string_bytes text.old ++ entry_lines board.now.config 1 board.now.log) }
{
    let log = board.log();
    let mut number: u64 = 0;
    for entry in log {
        number += 1;
        let name = board.config().partition_name(entry.partition).text();
        let call = CallRef::of(&entry.call);
        let reply = ReplyRef::of(&entry.reply);
        push_entry(text, number, name, entry.at, call, reply)?;
    }
    Ok(())
}
