//! Judging a log line by line: whether the call of each line is answered as the standard says.
ghost use Rattle.std.specs.Prelude.{◌≡◌, ◌≢◌, ◌<◌, ◌≤◌, ◌==◌, ◌∷◌, ◌++◌, [], not, length, None, Some, Ok, Err, option_map, IfOk, IfErr};
ghost use Rattle.std.specs.Result.{result_unwrap_or};
ghost use Rattle.apex_judge.specs.Departures.{instead_of};
ghost use Rattle.apex_logs.specs.Polled.{polled_entry};
ghost use Rattle.apex_mistakes.specs.LogFaults.{log_places};
ghost use Rattle.apex_c.specs.JudgedLine.{IsFaultShown, expected_waited, first_column, found_of, instead_said, judged_line, line_in, line_of_kind, noted_line, noted_said, numbers_of_fault, numbers_of_line, of_line, said_in, shown_line, wait_number};
ghost use Rattle.apex_c.specs.Judging.{IsShownFor, judge_after, judged_answer};

use crate::answer::{DEPARTS, FAULTY_LINE, NO_MEMORY, NOT_OPEN, SHORT_BUFFER, TOO_LONG};
use crate::buffer::put_text;
use crate::judge_handle::JudgeHandle;
use crate::judging::{AGREES, Departs, Departure, judged_by, show};
use apex_judge::Judge;
use apex_logs::{ANY_ENTRY, FaultyLine, LINE_LIMIT, LogFault, MaxWait, ends_calls, read_log_line};
use apex_mistakes::{log_faults, log_line_mistake};
use apex_module::Config;
use apex_ports::Entry;
use apex_texts::text::{blank_in, next_line};
use apex_types::{MESSAGE_LIMIT, OutOfMemory};
use std::alloc::{AllocError, Global};

/// The line has no call.
pub const NO_CALL: u32 = 0;

/// The line has a call.
pub const CALL: u32 = 1;

/// The line ends the calls of its log.
pub const CALLS_END: u32 = 2;

/// What a line of a log is: its kind, how long its call may wait (0: not at all, 1: for some time, 2: until it can be
/// served), and the number of its fault with the column, from 1. What it hasn't is 0.
#[repr(C)]
#[derive(Clone, Copy, Drop)]
pub struct LogLine {
    pub column: u64,
    pub kind: u32,
    pub wait: u32,
    pub fault: u32,
}

/// Judges a line of a log, after the lines before it, and notes its call. With `time_outs` other than 0, each send and
/// receive whose line says no time-out has one. Answers `AGREES`, also for a line without a call, `DEPARTS`, as
/// `apex_judge_call`, or `FAULTY_LINE`, with the words of the fault in `words`; in each case `line` has what the line is.
/// Answers `SHORT_BUFFER`, `TOO_LONG` if the text has more than one line or one of more than `LINE_LIMIT` bytes,
/// `NOT_OPEN` or `NO_MEMORY`, after which nothing has changed.
#[unsafe(no_mangle)]
pub extern "C" fn apex_judge_line(
    alloc: Global,
    judge: &mut JudgeHandle,
    text: &[u8],
    time_outs: u32,
    line: &mut LogLine,
    departure: &mut Departure,
    buffer: &mut [u8],
    words: &mut [u8],
) -> u32
    ensures answer { let all = not (time_outs == 0) in
        let judged = judged_line all (length buffer.old) judge.old.held.judge text.now in
        result ≢ NO_MEMORY → result ≡ judged_answer judged }
    ensures noted { let all = not (time_outs == 0) in let held = judge.old.held.judge in
        let noted = noted_line all (length buffer.old) held text.now in
        result ≢ NO_MEMORY → judge.new.held.judge ≡ judge_after noted held }
    ensures line { let all = not (time_outs == 0) in
        let shown = shown_line all (length buffer.old) judge.old.held.judge text.now in
        result ≢ NO_MEMORY → line.new ≡ result_unwrap_or shown line.old }
    ensures shown { let all = not (time_outs == 0) in
        let judged = judged_line all (length buffer.old) judge.old.held.judge text.now in
        result ≢ NO_MEMORY → result ≢ FAULTY_LINE → IsShownFor judged
        departure.old departure.new buffer.old buffer.new words.old words.new }
    ensures faulty { result ≡ FAULTY_LINE → IsFaultShown
        departure.old departure.new buffer.old buffer.new words.old words.new }
    ensures judge_kept { result ≡ NO_MEMORY → judge.new.held.judge ≡ judge.old.held.judge }
    ensures places_kept { result ≡ NO_MEMORY → (line.new ≡ line.old)
        × (departure.new ≡ departure.old) × (buffer.new ≡ buffer.old) × (words.new ≡ words.old) }
{
    if buffer.len() < MESSAGE_LIMIT {
        return SHORT_BUFFER;
    }
    let one = match line_in(text) {
        Ok(one) => one,
        Err(number) => return number,
    };
    match judged_text(alloc, judge, text, one, time_outs != 0) {
        Ok(judged) => put_judged(&judged, line, departure, buffer, words),
        Err(number) => number,
    }
}

// The line of a text that has no more than one.
fn line_in(text: &[u8]) -> Result<&[u8], u32>
    ensures line { IfOk result (λ line. line_in text.now ≡ Ok line.now) }
    ensures refused { IfErr result (λ number. line_in text.now ≡ Err number) }
{
    let Some((line, rest)) = next_line(text) else {
        return Ok(text);
    };
    if line.len() > LINE_LIMIT {
        return Err(TOO_LONG);
    }
    match next_line(rest) {
        None => Ok(line),
        Some(_) => Err(TOO_LONG),
    }
}

// What a line is, and what the standard has in place of its reply, or the words of its fault.
#[derive(Drop)]
struct JudgedLine {
    line: LogLine,
    departs: Result<Option<Departs>, String>,
}

// Judges the line of a text, if the handle is open, and notes its call.
fn judged_text(
    alloc: Global,
    handle: &mut JudgeHandle,
    text: &[u8],
    line: &[u8],
    all: bool,
) -> Result<JudgedLine, u32>
    ensures judged { let held = handle.old.held.judge in
        let judged = of_line held (Ok line.now)
        (λ judge line. instead_said all judge (said_in judge.config line)) in
        IfOk result (λ one. found_of (λ departs. departs.expected) one.departs ≡ judged) }
    ensures noted { let held = handle.old.held.judge in
        let noted = of_line held (Ok line.now)
        (λ judge line. noted_said all judge (said_in judge.config line)) in
        IfOk result (λ _. handle.new.held.judge ≡ judge_after noted held) }
    ensures line { let held = handle.old.held.judge in
        let shown = of_line held (Ok line.now)
        (λ judge line. Ok (numbers_of_line all judge.config text.now line)) in
        IfOk result (λ one. shown ≡ Ok one.line) }
    ensures refused { let held = handle.old.held.judge in
        IfErr result (λ number. number ≢ NO_MEMORY → (held ≡ None) × (number ≡ NOT_OPEN)) }
    ensures kept { IfErr result (λ _. handle.new.held.judge ≡ handle.old.held.judge) }
{
    let Some(mut judge) = handle.take(alloc) else {
        return Err(NOT_OPEN);
    };
    let judged = judge_line(alloc, &mut judge, text, line, all).map_err(|_| NO_MEMORY);
    *handle = JudgeHandle::of(judge);
    judged
}

// Judges the line of a text and notes its call. If memory is refused, the log is what it was.
fn judge_line(
    alloc: Global,
    judge: &mut Judge,
    text: &[u8],
    line: &[u8],
    all: bool,
) -> Result<JudgedLine, OutOfMemory>
    ensures judged { let judged = instead_said all judge.old (said_in judge.old.config line.now) in
        IfOk result (λ one. found_of (λ departs. departs.expected) one.departs ≡ judged) }
    ensures noted { let noted = noted_said all judge.old (said_in judge.old.config line.now) in
        IfOk result (λ _. Some judge.new ≡ judge_after noted (Some judge.old)) }
    ensures line { let shown = numbers_of_line all judge.old.config text.now line.now in
        IfOk result (λ one. one.line ≡ shown) }
    ensures refused { IfErr result (λ _. judge.new ≡ judge.old) }
{
    if ends_calls(line) {
        return Ok(without_call(CALLS_END));
    }
    let mut entry = ANY_ENTRY;
    match read_log_line(judge.config(), line, &mut entry) {
        Ok(None) => Ok(without_call(NO_CALL)),
        Ok(Some(time_out)) => {
            let wait = MaxWait::of(all, &entry.call, time_out);
            judge_entry(alloc, judge, &mut entry, wait)
        }
        Err(fault) => Ok(faulty(alloc, judge.config(), text, line, fault)?),
    }
}

fn without_call(kind: u32) -> JudgedLine
    ensures line { result.line ≡ line_of_kind kind }
    ensures departs { result.departs ≡ Ok None }
{
    JudgedLine {
        line: line_of_kind(kind),
        departs: Ok(None),
    }
}

fn line_of_kind(kind: u32) -> LogLine
    ensures { result ≡ line_of_kind kind }
{
    LogLine {
        column: 0,
        kind,
        wait: 0,
        fault: 0,
    }
}

// Judges an entry whose call may wait this long, and notes it. If memory is refused, the log is what it was.
fn judge_entry(
    alloc: Global,
    judge: &mut Judge,
    entry: &mut Entry,
    wait: MaxWait,
) -> Result<JudgedLine, OutOfMemory>
    requires { entry.old.partition < length judge.old.config.partitions }
    ensures judged { let instead =
        instead_of judge.old.config judge.old.log (polled_entry wait entry.old) in
        IfOk result (λ one. found_of (λ departs. departs.expected) one.departs
        ≡ Ok (option_map (expected_waited wait) instead)) }
    ensures line { IfOk result (λ one.
        one.line ≡ record (line_of_kind CALL) { wait = wait_number wait }) }
    ensures noted { IfOk result (λ _.
        judge.new.log ≡ judge.old.log ++ polled_entry wait entry.old ∷ []) }
    ensures refused { IfErr result (λ _. judge.new.log ≡ judge.old.log) }
    ensures config { judge.new.config ≡ judge.old.config }
{
    wait.poll(&mut entry.reply);
    let Entry {
        partition,
        at,
        call,
        reply,
    } = &*entry;
    let departs = judged_by(alloc, judge, *partition, *at, call, reply)?;
    Ok(JudgedLine {
        line: LogLine {
            wait: wait_number(wait),
            ..line_of_kind(CALL)
        },
        departs: Ok(as_waited(wait, departs)),
    })
}

// With the standard's reply to a call that may wait this long.
fn as_waited(wait: MaxWait, departs: Option<Departs>) -> Option<Departs>
    ensures { option_map (λ one. one.expected) result
        ≡ option_map (expected_waited wait) (option_map (λ one. one.expected) departs) }
{
    match departs {
        None => None,
        Some(mut departs) => {
            wait.wait(&mut departs.expected.reply);
            Some(departs)
        }
    }
}

fn wait_number(wait: MaxWait) -> u32
    ensures { result ≡ wait_number wait }
{
    match wait {
        MaxWait::Zero => 0,
        MaxWait::Finite => 1,
        MaxWait::Infinite => 2,
    }
}

// What is said of the line of a text that has a fault.
fn faulty(
    alloc: Global,
    config: &Config,
    text: &[u8],
    line: &[u8],
    fault: LogFault,
) -> Result<JudgedLine, AllocError>
    ensures line { IfOk result
        (λ one. one.line ≡ numbers_of_fault config.now text.now fault) }
    ensures faulty { IfOk result (λ one.
        found_of (λ departs. departs.expected) one.departs ≡ Err FAULTY_LINE) }
{
    let column = column_of_fault(alloc, config, text)?;
    let faulty = FaultyLine { line: 1, fault };
    let mistake = log_line_mistake(alloc, "", config, faulty, line, true)?;
    Ok(JudgedLine {
        line: LogLine {
            column,
            fault: fault.number(),
            ..line_of_kind(NO_CALL)
        },
        departs: Err(mistake),
    })
}

fn column_of_fault(alloc: Global, config: &Config, text: &[u8]) -> Result<u64, AllocError>
    ensures { IfOk result (λ column. column ≡ first_column (log_places config.now text.now)) }
{
    let faults = log_faults(alloc, config, text, 1)?;
    Ok(match faults.first.first() {
        Some(place) => place.column as u64,
        None => 0,
    })
}

// Puts what was judged into the places of C.
fn put_judged(
    judged: &JudgedLine,
    line: &mut LogLine,
    departure: &mut Departure,
    buffer: &mut [u8],
    words: &mut [u8],
) -> u32
    requires { MESSAGE_LIMIT ≤ length buffer.old }
    ensures answer { let found = found_of (λ departs. departs.expected) judged.now.departs in
        result ≡ judged_answer found }
    ensures line { line.new ≡ judged.now.line }
    ensures shown { let found = found_of (λ departs. departs.expected) judged.now.departs in
        result ≢ FAULTY_LINE → IsShownFor found
        departure.old departure.new buffer.old buffer.new words.old words.new }
    ensures faulty { result ≡ FAULTY_LINE → IsFaultShown
        departure.old departure.new buffer.old buffer.new words.old words.new }
{
    *line = judged.line;
    match &judged.departs {
        Ok(None) => AGREES,
        Ok(Some(departs)) => {
            show(departs, departure, buffer, words);
            DEPARTS
        }
        Err(mistake) => {
            let said = words_of(mistake.as_bytes());
            let _ = put_text(said, words, &mut departure.words_length);
            FAULTY_LINE
        }
    }
}

// The words of a mistake, without its place before them and the line feed behind them.
fn words_of(mistake: &[u8]) -> &[u8] {
    let words = match blank_in(mistake) {
        Some(place) => &mistake[place + 1..],
        None => mistake,
    };
    match words {
        [front @ .., b'\n'] => front,
        _ => words,
    }
}
