//! The departures of a log, entry by entry.
ghost use Rattle.std.specs.Prelude.{◌≡◌, ◌<◌, ◌≤◌, ◌+◌, ◌^◌, ◌-◌, ◌∷◌, ◌++◌, [], true, false, length, None, IfOk, IfErr, OnOk};
ghost use Rattle.dekarino_texts.specs.Prelude.{entry_of, instead_of, entry_in_ours, own_after, replaced_in, restored, polled_entry};
ghost use Rattle.apex_types.specs.declared.reply.Reply.TheVariants as replies;
ghost use Rattle.dekarino_texts.specs.declared.departures.SinkError.TheVariants as sinks;
ghost use Rattle.dekarino_texts.specs.Departures.{NamesNoLine, counts_with, departure_in, departures_handed, expected_waited, known_in, place_with};
ghost use Rattle.dekarino_texts.specs.Handed.{IsHanded};

use crate::judged_lines::JudgeError;
use apex_judge::{Expected, Judge, KnownIds, OwnIds, Replaced};
use apex_logs::{MaxWait, TimeOut};
use apex_module::Config;
use apex_ports::Entry;
use apex_types::{Call, OutOfMemory, Reply, ReturnCode};
use std::alloc::AllocError;
use std::io;

/// How a log is read.
#[derive(Clone, Copy, Debug, PartialEq, Eq)]
pub struct Reading {
    /// Each send and receive whose line says no time-out has one.
    pub time_outs: bool,
    /// The identifiers are those that the system gave its ports.
    pub own_ids: bool,
}

/// The line of a logged call, how long the call may wait, and what is known of its port from the lines before.
#[derive(Clone, Copy, Debug, PartialEq, Eq)]
pub struct LogPlace {
    /// The number of the line, from 1.
    pub line: usize,
    /// The time-out that the line says.
    pub time_out: TimeOut,
    /// How long the call may wait.
    pub wait: MaxWait,
    /// What the log showed before of the port that the call creates or asks for, if the identifiers are the system's.
    pub known: Option<KnownIds>,
}

/// Why a sink doesn't take a departure.
#[derive(Debug, Drop)]
pub enum SinkError {
    /// A growth of memory was refused.
    OutOfMemory,
    /// It can't be written.
    Io(io::Error),
}

impl From<AllocError> for SinkError {
    ghost from_gives = { λ _ given. given ≡ sinks.OutOfMemory };

    fn from(_refused: AllocError) -> SinkError {
        SinkError::OutOfMemory
    }
}

/// Takes the departures of logs, in order.
pub trait DepartureSink {
    ghost use Rattle.std.specs.Prelude.{◌<◌, length, OnOk};
    ghost use Rattle.dekarino_texts.specs.Departures.{LoggedDeparture, departure_in};

    /// How the sink is before and after it takes a departure.
    ghost takes: { Self → LoggedDeparture → Self → Type 0 };

    /// Takes an entry whose reply departs from the standard, from its place in a log, its call with our identifiers, and what
    /// the standard has. A call that would still wait has the row of an empty or a full queue, and NOT_AVAILABLE.
    fn departure(
        &mut self,
        config: &Config,
        file: &str,
        place: LogPlace,
        entry: &Entry,
        asked: &Call,
        expected: &Expected,
    ) -> Result<(), SinkError>
        requires { entry.now.partition < length config.now.partitions }
        ensures { OnOk result (takes self.old
            (departure_in place entry.now asked.now expected.now) self.new) };
}

/// How many calls were judged, and how many of their replies depart.
#[derive(Clone, Copy, Debug, PartialEq, Eq)]
pub struct DepartureCounts {
    /// The entries of the log.
    pub calls: usize,
    /// The entries whose replies depart from the standard.
    pub departures: usize,
}

/// Judges the next entry of a log, counts it, and hands it to the sink if its reply departs and fewer than `most` did
/// before it.
pub(crate) fn judge_entry<S: DepartureSink>(
    judge: &mut Judge,
    ids: &mut OwnIds,
    file: &str,
    place: LogPlace,
    entry: &mut Entry,
    most: usize,
    counts: DepartureCounts,
    sink: &mut S,
) -> Result<DepartureCounts, JudgeError>
    requires partition { entry.old.partition < length judge.old.config.partitions }
    requires known { length ids.old.known ≡ length judge.old.config.partitions }
    requires few { counts.calls < 2 ^ 64 - 1 }
    requires fewer { counts.departures ≤ counts.calls }
    ensures counts { let ours = entry_in_ours judge.old.config ids.old entry.old in
        let instead = instead_of judge.old.config judge.old.log (polled_entry place.wait ours) in
        IfOk result (λ after. after ≡ counts_with counts instead) }
    ensures handed { let ours = entry_in_ours judge.old.config ids.old entry.old in
        let instead = instead_of judge.old.config judge.old.log (polled_entry place.wait ours) in
        let here = place_with place (replaced_in judge.old.config ids.old entry.old) in
        let handed = departures_handed most counts.departures here entry.old ours.call instead in
        OnOk result (IsHanded S.takes sink.old handed sink.new) }
    ensures log { let ours = entry_in_ours judge.old.config ids.old entry.old in
        OnOk result (judge.new.log ≡ judge.old.log ++ polled_entry place.wait ours ∷ []) }
    ensures known { OnOk result (ids.new ≡ own_after judge.old.config ids.old entry.old) }
    ensures count { OnOk result (length ids.new.known ≡ length ids.old.known) }
    ensures config { judge.new.config ≡ judge.old.config }
    ensures refused { IfErr result NamesNoLine }
{
    let replaced = ids.enter(judge.config(), entry)?;
    if add_if_agreeing(judge, entry, place.wait)? {
        return Ok(DepartureCounts {
            calls: counts.calls + 1,
            ..counts
        });
    }
    judge_departing(judge, file, place, entry, replaced, most, counts, sink)
}

/// Adds an entry in our identifiers if its reply is the standard's, and returns whether it is.
fn add_if_agreeing(judge: &mut Judge, entry: &Entry, wait: MaxWait) -> Result<bool, OutOfMemory>
    requires { entry.now.partition < length judge.old.config.partitions }
    ensures agrees { let judged = polled_entry wait entry.now in IfOk result (λ agreed.
        agreed ≡ true → instead_of judge.old.config judge.old.log judged ≡ None) }
    ensures log { let judged = polled_entry wait entry.now in IfOk result (λ agreed.
        agreed ≡ true → judge.new.log ≡ judge.old.log ++ judged ∷ []) }
    ensures same { IfOk result (λ agreed. agreed ≡ false → judge.new.log ≡ judge.old.log) }
    ensures config { judge.new.config ≡ judge.old.config }
{
    match &entry.reply {
        Reply::Code(code) if wait.polled_code(*code) != *code => {
            add_if_code(judge, entry, wait.polled_code(*code))
        }
        reply => judge.add_if_agreeing(entry.partition, entry.at, &entry.call, reply),
    }
}

/// Adds an entry as if its call had been answered a return code, if that is the standard's reply.
// Not inlined, since a function that makes a reply clears its room where it begins.
#[inline(never)]
fn add_if_code(judge: &mut Judge, entry: &Entry, code: ReturnCode) -> Result<bool, OutOfMemory>
    requires { entry.now.partition < length judge.old.config.partitions }
    ensures agrees { let judged = entry_of entry.now.partition entry.now.at
        entry.now.call (replies.Code code) in
        IfOk result (λ agreed.
        agreed ≡ true → instead_of judge.old.config judge.old.log judged ≡ None) }
    ensures log { let judged = entry_of entry.now.partition entry.now.at
        entry.now.call (replies.Code code) in
        IfOk result (λ agreed.
        agreed ≡ true → judge.new.log ≡ judge.old.log ++ judged ∷ []) }
    ensures same { IfOk result (λ agreed. agreed ≡ false → judge.new.log ≡ judge.old.log) }
    ensures config { judge.new.config ≡ judge.old.config }
{
    judge.add_if_agreeing(entry.partition, entry.at, &entry.call, &Reply::Code(code))
}

/// Judges an entry in our identifiers, counts it, and hands it to the sink as `judge_entry` does.
// Not inlined, since a function that makes a reply clears its room where it begins.
#[inline(never)]
fn judge_departing<S: DepartureSink>(
    judge: &mut Judge,
    file: &str,
    place: LogPlace,
    entry: &mut Entry,
    replaced: Option<Replaced>,
    most: usize,
    counts: DepartureCounts,
    sink: &mut S,
) -> Result<DepartureCounts, JudgeError>
    requires partition { entry.old.partition < length judge.old.config.partitions }
    requires few { counts.calls < 2 ^ 64 - 1 }
    requires fewer { counts.departures ≤ counts.calls }
    ensures counts { let judged = polled_entry place.wait entry.old in
        let instead = instead_of judge.old.config judge.old.log judged in
        IfOk result (λ after. after ≡ counts_with counts instead) }
    ensures handed { let judged = polled_entry place.wait entry.old in
        let instead = instead_of judge.old.config judge.old.log judged in
        let here = place_with place replaced in
        let logged = restored replaced entry.old in
        let handed = departures_handed most counts.departures here logged entry.old.call instead in
        OnOk result (IsHanded S.takes sink.old handed sink.new) }
    ensures log { OnOk result (judge.new.log
        ≡ judge.old.log ++ polled_entry place.wait entry.old ∷ []) }
    ensures config { judge.new.config ≡ judge.old.config }
    ensures refused { IfErr result NamesNoLine }
{
    let calls = counts.calls + 1;
    let Some(expected) = judge_polled(judge, entry, place.wait)? else {
        return Ok(DepartureCounts { calls, ..counts });
    };
    if counts.departures < most {
        hand_on(judge.config(), file, place, entry, replaced, expected, sink)?;
    }
    Ok(DepartureCounts {
        calls,
        departures: counts.departures + 1,
    })
}

/// Hands an entry that departs to the sink, with the system's identifiers again.
fn hand_on<S: DepartureSink>(
    config: &Config,
    file: &str,
    place: LogPlace,
    entry: &mut Entry,
    replaced: Option<Replaced>,
    expected: Expected,
    sink: &mut S,
) -> Result<(), SinkError>
    requires { entry.old.partition < length config.now.partitions }
    ensures { let handed = departure_in (place_with place replaced) (restored replaced entry.old)
        entry.old.call (expected_waited place.wait expected) in
        OnOk result (S.takes sink.old handed sink.new) }
{
    let asked = entry.call.copy();
    restore(replaced, entry);
    let mut expected = expected;
    place.wait.wait(&mut expected.reply);
    let here = LogPlace {
        known: known_in(replaced),
        ..place
    };
    sink.departure(config, file, here, entry, &asked, &expected)
}

fn restore(replaced: Option<Replaced>, entry: &mut Entry)
    ensures entry { entry.new ≡ restored replaced entry.old }
    ensures partition { entry.new.partition ≡ entry.old.partition }
{
    if let Some(replaced) = replaced {
        replaced.restore(entry);
    }
}

fn known_in(replaced: Option<Replaced>) -> Option<KnownIds>
    ensures { result ≡ known_in replaced }
{
    match replaced {
        Some(replaced) => Some(replaced.known),
        None => None,
    }
}

/// Judges the reply that the call of an entry would have got without a time-out when it returned.
fn judge_polled(
    judge: &mut Judge,
    entry: &Entry,
    wait: MaxWait,
) -> Result<Option<Expected>, OutOfMemory>
    requires { entry.now.partition < length judge.old.config.partitions }
    ensures judged { let judged = polled_entry wait entry.now in
        IfOk result (λ instead. instead ≡ instead_of judge.old.config judge.old.log judged) }
    ensures log { IfOk result (λ _.
        judge.new.log ≡ judge.old.log ++ polled_entry wait entry.now ∷ []) }
    ensures config { judge.new.config ≡ judge.old.config }
{
    match &entry.reply {
        Reply::Code(code) if wait.polled_code(*code) != *code => {
            judge_code(judge, entry, wait.polled_code(*code))
        }
        reply => judge.judge(entry.partition, entry.at, &entry.call, reply),
    }
}

/// Judges the call of an entry as if its reply were a return code.
// Not inlined, since a function that makes a reply clears its stack room when it begins.
#[inline(never)]
fn judge_code(
    judge: &mut Judge,
    entry: &Entry,
    code: ReturnCode,
) -> Result<Option<Expected>, OutOfMemory>
    requires { entry.now.partition < length judge.old.config.partitions }
    ensures judged { let judged = entry_of entry.now.partition entry.now.at
        entry.now.call (replies.Code code) in
        IfOk result (λ instead. instead ≡ instead_of judge.old.config judge.old.log judged) }
    ensures log { let judged = entry_of entry.now.partition entry.now.at
        entry.now.call (replies.Code code) in
        IfOk result (λ _. judge.new.log ≡ judge.old.log ++ judged ∷ []) }
    ensures config { judge.new.config ≡ judge.old.config }
{
    judge.judge(entry.partition, entry.at, &entry.call, &Reply::Code(code))
}
