//! Whether some order is as questions ask.
ghost use Rattle.std.specs.Prelude.{◌≡◌, length};
ghost use Rattle.apex_ports.specs.Sound.{IsSound};

use crate::bound::Bound;
use crate::progress::Progress;
use crate::questions::AskedOf;
use crate::script_outcomes::unfinished_by;
use crate::search_progress::SearchProgress;
use crate::unfinished::Unfinished;
use crate::verdict::Verdict;
use apex_groups::{AskedEnd, orders_giving_apart, orders_to_ends};
use apex_module::Config;
use apex_orders::step::step;
use apex_orders::{Asked, Order, OrdersFault};
use apex_ports::{Ports, Script};
use apex_types::OutOfMemory;
use apex_words::push_logged;
use dekarino_command_line::{Question, SearchLimits};
use std::alloc::{AllocError, Global};
use std::collections::VecDeque;
use std::thread::Threads;

/// The text if no order is.
const NEVER: &str = "never\n";

/// The answer to a question, with the text that is printed.
#[derive(Drop)]
pub(crate) struct Answer {
    pub(crate) verdict: Verdict,
    pub(crate) text: String,
}

/// What a search found for a question of `--when` or `--never`.
#[derive(Drop)]
pub(crate) enum Occurrence {
    /// An order in which the call gets an admitted reply, or which leads to such an end.
    Order(Order),
    /// There is none.
    Never,
    /// The search gave up at this bound.
    Undecided(Bound),
}

/// What was found for the questions about calls, and for those about ends, in the order given.
#[derive(Drop)]
pub(crate) struct Occurrences {
    calls: VecDeque<Occurrence>,
    ends: VecDeque<Occurrence>,
}

impl Occurrences {
    /// Searches for all that the questions ask. Questions about one partition's calls on channels between the same
    /// partitions share one search, and so do all questions about ends.
    pub(crate) fn find<'a, R: Threads + Sync, P: Progress>(
        rt: &R,
        alloc: Global,
        config: &Config,
        scripts: &mut [Script],
        limits: SearchLimits,
        all_asked: &[AskedOf],
        progress: &mut P,
    ) -> Result<Occurrences, Unfinished<'a>>
        requires { length scripts.old ≡ length config.now.partitions }
        ensures same { scripts.new ≡ scripts.old }
    {
        let calls = calls_asked(alloc, all_asked)?;
        let calls = find_calls(
            rt,
            alloc,
            config,
            scripts,
            limits,
            calls.as_slice(),
            progress,
        )?;
        let ends = ends_asked(alloc, all_asked)?;
        let ends = find_ends(
            rt,
            alloc,
            config,
            scripts,
            limits,
            ends.as_slice(),
            progress,
        )?;
        Ok(Occurrences { calls, ends })
    }

    /// What was found for the next question about a call.
    pub(crate) fn next_call(&mut self) -> Option<Occurrence> {
        self.calls.pop_front()
    }

    /// What was found for the next question about ends.
    pub(crate) fn next_end(&mut self) -> Option<Occurrence> {
        self.ends.pop_front()
    }
}

/// The questions about calls.
fn calls_asked(alloc: Global, all_asked: &[AskedOf]) -> Result<Vec<Asked>, AllocError> {
    let mut calls = Vec::new(alloc);
    for asked in all_asked {
        if let AskedOf::Call(one) = asked {
            calls.push(Asked {
                partition: one.partition,
                index: one.index,
                admitted: one.admitted.copy(),
            })?;
        }
    }
    Ok(calls)
}

/// The questions about ends.
fn ends_asked(alloc: Global, all_asked: &[AskedOf]) -> Result<Vec<AskedEnd>, AllocError> {
    let mut ends = Vec::new(alloc);
    for asked in all_asked {
        if let AskedOf::End(one) = asked {
            ends.push(*one)?;
        }
    }
    Ok(ends)
}

/// What is found for questions about calls.
fn find_calls<'a, R: Threads + Sync, P: Progress>(
    rt: &R,
    alloc: Global,
    config: &Config,
    scripts: &mut [Script],
    limits: SearchLimits,
    asked: &[Asked],
    progress: &mut P,
) -> Result<VecDeque<Occurrence>, Unfinished<'a>>
    requires { length scripts.old ≡ length config.now.partitions }
    ensures same { scripts.new ≡ scripts.old }
{
    let mut search = SearchProgress::new(progress, limits);
    let (clock, states) = (limits.clock, search.states());
    let found = orders_giving_apart(
        rt,
        alloc,
        config,
        scripts,
        clock,
        asked,
        states,
        &mut search,
    )?;
    let mut occurrences = VecDeque::new(alloc);
    for answer in found {
        push_found(&mut occurrences, answer, &search)?;
    }
    Ok(occurrences)
}

/// What is found for questions about ends.
fn find_ends<'a, R: Threads + Sync, P: Progress>(
    rt: &R,
    alloc: Global,
    config: &Config,
    scripts: &mut [Script],
    limits: SearchLimits,
    asked: &[AskedEnd],
    progress: &mut P,
) -> Result<VecDeque<Occurrence>, Unfinished<'a>>
    requires { length scripts.old ≡ length config.now.partitions }
    ensures same { scripts.new ≡ scripts.old }
{
    let mut occurrences = VecDeque::new(alloc);
    let mut search = SearchProgress::new(progress, limits);
    let (clock, states) = (limits.clock, search.states());
    match orders_to_ends(
        rt,
        alloc,
        config,
        scripts,
        clock,
        asked,
        states,
        &mut search,
    ) {
        Ok(found) => {
            for order in found {
                push_found(&mut occurrences, Ok(order), &search)?;
            }
        }
        Err(fault) => {
            for _ in 0..asked.len() {
                push_found(&mut occurrences, Err(fault), &search)?;
            }
        }
    }
    Ok(occurrences)
}

/// Adds what a search that had this progress found for a question.
fn push_found<'a, P: Progress>(
    occurrences: &mut VecDeque<Occurrence>,
    found: Result<Option<Order>, OrdersFault>,
    search: &SearchProgress<'_, P>,
) -> Result<(), Unfinished<'a>> {
    let occurrence = match found {
        Ok(Some(order)) => Occurrence::Order(order),
        Ok(None) => Occurrence::Never,
        Err(fault) => match unfinished_by(fault, search) {
            Unfinished::Undecided(bound) => Occurrence::Undecided(bound),
            unfinished => return Err(unfinished),
        },
    };
    match occurrences.push_back(occurrence) {
        Ok(()) => Ok(()),
        Err(refused) => Err(Unfinished::from(AllocError::from(refused))),
    }
}

/// The answer to a question by what was found: an order, as a log, or that there is none.
pub(crate) fn answer_by<'a>(
    alloc: Global,
    config: &Config,
    scripts: &[Script],
    question: &Question<'a>,
    found: Occurrence,
) -> Result<Answer, Unfinished<'a>>
    requires { length scripts.now ≡ length config.now.partitions }
{
    match found {
        Occurrence::Order(order) => Ok(Answer {
            verdict: Verdict::of(true, question.is_wanted()),
            text: order_text(alloc, config, scripts, &order)?,
        }),
        Occurrence::Never => Ok(Answer {
            verdict: Verdict::of(false, question.is_wanted()),
            text: String::from_str(alloc, NEVER)?,
        }),
        Occurrence::Undecided(bound) => Err(Unfinished::Undecided(bound)),
    }
}

/// The calls in an order as a log: each with its reply.
pub(crate) fn order_text(
    alloc: Global,
    config: &Config,
    scripts: &[Script],
    order: &Order,
) -> Result<String, OutOfMemory>
    requires { length scripts.now ≡ length config.now.partitions }
{
    let mut text = String::new(alloc);
    let mut ports = Ports::new(alloc, config.copy()?)?;
    for p in order.partitions() {
        push_next(&mut text, config, &mut ports, scripts, *p)?;
    }
    Ok(text)
}

/// Makes the next call of a partition's script, and writes it with its reply.
fn push_next(
    text: &mut String,
    config: &Config,
    ports: &mut Ports,
    scripts: &[Script],
    p: usize,
) -> Result<(), AllocError>
    requires scripts { length scripts.now ≡ length config.now.partitions }
    requires same { ports.old.config ≡ config.now }
    requires sound { IsSound ports.old.config ports.old.history }
    ensures config { ports.new.config ≡ ports.old.config }
    ensures sound { IsSound ports.new.config ports.new.history }
{
    if p >= scripts.len() {
        return Ok(());
    }
    let script = &scripts[p];
    match step(ports, scripts, p) {
        None => Ok(()),
        Some(one) => match script.calls.get(one.index) {
            None => Ok(()),
            Some((at, call)) => push_logged(text, config, p, *at, call, &one.reply),
        },
    }
}
