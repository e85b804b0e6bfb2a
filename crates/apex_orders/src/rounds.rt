//! The search of all points that orders lead to, round after round.
ghost use Rattle.std.specs.Prelude.{◌≡◌, ◌<◌, ◌≤◌, Bool, None, false, length, IfOk, IfSome, IfNone, IsTrue, OnOk};
ghost use Rattle.apex_orders.specs.Searching.{HasEnded, IsGivenUp, IsSearch};
ghost use Rattle.apex_orders.specs.Workers.{HasLooked, HasNothingLeft, HaveTriedAll, IsUnderWay};

use crate::answer::{are_all_answered, find_answers, no_answers};
use crate::asked::Asked;
use crate::order::PackedOrder;
use crate::orders::Orders;
use crate::orders_fault::OrdersFault;
use crate::progress::Progress;
use crate::replies::PossibleReply;
use crate::search::Search;
use crate::sizes::size_of;
use crate::workers::Workers;
use apex_module::Config;
use apex_ports::{Ports, Script};
use apex_types::OutOfMemory;
use std::alloc::Global;
use std::thread::Threads;

/// What a search has found.
#[derive(Drop)]
pub(crate) struct Found {
    /// One order to each point.
    pub(crate) orders: Orders,
    pub(crate) replies: Vec<PossibleReply>,
    /// For each question an order that answers it, if one was found.
    pub(crate) answers: Vec<Option<PackedOrder>>,
    /// Why the search was given up before it was complete, if it was.
    pub(crate) given_up: Option<OrdersFault>,
}

/// Searches all points, or until each of some questions has its order, or the search is given up.
pub(crate) fn search_points<R: Threads + Sync, P: Progress>(
    rt: &R,
    alloc: Global,
    config: &Config,
    scripts: &[Script],
    clock: bool,
    asked: &[Asked],
    bound: usize,
    progress: &mut P,
) -> Result<Found, OutOfMemory>
    requires { length scripts.now ≡ length config.now.partitions }
    ensures ended { IfOk result (HasEnded clock config.now scripts.now asked.now) }
    ensures given_up { IfOk result (λ found. IfSome found.given_up
        (IsGivenUp clock P.CanStop config.now scripts.now bound)) }
{
    progress.begin();
    let mut rounds = Rounds::new(alloc, config, scripts, asked)?;
    let given_up = rounds.run(
        rt,
        usize::MAX,
        alloc,
        config,
        scripts,
        clock,
        asked,
        bound,
        progress,
    )?;
    Ok(rounds.into_found(rt, given_up))
}

/// A search, its workers and the answers that it found. Either all points of the level are still to be given to workers, or
/// all are given out.
#[derive(Drop)]
pub(crate) struct Rounds {
    pub(crate) current: Search,
    pub(crate) workers: Workers,
    /// The index of the first point of the level.
    pub(crate) first: usize,
    /// The ports on which asked calls are tried.
    pub(crate) ports: Ports,
    pub(crate) answers: Vec<Option<PackedOrder>>,
}

impl Rounds {
    /// Before the first round, only the order without calls is found.
    pub(crate) fn new(
        alloc: Global,
        config: &Config,
        scripts: &[Script],
        asked: &[Asked],
    ) -> Result<Rounds, OutOfMemory>
        requires { length scripts.now ≡ length config.now.partitions }
        ensures { IfOk result
            (λ one. (clock : Bool) → IsUnderWay clock config.now scripts.now asked.now one) }
    {
        let current = Search::new(alloc, config, scripts, asked)?;
        let workers = Workers::new(alloc, config);
        let ports = Ports::new(alloc, config.copy()?)?;
        let answers = no_answers(alloc, asked.len())?;
        Ok(Rounds {
            current,
            workers,
            first: 0,
            ports,
            answers,
        })
    }

    /// Continues from each point, level by level, until none is left, or each of some questions has an order that answers
    /// it, or the search is given up; returns why, if it is. Many points of a level are tried in several threads, in at
    /// most `threads`; what is found does not depend on that.
    pub(crate) fn run<R: Threads + Sync, P: Progress>(
        &mut self,
        rt: &R,
        threads: usize,
        alloc: Global,
        config: &Config,
        scripts: &[Script],
        clock: bool,
        asked: &[Asked],
        bound: usize,
        progress: &mut P,
    ) -> Result<Option<OrdersFault>, OutOfMemory>
        requires { IsUnderWay clock config.now scripts.now asked.now self.old }
        ensures under_way { OnOk result
            (IsUnderWay clock config.now scripts.now asked.now self.new) }
        ensures over { IfOk result (λ given_up. IfNone given_up (HasNothingLeft self.new)) }
        ensures given_up { IfOk result (λ given_up.
            IfSome given_up (IsGivenUp clock P.CanStop config.now scripts.now bound)) }
    {
        self.workers.allow(rt, threads);
        while !self.are_over() {
            if let Some(fault) = self.next(
                rt, alloc, config, scripts, clock, asked, bound, progress,
            )? {
                return Ok(Some(fault));
            }
        }
        Ok(None)
    }

    /// Whether no point is left to continue from, or each of some questions has its order.
    fn are_over(&self) -> bool
        ensures over { IsTrue result → HasNothingLeft self.now }
        ensures left { result ≡ false → self.now.first < length self.now.current.orders }
    {
        self.first >= self.current.orders.len() || are_all_answered(&self.answers)
    }

    /// Looks among the points of the level for orders that answer questions, and then tries all of them, unless the search
    /// is given up; returns why, if it is.
    fn next<R: Threads + Sync, P: Progress>(
        &mut self,
        rt: &R,
        alloc: Global,
        config: &Config,
        scripts: &[Script],
        clock: bool,
        asked: &[Asked],
        bound: usize,
        progress: &mut P,
    ) -> Result<Option<OrdersFault>, OutOfMemory>
        requires under_way { IsUnderWay clock config.now scripts.now asked.now self.old }
        requires left { self.old.first < length self.old.current.orders }
        ensures under_way { OnOk result
            (IsUnderWay clock config.now scripts.now asked.now self.new) }
        ensures further { IfOk result (λ given_up. given_up ≡ None →
            self.old.first < self.new.first) }
        ensures within { IfOk result (λ given_up. given_up ≡ None → self.new.first ≤ bound) }
        ensures given_up { IfOk result (λ given_up.
            IfSome given_up (IsGivenUp clock P.CanStop config.now scripts.now bound)) }
    {
        self.look(alloc, config, scripts, clock, asked)?;
        if let Some(fault) = self.given_up(config, scripts, clock, bound, progress) {
            return Ok(Some(fault));
        }
        self.give(alloc, config, scripts, clock, asked)?;
        if !self.try_level(rt, alloc, config, scripts, clock, asked, progress)? {
            return Ok(Some(OrdersFault::Stopped));
        }
        self.end_level(rt, alloc, config, scripts, clock, asked)?;
        Ok(None)
    }

    /// Looks among the points of the level for orders that answer questions, unless they are given out: then it has looked.
    fn look(
        &mut self,
        alloc: Global,
        config: &Config,
        scripts: &[Script],
        clock: bool,
        asked: &[Asked],
    ) -> Result<(), OutOfMemory>
        requires { IsUnderWay clock config.now scripts.now asked.now self.old }
        ensures under_way { OnOk result
            (IsUnderWay clock config.now scripts.now asked.now self.new) }
        ensures looked { OnOk result
            (HasLooked clock config.now scripts.now asked.now self.new) }
        ensures first { self.new.first ≡ self.old.first }
        ensures current { self.new.current ≡ self.old.current }
    {
        let first = self.current.points.first;
        if self.first < first {
            return Ok(());
        }
        let count = self.current.orders.len() - first;
        let current = &self.current;
        let (ports, answers) = (&mut self.ports, &mut self.answers);
        find_answers(
            alloc, config, scripts, clock, asked, current, first, count, ports, answers,
        )?;
        Ok(())
    }

    /// Why the search is given up: more points are found than the bound, or `progress` ends it.
    fn given_up<P: Progress>(
        &self,
        config: &Config,
        scripts: &[Script],
        clock: bool,
        bound: usize,
        progress: &mut P,
    ) -> Option<OrdersFault>
        requires { IsSearch clock config.now scripts.now self.now.current }
        ensures within { IfNone result (length self.now.current.orders ≤ bound) }
        ensures why { IfSome result (IsGivenUp clock P.CanStop config.now scripts.now bound) }
    {
        let states = self.current.orders.len();
        if states > bound {
            return Some(OrdersFault::TooManyStates);
        }
        if !self.report(progress) {
            return Some(OrdersFault::Stopped);
        }
        None
    }

    /// Tells `progress` how far the search is. Returns whether it is to go on.
    pub(crate) fn report<P: Progress>(&self, progress: &mut P) -> bool
        ensures { result ≡ false → P.CanStop }
    {
        let points = &self.current.points;
        let found = self.workers.found();
        let states = self.current.orders.len().saturating_add(found);
        let hashed = states.saturating_sub(self.first);
        let bytes = size_of(states, hashed, self.current.replies.found.len())
            .saturating_add(points.bytes)
            .saturating_add(self.workers.bytes());
        progress.level(points.calls, states, bytes)
    }

    /// Gives all points of the level to workers, unless they are given out.
    fn give(
        &mut self,
        alloc: Global,
        config: &Config,
        scripts: &[Script],
        clock: bool,
        asked: &[Asked],
    ) -> Result<(), OutOfMemory>
        requires under_way { IsUnderWay clock config.now scripts.now asked.now self.old }
        requires looked { HasLooked clock config.now scripts.now asked.now self.old }
        requires left { self.old.first < length self.old.current.orders }
        ensures under_way { OnOk result
            (IsUnderWay clock config.now scripts.now asked.now self.new) }
        ensures given { OnOk result (self.new.first < self.new.current.points.first) }
        ensures first { OnOk result (self.new.first ≡ self.old.first) }
        ensures orders { OnOk result
            (self.new.current.orders ≡ self.old.current.orders) }
    {
        if self.first < self.current.points.first {
            return Ok(());
        }
        self.workers
            .give(alloc, config, scripts, clock, &mut self.current)?;
        Ok(())
    }

    /// Lets the workers try all points of the level, unless `progress` ends the search. Returns whether they have.
    fn try_level<R: Threads + Sync, P: Progress>(
        &mut self,
        rt: &R,
        alloc: Global,
        config: &Config,
        scripts: &[Script],
        clock: bool,
        asked: &[Asked],
        progress: &mut P,
    ) -> Result<bool, OutOfMemory>
        requires under_way { IsUnderWay clock config.now scripts.now asked.now self.old }
        requires given { self.old.first < self.old.current.points.first }
        ensures under_way { OnOk result
            (IsUnderWay clock config.now scripts.now asked.now self.new) }
        ensures first { self.new.first ≡ self.old.first }
        ensures current { self.new.current ≡ self.old.current }
        ensures all { IfOk result (λ done. IsTrue done → HaveTriedAll self.new.workers.all.items) }
        ensures stopped { IfOk result (λ done. done ≡ false → P.CanStop) }
    {
        let parts = self.workers.parts();
        for done in 1..parts {
            let left = parts - done + 1;
            self.try_next(rt, alloc, config, scripts, clock, asked, left)?;
            if !self.report(progress) {
                return Ok(false);
            }
        }
        self.try_next(rt, alloc, config, scripts, clock, asked, 1)?;
        Ok(true)
    }

    /// Each worker tries the next of `parts` equal parts of its points.
    fn try_next<R: Threads + Sync>(
        &mut self,
        rt: &R,
        alloc: Global,
        config: &Config,
        scripts: &[Script],
        clock: bool,
        asked: &[Asked],
        parts: usize,
    ) -> Result<(), OutOfMemory>
        requires under_way { IsUnderWay clock config.now scripts.now asked.now self.old }
        requires given { self.old.first < self.old.current.points.first }
        ensures under_way { OnOk result
            (IsUnderWay clock config.now scripts.now asked.now self.new) }
        ensures first { self.new.first ≡ self.old.first }
        ensures current { self.new.current ≡ self.old.current }
        ensures all { OnOk result (parts ≤ 1 → HaveTriedAll self.new.workers.all.items) }
    {
        let current = &self.current;
        self.workers
            .try_next(rt, alloc, config, scripts, clock, parts, current)?;
        Ok(())
    }

    /// Adds what the workers found, and goes on to the next level.
    fn end_level<R: Threads + Sync>(
        &mut self,
        rt: &R,
        alloc: Global,
        config: &Config,
        scripts: &[Script],
        clock: bool,
        asked: &[Asked],
    ) -> Result<(), OutOfMemory>
        requires under_way { IsUnderWay clock config.now scripts.now asked.now self.old }
        requires given { self.old.first < self.old.current.points.first }
        requires all { HaveTriedAll self.old.workers.all.items }
        ensures under_way { OnOk result
            (IsUnderWay clock config.now scripts.now asked.now self.new) }
        ensures first { OnOk result (self.new.first ≡ self.old.current.points.first) }
    {
        let current = &mut self.current;
        self.workers
            .finish(rt, alloc, config, scripts, clock, current)?;
        self.current.end_level(config, scripts, clock);
        self.first = self.current.points.first;
        Ok(())
    }

    /// Frees the memory, a part in each thread.
    pub(crate) fn free<R: Threads + Sync>(self, rt: &R) {
        let current = self.current;
        let points = current.points;
        self.workers.free(rt, points.saved);
    }

    /// What was found, with why the search was given up.
    pub(crate) fn into_found<R: Threads + Sync>(
        self,
        rt: &R,
        given_up: Option<OrdersFault>,
    ) -> Found
        ensures orders { result.orders ≡ self.current.orders }
        ensures replies { result.replies.items ≡ self.current.replies }
        ensures answers { result.answers ≡ self.answers }
        ensures given_up { result.given_up ≡ given_up }
    {
        let current = self.current;
        let points = current.points;
        self.workers.free(rt, points.saved);
        Found {
            orders: current.orders,
            replies: current.replies.into_found(),
            answers: self.answers,
            given_up,
        }
    }
}
