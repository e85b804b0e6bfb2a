//! The points that orders lead to, as a search finds them.
ghost use Rattle.std.specs.Prelude.{◌≡◌, ◌⊎◌, ◌<◌, ◌≤◌, ◌+◌, ◌++◌, [], ◌∷◌, ℕ, suc, List, Bool, length, true, false, IfOk, OnOk};
ghost use Rattle.apex_orders.specs.Clock.{IsClocked};
ghost use Rattle.apex_orders.specs.Known.{IsAfter, IsSameLevel, IsTrialOf, KnowsFrom};
ghost use Rattle.apex_orders.specs.Marks.{FitMarks, IsFoundOrder};
ghost use Rattle.apex_orders.specs.Lists.{Has};
ghost use Rattle.apex_orders.specs.Orders.{history_of, order_at};
ghost use Rattle.apex_orders.specs.Points.{calls_made};
ghost use Rattle.apex_orders.specs.Searching.{HasLevel, HasTriedFrom, IsLater, IsSearch, Keeps, Knows};
ghost use Rattle.apex_orders.specs.Workers.{HasLeft, HasContinued, HasMade, HasTriedAll, IsRange, IsWorker, orders_known};

use crate::asked::Asked;
use crate::found_point::FoundPoint;
use crate::last_uses::{LastUses, last_uses};
use crate::orders::Orders;
use crate::points::Points;
use crate::replies::Replies;
use crate::spare::add_unused;
use crate::worker::Worker;
use apex_module::Config;
use apex_ports::{SavedPorts, Script};
use apex_types::OutOfMemory;
use std::alloc::Global;

/// A search: one order to each point, in the order in which they are found; what is kept of the points; the replies; the
/// last uses of channels by the scripts; and the partitions that questions are about, whose next calls are always tried, so
/// that an order that answers one is short.
#[derive(Drop)]
pub(crate) struct Search {
    pub(crate) orders: Orders,
    pub(crate) points: Points,
    pub(crate) replies: Replies,
    pub(crate) uses: Vec<LastUses>,
    pub(crate) from: Vec<usize>,
}

impl Search {
    /// Only the order without calls.
    pub(crate) fn new(
        alloc: Global,
        config: &Config,
        scripts: &[Script],
        asked: &[Asked],
    ) -> Result<Search, OutOfMemory>
        requires { length scripts.now ≡ length config.now.partitions }
        ensures valid { IfOk result
            (λ one. (clock : Bool) → IsSearch clock config.now scripts.now one) }
        ensures first { IfOk result (λ one. Has one.orders []) }
        ensures unsearched { IfOk result (λ one. one.points.first ≡ 0) }
        ensures level { IfOk result HasLevel }
    {
        let orders = Orders::new(alloc);
        let points = Points::new(alloc, config)?;
        let replies = Replies::new(alloc)?;
        let uses = last_uses(alloc, config, scripts)?;
        let from = partitions_asked(alloc, asked)?;
        Ok(Search {
            orders,
            points,
            replies,
            uses,
            from,
        })
    }

    /// Goes on to the next level, where all points of this one were given out.
    pub(crate) fn end_level(&mut self, config: &Config, scripts: &[Script], clock: bool)
        requires valid { IsSearch clock config.now scripts.now self.old }
        requires all { self.old.points.next ≤ self.old.points.first }
        ensures valid { IsSearch clock config.now scripts.now self.new }
        ensures level { HasLevel self.new }
        ensures first { self.new.points.first ≡ self.old.points.first }
        ensures orders { self.new.orders ≡ self.old.orders }
        ensures replies { self.new.replies ≡ self.old.replies }
    {
        let states = self.orders.len();
        if self.points.next >= states {
            return;
        }
        self.points.next = states;
        self.points.calls += 1;
    }

    /// Gives the worker the first points from which the search has yet to continue.
    pub(crate) fn give(
        &mut self,
        config: &Config,
        scripts: &[Script],
        clock: bool,
        count: usize,
        worker: &mut Worker,
    ) -> Result<(), OutOfMemory>
        requires valid { IsSearch clock config.now scripts.now self.old }
        requires within { self.old.points.first + count ≤ self.old.points.next }
        requires trial { IsTrialOf config.now worker.old.trial }
        ensures valid { OnOk result (IsSearch clock config.now scripts.now self.new) }
        ensures orders { OnOk result (self.new.orders ≡ self.old.orders) }
        ensures replies { OnOk result (self.new.replies ≡ self.old.replies) }
        ensures first { OnOk result (self.new.points.first ≡ self.old.points.first + count) }
        ensures next { OnOk result (self.new.points.next ≡ self.old.points.next) }
        ensures calls { OnOk result (self.new.points.calls ≡ self.old.points.calls) }
        ensures worker { OnOk result (IsWorker clock config.now scripts.now worker.new) }
        ensures base { OnOk result (worker.new.base.value ≡ self.new.orders) }
        ensures left { OnOk result (HasLeft worker.new) }
        ensures tried { OnOk result (worker.new.tried ≡ 0) }
        ensures range { OnOk result
            (IsRange self.old.points.first (self.old.points.first + count) worker.new) }
        ensures made { OnOk result
            (HasMade config.now scripts.now self.old.points.calls worker.new) }
    {
        let orders = self.orders.len();
        prove!(self.points.first + count <= orders);
        worker.begin(&self.orders, &mut self.points, count)?;
        Ok(())
    }

    /// Adds what a worker found when it tried all of its points.
    pub(crate) fn finish(
        &mut self,
        alloc: Global,
        config: &Config,
        scripts: &[Script],
        clock: bool,
        worker: &mut Worker,
        known: &[bool],
    ) -> Result<(), OutOfMemory>
        requires valid { IsSearch clock config.now scripts.now self.old }
        requires worker { IsWorker clock config.now scripts.now worker.old }
        requires marks { FitMarks config.now scripts.now self.old worker.old known.now }
        requires tried { HasContinued clock config.now scripts.now self.old.replies worker.old }
        requires left { HasLeft worker.old }
        requires all { HasTriedAll worker.old }
        requires base { Keeps worker.old.base.value self.old.orders }
        requires made { HasMade config.now scripts.now self.old.points.calls worker.old }
        ensures valid { OnOk result (IsSearch clock config.now scripts.now self.new) }
        ensures later { OnOk result (IsLater self.old self.new) }
        ensures level { OnOk result (IsSameLevel self.old.points self.new.points) }
        ensures points { OnOk result ((order : List ℕ) → Has (orders_known worker.old) order
            → Knows config.now scripts.now self.new.orders
            (history_of config.now scripts.now order)) }
        ensures new { OnOk result ((order : List ℕ) → Has self.new.orders order
            → Has self.old.orders order ⊎ IsFoundOrder worker.old order) }
        ensures tried { OnOk result ((from to : ℕ) → IsRange from to worker.old
            → HasTriedFrom clock config.now scripts.now self.new.orders self.new.replies from to) }
        ensures trial { OnOk result (IsTrialOf config.now worker.new.trial) }
    {
        self.replies.add_all(alloc, &worker.replies)?;
        self.add_points(config, scripts, clock, worker, known)?;
        worker.bytes = 0;
        Ok(())
    }

    /// Adds the points that a worker found, except those that are marked as known.
    fn add_points(
        &mut self,
        config: &Config,
        scripts: &[Script],
        clock: bool,
        worker: &mut Worker,
        known: &[bool],
    ) -> Result<(), OutOfMemory>
        requires valid { IsSearch clock config.now scripts.now self.old }
        requires worker { IsWorker clock config.now scripts.now worker.old }
        requires marks { FitMarks config.now scripts.now self.old worker.old known.now }
        requires base { Keeps worker.old.base.value self.old.orders }
        requires made { HasMade config.now scripts.now self.old.points.calls worker.old }
        ensures valid { OnOk result (IsSearch clock config.now scripts.now self.new) }
        ensures later { OnOk result (IsLater self.old self.new) }
        ensures points { OnOk result ((order : List ℕ) → Has (orders_known worker.old) order
            → Knows config.now scripts.now self.new.orders
            (history_of config.now scripts.now order)) }
        ensures new { OnOk result ((order : List ℕ) → Has self.new.orders order
            → Has self.old.orders order ⊎ IsFoundOrder worker.old order) }
        ensures level { OnOk result (IsSameLevel self.old.points self.new.points) }
        ensures trial { OnOk result (IsTrialOf config.now worker.new.trial) }
    {
        let mut at = 0;
        while let Some(one) = worker.found.pop_front() {
            let i = worker.first + one.before;
            let unused = self.learn(config, scripts, clock, i, one, known[at])?;
            add_unused(&mut worker.spare, unused)?;
            at += 1;
        }
        Ok(())
    }

    /// Keeps the order at the index followed by the partition's call, unless its point is known. Returns the saved ports if it
    /// does not keep them.
    fn learn(
        &mut self,
        config: &Config,
        scripts: &[Script],
        clock: bool,
        i: usize,
        one: FoundPoint,
        is_known: bool,
    ) -> Result<Option<SavedPorts>, OutOfMemory>
        requires valid { IsSearch clock config.now scripts.now self.old }
        requires within { i < length self.old.orders }
        requires partition { one.partition < length config.now.partitions }
        requires after { IsAfter config.now scripts.now
            (order_at self.old.orders i ++ one.partition ∷ []) one.saved }
        requires clocked { IsClocked clock scripts.now one.saved.history }
        requires made { calls_made config.now one.saved.history ≡ suc self.old.points.calls }
        requires known { is_known ≡ true
            → Knows config.now scripts.now self.old.orders one.saved.history }
        requires new { is_known ≡ false → ¬ KnowsFrom config.now scripts.now self.old.orders
            self.old.points.next one.saved.history }
        ensures valid { OnOk result (IsSearch clock config.now scripts.now self.new) }
        ensures later { OnOk result (IsLater self.old self.new) }
        ensures known { OnOk result
            (Knows config.now scripts.now self.new.orders one.saved.history) }
        ensures same { is_known ≡ true → self.new.orders ≡ self.old.orders }
        ensures pushed { OnOk result (is_known ≡ false → self.new.orders
            ≡ self.old.orders ++ (order_at self.old.orders i ++ one.partition ∷ []) ∷ []) }
        ensures level { OnOk result (IsSameLevel self.old.points self.new.points) }
    {
        if is_known {
            return Ok(Some(one.saved));
        }
        let partitions = config.partitions();
        prove!(one.partition < partitions);
        self.points.push(one.saved)?;
        self.orders.push(i, one.partition)?;
        Ok(None)
    }
}

/// The partitions that the questions are about, each once.
fn partitions_asked(alloc: Global, asked: &[Asked]) -> Result<Vec<usize>, OutOfMemory> {
    let mut partitions = Vec::new(alloc);
    for one in asked {
        if !partitions.contains(&one.partition) {
            partitions.push(one.partition)?;
        }
    }
    Ok(partitions)
}
