//! A part of a search that can run in a thread of its own.
ghost use Rattle.std.specs.Prelude.{◌≡◌, ◌<◌, ◌≤◌, ◌+◌, ◌++◌, [], ◌∷◌, ℕ, suc, true, false, length, option_to_list, slice_get, Some, IfNone, IfOk, OnOk, IsTrue, ◌↔◌};
ghost use Rattle.apex_orders.specs.Choices.{is_tried};
ghost use Rattle.apex_orders.specs.Clock.{IsClocked, IsNextDue};
ghost use Rattle.apex_orders.specs.Hashes.{hash_of};
ghost use Rattle.apex_orders.specs.Known.{IsTrialOf};
ghost use Rattle.apex_orders.specs.Orders.{history_of, next_entries, script_of};
ghost use Rattle.apex_orders.specs.Points.{IsSamePoint, calls_made};
ghost use Rattle.apex_orders.specs.Searching.{AreDue, Includes, Keeps};
ghost use Rattle.apex_orders.specs.Steps.{MakesNothing};
ghost use Rattle.apex_orders.specs.Prelude.{IsSound};
ghost use Rattle.apex_orders.specs.Workers.{AreHashed, CanRun, IsContinued, AreContinued, HasLeft, HasRun, HasPoint, HasTriedCall, IsAnswered, IsLaterWorker, IsReady, IsShared, IsWorkerOf, KnowsPoint, history_given, order_given, reach};

use crate::choice::{Choice, choose, is_tried};
use crate::found_point::{FoundPoint, has_found};
use crate::hash::hash_of;
use crate::hash_index::HashIndex;
use crate::orders::Orders;
use crate::points::Points;
use crate::replies::Replies;
use crate::shared::Shared;
use crate::shares::rest_after;
use crate::spare::{keep, save};
use crate::step::make_next;
use crate::trial::Trial;
use apex_module::Config;
use apex_ports::{Ports, SavedPorts};
use apex_types::{MESSAGE_LIMIT, OutOfMemory};
use std::alloc::Global;
use std::collections::VecDeque;
use std::mem;
use std::snapshot::Snapshot;

/// Continues from points that it is given. It reads nothing of other workers: what it finds is compared with what they find
/// afterwards.
#[derive(Drop)]
pub(crate) struct Worker {
    /// The orders that the search had found when it gave out the points; only contracts see them.
    pub(crate) base: Snapshot<Orders>,
    /// The index of the order to the first point.
    pub(crate) first: usize,
    /// The points that it was given; only contracts see them.
    pub(crate) given: Snapshot<VecDeque<SavedPorts>>,
    /// How many of them it has tried.
    pub(crate) tried: usize,
    /// Those of them whose next calls it has yet to try.
    pub(crate) points: VecDeque<SavedPorts>,
    /// The points that it found, each once, and their hashes.
    pub(crate) found: VecDeque<FoundPoint>,
    pub(crate) hashes: HashIndex,
    /// The replies that it found, each once.
    pub(crate) replies: Replies,
    /// What was saved before, whose memory is used again.
    pub(crate) spare: Vec<SavedPorts>,
    /// About how many bytes are saved for the points that it has yet to try and for those that it found.
    pub(crate) bytes: usize,
    /// Whether there was memory for what it tried.
    pub(crate) result: Result<(), OutOfMemory>,
    /// Last and large, so that what threads write often is not side by side.
    pub(crate) trial: Trial,
}

impl Worker {
    /// A worker without points.
    pub(crate) fn new(
        alloc: Global,
        config: &Config,
        orders: &Orders,
    ) -> Result<Worker, OutOfMemory>
        ensures { IfOk result (λ one. IsTrialOf config.now one.trial) }
    {
        let hashes = HashIndex::new(alloc)?;
        let replies = Replies::new(alloc)?;
        let trial = Trial::new(alloc, config)?;
        let points = VecDeque::new(alloc);
        Ok(Worker {
            base: Snapshot::of(orders),
            first: 0,
            given: Snapshot::of(&points),
            tried: 0,
            points,
            found: VecDeque::new(alloc),
            hashes,
            replies,
            trial,
            spare: Vec::new(alloc),
            bytes: 0,
            result: Ok(()),
        })
    }

    /// Takes over the first points from which the search has yet to continue.
    pub(crate) fn begin(
        &mut self,
        orders: &Orders,
        points: &mut Points,
        count: usize,
    ) -> Result<(), OutOfMemory>
        requires count { count ≤ length points.old.saved.items }
        requires room { points.old.first + count ≤ usize.MAX }
        ensures base { OnOk result (self.new.base.value ≡ orders.now) }
        ensures first { OnOk result (self.new.first ≡ points.old.first) }
        ensures given { OnOk result (points.old.saved.items
            ≡ self.new.given.value.items ++ points.new.saved.items) }
        ensures count { OnOk result (length self.new.given.value.items ≡ count) }
        ensures left { OnOk result (self.new.points.items ≡ self.new.given.value.items) }
        ensures tried { OnOk result (self.new.tried ≡ 0) }
        ensures rest { OnOk result (points.new.first ≡ points.old.first + count) }
        ensures next { OnOk result (points.new.next ≡ points.old.next) }
        ensures calls { OnOk result (points.new.calls ≡ points.old.calls) }
        ensures found { OnOk result (self.new.found.items ≡ []) }
        ensures unhashed { OnOk result (self.new.hashes ≡ []) }
        ensures replies { OnOk result (self.new.replies ≡ []) }
        ensures trial { OnOk result (self.new.trial ≡ self.old.trial) }
    {
        let (first, bytes) = (points.first, points.bytes);
        let taken = points.take(count)?;
        self.start(orders, first, taken, bytes.saturating_sub(points.bytes));
        Ok(())
    }

    /// Takes over these points: those of the orders from the index on. They take about so many bytes.
    pub(crate) fn start(
        &mut self,
        orders: &Orders,
        first: usize,
        points: VecDeque<SavedPorts>,
        bytes: usize,
    )
        ensures base { self.new.base.value ≡ orders.now }
        ensures first { self.new.first ≡ first }
        ensures given { self.new.given.value.items ≡ points.items }
        ensures left { self.new.points.items ≡ points.items }
        ensures tried { self.new.tried ≡ 0 }
        ensures found { self.new.found.items ≡ [] }
        ensures unhashed { self.new.hashes ≡ [] }
        ensures replies { self.new.replies ≡ [] }
        ensures trial { self.new.trial ≡ self.old.trial }
    {
        self.base = Snapshot::of(orders);
        self.first = first;
        self.given = Snapshot::of(&points);
        self.tried = 0;
        self.points = points;
        self.found.clear();
        self.hashes.clear();
        self.replies.clear();
        self.bytes = bytes;
    }

    /// Whether it was given no points.
    pub(crate) fn is_idle(&self) -> bool
        ensures { IsTrue result → reach self.now ≡ 0 }
    {
        self.tried == 0 && self.points.is_empty()
    }

    /// Tries the next of `parts` equal parts of the worker's points, or as many as it can until it is to end. Then `shared`
    /// tells that the worker with this number has ended.
    pub(crate) fn run(&mut self, shared: &Shared<'_>, number: usize, parts: usize)
        requires shared { IsShared shared.now }
        requires ready { CanRun shared.now self.old }
        ensures { HasRun shared.now parts self.old self.new }
    {
        self.result = self.try_points(shared, parts);
        shared.tell(number, self.tried);
    }

    /// Frees all saved ports.
    pub(crate) fn free(&mut self) {
        self.points.clear();
        self.found.clear();
        self.spare.clear();
    }

    /// Tries the next calls of enough partitions after each point of that part.
    fn try_points(&mut self, shared: &Shared<'_>, parts: usize) -> Result<(), OutOfMemory>
        requires valid { IsWorkerOf shared.now self.old }
        requires shared { IsShared shared.now }
        requires left { HasLeft self.old }
        requires tried { AreContinued shared.now self.old }
        ensures valid { OnOk result (IsWorkerOf shared.now self.new) }
        ensures later { OnOk result (IsLaterWorker self.old self.new) }
        ensures left { OnOk result (HasLeft self.new) }
        ensures tried { OnOk result (AreContinued shared.now self.new) }
        ensures reach { OnOk result (reach self.new ≡ reach self.old) }
        ensures all { OnOk result (shared.now.stops ≡ false → parts ≤ 1
            → self.new.points.items ≡ []) }
    {
        let mut choice = Choice::new(shared.alloc);
        let mut points = mem::replace(&mut self.points, VecDeque::new(shared.alloc));
        let mut tried = self.tried;
        let mut bytes: usize = 0;
        let rest = rest_after(points.len(), parts);
        while let Some(saved) = next_of(shared, &mut points, rest) {
            self.try_point(shared, tried, &saved, &mut choice)?;
            tried += 1;
            bytes = bytes.saturating_add(saved.bytes());
            keep(&mut self.spare, saved)?;
        }
        self.points = points;
        self.tried = tried;
        self.bytes = self.bytes.saturating_sub(bytes);
        Ok(())
    }

    /// Tries the next calls of enough partitions after the point at the index.
    fn try_point(
        &mut self,
        shared: &Shared<'_>,
        j: usize,
        saved: &SavedPorts,
        choice: &mut Choice,
    ) -> Result<(), OutOfMemory>
        requires valid { IsWorkerOf shared.now self.old }
        requires shared { IsShared shared.now }
        requires given { slice_get self.old.given.value.items j ≡ Some saved.now }
        ensures valid { OnOk result (IsWorkerOf shared.now self.new) }
        ensures later { OnOk result (IsLaterWorker self.old self.new) }
        ensures tried { OnOk result
            (IsContinued shared.now self.new (order_given self.old j)) }
    {
        self.trial.ports.restore(saved);
        choose(
            shared.alloc,
            &self.trial.ports,
            shared.scripts,
            shared.clock,
            shared.uses,
            shared.from,
            choice,
        )?;
        let tried = choice.tried.as_slice();
        self.try_those(shared, j, saved, tried)?;
        Ok(())
    }

    /// Tries the next calls of these partitions after the point. The trial's ports are there.
    fn try_those(
        &mut self,
        shared: &Shared<'_>,
        j: usize,
        saved: &SavedPorts,
        tried: &[bool],
    ) -> Result<(), OutOfMemory>
        requires valid { IsWorkerOf shared.now self.old }
        requires shared { IsShared shared.now }
        requires given { slice_get self.old.given.value.items j ≡ Some saved.now }
        requires ready { IsReady shared.now (order_given self.old j) self.old.trial.ports }
        requires due { AreDue shared.now.clock shared.now.scripts.now
            (history_given shared.now self.old j) (is_tried tried.now) }
        ensures valid { OnOk result (IsWorkerOf shared.now self.new) }
        ensures later { OnOk result (IsLaterWorker self.old self.new) }
        ensures tried { OnOk result ((p : ℕ) → p < length shared.now.config.now.partitions
            → is_tried tried.now p ≡ true
            → HasTriedCall shared.now self.new (order_given self.old j) p) }
    {
        let mut is_there = true;
        for p in 0..shared.config.partitions() {
            if is_tried(tried, p) {
                self.try_partition(shared, j, saved, is_there, p)?;
                is_there = false;
            }
        }
        Ok(())
    }

    /// Tries the partition's next call after the point.
    fn try_partition(
        &mut self,
        shared: &Shared<'_>,
        j: usize,
        saved: &SavedPorts,
        is_there: bool,
        p: usize,
    ) -> Result<(), OutOfMemory>
        requires valid { IsWorkerOf shared.now self.old }
        requires shared { IsShared shared.now }
        requires given { slice_get self.old.given.value.items j ≡ Some saved.now }
        requires partition { p < length shared.now.config.now.partitions }
        requires there { is_there ≡ true →
            IsReady shared.now (order_given self.old j) self.old.trial.ports }
        requires due { IsNextDue shared.now.clock shared.now.scripts.now
            (history_given shared.now self.old j) p }
        ensures valid { OnOk result (IsWorkerOf shared.now self.new) }
        ensures later { OnOk result (IsLaterWorker self.old self.new) }
        ensures tried { OnOk result (HasTriedCall shared.now self.new (order_given self.old j) p) }
    {
        let trial = &mut self.trial;
        return_to(&mut trial.ports, saved, is_there);
        let replies = &mut self.replies;
        if !answer_next(shared, p, &mut trial.ports, &mut trial.buffer, replies)? {
            return Ok(());
        }
        self.learn(shared, j, p)?;
        Ok(())
    }

    /// Keeps the point of the trial's ports, unless it is found already.
    fn learn(&mut self, shared: &Shared<'_>, j: usize, p: usize) -> Result<(), OutOfMemory>
        requires valid { IsWorkerOf shared.now self.old }
        requires shared { IsShared shared.now }
        requires within { j < length self.old.given.value.items }
        requires partition { p < length shared.now.config.now.partitions }
        requires history { self.old.trial.ports.history ≡ history_of shared.now.config.now
            shared.now.scripts.now (order_given self.old j ++ p ∷ []) }
        requires clocked { IsClocked shared.now.clock shared.now.scripts.now
            self.old.trial.ports.history }
        requires made { calls_made shared.now.config.now self.old.trial.ports.history
            ≡ suc (calls_made shared.now.config.now (history_given shared.now self.old j)) }
        ensures valid { OnOk result (IsWorkerOf shared.now self.new) }
        ensures later { OnOk result (IsLaterWorker self.old self.new) }
        ensures known { OnOk result
            (KnowsPoint shared.now self.new self.old.trial.ports.history) }
    {
        let hash = hash_of(&self.trial.ports);
        let saved = save(shared.alloc, &self.trial.ports, &mut self.spare)?;
        if has_found(&self.found, &self.hashes, &saved, &mut self.trial, hash) {
            keep(&mut self.spare, saved)?;
            return Ok(());
        }
        self.bytes = self.bytes.saturating_add(saved.bytes());
        self.hashes.push(shared.alloc, hash)?;
        self.found.push_back(FoundPoint {
            before: j,
            partition: p,
            hash,
            saved,
        })?;
        Ok(())
    }
}

/// Makes the partition's next call, and adds its reply, unless that is known. Returns whether there was a call to make. The
/// buffer has room for any message.
fn answer_next(
    shared: &Shared<'_>,
    p: usize,
    ports: &mut Ports,
    buffer: &mut [u8],
    replies: &mut Replies,
) -> Result<bool, OutOfMemory>
    requires partition { p < length ports.old.config.partitions }
    requires room { MESSAGE_LIMIT ≤ length buffer.old }
    requires scripts { length shared.now.scripts.now ≡ length ports.old.config.partitions }
    requires sound { IsSound ports.old.config ports.old.history }
    ensures config { ports.new.config ≡ ports.old.config }
    ensures history { ports.new.history ≡ ports.old.history
        ++ next_entries ports.old.config shared.now.scripts.now ports.old.history p }
    ensures nothing { IfOk result (λ made. made ≡ false →
        MakesNothing ports.old.config shared.now.scripts.now ports.old.history p) }
    ensures unchanged { IfOk result (λ made. made ≡ false → replies.new ≡ replies.old) }
    ensures answered { IfOk result (λ made. made ≡ true →
        IsAnswered shared.now ports.old p replies.old replies.new) }
    ensures kept { OnOk result (Includes replies.old replies.new) }
    ensures short { length (script_of shared.now.scripts.now p) ≤ usize.MAX }
{
    let Some(made) = make_next(ports, shared.scripts, p, buffer) else {
        return Ok(false);
    };
    replies.add_unless_known(shared.alloc, shared.known, made)?;
    Ok(true)
}

/// Takes the next point, unless no more than `rest` are left or the worker is to end.
fn next_of(
    shared: &Shared<'_>,
    points: &mut VecDeque<SavedPorts>,
    rest: usize,
) -> Option<SavedPorts>
    ensures taken { points.old.items ≡ option_to_list result ++ points.new.items }
    ensures left { IfNone result (shared.now.stops ≡ false → length points.new.items ≤ rest) }
{
    if points.len() <= rest || shared.is_over(points.len()) {
        return None;
    }
    points.pop_front()
}

/// Sets the ports to what was saved, unless they are there already.
fn return_to(ports: &mut Ports, saved: &SavedPorts, is_there: bool)
    requires config { saved.now.config ≡ ports.old.config }
    requires there { is_there ≡ true → ports.old.history ≡ saved.now.history }
    requires sound { is_there ≡ true → IsSound ports.old.config ports.old.history }
    ensures config { ports.new.config ≡ ports.old.config }
    ensures history { ports.new.history ≡ saved.now.history }
    ensures sound { IsSound ports.new.config ports.new.history }
{
    if !is_there {
        ports.restore(saved);
    }
}
