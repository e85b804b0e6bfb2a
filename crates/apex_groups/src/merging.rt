//! Merges an order of a part's calls with the calls of the other partitions, by their moments.
ghost use Rattle.std.specs.Prelude.{◌≡◌, ◌<◌, ◌↔◌, ◌++◌, ◌∷◌, [], length, IfOk, IsTrue, OnOk};
ghost use Rattle.apex_groups.specs.Prelude.{IsConfiguration};
ghost use Rattle.apex_groups.specs.Groups.{in_group};
ghost use Rattle.apex_groups.specs.Merging.{AreAdded, AreCounted, IsFirst, IsMerged, IsOfPart, IsPast, next_moment};

use crate::groups::Groups;
use apex_module::Config;
use apex_orders::Order;
use apex_ports::Script;
use std::alloc::{AllocError, Global};

/// An order so far, and how many calls of each partition it makes.
#[derive(Drop)]
pub(crate) struct Merge {
    pub(crate) order: Vec<usize>,
    made: Vec<usize>,
}

impl Merge {
    /// An order without calls.
    fn new(alloc: Global, config: &Config, scripts: &[Script]) -> Result<Merge, AllocError>
        ensures order { IfOk result (λ merge. merge.order.items ≡ []) }
        ensures counted { IfOk result
            (λ merge. AreCounted config.now scripts.now [] merge.made.items) }
        ensures valid { IsConfiguration config.now }
    {
        let made = vec![in alloc; 0; config.partitions()]?;
        Ok(Merge {
            order: Vec::new(alloc),
            made,
        })
    }

    /// The moment of the partition's next call; without the clock, it counts as 0.
    fn next_moment(&self, scripts: &[Script], clock: bool, p: usize) -> Option<u64>
        ensures { result ≡ next_moment clock scripts.now self.now.made.items p }
    {
        let Some(script) = scripts.get(p) else {
            return None;
        };
        let made = self.made.get(p).copied().unwrap_or(0);
        match script.calls.get(made) {
            None => None,
            Some((at, _)) => Some(if clock { at.0 } else { 0 }),
        }
    }

    /// Makes the partition's next call, if it has one.
    fn make(&mut self, config: &Config, scripts: &[Script], p: usize) -> Result<(), AllocError>
        requires within { p < length config.now.partitions }
        requires count { length scripts.now ≡ length config.now.partitions }
        requires counted { AreCounted config.now scripts.now
            self.old.order.items self.old.made.items }
        ensures order { OnOk result
            (self.new.order.items ≡ self.old.order.items ++ p ∷ []) }
        ensures counted { OnOk result
            (AreCounted config.now scripts.now self.new.order.items self.new.made.items) }
    {
        let made = self.made[p];
        let script = &scripts[p];
        let count = script.calls.len();
        self.order.push(p)?;
        if made < count {
            self.made[p] = made + 1;
        }
        Ok(())
    }

    /// The partition outside whose next call comes first, if one comes before the limit.
    fn first_outside(
        &self,
        config: &Config,
        members: &Groups,
        scripts: &[Script],
        clock: bool,
        limit: Option<u64>,
    ) -> Option<usize>
        ensures { IsFirst (in_group members.now.of_partitions.items 1)
            (next_moment clock scripts.now self.now.made.items)
            limit (length config.now.partitions) result }
    {
        let mut first = None;
        let mut last = limit;
        for p in 0..config.partitions() {
            if members.of_partition(p) == 1 {
                continue;
            }
            if let Some(at) = self.next_moment(scripts, clock, p) {
                if comes_before(at, last) {
                    first = Some(p);
                    last = Some(at);
                }
            }
        }
        first
    }

    /// Makes the calls of the partitions outside that come before the limit, the earliest first.
    pub(crate) fn make_before(
        &mut self,
        config: &Config,
        members: &Groups,
        scripts: &[Script],
        clock: bool,
        limit: Option<u64>,
    ) -> Result<(), AllocError>
        requires count { length scripts.now ≡ length config.now.partitions }
        requires counted { AreCounted config.now scripts.now
            self.old.order.items self.old.made.items }
        ensures added { OnOk result (AreAdded clock config.now scripts.now
            (in_group members.now.of_partitions.items 1) limit
            self.old.order.items self.new.order.items) }
        ensures counted { OnOk result
            (AreCounted config.now scripts.now self.new.order.items self.new.made.items) }
    {
        while let Some(p) = self.first_outside(config, members, scripts, clock, limit) {
            self.make(config, scripts, p)?;
        }
        Ok(())
    }
}

/// Whether the moment is before the limit; without a limit, each is.
fn comes_before(at: u64, limit: Option<u64>) -> bool
    ensures { IsTrue result ↔ ¬ IsPast limit at }
{
    match limit {
        None => true,
        Some(limit) => at < limit,
    }
}

/// The part's order, with the calls of the others that come before its calls.
pub(crate) fn merge_calls(
    alloc: Global,
    config: &Config,
    members: &Groups,
    scripts: &[Script],
    clock: bool,
    order: &Order,
) -> Result<Merge, AllocError>
    requires count { length scripts.now ≡ length config.now.partitions }
    requires part { IsOfPart clock config.now
        (in_group members.now.of_partitions.items 1) scripts.now order.now }
    ensures merged { IfOk result (λ merge. IsMerged clock config.now scripts.now
        (in_group members.now.of_partitions.items 1) order.now merge.order.items) }
    ensures counted { IfOk result (λ merge.
        AreCounted config.now scripts.now merge.order.items merge.made.items) }
    ensures valid { IsConfiguration config.now }
{
    let mut merge = Merge::new(alloc, config, scripts)?;
    for p in order.partitions() {
        if members.of_partition(*p) != 1 {
            continue;
        }
        if let Some(at) = merge.next_moment(scripts, clock, *p) {
            merge.make_before(config, members, scripts, clock, Some(at))?;
            merge.make(config, scripts, *p)?;
        }
    }
    Ok(merge)
}
