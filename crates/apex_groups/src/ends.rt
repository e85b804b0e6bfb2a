//! Orders of all calls of a part, extended to orders of all calls.
ghost use Rattle.std.specs.Prelude.{◌≡◌, ℕ, List, length, OnOk};
ghost use Rattle.apex_groups.specs.Prelude.{Has};
ghost use Rattle.apex_groups.specs.Groups.{in_group};
ghost use Rattle.apex_groups.specs.Merging.{AreEndsAdded, IsEndOfPart};

use crate::groups::Groups;
use crate::merging::merge_calls;
use apex_module::Config;
use apex_orders::Order;
use apex_ports::Script;
use std::alloc::{AllocError, Global};

/// Adds orders of the part's calls, each merged with all calls of the other partitions.
pub(crate) fn add_ends(
    alloc: Global,
    config: &Config,
    members: &Groups,
    scripts: &[Script],
    clock: bool,
    all: &mut Vec<Order>,
    ends: &[Order],
) -> Result<(), AllocError>
    requires count { length scripts.now ≡ length config.now.partitions }
    requires ends { (order : List ℕ) → Has ends.now order
        → IsEndOfPart clock config.now (in_group members.now.of_partitions.items 1)
        scripts.now order }
    ensures { OnOk result (AreEndsAdded clock config.now
        (in_group members.now.of_partitions.items 1) scripts.now
        ends.now all.old.items all.new.items) }
{
    for end in ends {
        let mut merge = merge_calls(alloc, config, members, scripts, clock, end)?;
        merge.make_before(config, members, scripts, clock, None)?;
        all.push(Order::new(merge.order))?;
    }
    Ok(())
}
