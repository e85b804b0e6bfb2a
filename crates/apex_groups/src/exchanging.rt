//! Swaps two lists' items for some partitions.
ghost use Rattle.std.specs.Prelude.{◌≡◌, length};
ghost use Rattle.apex_groups.specs.Groups.{AreExchanged, in_group};

use crate::groups::Groups;
use std::mem;

/// Swaps the two lists' items for the group's partitions.
pub fn exchange<T>(groups: &Groups, group: usize, one: &mut [T], other: &mut [T])
    requires { length one.old ≡ length other.old }
    ensures one { AreExchanged (in_group groups.now.of_partitions.items group)
        one.old other.old one.new }
    ensures other { AreExchanged (in_group groups.now.of_partitions.items group)
        other.old one.old other.new }
{
    for p in 0..one.len() {
        if groups.of_partition(p) == group {
            mem::swap(&mut one[p], &mut other[p]);
        }
    }
}
