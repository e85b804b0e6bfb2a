//! The mode of a partition.
ghost use Rattle.std.specs.Prelude.{Ok};
ghost use Rattle.apex_types.specs.declared.call.Call.TheVariants as call;
ghost use Rattle.apex_c.specs.Asked.{IsCalled};
ghost use Rattle.apex_c.specs.Calls.{moment_of};

use crate::handle::Handle;
use apex_ports::CallRef;
use std::alloc::Global;

/// SET_PARTITION_MODE. Answers the return code, or a number of `answer`.
#[unsafe(no_mangle)]
pub extern "C" fn apex_set_partition_mode(
    alloc: Global,
    handle: &mut Handle,
    partition: u32,
    at: u64,
    mode: u32,
) -> u32
    ensures { IsCalled handle.old.held.ports handle.new.held.ports
        partition (moment_of at) (Ok (call.SetMode mode)) result }
{
    handle.answer(alloc, partition, at, CallRef::SetMode { mode })
}
