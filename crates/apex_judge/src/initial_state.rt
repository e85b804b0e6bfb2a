//! The state before the first entry.
ghost use Rattle.std.specs.Prelude.{◌≡◌, ℕ, [], false, length, IfOk};
ghost use Rattle.apex_judge.specs.Prelude.{Invalid, EachAt};
ghost use Rattle.apex_judge.specs.Kept.{IsPartitionShown, IsChannelShown, IsShown, created_in, last_in, doubted_in, state_at};
ghost use Rattle.apex_judge.specs.Picture.{opening};

use crate::channel::ChannelState;
use crate::partition::{PartitionState, PortState};
use crate::past::Past;
use crate::queue::Queue;
use crate::state::State;
use apex_module::Config;
use apex_types::{Mode, Validity};
use std::alloc::{AllocError, Allocator};

/// A port that isn't created.
const NOT_CREATED: PortState = PortState {
    created: false,
    last: Validity::Invalid,
    doubted: false,
};

impl<A: Allocator + Copy> State<A> {
    /// The state of the empty log.
    pub(crate) fn new(alloc: A, config: &Config) -> Result<State<A>, AllocError>
        ensures log { IfOk result (λ state. state.log ≡ []) }
        ensures shown { IfOk result (λ state. IsShown config.now [] state) }
    {
        let partitions = new_partitions(alloc, config)?;
        let channels = new_channels(alloc, config)?;
        Ok(State {
            log: Past::new(),
            partitions,
            channels,
        })
    }
}

fn new_partitions<A: Allocator + Copy>(
    alloc: A,
    config: &Config,
) -> Result<Vec<PartitionState<A>, A>, AllocError>
    ensures count { IfOk result (λ all. length all.items ≡ length config.now.partitions) }
    ensures shown { IfOk result (λ all. EachAt (IsPartitionShown config.now opening) all.items) }
{
    let mut partitions = Vec::with_capacity(alloc, config.partitions())?;
    for p in 0..config.partitions() {
        partitions.push(PartitionState {
            mode: Mode::ColdStart,
            doubted: false,
            ports: new_ports(alloc, config.ports(p))?,
        })?;
    }
    Ok(partitions)
}

fn new_ports<A: Allocator>(alloc: A, count: usize) -> Result<Vec<PortState, A>, AllocError>
    ensures count { IfOk result (λ ports. length ports.items ≡ count) }
    ensures created { IfOk result (λ ports. (id : ℕ) →
        created_in (state_at ports.items id) ≡ false) }
    ensures last { IfOk result (λ ports. (id : ℕ) → last_in (state_at ports.items id) ≡ Invalid) }
    ensures doubted { IfOk result (λ ports. (id : ℕ) →
        doubted_in (state_at ports.items id) ≡ false) }
{
    let mut ports = Vec::with_capacity(alloc, count)?;
    for _ in 0..count {
        ports.push(NOT_CREATED)?;
    }
    Ok(ports)
}

fn new_channels<A: Allocator + Copy>(
    alloc: A,
    config: &Config,
) -> Result<Vec<ChannelState<A>, A>, AllocError>
    ensures count { IfOk result (λ all. length all.items ≡ length config.now.channels) }
    ensures shown { IfOk result (λ all. EachAt (IsChannelShown opening) all.items) }
{
    let mut channels = Vec::with_capacity(alloc, config.channels())?;
    for _ in 0..config.channels() {
        channels.push(ChannelState {
            waiting: Queue::new(alloc),
            sample: None,
        })?;
    }
    Ok(channels)
}
