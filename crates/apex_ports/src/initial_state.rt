//! The state before the first call. All memory that calls need is allocated here.
ghost use Rattle.std.specs.Prelude.{◌≡◌, ℕ, ◌<◌, [], false, length, IfOk};
ghost use Rattle.apex_types.specs.declared.validity.Validity.TheVariants.{Invalid};
ghost use Rattle.apex_ports.specs.Kept.{EachAt, IsPartitionKept, IsChannelKept, IsKept, created_in, last_in, state_at};

use crate::channel::{ChannelState, Queue};
use crate::ghost_history::GhostHistory;
use crate::partition::{PartitionState, PortState};
use crate::sample_slot::SampleSlot;
use crate::state::State;
use apex_module::{ChannelKind, Config};
use apex_types::{Mode, Validity};
use std::alloc::{AllocError, Allocator};

/// The state of a port that isn't created.
const NOT_CREATED: PortState = PortState {
    created: false,
    last: Validity::Invalid,
};

/// The number of calls that each partition has made so far: 0.
pub(crate) fn new_counts<A: Allocator>(
    alloc: A,
    partitions: usize,
) -> Result<Vec<u64, A>, AllocError>
    ensures all { IfOk result (λ calls. length calls.items ≡ partitions) }
    ensures none { IfOk result (λ calls. EachAt (λ _ count. count ≡ 0) calls.items) }
{
    let mut calls = Vec::with_capacity(alloc, partitions)?;
    for _ in 0..partitions {
        calls.push(0)?;
    }
    Ok(calls)
}

impl<A: Allocator + Copy> State<A> {
    /// The state of the empty history.
    pub(crate) fn new(alloc: A, config: &Config) -> Result<State<A>, AllocError>
        ensures history { IfOk result (λ state. state.history ≡ []) }
        ensures kept { IfOk result (λ state. IsKept config.now [] state) }
    {
        let partitions = new_partitions(alloc, config)?;
        let channels = new_channels(alloc, config)?;
        Ok(State {
            history: GhostHistory::new(),
            partitions,
            channels,
        })
    }
}

fn new_partitions<A: Allocator + Copy>(
    alloc: A,
    config: &Config,
) -> Result<Vec<PartitionState<A>, A>, AllocError>
    ensures count { IfOk result (λ all. length all.items ≡ length config.now.partitions) }
    ensures kept { IfOk result (λ all. EachAt (IsPartitionKept config.now []) all.items) }
{
    let mut partitions = Vec::with_capacity(alloc, config.partitions())?;
    for p in 0..config.partitions() {
        partitions.push(PartitionState {
            mode: Mode::ColdStart,
            ports: new_ports(alloc, config.ports(p))?,
        })?;
    }
    Ok(partitions)
}

fn new_ports<A: Allocator>(alloc: A, count: usize) -> Result<Vec<PortState, A>, AllocError>
    ensures count { IfOk result (λ ports. length ports.items ≡ count) }
    ensures created { IfOk result (λ ports. (id : ℕ) →
        created_in (state_at ports.items id) ≡ false) }
    ensures last { IfOk result (λ ports. (id : ℕ) → last_in (state_at ports.items id) ≡ Invalid) }
{
    let mut ports = Vec::with_capacity(alloc, count)?;
    for _ in 0..count {
        ports.push(NOT_CREATED)?;
    }
    Ok(ports)
}

fn new_channels<A: Allocator + Copy>(
    alloc: A,
    config: &Config,
) -> Result<Vec<ChannelState<A>, A>, AllocError>
    ensures count { IfOk result (λ all. length all.items ≡ length config.now.channels) }
    ensures kept { IfOk result (λ all. EachAt (IsChannelKept config.now []) all.items) }
{
    let mut channels = Vec::with_capacity(alloc, config.channels())?;
    for c in 0..config.channels() {
        channels.push(new_channel(alloc, config, c)?)?;
    }
    Ok(channels)
}

fn new_channel<A: Allocator + Copy>(
    alloc: A,
    config: &Config,
    c: usize,
) -> Result<ChannelState<A>, AllocError>
    requires { c < length config.now.channels }
    ensures { IfOk result (λ state. IsChannelKept config.now [] c state) }
{
    let channel = config.channel(c);
    match channel.kind {
        ChannelKind::Queuing { depth } => {
            let queue = Queue::new(alloc, depth, channel.size)?;
            Ok(ChannelState::Queuing(queue))
        }
        ChannelKind::Sampling => {
            let slot = SampleSlot::new(alloc, channel.size)?;
            Ok(ChannelState::Sampling(slot))
        }
    }
}
