//! The state of a judge: what the entries of the log show.
use crate::channel::ChannelState;
use crate::partition::PartitionState;
use crate::past::Past;
use std::alloc::Allocator;

/// A state for each partition and each channel, and the log that they come from.
#[derive(Drop)]
pub(crate) struct State<A: Allocator> {
    pub(crate) log: Past,
    pub(crate) partitions: Vec<PartitionState<A>, A>,
    pub(crate) channels: Vec<ChannelState<A>, A>,
}
