//! The limits of a configuration.
use apex_types::MESSAGE_LIMIT;

/// The maximum number of partitions.
pub const PARTITION_LIMIT: usize = 32;

/// The maximum number of ports of a partition.
pub const PORT_LIMIT: usize = 32;

/// The maximum number of channels.
pub const CHANNEL_LIMIT: usize = 64;

/// The maximum message size of a channel, in bytes: the length of the longest message.
pub const SIZE_LIMIT: u32 = MESSAGE_LIMIT as u32;

/// The maximum number of messages that can wait on a queuing channel.
pub const DEPTH_LIMIT: u32 = 512;

/// The longest refresh period of a sampling port, in nanoseconds.
pub const REFRESH_LIMIT: u64 = 9223372036854775807;
