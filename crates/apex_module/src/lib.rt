//! The configuration of a module as checked data: its partitions, their ports, and the channels between them.
#![tactic(auto)]

pub mod channel;
pub mod config;
pub mod fault;
pub mod limits;
pub mod partition;
pub mod port;

pub use crate::channel::{Channel, ChannelKind};
pub use crate::config::Config;
pub use crate::fault::ConfigFault;
pub use crate::limits::{
    CHANNEL_LIMIT, DEPTH_LIMIT, PARTITION_LIMIT, PORT_LIMIT, REFRESH_LIMIT, SIZE_LIMIT,
};
pub use crate::partition::Partition;
pub use crate::port::{Port, PortKind};
