//! Reads the configuration of a module from its TOML text.
#![tactic(auto)]

mod accepted;
pub mod channel_index;
pub mod config_text;
pub mod document;
pub mod ends;
pub mod form;
mod found;
pub mod key;
mod links;
mod names;
mod numbers;
mod passes;
pub mod place;
mod ports;
pub mod reading;
pub mod refusal;
pub mod value;

pub use crate::key::Key;
pub use crate::place::{Part, Place, Spot};
pub use crate::reading::ReadConfig;
pub use crate::refusal::Refusal;
pub use apex_module::{
    CHANNEL_LIMIT, Channel, ChannelKind, Config, ConfigFault, DEPTH_LIMIT, PARTITION_LIMIT,
    PORT_LIMIT, Port, PortKind, REFRESH_LIMIT, SIZE_LIMIT,
};
