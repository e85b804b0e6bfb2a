//! The public types of the APEX port services: names, messages, moments, calls and replies.
//!
//! Nothing here allocates.
#![tactic(auto)]

pub mod call;
mod digits;
pub mod direction;
pub mod message;
pub mod mode;
pub mod moment;
pub mod name;
pub mod out_of_memory;
pub mod reply;
pub mod return_code;
pub mod sample;
pub mod taken;
pub mod validity;

pub use crate::call::{ANY_CALL, Call};
pub use crate::direction::Direction;
pub use crate::message::{HEX_LIMIT, HexFault, MESSAGE_LIMIT, Message, TooLong, hex_text};
pub use crate::mode::Mode;
pub use crate::moment::Moment;
pub use crate::name::{NAME_LIMIT, Name, NameFault};
pub use crate::out_of_memory::OutOfMemory;
pub use crate::reply::Reply;
pub use crate::return_code::ReturnCode;
pub use crate::sample::Sample;
pub use crate::taken::Taken;
pub use crate::validity::Validity;
