//! Why a configuration is refused: what is at each place of its fault, and what must be there. It also has what the
//! mistakes of every text share: the known word that a mistyped one most likely was, and the number of further
//! mistakes.
#![tactic(auto)]

mod finding;
mod form_finding;
mod header;
mod hint;
pub mod known_word;
mod line_of;
mod lines;
pub mod more;
mod not_toml;
mod owner;
mod path;
mod places;
mod printed;
mod reading;
mod value_finding;

pub use crate::known_word::nearest;
pub use crate::more::{MISTAKE_LIMIT, push_more};
pub use crate::path::PathOfPart;
pub use crate::reading::{Refused, read_config};
