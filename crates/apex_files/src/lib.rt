//! What the programs do with files and outputs: they read a whole file, write a whole text, and report a refusal by a
//! line and a status.
#![tactic(auto)]

pub mod files;
pub mod named_scripts;
mod outputs;
pub mod packed_scripts;
mod reading;
pub mod refusal;
mod terminal;

pub use crate::files::{FILE_LIMIT, Obstacle, Opener, READ_LIMIT, SystemFiles, file_bytes};
pub use crate::named_scripts::{partition_and_path, scripts_named};
pub use crate::outputs::{print, refuse};
pub use crate::packed_scripts::read_packed_script;
pub use crate::reading::{read_config, read_file};
pub use crate::refusal::Refusal;
pub use crate::terminal::Shown;
