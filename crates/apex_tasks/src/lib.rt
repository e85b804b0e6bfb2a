//! The tasks of the program `apexports`: it reads the files that its words name and prints the answer; a refusal gives
//! one line and a status.
#![tactic(auto)]

pub mod tasks;

pub use crate::tasks::program;
pub use apex_files::{Opener, Refusal, Shown, SystemFiles, print, read_file, refuse};
