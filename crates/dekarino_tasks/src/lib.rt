//! The tasks of the program `dekarino`: what its words ask for is printed on standard output, as a text or as JSON lines.
#![tactic(auto)]

mod drawings;
mod explanations;
mod json_arrows;
mod json_explanation;
mod json_remarks;
mod json_rows;
mod json_table;
mod rows;
mod tables;
pub mod tasks;

pub use crate::tasks::program;
pub use apex_files::{Opener, Shown};
pub use dekarino_search::{FileWriter, InputFiles, Progress, ProgressLine, Reached};
