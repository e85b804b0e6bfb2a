//! The tests of workers and runs with real threads, of the readers of texts, and of what `apexports` does with files
//! and outputs. They are in a crate of their own, since a crate with tests is proved twice.
#![tactic(auto)]

#[cfg(test)]
mod tests;
