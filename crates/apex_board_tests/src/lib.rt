//! The tests of `apex_board`, of `apex_observers` with real threads, and of `refusing`. They are in a crate of their
//! own, since a crate with tests is proved twice.
#![tactic(auto)]

#[cfg(test)]
mod tests;
