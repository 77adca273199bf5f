//! The fleet at work, as tests: worked rows, and many threads at once; and the examples on the pages of the
//! runtime's crates.
//!
//! They stand in a crate of their own, since the fleet is large and a crate with tests is proved twice.
#![tactic(auto)]

#[cfg(test)]
mod tests;
