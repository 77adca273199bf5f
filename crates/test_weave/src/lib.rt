//! Workers, weaves and sums over a weave, as tests.
//!
//! They stand in a crate of their own, since a crate with tests is proved twice, and beside `test_runtime`, since a
//! crate as large as both is checked some functions at a time, each time with its libraries loaded anew.
#![tactic(auto)]

#[cfg(test)]
mod tests;
