//! The server over a weave and on threads, rooms in which clients talk, and the command where workers or
//! sockets meet, as tests. What the command writes of small sites, scripts and worlds, `run_cases` shows.
//!
//! They stand in one crate of their own, since a crate with tests is proved twice, and each that crosses
//! all crates of the server bears their loading.
#![tactic(auto)]

#[cfg(test)]
mod tests;
