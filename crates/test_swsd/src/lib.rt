//! The machine as the outside, and `swsd` over its sockets, as tests: streams, files, clients on this
//! machine, the words of `swsd`, and what it says.
//!
//! They cross the lanes, the server and its sockets, so they stand above all of these.
#![tactic(auto)]

#[cfg(test)]
mod tests;
