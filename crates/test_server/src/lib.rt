//! Connections and what they and the command depend on, as tests: texts, links, heads, parts, sites,
//! answers, words, logs, scripts and what is written of runs.
//!
//! They stand in a crate of their own, since a crate with tests is proved twice.
#![tactic(auto)]

#[cfg(test)]
mod tests;
