//! A bench of the server: connections whose requests a generator draws, served by
//! threads, and what it came to.
//!
//! The same two numbers give the same files, the same connections and so the same summary,
//! whatever the shape of the run.
//!
//! ```text
//! bench(rt, alloc, connections, number, shape, &mut sink)?;
//! ```
//!
//! What is written of one connection, by the number 1:
//!
//! ```output
//! connections 1 done 1 idle 0 fault 0
//! read 33 written 142
//! ```
#![tactic(auto)]

mod benching;
mod draws;
pub mod laws;
mod script;
mod site;

pub use benching::bench;
pub use script::bench_script;
pub use site::bench_site;
