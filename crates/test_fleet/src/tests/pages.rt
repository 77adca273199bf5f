//! The examples on the pages of the runtime's crates.
//!
//! Each stands here as the page has it, with what it takes as given around it, and what comes out is compared with what the page says
//! of it. `bench/examples.py` looks whether each page's example stands in a crate.
mod apps;
mod chains;
mod counter;
mod histories;
mod locks;
mod logs;
mod queues;
mod stealing;
mod tables;
mod workers;
