//! Scripts: what the links of a run give and take, line by line, and before
//! it the schedule of a run.
//!
//! [`parse`] reads the text of an input, and [`print`] writes one; [`script_world`] is the
//! world whose links answer so.
#![tactic(auto)]

mod bytes;
mod contents;
mod fault;
mod input;
pub mod laws;
mod line;
mod number;
mod parser;
mod parsing;
mod place;
mod printing;
mod reading;
mod sequence;
mod words;
mod world;

pub use bytes::Bytes;
pub use fault::ScriptFault;
pub use input::{Input, Item, ScriptConn};
pub use parsing::{MAX_BYTES, MAX_CONNS, parse};
pub use printing::print;
pub use sequence::Sequence;
pub use world::script_world;
