//! Pictures of runs: histories drawn as an SVG, of which a browser shows who ran what, when a colour
//! was stolen and by whom, and where a core was idle.
//!
//! A journal has an order within a shard and none between shards, so a picture has a panel for each
//! shard. In a panel time goes to the right, an entry at a time; there is a row for each core, in it
//! a bar from each take to its finish, with its colour and its count, and an arrow from row to row
//! for each steal. Under the pointer a bar says its entries, colour, core and count.
//!
//! A history of more than 4,096 entries is drawn in buckets: in each core's row there are up to 128
//! columns, each of the same number of entries, and in a column the share that the core made of them,
//! by colours.
//!
//! [`draw_journal`] draws what [`mely_check`] accepts, and reads it once: what it keeps grows with the
//! picture, and not with the journal.
//!
//! ```text
//! match draw_journal(alloc, &setup, &mut source, &mut sink) {
//!     Ok(()) => {}
//!     Err(fault) => eprintln!(rt; "{fault}")?,
//! }
//! ```
#![tactic(auto)]

mod arrow;
mod bar;
mod bucket;
mod counts;
mod digits;
mod drawer;
mod drawing;
mod fault;
pub mod laws;
mod layout;
mod legend;
mod mark;
mod panel;
mod part;
mod picture;
mod plot;

pub use arrow::Arrow;
pub use bar::Bar;
pub use drawing::draw_journal;
pub use fault::DrawFault;
