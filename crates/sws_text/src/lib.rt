//! The text that stands for bytes in scripts, transcripts and logs.
//!
//! A text is made of signs. Most bytes that can be seen stand for themselves; `~` stands for CR LF,
//! and what begins with a backslash for one byte. Some bytes have several spellings: [`push_text`]
//! writes the one that is looked for from the left, which is the shortest, and [`read_text`] reads
//! all of them. [`ShownLines`] are the lines of a transcript, in which the text of bytes is broken
//! behind each LF. [`first_line`] cuts the first line off a text. [`push_spaced`] writes the numbers that stand beside texts, and
//! [`read_decimal`] reads them.
//!
//! ```text
//! let mut text = Vec::new(alloc);
//! push_text(&mut text, b"GET /\r\n")?; // GET /~
//! ```
#![tactic(auto)]

pub mod laws;
mod lines;
mod number;
mod plain;
mod reading;
mod showing;
mod sign;
mod writing;

pub use lines::first_line;
pub use number::{push_spaced, read_decimal};
pub use reading::read_text;
pub use showing::ShownLines;
pub use sign::Sign;
pub use writing::push_text;
