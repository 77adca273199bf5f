//! The texts that a run prints: the transcript of its connections, the journal of
//! its shards, and a summary.
//!
//! Each call writes one text to a sink, a long one piece by piece: however many bytes it has, no
//! more than about 64 KiB of it are in memory at a time.
//!
//! ```text
//! write_conn(alloc, &mut sink, 0, End::Done, response);
//! // conn 0 done 79
//! // | HTTP/1.1 200 OK~
//! // | Server: sws~
//! // | Content-Type: text/html~
//! // | Content-Length: 3~
//! // | ~
//! // | hi\n
//! write_summary(alloc, &mut sink, &[End::Done], 27, 79);
//! // connections 1 done 1 idle 0 fault 0
//! // read 27 written 79
//! ```
#![tactic(auto)]

mod conn;
mod summary;

pub use conn::write_conn;
pub use mely_journal::write_journal;
pub use summary::write_summary;
