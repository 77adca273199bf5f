//! What the loop does with a text: it reads a script, or prints a transcript.

use std::alloc::Global;
use sws_conn::End;
use sws_link::{Put, Sink};
use sws_report::write_conn;
use sws_script::{ScriptFault, parse};

/// How many connections a script has, and how many items these have in all.
pub fn count(alloc: Global, text: &[u8]) -> Result<(usize, u64), ScriptFault> {
    let input = parse(alloc, text, false, 1)?;
    let conns = input.conns.as_slice();
    let mut items = 0u64;
    for conn in conns {
        items = items.saturating_add(conn.items.as_slice().len() as u64);
    }
    Ok((conns.len(), items))
}

/// Prints the transcript of a connection to which these bytes were written.
pub fn transcript<O: Sink>(alloc: Global, out: &mut O, bytes: &[u8]) -> Put {
    write_conn(alloc, out, 0, End::Done, bytes)
}
