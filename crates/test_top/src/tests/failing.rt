//! A link one of whose calls fails.
use super::replaying::{Part, items_of, site};
use super::{A, G};
use std::process::Abort;
use sws_conn::{End, serve_one};
use sws_link::MemLink;

/// The call that fails, how the connection ends, and how many bytes of its answer it was written. The
/// calls are a read, a write of the head, one of the body, and a read that finds the end.
static FAILING: [(u32, End, usize); 5] = [
    (1, End::Fault, 0),
    (2, End::Fault, 0),
    (3, End::Fault, 76),
    (4, End::Fault, 79),
    (5, End::Done, 79),
];

/// Whether a connection whose call of this number fails ends so.
fn ends_so(rt: &(impl AllocGlobal + Abort), failing: u32, end: End, len: usize) -> bool {
    let mut calls = Vec::new(rt.alloc());
    calls.push(failing).expect(rt, "memory");
    let link = MemLink::new(
        rt.alloc(),
        items_of(rt, &[Part::Send(G)]),
        None,
        None,
        calls,
    );
    match serve_one(rt.alloc(), &site(rt), link) {
        Ok((link, ended)) => {
            ended == end && link.is_shut() && A.get(..len) == Some(link.written())
        }
        Err(_) => false,
    }
}

/// Whichever call fails ends the connection, and what was written stands.
#[test]
fn a_call_that_fails_ends_its_connection_with_what_was_written(rt: HostRuntime) {
    for &(failing, end, len) in &FAILING {
        assert!(rt; ends_so(&rt, failing, end, len), "call {failing}");
    }
}
