//! The page of `sws_answer`.
use super::sites::site_of;
use std::test::Fail;
use sws_answer::{PathRoom, answer, ask};
use sws_parts::Parts;

/// What is done with an answer.
fn send(parts: Parts<'_>) {
    drop(parts);
}

fn shut() {}

#[test]
fn a_head_is_answered(rt: HostRuntime) -> Result<(), Fail> {
    let alloc = rt.alloc();
    let site = site_of(alloc)?;
    let head = b"GET / HTTP/1.1\r\nHost: x\r\nConnection: close\r\n\r\n".as_slice();
    let mut room = PathRoom::new(alloc)?;
    let answer = answer(&site, &ask(head), false, &mut room);
    send(answer.parts);
    if answer.closes {
        shut();
    }
    assert!(rt; (answer.code, answer.closes) == (200, true));
    Ok(())
}
