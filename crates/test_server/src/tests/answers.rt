//! The answers to heads, and the targets of heads.

use super::files::{THREE_FILES, site_of};
use std::process::Abort;
use sws_answer::laws::{answers_only_grow, every_answer, responses_only_grow};
use sws_answer::{Answer, Asked, PathRoom, answer, ask, target};
use sws_parts::Parts;
use sws_site::Site;

/// The answer to what is asked.
///
/// It says nothing of it, so that no test carries what `answer` promises.
pub(super) fn answered<'s>(
    rt: &(impl AllocGlobal + Abort),
    site: &'s Site,
    asked: &Asked<'_>,
    last: bool,
) -> Answer<'s> {
    let mut room = PathRoom::new(rt.alloc()).expect(rt, "memory");
    answer(site, asked, last, &mut room)
}

/// Whether these bytes are sent, of which the head is the first part.
pub(super) fn sends(parts: &mut Parts<'_>, response: &[u8]) -> bool {
    let Some(body) = response.strip_prefix(parts.front()) else {
        return false;
    };
    parts.advance(parts.front().len());
    parts.front() == body
}

/// Whether the answer to what is asked has this code, closes or doesn't, and has so many bytes.
fn is_told(
    rt: &(impl AllocGlobal + Abort),
    asked: &Asked<'_>,
    code: u16,
    closes: bool,
    left: usize,
) -> bool {
    let site = site_of(rt, &THREE_FILES, None);
    let answer = answered(rt, &site, asked, false);
    answer.code == code && answer.closes == closes && answer.parts.left() == left
}

#[test]
fn a_path_that_outgrows_the_room_names_no_file(rt: HostRuntime) {
    let path = b"%41".repeat(rt.alloc(), 9000).expect(&rt, "memory");
    let head = [b"GET /", path.as_slice(), b" HTTP/1.1\r\nHost: x\r\n\r\n"];
    let head = head.concat(rt.alloc()).expect(&rt, "memory");
    assert!(rt; is_told(&rt, &ask(&head), 404, false, 99));
}

/// Whether an answer is this response, and as long.
fn is_response(answer: Answer<'_>, response: &[u8]) -> bool {
    let mut parts = answer.parts;
    parts.left() == response.len() && sends(&mut parts, response)
}

/// Heads, whether the answer to each is the last one, the response, and how many bytes it has.
static RESPONSES: [(&[u8], bool, &[u8], usize); 2] = [
    (
        b"GET / HTTP/1.1\r\nHost: x\r\n\r\n",
        true,
        b"HTTP/1.1 200 OK\r\nServer: sws\r\nConnection: close\r\nContent-Type: text/html\r\nContent-Length: 3\r\n\r\nhi\n",
        98,
    ),
    (
        b"HEAD /a/b.txt HTTP/1.1\r\nHost: x\r\n\r\n",
        false,
        b"HTTP/1.1 200 OK\r\nServer: sws\r\nContent-Type: text/plain\r\nContent-Length: 10\r\n\r\n",
        78,
    ),
];

#[test]
fn a_response_is_a_head_and_a_body(rt: HostRuntime) {
    let site = site_of(&rt, &THREE_FILES, None);
    for &(head, last, response, count) in &RESPONSES {
        assert!(rt; response.len() == count);
        assert!(rt; is_response(answered(&rt, &site, &ask(head), last), response));
    }
}

#[test]
fn a_head_that_is_too_long_is_refused(rt: HostRuntime) {
    assert!(rt; is_told(&rt, &Asked::TooLong, 431, true, 162));
    every_answer();
    answers_only_grow();
    responses_only_grow();
}

/// Heads, and the target of each.
static TARGETS_OF_HEADS: [(&[u8], &[u8]); 5] = [
    (b"GET /a%20b?q=1 HTTP/1.1\r\nHost: x\r\n\r\n", b"/a%20b?q=1"),
    (b"\r\nHEAD http://h/ HTTP/1.0\r\n\r\n", b"http://h/"),
    (b"BREW * HTTP/1.1\r\n\r\n", b"*"),
    (b"GET - HTTP/1.1\r\n\r\n", b"-"),
    (b"GET /\r\n\r\n", b"-"),
];

#[test]
fn a_target_is_that_of_the_request_line(rt: HostRuntime) {
    for &(head, want) in &TARGETS_OF_HEADS {
        assert!(rt; target(&ask(head)) == want);
    }
    assert!(rt; target(&Asked::TooLong) == b"-".as_slice());
}
