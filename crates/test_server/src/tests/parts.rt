//! Responses that are sent in pieces.

use sws_parts::{OwnHead, Parts};

/// Whether parts are sent so: how many bytes are left, what comes first, and how much of it is sent.
fn is_sent_so(parts: &mut Parts<'_>, pieces: &[(usize, &[u8], usize)]) -> bool {
    for (left, front, sent) in pieces {
        if parts.left() != *left || parts.front() != *front || *sent > front.len() {
            return false;
        }
        parts.advance(*sent);
    }
    true
}

static LENT: [(usize, &[u8], usize); 4] = [
    (8, b"head", 3),
    (5, b"d", 1),
    (4, b"body", 4),
    (0, b"", 0),
];

#[test]
fn a_head_and_a_body_are_sent_in_pieces(rt: HostRuntime) {
    let mut parts = Parts::new(b"head", b"body");
    assert!(rt; is_sent_so(&mut parts, &LENT));
}

static OWN: [(usize, &[u8], usize); 4] = [
    (11, b"part 10", 6),
    (5, b"0", 1),
    (4, b"body", 4),
    (0, b"", 0),
];

#[test]
fn a_head_of_its_own_is_sent_in_pieces(rt: HostRuntime) {
    let mut head = OwnHead::new();
    head.put(b"part ");
    head.put_number(10);
    let mut parts = Parts::with_own(head, b"body");
    assert!(rt; is_sent_so(&mut parts, &OWN));
}
