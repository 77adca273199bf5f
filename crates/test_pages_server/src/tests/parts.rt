//! The page of `sws_parts`.
ghost use Rattle.std.specs.Prelude.{◌≡◌, ◌≤◌, [], length};

use std::test::Fail;
use sws_parts::Parts;

/// A peer that takes at most three bytes.
fn write(front: &[u8]) -> usize
    ensures few { result ≤ length front.now }
    ensures some { result ≡ 0 → front.now ≡ [] }
{
    front.len().min(3)
}

#[test]
fn a_response_is_sent_as_the_peer_takes_it(rt: HostRuntime) -> Result<(), Fail> {
    let (head, body) = (b"head".as_slice(), b"body".as_slice());
    let mut parts = Parts::new(head, body);
    while parts.left() > 0 {
        let count = write(parts.front());
        parts.advance(count);
    }
    assert!(rt; parts.front().is_empty());
    Ok(())
}
