//! The page of `sws_request`.
use sws_request::{Cut, NotARequest, cut, view};

/// What is done with the bytes of a connection.
#[derive(Clone, Copy, Debug, PartialEq, Eq)]
enum Done {
    Answered { method: usize, target: usize },
    Refused,
    RefusedAndClosed,
    ReadMore,
}

fn answer(method: &[u8], target: &[u8]) -> Done {
    Done::Answered {
        method: method.len(),
        target: target.len(),
    }
}

fn refuse() -> Done {
    Done::Refused
}

fn refuse_and_close() -> Done {
    Done::RefusedAndClosed
}

fn read_more() -> Done {
    Done::ReadMore
}

fn what_is_done(bytes: &[u8]) -> Done {
    match cut(bytes) {
        Cut::Head { len } => match view(&bytes[..len]) {
            Ok(request) => answer(request.method(), request.target()),
            Err(NotARequest) => refuse(),
        },
        Cut::TooLong => refuse_and_close(),
        Cut::NotYet => read_more(),
    }
}

#[test]
fn a_head_is_cut_off_and_viewed(rt: HostRuntime) {
    let answered = Done::Answered {
        method: 3,
        target: 4,
    };
    assert!(rt; what_is_done(b"GET /a.b HTTP/1.1\r\nHost: x\r\n\r\n") == answered);
    assert!(rt; what_is_done(b"GET /a.b\r\n\r\n") == Done::Refused);
    assert!(rt; what_is_done(&[b'x'; 9_000]) == Done::RefusedAndClosed);
    assert!(rt; what_is_done(b"GET /a.b HTTP/1.1\r\n") == Done::ReadMore);
}
