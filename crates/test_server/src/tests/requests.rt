use std::process::Abort;
use sws_request::{
    Cut, NotARequest, RequestView, Scan, cut, cut_is_stable, empty_lines_change_nothing, scan, view,
};

/// A piece so many times.
fn repeated(rt: &(impl AllocGlobal + Abort), piece: &[u8], count: usize) -> Vec<u8> {
    piece.repeat(rt.alloc(), count).expect(rt, "memory")
}

/// A text that has a piece so many times between its front and its back.
fn filled(
    rt: &(impl AllocGlobal + Abort),
    front: &[u8],
    piece: &[u8],
    count: usize,
    back: &[u8],
) -> Vec<u8> {
    let middle = repeated(rt, piece, count);
    let pieces = [front, middle.as_slice(), back];
    pieces.concat(rt.alloc()).expect(rt, "memory")
}

/// Bytes, and where their first head ends.
static CUTS: [(&[u8], Cut); 10] = [
    (b"", Cut::NotYet),
    (b"GET / HTTP/1.1\r\nHost: x\r\n\r\n", Cut::Head { len: 27 }),
    (
        b"GET / HTTP/1.1\r\nHost: x\r\n\r\nGET",
        Cut::Head { len: 27 },
    ),
    (b"GET / HTTP/1.1\r\nHost: x\r\n\r", Cut::NotYet),
    (b"GET / HTTP/1.0\n\n", Cut::Head { len: 16 }),
    (b"a\n\r\n", Cut::Head { len: 4 }),
    (b"\n\r\n\na\n\n\n", Cut::Head { len: 7 }),
    (b"\r\n\n\r\n", Cut::NotYet),
    (b"\r\r\n\n", Cut::Head { len: 4 }),
    (b"a\n\r\r\n", Cut::NotYet),
];

#[test]
fn a_head_ends_with_the_first_empty_line_behind_another(rt: HostRuntime) {
    for &(bytes, want) in &CUTS {
        assert!(rt; cut(bytes) == want);
    }
    cut_is_stable();
}

/// Where a search begins.
const START: Scan = Scan {
    at: 0,
    begun: false,
};

/// A search in a line, and one behind empty lines.
const IN_LINE: Scan = Scan {
    at: 16,
    begun: true,
};

const BLANK: Scan = Scan {
    at: 3,
    begun: false,
};

/// Bytes with the search that goes on in them, what it finds, and where it stops.
static SEARCHES: [(&[u8], Scan, Cut, Scan); 3] = [
    (b"GET / HTTP/1.1\r\nHo", START, Cut::NotYet, IN_LINE),
    (b"Host: x\r\n\r\n", IN_LINE, Cut::Head { len: 27 }, START),
    (b"\r\n\n\r", START, Cut::NotYet, BLANK),
];

/// Whether a search goes on so in these bytes.
fn scans_so(bytes: &[u8], from: Scan, want: Cut, stop: Scan) -> bool {
    if from.at >= 8192 {
        return false;
    }
    let (found, next) = scan(bytes, from);
    found == want && next == stop
}

#[test]
fn a_search_goes_on_where_it_stopped(rt: HostRuntime) {
    assert!(rt; Scan::start() == START);
    for &(bytes, from, want, stop) in &SEARCHES {
        assert!(rt; scans_so(bytes, from, want, stop));
    }
    let rest = repeated(&rt, b"x", 8189);
    assert!(rt; scans_so(&rest, BLANK, Cut::TooLong, START));
}

/// The front and the back of a head that is filled up.
const LONG: &[u8] = b"GET / HTTP/1.1\r\nHost: x\r\nX:";

const LINE_ENDS: &[u8] = b"\r\n\r\n";

/// Fronts, how many bytes follow each, the backs, and where the head ends.
static LENGTHS: [(&[u8], usize, &[u8], Cut); 4] = [
    (LONG, 8161, LINE_ENDS, Cut::Head { len: 8192 }),
    (LONG, 8162, LINE_ENDS, Cut::TooLong),
    (b"", 8191, b"", Cut::NotYet),
    (b"", 8192, b"", Cut::TooLong),
];

#[test]
fn a_head_has_at_most_8192_bytes(rt: HostRuntime) {
    for &(front, count, back, want) in &LENGTHS {
        assert!(rt; cut(&filled(&rt, front, b"x", count, back)) == want);
    }
    assert!(rt; view(&filled(&rt, LONG, b"x", 8161, LINE_ENDS)).is_ok());
}

/// Whether a request has this field at a place.
fn has_field(request: &RequestView<'_>, at: usize, name: &[u8], value: &[u8]) -> bool {
    if at >= request.fields() {
        return false;
    }
    let (found, held) = request.field(at);
    found == name && held == value && request.name(at) == name && request.value(at) == value
}

/// A request of two fields.
const REQUEST: &[u8] = b"\r\n\nGET /a?b HTTP/1.0\r\nHost: x \r\nAccept:\t*/*\r\n\r\n";

#[test]
fn a_view_shows_the_parts_of_a_request(rt: HostRuntime) {
    match view(REQUEST) {
        Ok(request) => {
            assert!(rt; request.method() == b"GET".as_slice());
            assert!(rt; request.target() == b"/a?b".as_slice());
            assert!(rt; request.minor() == 0 && request.fields() == 2);
            assert!(rt; has_field(&request, 0, b"Host", b"x"));
            assert!(rt; has_field(&request, 1, b"Accept", b"*/*"));
        }
        Err(NotARequest) => assert!(rt; false, "the head is a request"),
    }
    empty_lines_change_nothing();
}

/// What is no request.
static REFUSED: [&[u8]; 7] = [
    b"",
    b"GET / HTTP/1.1\r\nHost: x\r\n",
    b"GET / HTTP/1.1\r\nHost: x\r\n\r\nG",
    b"GET / HTTP/2.0\r\n\r\n",
    b"GET /\r\n\r\n",
    b"GET / HTTP/1.1\r\nHost : x\r\n\r\n",
    b"GET / HTTP/1.1\r\n folded\r\n\r\n",
];

#[test]
fn what_the_grammar_refuses_is_no_request(rt: HostRuntime) {
    for &head in &REFUSED {
        assert!(rt; view(head).is_err());
    }
}

/// How many fields a head has, and whether it is a request.
static FIELDS: [(usize, bool); 2] = [(64, true), (65, false)];

#[test]
fn a_request_has_at_most_64_fields(rt: HostRuntime) {
    let front = b"GET / HTTP/1.1\r\n";
    for &(count, want) in &FIELDS {
        let head = filled(&rt, front, b"a:\r\n", count, b"\r\n");
        assert!(rt; view(&head).is_ok() == want);
    }
}
