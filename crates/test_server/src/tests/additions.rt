//! What the owner of a site adds to its responses.

use super::site_options::{all, is_sent, site_with};
use std::process::Abort;
use sws_site::{Additions, AgeFault, HeaderFault, TypeFault};

/// A page, a folder with an index, and a page for names that no file has.
static FILES: [(&[u8], &[u8]); 4] = [
    (b"a.html", b"0123456789"),
    (b"b.wasm", b"b"),
    (b"docs/index.html", b"docs\n"),
    (b"404.html", b"Lost?\n"),
];

/// Ends of names with their ages, of which the longest decides.
static AGES: [(&[u8], u32); 3] = [(b"m", 5), (b".wasm", 86_400), (b"sm", 7)];

/// Two lines, and types of which the first of an extension holds.
static ADDED_LINES: [(&[u8], &[u8]); 2] = [
    (b"X-Frame-Options", b"DENY"),
    (b"Vary", b"Accept, Origin"),
];

static ADDED_TYPES: [(&[u8], &[u8]); 2] = [
    (b"html", b"text/html; charset=utf-8"),
    (b"HTML", b"text/plain"),
];

/// These, those ages, and an age of an hour for all others.
fn added(rt: &(impl AllocGlobal + Abort)) -> Additions {
    let mut added = Additions::none(rt.alloc());
    for &(name, value) in &ADDED_LINES {
        added
            .add_header(rt.alloc(), name, value)
            .expect(rt, "a line");
    }
    for &(extension, media_type) in &ADDED_TYPES {
        added
            .add_type(rt.alloc(), extension, media_type)
            .expect(rt, "a type");
    }
    for &(end, seconds) in &AGES {
        added
            .keep_by_end(rt.alloc(), end, seconds)
            .expect(rt, "an end");
    }
    added.keep_for(3600);
    added
}

/// Heads of requests, and the responses to them. The lines stand in each head, and the age of the
/// file in those of 200, 206 and 304 (RFC 9111, section 5.2.2.1).
static SENT: [(&[u8], &[u8]); 11] = [
    (
        b"GET /a.html HTTP/1.1\r\nHost: h\r\n\r\n",
        b"HTTP/1.1 200 OK\r\nServer: sws\r\nConnection: keep-alive\r\nLast-Modified: Sun, 06 Nov 1994 08:49:37 GMT\r\nCache-Control: max-age=3600\r\nContent-Type: text/html; charset=utf-8\r\nContent-Length: 10\r\nX-Frame-Options: DENY\r\nVary: Accept, Origin\r\n\r\n0123456789",
    ),
    (
        b"GET /b.wasm HTTP/1.0\r\n\r\n",
        b"HTTP/1.1 200 OK\r\nServer: sws\r\nConnection: close\r\nLast-Modified: Sun, 06 Nov 1994 08:49:37 GMT\r\nCache-Control: max-age=86400\r\nContent-Type: application/wasm\r\nContent-Length: 1\r\nX-Frame-Options: DENY\r\nVary: Accept, Origin\r\n\r\nb",
    ),
    (
        b"GET /a.html HTTP/1.1\r\nHost: h\r\nRange: bytes=2-3\r\n\r\n",
        b"HTTP/1.1 206 Partial Content\r\nServer: sws\r\nConnection: keep-alive\r\nLast-Modified: Sun, 06 Nov 1994 08:49:37 GMT\r\nCache-Control: max-age=3600\r\nContent-Range: bytes 2-3/10\r\nContent-Type: text/html; charset=utf-8\r\nContent-Length: 2\r\nX-Frame-Options: DENY\r\nVary: Accept, Origin\r\n\r\n23",
    ),
    (
        b"GET /a.html HTTP/1.1\r\nHost: h\r\nIf-Modified-Since: Sun, 06 Nov 1994 08:49:37 GMT\r\n\r\n",
        b"HTTP/1.1 304 Not Modified\r\nServer: sws\r\nConnection: keep-alive\r\nLast-Modified: Sun, 06 Nov 1994 08:49:37 GMT\r\nCache-Control: max-age=3600\r\nX-Frame-Options: DENY\r\nVary: Accept, Origin\r\n\r\n",
    ),
    (
        b"GET /b.wasm HTTP/1.1\r\nHost: h\r\nRange: bytes=0-\r\n\r\n",
        b"HTTP/1.1 206 Partial Content\r\nServer: sws\r\nConnection: keep-alive\r\nLast-Modified: Sun, 06 Nov 1994 08:49:37 GMT\r\nCache-Control: max-age=86400\r\nContent-Range: bytes 0-0/1\r\nContent-Type: application/wasm\r\nContent-Length: 1\r\nX-Frame-Options: DENY\r\nVary: Accept, Origin\r\n\r\nb",
    ),
    (
        b"GET /b.wasm HTTP/1.1\r\nHost: h\r\nIf-Modified-Since: Sun, 06 Nov 1994 08:49:37 GMT\r\n\r\n",
        b"HTTP/1.1 304 Not Modified\r\nServer: sws\r\nConnection: keep-alive\r\nLast-Modified: Sun, 06 Nov 1994 08:49:37 GMT\r\nCache-Control: max-age=86400\r\nX-Frame-Options: DENY\r\nVary: Accept, Origin\r\n\r\n",
    ),
    (
        b"GET /docs HTTP/1.1\r\nHost: h\r\n\r\n",
        b"HTTP/1.1 301 Moved Permanently\r\nServer: sws\r\nLocation: /docs/\r\nConnection: keep-alive\r\nContent-Type: text/plain\r\nContent-Length: 22\r\nX-Frame-Options: DENY\r\nVary: Accept, Origin\r\n\r\n301 Moved Permanently\n",
    ),
    (
        b"GET /none HTTP/1.1\r\nHost: h\r\n\r\n",
        b"HTTP/1.1 404 Not Found\r\nServer: sws\r\nConnection: keep-alive\r\nContent-Type: text/html; charset=utf-8\r\nContent-Length: 6\r\nX-Frame-Options: DENY\r\nVary: Accept, Origin\r\n\r\nLost?\n",
    ),
    (
        b"POST /a.html HTTP/1.1\r\nHost: h\r\n\r\n",
        b"HTTP/1.1 405 Method Not Allowed\r\nServer: sws\r\nConnection: keep-alive\r\nAllow: GET, HEAD\r\nContent-Type: text/plain\r\nContent-Length: 23\r\nX-Frame-Options: DENY\r\nVary: Accept, Origin\r\n\r\n405 Method Not Allowed\n",
    ),
    (
        b"GET /a.html HTTP/1.1\r\nHost: h\r\nRange: bytes=10-\r\n\r\n",
        b"HTTP/1.1 416 Range Not Satisfiable\r\nServer: sws\r\nConnection: keep-alive\r\nContent-Range: bytes */10\r\nContent-Type: text/plain\r\nContent-Length: 26\r\nX-Frame-Options: DENY\r\nVary: Accept, Origin\r\n\r\n416 Range Not Satisfiable\n",
    ),
    (
        b"HEAD /a.html HTTP/1.1\r\n\r\n",
        b"HTTP/1.1 400 Bad Request\r\nServer: sws\r\nConnection: close\r\nContent-Type: text/plain\r\nContent-Length: 16\r\nX-Frame-Options: DENY\r\nVary: Accept, Origin\r\n\r\n",
    ),
];

#[test]
fn each_head_has_what_is_added(rt: HostRuntime) {
    let added = added(&rt).copy(rt.alloc()).expect(&rt, "memory");
    let site = site_with(&rt, &FILES, all(added));
    for &(head, response) in &SENT {
        assert!(rt; is_sent(&rt, &site, head, response));
    }
}

/// Names and values of fields that are no line, and why (RFC 9110, sections 5.1, 5.5 and 5.6.2).
static NO_LINES: [(&[u8], &[u8], HeaderFault); 14] = [
    (b"", b"v", HeaderFault::BadName),
    (b"a b", b"v", HeaderFault::BadName),
    (b"a:", b"v", HeaderFault::BadName),
    (b"\xC3\xA9", b"v", HeaderFault::BadName),
    (b"a", b"", HeaderFault::BadValue),
    (b"a", b" v", HeaderFault::BadValue),
    (b"a", b"v\t", HeaderFault::BadValue),
    (b"a", b"v\rw", HeaderFault::BadValue),
    (b"a", b"v\nw", HeaderFault::BadValue),
    (b"a", b"v\0w", HeaderFault::BadValue),
    (b"a", b"v\x7Fw", HeaderFault::BadValue),
    (b"content-LENGTH", b"1", HeaderFault::SentAlready),
    (b"Transfer-Encoding", b"chunked", HeaderFault::SentAlready),
    (b"Server", b"other", HeaderFault::SentAlready),
];

/// Extensions and types that are none, and why (RFC 9110, section 8.3.1).
static NO_TYPES: [(&[u8], &[u8], TypeFault); 10] = [
    (b"", b"text/plain", TypeFault::BadExtension),
    (b".txt", b"text/plain", TypeFault::BadExtension),
    (b"txt", b"", TypeFault::BadType),
    (b"txt", b"text", TypeFault::BadType),
    (b"txt", b"text/", TypeFault::BadType),
    (b"txt", b"/plain", TypeFault::BadType),
    (b"txt", b"text/plain;", TypeFault::BadType),
    (b"txt", b"text/plain; charset", TypeFault::BadType),
    (b"txt", b"text/plain\r\nX: y", TypeFault::BadType),
    (
        b"txt",
        b"text/01234567890123456789012345678901234567890123456789012345678901234567890123456",
        TypeFault::BadType,
    ),
];

/// Ends that get no age where `.css` has one, and why.
static NO_ENDS: [(&[u8], AgeFault); 4] = [
    (b"", AgeFault::BadEnd),
    (b"css/a.css", AgeFault::BadEnd),
    (b"a\0", AgeFault::BadEnd),
    (b".css", AgeFault::GivenTwice),
];

/// Whether this is no line, for that reason.
fn is_no_line(
    rt: &(impl AllocGlobal + Abort),
    name: &[u8],
    value: &[u8],
    fault: HeaderFault,
) -> bool {
    let mut added = Additions::none(rt.alloc());
    let is_told = added.add_header(rt.alloc(), name, value) == Err(fault);
    is_told && added.headers.text().is_empty()
}

/// Whether this is no type, for that reason.
fn is_no_type(
    rt: &(impl AllocGlobal + Abort),
    extension: &[u8],
    media_type: &[u8],
    fault: TypeFault,
) -> bool {
    let mut added = Additions::none(rt.alloc());
    added.add_type(rt.alloc(), extension, media_type) == Err(fault)
}

#[test]
fn what_is_no_line_or_type_is_not_added(rt: HostRuntime) {
    for &(name, value, fault) in &NO_LINES {
        assert!(rt; is_no_line(&rt, name, value, fault));
    }
    for &(extension, media_type, fault) in &NO_TYPES {
        assert!(rt; is_no_type(&rt, extension, media_type, fault));
    }
}

/// Whether a site of these additions gives no age to an end, for that reason.
fn is_no_end(rt: &(impl AllocGlobal + Abort), end: &[u8], fault: AgeFault) -> bool {
    let mut added = Additions::none(rt.alloc());
    added
        .keep_by_end(rt.alloc(), b".css", 60)
        .expect(rt, "an end");
    let is_told = added.keep_by_end(rt.alloc(), end, 5) == Err(fault);
    is_told && added.ages.longest(b"a.css") == Some(60)
}

#[test]
fn an_end_that_no_name_has_or_that_has_an_age_gets_none(rt: HostRuntime) {
    for &(end, fault) in &NO_ENDS {
        assert!(rt; is_no_end(&rt, end, fault));
    }
}

/// A value of 1,000 bytes.
static LONG: [u8; 1000] = [b'v'; 1000];

#[test]
fn lines_have_1024_bytes_together_at_most(rt: HostRuntime) {
    let alloc = rt.alloc();
    let mut added = Additions::none(alloc);
    assert!(rt; added.add_header(alloc, b"a", b"b").is_ok());
    assert!(rt; added.add_header(alloc, b"0123456789abcde", &LONG) == Err(HeaderFault::TooLong));
    assert!(rt; added.add_header(alloc, b"0123456789abcd", &LONG).is_ok());
    assert!(rt; added.headers.text().len() == 1024);
    assert!(rt; added.add_header(alloc, b"a", b"b") == Err(HeaderFault::TooLong));
}
