//! The text of a line of the access log.

use std::alloc::Global;
use sws_access::{Visit, push_combined};

/// A visit whose client sends what a log doesn't show as it is.
static VISIT: Visit<'static> = Visit {
    address: b"203.0.113.9",
    date: *b"Sun, 06 Nov 1994 08:49:37 GMT",
    request: b"GET /a\"b HTTP/1.1",
    code: 404,
    length: 12,
    referer: b"",
    agent: b"me \\ \xFF\n",
};

/// Its line, as nginx would write it.
const LINE: &[u8] =
    b"203.0.113.9 - - [06/Nov/1994:08:49:37 +0000] \"GET /a\\x22b HTTP/1.1\" 404 12 \"-\" \"me \\x5C \\xFF\\x0A\"\n";

/// Whether the line of the visit is that.
fn has_its_line(alloc: Global) -> bool {
    let mut text = Vec::new(alloc);
    push_combined(&mut text, &VISIT).is_ok() && text.as_slice() == LINE
}

#[test]
fn a_visit_has_its_line_in_the_combined_format(rt: HostRuntime) {
    assert!(rt; has_its_line(rt.alloc()));
}
