use std::alloc::Global;
use sws_text::{ShownLines, push_text, read_text};

/// Bytes, and the text that is written for them.
static WRITTEN: [(&[u8], &[u8]); 7] = [
    (b"", b""),
    (
        b"GET / HTTP/1.1\r\nHost: x\r\n\r\n",
        b"GET / HTTP/1.1~Host: x~~",
    ),
    (b"\n\r\t", b"\\n\\r\\t"),
    (b"\r\r\n\n", b"\\r~\\n"),
    (b"~\\", b"\\~\\\\"),
    (b"\x00\x1f\x7f\x80\xff", b"\\x00\\x1f\\x7f\\x80\\xff"),
    (b" !09AZaz}", b" !09AZaz}"),
];

/// Texts that nobody writes, and the bytes for which they stand.
static READ: [(&[u8], &[u8]); 3] = [
    (b"\\x41\\x7e\\x5c", b"A~\\"),
    (b"\\r\\n\\x0d\\x0a", b"\r\n\r\n"),
    (b"\\\\n", b"\\n"),
];

/// What is no text.
static REFUSED: [&[u8]; 8] = [
    b"\\",
    b"\\a",
    b"\\x4",
    b"\\x4G",
    b"\\xAB",
    b"a\n",
    b"\x7f",
    b"\xc3\xa9",
];

/// Whether a text stands for these bytes.
fn is_read_as(alloc: Global, text: &[u8], bytes: &[u8]) -> bool {
    match read_text(alloc, text) {
        Ok(Some(read)) => read.as_slice() == bytes,
        _ => false,
    }
}

/// Whether bytes are written as this text.
fn is_written_as(alloc: Global, bytes: &[u8], text: &[u8]) -> bool {
    let mut written = Vec::new(alloc);
    push_text(&mut written, bytes).is_ok() && written.as_slice() == text
}

/// Whether a text is none.
fn is_refused(alloc: Global, text: &[u8]) -> bool {
    matches!(read_text(alloc, text), Ok(None))
}

#[test]
fn what_is_written_is_read(rt: HostRuntime) {
    for &(bytes, text) in &WRITTEN {
        assert!(rt; is_written_as(rt.alloc(), bytes, text));
        assert!(rt; is_read_as(rt.alloc(), text, bytes));
    }
}

#[test]
fn other_spellings_are_read(rt: HostRuntime) {
    for &(text, bytes) in &READ {
        assert!(rt; is_read_as(rt.alloc(), text, bytes));
    }
}

#[test]
fn what_is_no_text_is_refused(rt: HostRuntime) {
    for &text in &REFUSED {
        assert!(rt; is_refused(rt.alloc(), text));
    }
}

/// A response, and the lines that show it.
const RESPONSE: &[u8] = b"HTTP/1.1 200 OK\r\n\r\nhi\nlast";

const SHOWN: &[u8] = b"| HTTP/1.1 200 OK~\n| ~\n| hi\\n\n| last\n";

/// Whether a hundred calls show bytes by these lines.
fn is_shown_as(alloc: Global, bytes: &[u8], lines: &[u8]) -> bool {
    let mut text = Vec::new(alloc);
    let mut shown = ShownLines::new(bytes);
    for _ in 0..100 {
        if shown.push_next(&mut text).is_err() {
            return false;
        }
    }
    text.as_slice() == lines
}

#[test]
fn lines_are_shown_a_few_bytes_at_a_time(rt: HostRuntime) {
    assert!(rt; is_shown_as(rt.alloc(), RESPONSE, SHOWN));
}
