//! What is kept of a request for a log.
ghost use Rattle.std.specs.Prelude.{◌≡◌, ◌⊎◌, []};

use memchr::memchr;
use std::alloc::Global;
use sws_request::{RequestView, view};

/// A request as its client has sent it, and how long the body of its answer is.
#[derive(Drop)]
pub struct Record {
    head: Vec<u8>,
    body: u64,
}

/// Where a client says that it comes from, and what it is; each is empty where it says nothing.
#[derive(Clone, Copy)]
pub struct Origin<'r> {
    /// The value of `Referer` (RFC 9110, section 10.1.3).
    pub referer: &'r [u8],

    /// The value of `User-Agent` (RFC 9110, section 10.1.5).
    pub agent: &'r [u8],
}

/// Whether the byte ends a line, alone or with another.
fn is_line_end(byte: u8) -> bool {
    byte == b'\r' || byte == b'\n'
}

/// The value of the first field of this name; nothing where there is none.
fn value_of<'b>(request: &RequestView<'b>, name: &[u8]) -> &'b [u8] {
    for i in 0..request.fields() {
        let (field, value) = request.field(i);
        if field.eq_ignore_ascii_case(name) {
            return value;
        }
    }
    b""
}

impl Record {
    /// That of no request. It takes no memory.
    pub fn new(alloc: Global) -> Record
        ensures head { result.head.items ≡ [] }
        ensures body { result.body ≡ 0 }
    {
        Record {
            head: Vec::new(alloc),
            body: 0,
        }
    }

    /// Keeps a head in place of the one before; none where there is no memory for it.
    pub(crate) fn keep(&mut self, head: &[u8])
        ensures head { (self.new.head.items ≡ head.now) ⊎ (self.new.head.items ≡ []) }
        ensures body { self.new.body ≡ self.old.body }
    {
        self.head.clear();
        if self.head.extend_from_slice(head).is_err() {
            self.head.clear();
        }
    }

    /// The body of its answer has so many bytes.
    pub(crate) fn answer(&mut self, body: u64)
        ensures head { self.new.head ≡ self.old.head }
        ensures body { self.new.body ≡ body }
    {
        self.body = body;
    }

    /// The request line as it was sent, without its end: the first line that isn't empty (RFC 9112,
    /// section 2.2). It is empty where no request is kept.
    pub fn request(&self) -> &[u8] {
        let head = self.head.as_slice();
        let start = head
            .iter()
            .position(|byte| !is_line_end(*byte))
            .unwrap_or(head.len());
        let rest = &head[start..];
        let line = match memchr(b'\n', rest) {
            Some(end) => &rest[..end],
            None => rest,
        };
        line.strip_suffix(b"\r").unwrap_or(line)
    }

    /// What the client says of itself, where the head is a request.
    pub fn origin(&self) -> Origin<'_> {
        match view(&self.head) {
            Ok(request) => Origin {
                referer: value_of(&request, b"referer"),
                agent: value_of(&request, b"user-agent"),
            },
            Err(_) => Origin {
                referer: b"",
                agent: b"",
            },
        }
    }

    /// How many bytes the body of its answer has.
    pub fn body(&self) -> u64
        ensures { result ≡ self.now.body }
    {
        self.body
    }
}
