//! What a head says.
ghost use Rattle.std.specs.Prelude.{◌≡◌, ◌<◌, ◌≤◌, ℕ, List, length, IfOk, OnErr, Some, option_map, slice_get};
ghost use Rattle.sws_request.specs.Request.{Request, IsRequest, IsNoRequest, SaysRequest};

use httparse::Status;
use httparse::spans::{EMPTY_HEADER_SPAN, HeaderSpan, Span, parse_request};
use std::error::Error;
use std::fmt;
use std::marker::Model;

/// The most fields that a request has.
pub const MAX_FIELDS: usize = 64;

/// The head is no request.
#[derive(Clone, Copy, Debug, PartialEq, Eq)]
pub struct NotARequest;

impl fmt::Display for NotARequest {
    fn fmt<W: fmt::Write>(&self, f: &mut fmt::Formatter<W>) -> fmt::Result {
        f.write_str("the head is no request")
    }
}

impl Error for NotARequest {}

/// Room for the places of a request's fields. It is worth making where it is used, as it takes 2 KiB.
#[derive(Drop)]
pub struct FieldRoom {
    spans: [HeaderSpan; MAX_FIELDS],
}

impl FieldRoom {
    /// A room, for the fields of one request after another.
    pub fn new() -> FieldRoom {
        FieldRoom {
            spans: [EMPTY_HEADER_SPAN; MAX_FIELDS],
        }
    }
}

/// A request, whose parts are slices of its head, and the places of whose fields lie in a room of
/// the caller's: so it is cheap to move.
#[derive(Drop)]
pub struct RequestRef<'b, 's> {
    head: &'b [u8],
    method: Span,
    target: Span,
    minor: u8,
    spans: &'s [HeaderSpan],
}

impl<'b, 's> Model for RequestRef<'b, 's> {
    ghost use Rattle.sws_request.specs.Request.{Request};

    ghost Value = { Request };

    ghost use Rattle.sws_request.specs.View.{lent_state_of, IsLentInside};

    ghost view = { lent_state_of };

    ghost invariant = { IsLentInside };
}

impl<'b, 's> RequestRef<'b, 's> {
    /// The method, as `GET`: letters count as they are (RFC 9110, section 9.1).
    pub fn method(&self) -> &'b [u8]
        ensures { result.now ≡ self.now.method }
    {
        self.method.of(self.head)
    }

    /// The target, as the request line has it (RFC 9112, section 3.2).
    pub fn target(&self) -> &'b [u8]
        ensures { result.now ≡ self.now.target }
    {
        self.target.of(self.head)
    }

    /// The minor version: 0 for `HTTP/1.0`, 1 for `HTTP/1.1`.
    pub fn minor(&self) -> u8
        ensures minor { result ≡ self.now.minor }
        ensures known { result ≤ 1 }
    {
        self.minor
    }

    /// How many fields there are, [`MAX_FIELDS`] at most.
    pub fn fields(&self) -> usize
        ensures count { result ≡ length self.now.fields }
        ensures few { result ≤ 64 }
    {
        self.spans.len()
    }

    /// The name and the value of a field, the first of which has number 0.
    pub fn field(&self, i: usize) -> (&'b [u8], &'b [u8])
        requires { i < length self.now.fields }
        ensures { slice_get self.now.fields i ≡ Some (result.0.now, result.1.now) }
    {
        let head = self.head;
        let span = self.spans[i];
        (span.name.of(head), span.value.of(head))
    }

    /// The name of a field.
    pub fn name(&self, i: usize) -> &'b [u8]
        requires { i < length self.now.fields }
        ensures { option_map (λ field. field.0) (slice_get self.now.fields i) ≡ Some result.now }
    {
        self.field(i).0
    }

    /// The value of a field, without the white space around it (RFC 9110, section 5.5).
    pub fn value(&self, i: usize) -> &'b [u8]
        requires { i < length self.now.fields }
        ensures { option_map (λ field. field.1) (slice_get self.now.fields i) ≡ Some result.now }
    {
        self.field(i).1
    }
}

/// A request, whose parts are slices of its head.
#[derive(Drop)]
pub struct RequestView<'b> {
    head: &'b [u8],
    method: Span,
    target: Span,
    minor: u8,
    fields: usize,
    spans: [HeaderSpan; MAX_FIELDS],
}

impl<'b> Model for RequestView<'b> {
    ghost use Rattle.sws_request.specs.Request.{Request};

    ghost Value = { Request };

    ghost use Rattle.sws_request.specs.View.{state_of, IsInside};

    ghost view = { state_of };

    ghost invariant = { IsInside };
}

impl<'b> RequestView<'b> {
    /// The same request, over the places that this value holds.
    pub fn by_ref(&self) -> RequestRef<'b, '_>
        ensures { result ≡ self.now }
    {
        RequestRef {
            head: self.head,
            method: self.method,
            target: self.target,
            minor: self.minor,
            spans: &self.spans[..self.fields],
        }
    }

    /// The method, as `GET`: letters count as they are (RFC 9110, section 9.1).
    pub fn method(&self) -> &'b [u8]
        ensures { result.now ≡ self.now.method }
    {
        self.by_ref().method()
    }

    /// The target, as the request line has it (RFC 9112, section 3.2).
    pub fn target(&self) -> &'b [u8]
        ensures { result.now ≡ self.now.target }
    {
        self.by_ref().target()
    }

    /// The minor version: 0 for `HTTP/1.0`, 1 for `HTTP/1.1`.
    pub fn minor(&self) -> u8
        ensures minor { result ≡ self.now.minor }
        ensures known { result ≤ 1 }
    {
        self.minor
    }

    /// How many fields there are, [`MAX_FIELDS`] at most.
    pub fn fields(&self) -> usize
        ensures count { result ≡ length self.now.fields }
        ensures few { result ≤ 64 }
    {
        self.fields
    }

    /// The name and the value of a field, the first of which has number 0.
    pub fn field(&self, i: usize) -> (&'b [u8], &'b [u8])
        requires { i < length self.now.fields }
        ensures { slice_get self.now.fields i ≡ Some (result.0.now, result.1.now) }
    {
        self.by_ref().field(i)
    }

    /// The name of a field.
    pub fn name(&self, i: usize) -> &'b [u8]
        requires { i < length self.now.fields }
        ensures { option_map (λ field. field.0) (slice_get self.now.fields i) ≡ Some result.now }
    {
        self.by_ref().name(i)
    }

    /// The value of a field, without the white space around it (RFC 9110, section 5.5).
    pub fn value(&self, i: usize) -> &'b [u8]
        requires { i < length self.now.fields }
        ensures { option_map (λ field. field.1) (slice_get self.now.fields i) ≡ Some result.now }
    {
        self.by_ref().value(i)
    }
}

/// The request that a whole head says.
///
/// Empty lines in front of it are dropped (RFC 9112, section 2.2). What is left is a request where
/// `httparse`'s grammar reads it to its last byte, with [`MAX_FIELDS`] fields at most; else the
/// answer is `NotARequest`.
pub fn view(head: &[u8]) -> Result<RequestView<'_>, NotARequest>
    ensures request { IfOk result (λ view. IsRequest head.now view) }
    ensures refused { OnErr result (IsNoRequest head.now) }
    ensures short { IfOk result (λ view. length view.target ≤ length head.now) }
{
    let mut spans = [EMPTY_HEADER_SPAN; MAX_FIELDS];
    match parse_request(head, &mut spans) {
        Ok(Status::Complete(found)) if found.len == head.len() => Ok(RequestView {
            head,
            method: found.method,
            target: found.path,
            minor: found.version,
            fields: found.headers,
            spans,
        }),
        _ => Err(NotARequest),
    }
}

/// The request that a whole head says, as [`view`] finds it, with the places of its fields in this
/// room: what was in it before doesn't matter.
pub fn view_in<'b, 's>(
    head: &'b [u8],
    room: &'s mut FieldRoom,
) -> Result<RequestRef<'b, 's>, NotARequest>
    ensures request { IfOk result (λ view. IsRequest head.now view) }
    ensures refused { OnErr result (IsNoRequest head.now) }
    ensures short { IfOk result (λ view. length view.target ≤ length head.now) }
{
    match parse_request(head, &mut room.spans) {
        Ok(Status::Complete(found)) if found.len == head.len() => Ok(RequestRef {
            head,
            method: found.method,
            target: found.path,
            minor: found.version,
            spans: &room.spans[..found.headers],
        }),
        _ => Err(NotARequest),
    }
}

/// `httparse` drops the same empty lines by itself: what it reads from the front of a head is
/// what it reads behind them.
pub fn empty_lines_change_nothing()
    ensures dropped { (head : List ℕ) (request : Request) → IsRequest head request
        → SaysRequest head request }
    ensures kept { (head : List ℕ) (request : Request) → SaysRequest head request
        → IsRequest head request }
{}
