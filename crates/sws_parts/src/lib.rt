//! The bytes of a response that are still to be sent.
//!
//! A response is a head and a body. The body is kept by somebody else, as a site keeps the files
//! that it sends, and so is a head that was built beforehand; a head that has numbers of the
//! request in it is an [`OwnHead`], which lies in the value. [`Parts`] is a cursor over both. It
//! never copies a byte of a body or of a lent head, and takes no memory. It is for whoever writes
//! to a connection that takes as many bytes at a time as it likes.
//!
//! ```text
//! let mut parts = Parts::new(head, body);
//! while parts.left() > 0 {
//!     let count = write(parts.front());
//!     parts.advance(count);
//! }
//! ```
#![tactic(auto)]

ghost use Rattle.std.specs.Prelude.{◌≡◌, ◌≤◌, ℕ, List, [], ◌++◌, length, take, drop};
ghost use Rattle.sws_parts.specs.Parts.{unsent_bytes, front_of, after_sending};

mod own_heads;

pub use own_heads::{MAX_OWN_HEAD, OwnHead};
use std::marker::Model;

/// What is left to send of a response: the rest of its head, then the rest of its body.
///
/// What is lent is lent for `'s`, the life of what keeps it.
#[derive(Drop)]
pub struct Parts<'s> {
    /// A lent head, as far as it wasn't sent.
    head: &'s [u8],
    /// Whether the response has a head of its own, in place of the lent one.
    is_own: bool,
    own: OwnHead,
    /// How much of the head of its own was sent.
    sent: usize,
    body: &'s [u8],
}

impl<'s> Model for Parts<'s> {
    ghost use Rattle.sws_parts.specs.Parts.{PartsState};

    ghost Value = { PartsState };

    ghost use Rattle.sws_parts.specs.Heads.{state_of, IsSentWithin};

    ghost view = { state_of };

    ghost invariant = { IsSentWithin };
}

impl<'s> Parts<'s> {
    /// A response of which nothing was sent, with a lent head.
    pub fn new(head: &'s [u8], body: &'s [u8]) -> Parts<'s>
        ensures { result ≡ record { head = head.now; body = body.now } }
    {
        Parts {
            head,
            is_own: false,
            own: OwnHead::new(),
            sent: 0,
            body,
        }
    }

    /// A response of which nothing was sent, with a head of its own.
    pub fn with_own(head: OwnHead, body: &'s [u8]) -> Parts<'s>
        ensures { result ≡ record { head = head; body = body.now } }
    {
        Parts {
            head: b"",
            is_own: true,
            own: head,
            sent: 0,
            body,
        }
    }

    /// Begins with another response, as [`Parts::new`], where this value lies: the room of a head of
    /// its own is neither cleared nor moved.
    pub fn lend(&mut self, head: &'s [u8], body: &'s [u8])
        ensures { self.new ≡ record { head = head.now; body = body.now } }
    {
        self.head = head;
        self.is_own = false;
        self.body = body;
    }

    /// Begins with another response, as [`Parts::with_own`], where this value lies.
    pub fn own(&mut self, head: OwnHead, body: &'s [u8])
        ensures { self.new ≡ record { head = head; body = body.now } }
    {
        self.is_own = true;
        self.own = head;
        self.sent = 0;
        self.body = body;
    }

    /// The bytes that are left of the head.
    fn left_head(&self) -> &[u8]
        ensures { result.now ≡ self.now.head }
    {
        if self.is_own {
            return &self.own.bytes()[self.sent..];
        }
        self.head
    }

    /// The bytes to be sent next: the rest of the head or, where that is
    /// empty, the rest of the body.
    ///
    /// It is empty only where nothing is left at all.
    pub fn front(&self) -> &[u8]
        ensures front { result.now ≡ front_of self.now }
        ensures begins { (rest : List ℕ) × (unsent_bytes self.now ≡ result.now ++ rest) }
        ensures empty { result.now ≡ [] → unsent_bytes self.now ≡ [] }
    {
        let head = self.left_head();
        if head.is_empty() {
            return self.body;
        }
        head
    }

    /// Passes over the first `count` bytes of the front, which were sent.
    ///
    /// What was sent, followed by what is left then, is what was left before.
    pub fn advance(&mut self, count: usize)
        requires { count ≤ length (front_of self.old) }
        ensures parts { self.new ≡ after_sending count self.old }
        ensures left { unsent_bytes self.new ≡ drop count (unsent_bytes self.old) }
        ensures whole { take count (front_of self.old) ++ unsent_bytes self.new
            ≡ unsent_bytes self.old }
    {
        if self.left_head().is_empty() {
            self.body = &self.body[count..];
        } else if self.is_own {
            // Read for contracts: by what its type keeps a head of its own is short, so the sum
            // doesn't wrap.
            let _short = self.own.bytes();
            self.sent += count;
        } else {
            self.head = &self.head[count..];
        }
    }

    /// How many bytes are left, of head and body together.
    pub fn left(&self) -> usize
        ensures { result ≡ length (unsent_bytes self.now) }
    {
        self.left_head().len() + self.body.len()
    }
}
