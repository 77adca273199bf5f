//! A head that a response has of its own.
ghost use Rattle.std.specs.Prelude.{◌≡◌, ◌≤◌, ◌+◌, ◌^◌, ◌<◌, ℕ, List, [], ◌++◌, length, decimal};

use arrayvec::ArrayVec;
use itoa::Buffer;
use std::marker::Model;

/// The most bytes that a head of its own has.
pub const MAX_OWN_HEAD: usize = 1360;

/// A head of at most [`MAX_OWN_HEAD`] bytes, which lies in the value itself.
///
/// It is for a response whose head can't be built beforehand, as it has numbers in it that the
/// request chose. It takes no memory.
#[derive(Drop)]
pub struct OwnHead {
    bytes: ArrayVec<u8, MAX_OWN_HEAD>,
}

impl Model for OwnHead {
    ghost Value = { List ℕ };

    ghost view = { λ head. head.bytes.items };
}

impl OwnHead {
    /// A head of no bytes.
    pub fn new() -> OwnHead
        ensures { result ≡ [] }
    {
        OwnHead {
            bytes: ArrayVec::new(),
        }
    }

    /// Appends these bytes.
    pub fn put(&mut self, bytes: &[u8])
        requires { length self.old + length bytes.now ≤ MAX_OWN_HEAD }
        ensures { self.new ≡ self.old ++ bytes.now }
    {
        let Ok(()) = self.bytes.try_extend_from_slice(bytes) else {
            unreachable!()
        };
    }

    /// Appends the decimal digits of the number, without leading zeros.
    pub fn put_number(&mut self, n: u64)
        requires { length self.old + length (decimal n) ≤ MAX_OWN_HEAD }
        ensures { self.new ≡ self.old ++ decimal n }
    {
        let mut digits = Buffer::new();
        self.put(digits.format(n).as_bytes());
    }

    /// The bytes so far.
    pub fn bytes(&self) -> &[u8]
        ensures bytes { result.now ≡ self.now }
        ensures within { length result.now ≤ MAX_OWN_HEAD }
    {
        self.bytes.as_slice()
    }
}
