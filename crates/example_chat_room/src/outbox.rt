//! What is on its way to a client.
ghost use Rattle.std.specs.Prelude.{◌≡◌, ◌≤◌, ◌++◌, [], IfErr, OnOk, drop, length};
ghost use Rattle.example_chat_room.specs.Talks.{IsFull};

use crate::end::End;
use std::alloc::Global;

/// How many bytes may be on their way to a client.
pub(crate) const PENDING: usize = 65_536;

/// What is on its way to a client, and its link hasn't taken.
#[derive(Drop)]
pub(crate) struct Outbox {
    bytes: Vec<u8>,
}

impl Outbox {
    /// Nothing is on its way. It takes no memory.
    pub(crate) fn new(alloc: Global) -> Outbox
        ensures { result.bytes.items ≡ [] }
    {
        Outbox {
            bytes: Vec::new(alloc),
        }
    }

    /// What is on its way, in order.
    pub(crate) fn bytes(&self) -> &[u8]
        ensures { result.now ≡ self.now.bytes.items }
    {
        &self.bytes
    }

    /// These bytes are on their way too, behind the others.
    ///
    /// # Errors
    ///
    /// `Slow` where they would be too many, and `Memory` where there was none.
    pub(crate) fn add(&mut self, piece: &[u8]) -> Result<(), End>
        ensures added { OnOk result (self.new.bytes.items ≡ self.old.bytes.items ++ piece.now) }
        ensures bounded { OnOk result (length self.new.bytes.items ≤ 65536) }
        ensures full { IfErr result (λ end. IsFull end (self.old.bytes.items ++ piece.now)) }
    {
        if self.bytes.len() > PENDING || piece.len() > PENDING - self.bytes.len() {
            return Err(End::Slow);
        }
        self.bytes.extend_from_slice(piece)?;
        Ok(())
    }

    /// The link took so many of the first bytes.
    pub(crate) fn take_off(&mut self, count: usize)
        requires { count ≤ length self.old.bytes.items }
        ensures { self.new.bytes.items ≡ drop count self.old.bytes.items }
    {
        let left = self.bytes.len() - count;
        self.bytes.rotate_left(count);
        self.bytes.truncate(left);
    }
}
