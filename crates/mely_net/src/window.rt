//! Bytes that come behind others and are taken off in front.
ghost use Rattle.std.specs.Prelude.{◌≡◌, ◌≤◌, ◌++◌, [], OnOk, drop, length};

use crate::service::Service;
use mely_event::Memory;
use std::alloc::Global;
use std::marker::Model;

/// Bytes that come behind others and are taken off in front. Contracts see those that are left.
#[derive(Drop)]
pub(crate) struct Window {
    bytes: Vec<u8>,

    /// How many of them were taken off.
    from: usize,
}

impl Model for Window {
    ghost use Rattle.std.specs.Prelude.{◌≤◌, ℕ, List, drop, length};

    ghost Value = { List ℕ };

    ghost view = { λ window. drop window.from window.bytes.items };

    ghost invariant = { λ window. window.from ≤ length window.bytes.items };
}

impl Window {
    /// There are none. It takes no memory.
    pub(crate) fn new(alloc: Global) -> Window
        ensures { result ≡ [] }
    {
        Window {
            bytes: Vec::new(alloc),
            from: 0,
        }
    }

    /// Those that are left.
    pub(crate) fn bytes(&self) -> &[u8]
        ensures { result.now ≡ self.now }
    {
        &self.bytes[self.from..]
    }

    /// So many of the first ones are taken off.
    pub(crate) fn take_off(&mut self, count: usize)
        requires { count ≤ length self.old }
        ensures { self.new ≡ drop count self.old }
    {
        self.from += count;
    }

    /// Makes room of what was taken off.
    fn close_up(&mut self)
        ensures { self.new ≡ self.old }
    {
        let left = self.bytes.len() - self.from;
        self.bytes.rotate_left(self.from);
        self.bytes.truncate(left);
        self.from = 0;
    }

    /// These come behind the others.
    ///
    /// # Errors
    ///
    /// There was no memory.
    pub(crate) fn add(&mut self, piece: &[u8]) -> Result<(), Memory>
        ensures { OnOk result (self.new ≡ self.old ++ piece.now) }
    {
        self.close_up();
        self.bytes.extend_from_slice(piece)?;
        Ok(())
    }

    /// Those of a reply come behind the others, with its parts where it has any.
    ///
    /// # Errors
    ///
    /// There was no memory.
    pub(crate) fn add_reply<S: Service>(
        &mut self,
        service: &S,
        reply: &S::Reply,
        parts: &[S::Reply],
    ) -> Result<(), Memory>
        ensures { OnOk result (self.new
            ≡ self.old ++ (S.rules_of service.now).shown reply.now parts.now) }
    {
        if self.from > 0 {
            self.close_up();
        }
        let written = service.write(reply, parts, &mut self.bytes);
        if written.is_err() {
            self.bytes.clear();
            self.from = 0;
        }
        written
    }
}
