//! What is done on colour 0: asking the world.
ghost use Rattle.std.specs.Prelude.{◌≡◌};

use mely_event::Memory;
use std::alloc::Global;
use sws_link::{Polled, World};

/// The connections that wait for their links, and the world where it rests.
#[derive(Drop)]
pub struct Desk<W> {
    pub(crate) waiting: Vec<u16>,
    pub(crate) resting: Option<W>,
    pub(crate) is_broken: bool,
}

/// Which connection the desk has go on.
#[derive(Clone, Copy)]
pub(crate) enum Named {
    Nobody,
    Ready(u16),

    /// It ends, since the network has failed.
    Cut(u16),
}

impl<W> Desk<W> {
    /// Nobody waits, with room for so many.
    ///
    /// # Errors
    ///
    /// There was no memory.
    pub(crate) fn new(alloc: Global, clients: u16) -> Result<Desk<W>, Memory> {
        Ok(Desk {
            waiting: Vec::with_capacity(alloc, usize::from(clients))?,
            resting: None,
            is_broken: false,
        })
    }

    /// Whether the network has failed.
    pub fn is_broken(&self) -> bool
        ensures { result ≡ self.now.is_broken }
    {
        self.is_broken
    }

    /// A connection waits no more.
    fn take(&mut self, client: u16) {
        if let Some(place) = self.waiting.iter().position(|other| *other == client) {
            self.waiting.remove(place);
        }
    }
}

impl<W: World> Desk<W> {
    /// Asks the world who may go on. Where it has failed, one after another of those that wait is
    /// to end.
    pub(crate) fn ask(&mut self, world: &mut W) -> Named
        ensures { W.tells world.new ≡ W.tells world.old }
    {
        if !self.is_broken {
            match world.poll(&self.waiting) {
                Polled::Ready(client) => {
                    self.take(client);
                    return Named::Ready(client);
                }
                Polled::Quiet => return Named::Nobody,
                Polled::Failed => self.is_broken = true,
            }
        }
        match self.waiting.pop() {
            Some(client) => Named::Cut(client),
            None => Named::Nobody,
        }
    }
}
