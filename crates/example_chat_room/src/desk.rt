//! What is done on colour 0: asking the world.
ghost use Rattle.std.specs.Prelude.{◌≡◌, ◌<◌, ◌≤◌, ℕ, IfOk, None, false};
ghost use Rattle.example_chat_room.specs.Parts.{shown_desk};

use mely_event::Memory;
use std::alloc::Global;
use sws_link::{Polled, World};

/// The clients that wait for their links, the world where it rests, and how many links were given
/// to clients.
#[derive(Drop)]
pub struct Desk<W> {
    pub(crate) waiting: Vec<u16>,
    pub(crate) resting: Option<W>,
    pub(crate) is_broken: bool,
    pub(crate) given: u16,
}

/// Whom the desk has go on.
#[derive(Clone, Copy)]
pub(crate) enum Named {
    Nobody,
    Ready(u16),

    /// Its time ends, since the network has failed.
    Cut(u16),
}

impl<W> Desk<W> {
    /// Nobody waits, with room for so many.
    ///
    /// # Errors
    ///
    /// There was no memory.
    pub(crate) fn new(alloc: Global, clients: u16) -> Result<Desk<W>, Memory>
        ensures { IfOk result (λ desk. shown_desk desk
            ≡ record { rests = false; is_broken = false; given = 0 }) }
    {
        Ok(Desk {
            waiting: Vec::with_capacity(alloc, usize::from(clients))?,
            resting: None,
            is_broken: false,
            given: 0,
        })
    }

    /// Whether the network has failed.
    pub fn is_broken(&self) -> bool
        ensures { result ≡ self.now.is_broken }
    {
        self.is_broken
    }

    /// A client waits no more.
    fn take(&mut self, client: u16)
        ensures broken { self.new.is_broken ≡ self.old.is_broken }
        ensures given { self.new.given ≡ self.old.given }
        ensures resting { self.new.resting ≡ self.old.resting }
    {
        if let Some(place) = self.waiting.iter().position(|other| *other == client) {
            self.waiting.remove(place);
        }
    }

    /// The world comes to be asked, which has given so many links. There is one world, and it has
    /// given as many as clients were given: else the network has failed, which no run has for that.
    pub(crate) fn meet(&mut self, accepted: u16)
        ensures met { self.new.is_broken ≡ false → (self.old.is_broken ≡ false)
            × (self.old.given ≡ accepted) × (self.old.resting ≡ None) }
        ensures given { self.new.given ≡ self.old.given }
        ensures resting { self.new.resting ≡ self.old.resting }
    {
        if self.given != accepted || self.resting.is_some() {
            self.is_broken = true;
        }
    }

    /// The next link, that of this number, is given to its client.
    pub(crate) fn give(&mut self, number: u16)
        requires { number < 65535 }
        ensures grows { self.old.given ≤ self.new.given }
        ensures one { (client : ℕ) → self.old.given ≤ client → client < self.new.given
            → client ≡ number }
        ensures broken { self.new.is_broken ≡ self.old.is_broken }
        ensures resting { self.new.resting ≡ self.old.resting }
    {
        if self.given == number {
            self.given = number + 1;
        }
    }
}

impl<W: World> Desk<W> {
    /// Asks the world who may go on. Where it has failed, one after another of those that wait is
    /// to leave.
    pub(crate) fn ask(&mut self, world: &mut W) -> Named
        ensures same { W.tells world.new ≡ W.tells world.old }
        ensures goes_on { self.new.is_broken ≡ false → self.old.is_broken ≡ false }
        ensures given { self.new.given ≡ self.old.given }
        ensures resting { self.new.resting ≡ self.old.resting }
    {
        if !self.is_broken {
            match world.poll(&self.waiting) {
                Polled::Ready(client) => {
                    self.take(client);
                    return Named::Ready(client);
                }
                Polled::Quiet => return Named::Nobody,
                Polled::Failed => self.is_broken = true,
            }
        }
        match self.waiting.pop() {
            Some(client) => Named::Cut(client),
            None => Named::Nobody,
        }
    }
}
