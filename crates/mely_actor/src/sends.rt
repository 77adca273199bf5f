//! What a message has sent.
ghost use Rattle.std.specs.Prelude.{◌≡◌, ◌<◌, ◌≤◌, ◌∷◌, ◌++◌, ◌↔◌, [], IsTrue, List, OnOk, Option, length};
ghost use Rattle.mely_worker.specs.Outs.{in_place};

use mely_event::{Colour, Memory};
use std::alloc::Global;
use std::collections::VecDeque;
use std::marker::Model;

/// What is sent while a message is received, in order.
#[derive(Drop)]
pub struct Sends<M> {
    first: Option<(Colour, M)>,
    second: Option<(Colour, M)>,
    more: VecDeque<(Colour, M)>,
}

impl<M> Model for Sends<M> {
    ghost use Rattle.std.specs.Prelude.{List, [], ◌++◌, ◌≡◌, None};
    ghost use Rattle.mely_event.specs.declared.colour.Colour.{Colour};
    ghost use Rattle.mely_worker.specs.Outs.{in_place};

    ghost Value = { List (Colour × M) };

    ghost view = { λ sends. in_place sends.first ++ in_place sends.second ++ sends.more.items };

    ghost invariant = { λ sends. (sends.first ≡ None → sends.second ≡ None)
        × (sends.second ≡ None → sends.more.items ≡ []) };
}

impl<M> Sends<M> {
    /// Nothing is sent. It takes no memory.
    pub(crate) fn new(alloc: Global) -> Sends<M>
        ensures { result ≡ [] }
    {
        Sends {
            first: None,
            second: None,
            more: VecDeque::new(alloc),
        }
    }

    /// All these are sent.
    pub(crate) fn of(mut all: VecDeque<(Colour, M)>) -> Sends<M>
        ensures { result ≡ all.items }
    {
        let first = all.pop_front();
        let second = all.pop_front();
        Sends {
            first,
            second,
            more: all,
        }
    }

    /// Whether no more than two are sent.
    pub(crate) fn are_few(&self) -> bool
        ensures { IsTrue result ↔ (length self.now ≤ 2) }
    {
        self.more.is_empty()
    }

    /// What is sent, in order.
    pub(crate) fn into_parts(
        self,
    ) -> (
        Option<(Colour, M)>,
        Option<(Colour, M)>,
        VecDeque<(Colour, M)>,
    )
        ensures parts { self ≡ in_place result.0 ++ in_place result.1 ++ result.2.items }
        ensures few { length self ≤ 2 → result.2.items ≡ [] }
    {
        let Sends {
            first,
            second,
            more,
        } = self;
        (first, second, more)
    }
}

impl<M: Drop> Sends<M> {
    /// Sends a message to a colour, behind what was sent, which is at most one. It takes no memory.
    pub fn send(&mut self, colour: Colour, message: M)
        requires { length self.old < 2 }
        ensures { self.new ≡ self.old ++ (colour, message) ∷ [] }
    {
        if self.first.is_none() {
            self.first = Some((colour, message));
        } else {
            self.second = Some((colour, message));
        }
    }

    /// Sends a message to a colour, behind what was sent, however much that is.
    ///
    /// # Errors
    ///
    /// There was no memory, which is wanted from the third message on.
    pub fn send_more(&mut self, colour: Colour, message: M) -> Result<(), Memory>
        ensures { OnOk result (self.new ≡ self.old ++ (colour, message) ∷ []) }
    {
        if self.first.is_none() {
            self.first = Some((colour, message));
        } else if self.second.is_none() {
            self.second = Some((colour, message));
        } else {
            self.more.push_back((colour, message))?;
        }
        Ok(())
    }
}
