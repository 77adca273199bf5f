//! What a handler registers.
ghost use Rattle.std.specs.Prelude.{◌≡◌, ◌<◌, ◌∷◌, ◌++◌, [], ◌↔◌, List, Option, length, IsTrue, MatchOption};

use mely_event::{Colour, Event};
use std::marker::Model;
use std::mem;

/// What a handler registers: at most two events, the first before the second.
#[derive(Drop)]
pub struct Outs<P> {
    first: Option<(Colour, Event, Option<P>)>,
    second: Option<(Colour, Event, Option<P>)>,
}

impl<P> Model for Outs<P> {
    ghost use Rattle.std.specs.Prelude.{List, Option, ◌++◌, ◌≡◌, None};
    ghost use Rattle.mely_event.specs.declared.colour.Colour.{Colour};
    ghost use Rattle.mely_event.specs.declared.event.Event.{Event};
    ghost use Rattle.mely_worker.specs.Outs.{in_place};

    ghost Value = { List (Colour × Event × Option P) };

    ghost view = { λ outs. in_place outs.first ++ in_place outs.second };

    ghost invariant = { λ outs. outs.first ≡ None → outs.second ≡ None };
}

impl<P> Outs<P> {
    /// Nothing is put. It takes no memory.
    pub fn new() -> Outs<P>
        ensures { result ≡ [] }
    {
        Outs {
            first: None,
            second: None,
        }
    }

    /// Whether nothing is put.
    pub fn is_empty(&self) -> bool
        ensures { IsTrue result ↔ (self.now ≡ []) }
    {
        self.first.is_none()
    }

    /// Takes the first registration out.
    pub(crate) fn take_first(&mut self) -> Option<(Colour, Event, Option<P>)>
        ensures first { MatchOption result (self.old ≡ []) (λ first. self.old ≡ first ∷ self.new) }
        ensures none { MatchOption result (self.new ≡ []) (λ _. Unit {0}) }
    {
        let first = self.first.take();
        if self.second.is_some() {
            mem::swap(&mut self.first, &mut self.second);
        }
        first
    }
}

impl<P: Drop> Outs<P> {
    /// Puts a registration behind what is there, which is at most one. It takes no memory.
    pub fn put(&mut self, colour: Colour, event: Event, load: Option<P>)
        requires { length self.old < 2 }
        ensures { self.new ≡ self.old ++ (colour, event, load) ∷ [] }
    {
        if self.first.is_none() {
            self.first = Some((colour, event, load));
        } else {
            self.second = Some((colour, event, load));
        }
    }
}
