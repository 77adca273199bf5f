//! Colours in three classes, each a list by links.
ghost use Rattle.std.specs.Prelude.{◌≡◌, ◌<◌, ◌≤◌, ◌∷◌, ◌++◌, ◌==◌, [], IfOk, IfSome, min, option_map, find};
ghost use Rattle.mely_steal.specs.Entering.{class_in, entries_without};

use crate::links::{Ends, Link, MAX_PLACES, NO_ENDS, UNLINKED};
use crate::numbering::next_number;
use crate::table::{push_back, unlink};
use mely_event::Memory;
use std::alloc::Global;
use std::marker::Model;

/// Colours in the classes 1 to 3, at most one class a colour.
///
/// Each class is a list by links, in the order in which its colours entered it. With each colour
/// stands the number of its entering, and contracts see all of them as one list by these numbers.
#[derive(Drop)]
pub(crate) struct Classes {
    links: Vec<Link>,
    ends: [Ends; 3],
    numbers: Vec<u64>,
    next: u64,
}

impl Model for Classes {
    ghost use Rattle.mely_steal.specs.Entering.{ClassesState, StandInOrder, entries_of};

    ghost Value = { ClassesState };

    ghost use Rattle.std.specs.Prelude.{length};

    ghost view = { λ q. record {
      entries = entries_of q.links.items q.ends q.numbers.items;
      places = length q.links.items;
    } };

    ghost invariant = { λ q. StandInOrder q.links.items q.ends q.numbers.items q.next };
}

impl Classes {
    ghost use Rattle.mely_steal.specs.Entering.{Ranked, ClassesState};

    /// No colours, with room for this many, and for no more than there are numbers of colours.
    ///
    /// # Errors
    ///
    /// There was no memory.
    pub(crate) fn new(alloc: Global, colours: u32) -> Result<Classes, Memory>
        ensures empty { IfOk result (λ classes. classes.entries ≡ []) }
        ensures places { IfOk result (λ classes. classes.places ≡ min colours MAX_PLACES) }
    {
        let places = colours.min(MAX_PLACES) as usize;
        Ok(Classes {
            links: vec![in alloc; UNLINKED; places]?,
            ends: [NO_ENDS; 3],
            numbers: vec![in alloc; 0; places]?,
            next: 0,
        })
    }

    /// The class of a colour, and 0 where it is in none.
    pub(crate) fn class_of(&self, colour: u16) -> u8
        requires { colour < self.now.places }
        ensures { result ≡ class_in colour self.now.entries }
    {
        self.links[colour as usize].list
    }

    /// The first colour of a class.
    pub(crate) fn first(&self, class: u8) -> Option<u16>
        requires { (1 ≤ class) × (class ≤ 3) }
        ensures value { let entry = find (λ entry. entry.class == class) self.now.entries in
            result ≡ option_map (λ entry. entry.colour) entry }
        ensures within { IfSome result (λ colour. colour < self.now.places) }
    {
        let ends = self.ends[(class - 1) as usize];
        if ends.len == 0 {
            None
        } else {
            Some(ends.first)
        }
    }

    /// Adds a colour, which is in no class, at the end of a class.
    pub(crate) fn enter(&mut self, class: u8, colour: u16)
        requires class { (1 ≤ class) × (class ≤ 3) }
        requires place { colour < self.old.places }
        requires absent { class_in colour self.old.entries ≡ 0 }
        ensures { let entry : Ranked = record { colour = colour; class = class } in
            self.new ≡ record self.old { entries = self.old.entries ++ entry ∷ [] } }
    {
        let number = next_number(&self.links, &self.ends, &mut self.numbers, self.next);
        self.numbers[colour as usize] = number;
        self.next = number + 1;
        let ends = &mut self.ends[(class - 1) as usize];
        push_back(&mut self.links, ends, class, colour);
    }

    /// Takes a colour out of its class. Nothing changes where it is in none.
    pub(crate) fn remove(&mut self, colour: u16)
        requires { colour < self.old.places }
        ensures { self.new ≡ record self.old { entries = entries_without colour self.old.entries } }
    {
        let class = self.links[colour as usize].list;
        if class == 0 {
            return;
        }
        let ends = &mut self.ends[(class - 1) as usize];
        unlink(&mut self.links, ends, colour);
    }
}
