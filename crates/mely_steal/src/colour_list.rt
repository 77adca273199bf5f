//! A list of colours by links.
ghost use Rattle.std.specs.Prelude.{◌≡◌, ◌<◌, ◌↔◌, ◌∷◌, ◌++◌, [], false, IfOk, IfSome, IsTrue, option_map, slice_get};
ghost use Rattle.mely_steal.specs.Links.{without_place, is_in};

use crate::links::{Ends, Link, MAX_PLACES, NO_ENDS, UNLINKED};
use crate::table::{push_back, unlink};
use mely_event::{Colour, Memory};
use std::alloc::Global;
use std::marker::Model;

/// The number of the only list of its table.
const ALONE: u8 = 1;

/// A list of colours by links, each colour at most once. It has room for every colour from the
/// start, so no call but [`ColourList::new`] takes memory, and each but [`ColourList::at`] touches
/// a fixed number of places.
#[derive(Drop)]
pub struct ColourList {
    links: Vec<Link>,
    ends: Ends,
    colours: u32,
}

impl Model for ColourList {
    ghost use Rattle.mely_steal.specs.ColourList.{ColourListState, StandsAlone};

    ghost Value = { ColourListState };

    ghost use Rattle.mely_steal.specs.Links.{places_of};

    ghost view = { λ list. record {
      list = places_of list.links.items list.ends;
      colours = list.colours;
    } };

    ghost invariant = { λ list. StandsAlone list.links.items list.ends list.colours };
}

impl ColourList {
    ghost use Rattle.mely_steal.specs.ColourList.{ColourListState};

    /// An empty list with room for this many colours.
    ///
    /// # Errors
    ///
    /// There was no memory.
    pub fn new(alloc: Global, colours: u32) -> Result<ColourList, Memory>
        ensures { IfOk result (λ list. list ≡ record { list = []; colours = colours }) }
    {
        let places = colours.min(MAX_PLACES) as usize;
        Ok(ColourList {
            links: vec![in alloc; UNLINKED; places]?,
            ends: NO_ENDS,
            colours,
        })
    }

    /// Whether the list has a colour.
    pub fn contains(&self, colour: Colour) -> bool
        requires { colour.0 < self.now.colours }
        ensures value { result ≡ is_in self.now.list colour.0 }
    {
        self.links[colour.0 as usize].list == ALONE
    }

    /// Whether the list is empty.
    pub fn is_empty(&self) -> bool
        ensures value { IsTrue result ↔ (self.now.list ≡ []) }
    {
        self.ends.len == 0
    }

    /// The first colour, and nothing exactly where the list is empty.
    pub fn first(&self) -> Option<Colour>
        ensures value { option_map (λ colour. colour.0) result ≡ slice_get self.now.list 0 }
        ensures within { IfSome result (λ colour. colour.0 < self.now.colours) }
    {
        if self.ends.len == 0 {
            return None;
        }
        Some(Colour(self.ends.first))
    }

    /// The colour at a place of the list, and nothing exactly where the list isn't longer. It goes
    /// through the list up to there.
    pub fn at(&self, place: usize) -> Option<Colour>
        ensures value { option_map (λ colour. colour.0) result ≡ slice_get self.now.list place }
        ensures within { IfSome result (λ colour. colour.0 < self.now.colours) }
    {
        if place >= self.ends.len as usize {
            return None;
        }
        let mut colour = self.ends.first;
        'places: for _ in 0..place {
            colour = self.links[colour as usize].after;
        }
        Some(Colour(colour))
    }

    /// Adds a colour, which isn't in the list, at the end.
    pub fn push(&mut self, colour: Colour)
        requires below { colour.0 < self.old.colours }
        requires absent { is_in self.old.list colour.0 ≡ false }
        ensures after { self.new ≡ record self.old { list = self.old.list ++ colour.0 ∷ [] } }
    {
        push_back(&mut self.links, &mut self.ends, ALONE, colour.0);
    }

    /// Takes a colour out of the list, and the others keep their order. Nothing
    /// changes where it isn't there.
    pub fn remove(&mut self, colour: Colour)
        requires { colour.0 < self.old.colours }
        ensures after { self.new ≡ record self.old { list = without_place colour.0 self.old.list } }
    {
        if self.contains(colour) {
            unlink(&mut self.links, &mut self.ends, colour.0);
        }
    }
}
