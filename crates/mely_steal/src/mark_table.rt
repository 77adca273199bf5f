//! The last mark of each colour.
ghost use Rattle.std.specs.Prelude.{◌≡◌, ◌<◌, IfOk, length, min};
ghost use Rattle.mely_steal.specs.StealTable.{SetsMark, mark_in};

use crate::links::MAX_PLACES;
use mely_event::{Colour, Mark, Memory};
use std::alloc::Global;
use std::marker::Model;

/// The last mark of each colour, in two tables side by side: one of whole marks would be a quarter
/// larger, as a mark's fields are padded to 32 bytes.
#[derive(Drop)]
pub(crate) struct MarkTable {
    started: Vec<u64>,
    worth: Vec<u128>,
}

impl Model for MarkTable {
    ghost use Rattle.mely_steal.specs.StealTable.{MarkTableState};

    ghost Value = { MarkTableState };

    ghost use Rattle.std.specs.Prelude.{◌≡◌, length};

    ghost view = { λ t. record { started = t.started.items; worth = t.worth.items } };

    ghost invariant = { λ t. length t.worth.items ≡ length t.started.items };
}

impl MarkTable {
    /// A table for this many colours, and for no more than there are numbers of colours.
    ///
    /// # Errors
    ///
    /// There was no memory.
    pub(crate) fn new(alloc: Global, colours: u32) -> Result<MarkTable, Memory>
        ensures { IfOk result (λ table. length table.started ≡ min colours MAX_PLACES) }
    {
        let places = colours.min(MAX_PLACES) as usize;
        Ok(MarkTable {
            started: vec![in alloc; 0; places]?,
            worth: vec![in alloc; 0; places]?,
        })
    }

    /// The mark of a colour as it was last set; zeros where it never was.
    pub(crate) fn of(&self, colour: Colour) -> Mark
        requires { colour.0 < length self.now.started }
        ensures { result ≡ mark_in self.now colour.0 }
    {
        let place = colour.0 as usize;
        Mark {
            colour,
            started: self.started[place],
            worth: self.worth[place],
        }
    }

    /// Keeps a mark in the place of the last one of its colour.
    pub(crate) fn set(&mut self, mark: Mark)
        requires { mark.colour.0 < length self.old.started }
        ensures { SetsMark mark self.old self.new }
    {
        let place = mark.colour.0 as usize;
        self.started[place] = mark.started;
        self.worth[place] = mark.worth;
    }
}
