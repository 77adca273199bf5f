//! An input in the making.
ghost use Rattle.std.specs.Prelude.{◌≡◌, ◌≤◌, length, IfOk, IfSome};
ghost use Rattle.sws_script.specs.Limits.{step_limit};
ghost use Rattle.sws_link.specs.Limits.{conn_limit};
ghost use Rattle.sws_script.specs.Order.{start, no_contents, conns_of, total_after};
ghost use Rattle.sws_script.specs.Parsers.{state, TakesLine, Finishes};

use crate::Input;
use crate::contents::Contents;
use crate::line::Line;
use crate::place::Place;
use std::alloc::{AllocError, Global};

/// The most steps of a schedule.
const MAX_STEPS: u32 = 10_000_000;

/// What the lines so far have said, and where they stand.
#[derive(Drop)]
pub struct Parser {
    cores: u16,
    place: Place,
    /// How many steps the schedule has.
    total: u32,
    contents: Contents,
}

impl Parser {
    /// Nothing was said, and a schedule comes first or doesn't.
    pub fn new(alloc: Global, schedule: bool, cores: u16) -> Parser
        ensures state { state result ≡ start schedule }
        ensures contents { result.contents ≡ no_contents }
        ensures cores { result.cores ≡ cores }
    {
        Parser {
            cores,
            place: initial_place(schedule),
            total: 0,
            contents: Contents::new(alloc),
        }
    }

    /// How many connections have begun.
    pub fn conns(&self) -> usize
        requires { length (conns_of self.now.contents) ≤ conn_limit }
        ensures { result ≡ length (conns_of self.now.contents) }
    {
        self.contents.conns()
    }

    /// Adds what a line says, where it may follow; or says that it may not.
    pub fn add(&mut self, alloc: Global, says: Line) -> Result<bool, AllocError>
        requires { self.old.total ≤ step_limit }
        ensures { IfOk result (TakesLine self.old self.new says) }
    {
        let Some(place) = self.place.after(&says) else {
            return Ok(false);
        };
        let Some(total) = self.total_after(&says) else {
            return Ok(false);
        };
        self.contents.grow(alloc, says)?;
        self.place = place;
        self.total = total;
        Ok(true)
    }

    /// How many steps the schedule has with those of a line, where they are within the limits.
    fn total_after(&self, says: &Line) -> Option<u32>
        requires { self.now.total ≤ step_limit }
        ensures value { result ≡ total_after self.now.cores self.now.total says.now }
        ensures few { IfSome result (λ total. total ≤ step_limit) }
    {
        match says {
            Line::Run { core, count } => {
                if *core < self.cores && *count <= MAX_STEPS - self.total {
                    Some(self.total + *count)
                } else {
                    None
                }
            }
            _ => Some(self.total),
        }
    }

    /// The input of the lines, where they are those of one.
    pub fn finish(self) -> Result<Option<Input>, AllocError>
        ensures { IfOk result (Finishes self) }
    {
        if !self.place.is_in_script() {
            return Ok(None);
        }
        Ok(Some(self.contents.into_input()?))
    }
}

/// Where a text begins.
fn initial_place(schedule: bool) -> Place
    ensures { result ≡ (start schedule).place }
{
    if schedule {
        Place::ScheduleHead
    } else {
        Place::ScriptHead
    }
}
