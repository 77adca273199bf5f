//! A legal history, made to be judged.

use mely_event::{Colour, Event};
use mely_history::{Entry, Judged, Setup, judge};
use std::alloc::{AllocError, Global};

/// Adds a turn of a colour: an event is registered, taken and finished.
fn push_turn(history: &mut Vec<Entry>, colour: Colour, core: u16) -> Result<(), AllocError> {
    let event = Event { handler: 5, arg: 0 };
    history.push(Entry::Reg {
        colour,
        event,
        by: core,
    })?;
    history.push(Entry::Take {
        colour,
        core,
        count: 1,
    })?;
    history.push(Entry::Fin {
        colour,
        core,
        count: 1,
    })?;
    Ok(())
}

/// Makes a history of so many turns, on one colour after the other, each by its owner. How many
/// entries it has, and whether it is judged legal.
pub fn judge_turns(alloc: Global, setup: &Setup, turns: u32) -> Result<(usize, bool), AllocError> {
    let colours = setup.colours().max(1);
    let mut history = Vec::new(alloc);
    for turn in 0..turns {
        let colour = (turn % colours) as u16;
        push_turn(&mut history, Colour(colour), colour % setup.cores())?;
    }
    Ok((history.len(), judge(setup, &history) == Judged::Legal))
}
