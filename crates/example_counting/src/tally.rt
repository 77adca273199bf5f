//! The state of one colour.
ghost use Rattle.std.specs.Prelude.{◌≡◌, ◌++◌, ◌∷◌, [], IfOk};
ghost use Rattle.mely_weave.specs.Making.{AreInitialBelow};

use mely_event::{Colour, Event, Logged, Memory, TrailLog};
use std::alloc::Global;

/// A state that keeps its trail, and the seed by which it draws numbers.
pub type Tally = Logged<u32>;

/// A state on which nothing was run.
pub fn initial_tally(colour: u16) -> Tally
    ensures { result.log ≡ record { colour = record { 0 = colour }; events = [] } }
{
    Logged {
        log: TrailLog::new(Colour(colour)),
        value: u32::from(colour),
    }
}

/// A state for each of so many colours, in ascending order.
///
/// # Errors
///
/// There was no memory.
pub fn initial_states(alloc: Global, colours: u16) -> Result<Vec<Tally>, Memory>
    ensures { IfOk result (λ states.
        AreInitialBelow (λ state. state.log.colour) (λ state. state.log.events)
        colours states.items) }
{
    let mut states = Vec::new(alloc);
    'colours: for colour in 0..colours {
        states.push(initial_tally(colour))?;
    }
    Ok(states)
}

/// The event joins the trail, and a number is drawn by so many rounds of a linear congruential
/// generator, and one more.
pub fn draw(state: &mut Tally, event: Event, rounds: u32) -> u16
    ensures { state.new.log ≡ record state.old.log { events = state.old.log.events ++ event ∷ [] } }
{
    state.log.push(event);
    state.value = drawn_after(state.value, rounds);
    (state.value >> 16) as u16
}

/// The next number of the generator.
fn next(seed: u32) -> u32 {
    seed.wrapping_mul(1_664_525).wrapping_add(1_013_904_223)
}

/// The number after so many rounds and one more.
fn drawn_after(seed: u32, rounds: u32) -> u32 {
    let mut seed = next(seed);
    for _round in 0..rounds {
        seed = next(seed);
    }
    seed
}
