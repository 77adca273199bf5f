//! A taken part of a colour.
ghost use Rattle.std.specs.Prelude.{◌≡◌, ◌≤◌, ◌∷◌, [], length, reverse, MatchOption};
ghost use Rattle.std.specs.Borrow.{Lends, sem};

use mely_event::{Colour, Event, Fits, Trail};
use std::marker::Model;
use std::snapshot::Snapshot;

/// A taken part of a colour: its state, moved out of its home, and the events that are to be run
/// on it, each with its load.
///
/// Each event that a turn is made of fits the load beside it, under the frame of the state
/// that was given and the colour. The turn keeps the given state for contracts, whatever is
/// written through [`Turn::state`], and hands its events out unchanged, so whoever was given a
/// turn of events that fit is handed what fits. A turn has no `Drop`: it is spent by a finish,
/// which takes the state home.
pub struct Turn<S, P> {
    colour: Colour,
    core: u16,
    count: u16,
    state: S,
    /// The state as it was given. It is for contracts alone and holds no bytes.
    given: Snapshot<S>,
    /// The events that are left, the next one last.
    events: Vec<(Event, Option<P>)>,
}

impl<S, P> Model for Turn<S, P> {
    ghost use Rattle.mely_queue.specs.Turn.{TurnState};

    ghost Value = { TurnState S P };

    ghost use Rattle.std.specs.Prelude.{reverse};

    ghost view = { λ t. record {
      colour = t.colour;
      core = t.core;
      count = t.count;
      state = t.state;
      given = t.given.value;
      events = reverse t.events.items;
    } };
}

impl<S: Fits<P>, P> Turn<S, P> {
    ghost use Rattle.mely_queue.specs.Turn.{TurnState, EachFits};

    /// A turn of these events, of which there are 1 to 1,000. The state is of this colour.
    pub fn new(colour: Colour, core: u16, state: S, events: Vec<(Event, Option<P>)>) -> Turn<S, P>
        requires some { 1 ≤ length events.items }
        requires few { length events.items ≤ 1000 }
        requires of_colour { S.colour_of state ≡ colour }
        requires fit { EachFits (S.fits_under (S.frame_of state) colour) events.items }
        ensures { result ≡ record {
          colour = colour;
          core = core;
          count = length events.items;
          state = state;
          given = state;
          events = events.items;
        } }
    {
        let count = events.len() as u16;
        let given = Snapshot::of(&state);
        let mut events = events;
        events.reverse();
        Turn {
            colour,
            core,
            count,
            state,
            given,
            events,
        }
    }
}

impl<S, P> Turn<S, P> {
    ghost use Rattle.mely_queue.specs.Turn.{TurnState};
    ghost use Rattle.mely_queue.specs.contracts.turn.Turn.{the_row};

    /// The colour that was taken.
    pub fn colour(&self) -> Colour
        ensures { result ≡ self.now.colour }
    {
        self.colour
    }

    /// The core that took it.
    pub fn core(&self) -> u16
        ensures { result ≡ self.now.core }
    {
        self.core
    }

    /// How many events were taken.
    pub fn count(&self) -> u16
        ensures { result ≡ self.now.count }
    {
        self.count
    }

    /// How many of them have not been handed out.
    pub fn left(&self) -> usize
        ensures { result ≡ length self.now.events }
    {
        self.events.len()
    }

    /// Hands out the next event with its load, in the order in which they were taken, and
    /// nothing where none is left.
    pub fn next(&mut self) -> Option<(Event, Option<P>)>
        ensures next { MatchOption result ((self.old.events ≡ []) × (self.new ≡ self.old)) (λ first.
            self.old.events ≡ first ∷ self.new.events) }
        ensures rest { self.new ≡ record self.old { events = self.new.events } }
    {
        self.events.pop()
    }

    /// The state, for the handler of an event to read and write.
    pub fn state(&mut self) -> &mut S
        ensures* writes_back { sem 𝓛 (Lends (the_row S.row P.row) S.row self.entry result (λ state.
            record self.old { state = state })) }
        ensures value { result.now ≡ self.old.state }
    {
        &mut self.state
    }

    /// The state as it is, and the vector of the events that were not handed out, the next one
    /// last: of a turn that was run an empty one, whose room may be used again.
    pub fn into_parts(self) -> (S, Vec<(Event, Option<P>)>)
        ensures state { result.0 ≡ self.state }
        ensures left { reverse result.1.items ≡ self.events }
    {
        let Turn {
            colour: _,
            core: _,
            count: _,
            state,
            given: _,
            events,
        } = self;
        (state, events)
    }

    /// The state as it is. Events that were not handed out are dropped with the turn.
    pub fn into_state(self) -> S
    where
        P: Drop,
        ensures { result ≡ self.state }
    {
        let Turn {
            colour: _,
            core: _,
            count: _,
            state,
            given: _,
            events: _,
        } = self;
        state
    }
}
