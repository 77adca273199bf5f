//! A state that adds up what was run, and an app over it that is its own gate.
ghost use Rattle.std.specs.Prelude.{◌≡◌, ◌≤◌, ◌++◌, ◌∷◌, [], length};
ghost use Rattle.std.specs.List.{AllByRecursion};
ghost use Rattle.mely_worker.specs.Access.{FitsIn};

use mely_event::{Colour, Event, Logged};
use mely_worker::{App, Gate, Outs};
use std::cell::Cell;

/// How many events were run, and the sum of their loads.
#[derive(Clone, Copy, Drop)]
pub(super) struct Sums {
    pub(super) events: usize,
    pub(super) loads: u64,
}

/// A state that adds up what was run.
pub(super) type Ledger = Logged<Sums>;

/// What handler 1 registers.
pub(super) const NOTE: Event = Event { handler: 0, arg: 9 };

/// Who passed the gate before a handler, and how many events its state had run by then.
#[derive(Clone, Copy, PartialEq, Eq)]
pub(super) struct Pass {
    pub(super) core: u16,
    pub(super) colour: Colour,
    pub(super) event: Event,
    pub(super) ran: usize,
}

/// Handler 0 registers nothing. Handler 1 registers handler 0 on colour 0, with the load, and on
/// colour 1, without. As a gate it notes the first three that pass.
#[derive(Drop)]
pub(super) struct Forwarding {
    ran: Cell<usize>,
    passes: Cell<usize>,
    seen: Cell<[Option<Pass>; 3]>,
}

impl Forwarding {
    pub(super) fn new() -> Forwarding {
        Forwarding {
            ran: Cell::new(0),
            passes: Cell::new(0),
            seen: Cell::new([None; 3]),
        }
    }

    /// Those that passed, the first one first.
    pub(super) fn seen(&self) -> [Option<Pass>; 3] {
        self.seen.get()
    }
}

impl App for Forwarding {
    type Load = u8;

    type State = Ledger;

    ghost colours_of = { λ app. 2 };

    ghost handlers_of = { λ app. 2 };

    ghost serves = { λ app frame. Unit {0} };

    ghost runs = { λ app before event load after puts. Unit {0} };

    fn run(&self, state: &mut Ledger, event: Event, load: Option<u8>, outs: &mut Outs<u8>)
        requires empty { outs.old ≡ [] }
        ensures ran { Unit {0} }
        ensures colour { state.new.log.colour ≡ state.old.log.colour }
        ensures frame { Unit {0} }
        ensures trail { state.new.log.events ≡ state.old.log.events ++ event ∷ [] }
        ensures puts { AllByRecursion (FitsIn 2 2 (λ colour event load. Unit {0})) outs.new }
        ensures few { length outs.new ≤ 2 }
    {
        state.log.push(event);
        let sums = &mut state.value;
        sums.events = sums.events.wrapping_add(1);
        sums.loads = sums.loads.wrapping_add(u64::from(load.unwrap_or(0)));
        self.ran.set(sums.events);
        if event.handler == 1 {
            outs.put(Colour(0), NOTE, load);
            outs.put(Colour(1), NOTE, None);
        }
    }
}

impl Gate for Forwarding {
    ghost passes = { λ gate core colour event. Unit {0} };

    fn pass(&self, core: u16, colour: Colour, event: Event) {
        let mut seen = self.seen.get();
        let place = self.passes.get();
        if place < 3 {
            seen[place] = Some(Pass {
                core,
                colour,
                event,
                ran: self.ran.get(),
            });
            self.seen.set(seen);
            self.passes.set(place + 1);
        }
    }
}
