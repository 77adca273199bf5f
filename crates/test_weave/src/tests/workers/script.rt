//! An access whose answers are given beforehand.
ghost use Rattle.std.specs.Prelude.{◌≡◌, ◌≤◌, ◌<◌, ◌-◌, ◌∷◌, [], Some, None, Result, Option, MatchResult, IfOk, IfSome, IsTrue, length, vec_len, vec_capacity};
ghost use Rattle.mely_history.specs.Setup.{shape_of, colours_of};

use super::ledger::{Ledger, Sums};
use mely_event::{Colour, Event, Logged, Mark, There, Trail, TrailLog, Unregistered};
use mely_history::{After, NoSteal, NoTake, Registered, Setup, Stolen};
use mely_queue::Turn;
use mely_worker::Access;
use std::alloc::Global;

/// A call that a worker is to make, and the answer that it is given.
#[derive(Clone, Copy)]
pub(super) enum Call {
    /// Without an answer there is no memory.
    Register(Colour, Event, Option<u8>, Option<Registered>),

    /// Without a refusal a turn of two events is taken.
    Take(Colour, Option<NoTake>),

    /// The sum of the loads that were run comes with the state.
    Finish(Colour, u64, After),
    Steal(Colour, Result<Stolen, NoSteal>),
    Push(u16, Mark),
    Pop(Option<Mark>),
    Retell(u16, Colour, u64, u128, bool),
    Pick(u16, Option<Mark>),
}

/// The access of core 0 in a setup with batch 2, which notes whether a call isn't
/// the one that is to be made.
#[derive(Drop)]
pub(super) struct Script {
    pub(super) alloc: Global,
    pub(super) setup: Setup,
    pub(super) calls: Vec<Call>,
    pub(super) made: usize,
    pub(super) astray: bool,
    ghost batch: { (shape_of setup).batch ≡ 2 },
}

impl Script {
    /// The call that is to be made now.
    fn next(&mut self) -> Option<Call>
        ensures { self.new ≡ record self.old { made = self.new.made } }
    {
        let call = self.calls.get(self.made).copied();
        self.made = self.made.saturating_add(1);
        call
    }

    /// Whether all calls were made, and no other.
    pub(super) fn is_done(&self) -> bool {
        !self.astray && self.made == self.calls.len()
    }

    fn has_colour(&self, colour: Colour) -> bool
        ensures { IsTrue result → colour.0 < colours_of self.now.setup }
    {
        u32::from(colour.0) < self.setup.colours()
    }

    /// The mark, where it is of a colour of the setup.
    fn marked(&self, mark: Option<Mark>) -> Option<Mark>
        ensures { IfSome result (λ mark. mark.colour.0 < colours_of self.now.setup) }
    {
        match mark {
            Some(mark) if self.has_colour(mark.colour) => Some(mark),
            _ => None,
        }
    }
}

/// A turn of an event of handler 1 with load 7, and one of handler 0 without.
fn turn_of(alloc: Global, colour: Colour) -> Option<Turn<Ledger, u8>>
    ensures colour { IfSome result (λ turn. turn.colour ≡ colour) }
    ensures core { IfSome result (λ turn. turn.core ≡ 0) }
    ensures count { IfSome result (λ turn. turn.count ≡ 2) }
    ensures events { IfSome result (λ turn. turn.events ≡ (record { handler = 1; arg = 5 }, Some 7)
        ∷ (record { handler = 0; arg = 6 }, None) ∷ []) }
    ensures of_colour { IfSome result (λ turn. turn.state.log.colour ≡ colour) }
{
    let state = Logged {
        log: TrailLog::new(colour),
        value: Sums {
            events: 0,
            loads: 0,
        },
    };
    let mut events = Vec::new(alloc);
    let first = (Event { handler: 1, arg: 5 }, Some(7));
    let second = (Event { handler: 0, arg: 6 }, None);
    if events.push(first).is_err() || events.push(second).is_err() {
        return None;
    }
    Some(Turn::new(colour, 0, state, events))
}

impl Access<Ledger, u8> for Script {
    ghost use Rattle.mely_worker.specs.Access.{Stays, NamesCore, GivesBack};
    ghost use Rattle.test_weave.specs.declared.tests.workers.script.Script.{Script};

    ghost setup_of = { λ a. a.setup };

    ghost core_of = { λ a. 0 };

    ghost frame_of = { λ a. tt };

    ghost owes = { λ a c core count trail. Unit {0} };

    ghost keeps = { λ a b. Unit {0} };

    ghost registers = { λ a c event load answer b. Unit {0} };

    ghost takes = { λ a c answer b. Unit {0} };

    ghost finishes = { λ a turn answer b. Unit {0} };

    ghost steals = { λ a c answer b. Unit {0} };

    ghost pushes = { λ a core mark answer b. Unit {0} };

    ghost pops = { λ a answer b. Unit {0} };

    ghost retells = { λ a core c started worth found b. Unit {0} };

    ghost picks = { λ a core answer b. Unit {0} };

    fn core(&self) -> u16 {
        0
    }

    fn register(
        &mut self,
        colour: Colour,
        event: Event,
        load: Option<u8>,
    ) -> Result<Registered, Unregistered<u8>>
        ensures called { Unit {0} }
        ensures answer { MatchResult result (NamesCore self.old.setup) (GivesBack event load) }
        ensures stays { Stays {F = Unit {0}} (λ (a : Script). a.setup) (λ a. 0) (λ a.
            tt) self.old self.new }
        ensures kept { Unit {0} }
        ensures owed { Unit {0} }
    {
        match self.next() {
            Some(Call::Register(c, e, l, answer)) if c == colour && e == event && l == load => {
                match answer {
                    Some(Registered::Woke { owner, .. }) if owner >= self.setup.cores() => {}
                    Some(Registered::Told { owner, .. }) if owner >= self.setup.cores() => {}
                    Some(answer) => return Ok(answer),
                    None => {}
                }
            }
            _ => self.astray = true,
        }
        Err(Unregistered { event, load })
    }

    fn take(&mut self, colour: Colour) -> Result<Turn<Ledger, u8>, NoTake> {
        match self.next() {
            Some(Call::Take(c, Some(why))) if c == colour => Err(why),
            Some(Call::Take(c, None)) if c == colour => match turn_of(self.alloc, colour) {
                Some(turn) => Ok(turn),
                None => Err(NoTake::Memory),
            },
            _ => {
                self.astray = true;
                Err(NoTake::Memory)
            }
        }
    }

    fn finish(&mut self, turn: Turn<Ledger, u8>) -> After
        ensures called { Unit {0} }
        ensures stays { Stays {F = Unit {0}} (λ (a : Script). a.setup) (λ a. 0) (λ a.
            tt) self.old self.new }
        ensures kept { Unit {0} }
    {
        let state = turn.into_state();
        match self.next() {
            Some(Call::Finish(c, total, after))
                if c == state.log.colour()
                    && total == state.value.loads
                    && state.value.events == 2 => { after }
            _ => {
                self.astray = true;
                After::Idle
            }
        }
    }

    fn steal(&mut self, colour: Colour) -> Result<Stolen, NoSteal> {
        match self.next() {
            Some(Call::Steal(c, answer)) if c == colour => answer,
            _ => {
                self.astray = true;
                Err(NoSteal::Own)
            }
        }
    }

    fn push(&mut self, core: u16, mark: Mark) -> Result<(), There> {
        match self.next() {
            Some(Call::Push(k, m)) if k == core && m == mark => {}
            _ => self.astray = true,
        }
        Ok(())
    }

    fn pop(&mut self) -> Option<Mark> {
        match self.next() {
            Some(Call::Pop(mark)) => self.marked(mark),
            _ => {
                self.astray = true;
                None
            }
        }
    }

    fn retell(&mut self, core: u16, colour: Colour, started: u64, worth: u128) -> bool {
        match self.next() {
            Some(Call::Retell(k, c, s, w, found))
                if k == core && c == colour && s == started && w == worth => { found }
            _ => {
                self.astray = true;
                false
            }
        }
    }

    fn pick(&mut self, core: u16) -> Option<Mark> {
        match self.next() {
            Some(Call::Pick(victim, mark)) if victim == core => self.marked(mark),
            _ => {
                self.astray = true;
                None
            }
        }
    }

    ghost keeps_itself = { λ a. tt };
}
