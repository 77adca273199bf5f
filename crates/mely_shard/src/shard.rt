//! The colours of one shard as one plain value.
ghost use Rattle.std.specs.Prelude.{◌≡◌, ◌<◌, ◌≤◌, ◌+◌, ◌-◌, ◌/◌, ◌%◌, ◌^◌, ◌++◌, ◌∷◌, [], ℕ, List, Option, ◌≢◌, length, IfOk, IfErr, OnOk, OnErr, option_copied, IsTrue, ◌↔◌};

use crate::colour_slot::{ColourSlot, all_drained, slots_of, take_apart};
use crate::shard_room::ShardRoom;
use mely_event::{Colour, Event, Fits, Memory, Trail, Unregistered};
use mely_history::{After, Entry, History, NoSteal, NoTake, Registered, Setup, Stolen};
use mely_queue::Turn;
use std::alloc::Global;
use std::marker::Model;
use std::snapshot::Snapshot;

/// The colours of one shard: their queues, their states and their history, as one plain value.
///
/// Its four calls [`register`](Shard::register), [`take`](Shard::take), [`finish`](Shard::finish)
/// and [`steal`](Shard::steal) are the four entries of a legal history, one each: a call appends
/// the entry that is allowed, or is refused and changes nothing but spare room. Contracts see a
/// shard as its setup, its number, its history, and a lane for each of its colours: the state where
/// it is at home, the state that was given at first, and the queued events with their loads. The
/// type keeps that the history is legal and that the lanes are what it says. A call takes constant
/// time in the number of colours and in the length of the history, but for growth.
///
/// Beside this contracts see its spare: for how many entries more the history has room, beside
/// those that finish the turns that are out, whose room is made at the take.
/// [`reserve`](Shard::reserve) raises it; a registration and a steal lower it by one at most, a
/// take by two at most (its own entry, and that of its finish), a finish and a refused call not at
/// all. The entries, those that finish the turns that are out and the spare are never more than
/// [`MAX_ENTRIES`](mely_history::MAX_ENTRIES) where the history is listed. Where it isn't they are
/// never more than [`MAX_NOTES`](mely_history::MAX_NOTES), and the history takes no memory.
#[derive(Drop)]
pub struct Shard<S: Fits<P>, P> {
    setup: Setup,
    shard: u16,
    slots: Vec<ColourSlot<S, P>>,
    alloc: Global,

    /// Empty lists with room for what [`into_parts`](Shard::into_parts) hands out.
    states: Vec<S>,
    queues: Vec<Vec<(Event, Option<P>)>>,

    /// Never read. The fields above stay as [`new`](Shard::new) made them, those below change at
    /// each call: with both on one line of memory, a core's call would take the fixed ones from the
    /// other cores (false sharing).
    apart: [u64; 8],
    history: History,
    running: u64,

    /// The vector of the turn that was finished last, empty, whose room the next turn uses.
    emptied: Vec<(Event, Option<P>)>,

    /// Never read. With it no other core's data stands on the line of the fields that change.
    behind: [u64; 8],
}

impl<S: Fits<P>, P> Model for Shard<S, P> {
    ghost use Rattle.mely_shard.specs.Shard.{ShardState};

    ghost Value = { ShardState S P };

    ghost use Rattle.std.specs.Prelude.{map, length, vec_len, vec_capacity, ◌≡◌, ◌+◌, ◌-◌, []};
    ghost use Rattle.mely_history.specs.Setup.{is_listed};
    ghost use Rattle.mely_shard.specs.Invariant.{lane_of, IsConsistentShard, HasRoom};

    ghost view = { λ s. record {
      setup = s.setup;
      shard = s.shard;
      history = s.history.items;
      lanes = map lane_of s.slots.items;
      spare = s.history.most - (length s.history.items + s.running);
    } };

    ghost invariant = { λ s.
        IsConsistentShard S.Trail S.fits_under s.setup s.shard s.history.items s.slots.items
        s.running s.history.most
        × HasRoom (vec_len s.states) (vec_capacity s.states) (vec_len s.queues)
        (vec_capacity s.queues) (length s.slots.items) × (s.emptied.items ≡ [])
        × (s.history.listed ≡ is_listed s.setup) };
}

impl<S: Fits<P>, P> Shard<S, P> {
    ghost use Rattle.mely_shard.specs.Shard.{ShardState, IsOwn, lane_at, Registers, RegisteredAs, KeepsAllButSpare, Takes, NoTakeAs, Finishes, AfterAs, TurnStands, IsConsistent, ReadyAs, Steals, NoStealAs, AreInitialStates, IsInitialShard, KeepsFrame, StandsOnce};
    ghost use Rattle.mely_history.specs.Setup.{shape_of, is_listed};
    ghost use Rattle.mely_event.specs.declared.colour.Colour.{Colour};
    ghost use Rattle.std.specs.Prelude.{map, Some};
    ghost use Rattle.mely_history.specs.Legal.{MayRegister, IsDrained};
    ghost use Rattle.mely_history.specs.History.{IsRunning};

    /// A shard at first, in which nothing was registered. There is a state for each colour `c` of
    /// the setup with `c % shards == shard`, in ascending order, each with an empty trail, all with
    /// one frame. Beside the states it takes memory for the colours and for what
    /// [`into_parts`](Shard::into_parts) hands out.
    ///
    /// # Errors
    ///
    /// `Memory`: the states are dropped. Whoever wants to keep them makes the room first, and then
    /// the shard in it: [`in_room`](Shard::in_room).
    pub fn new(
        alloc: Global,
        setup: &Setup,
        shard: u16,
        states: Vec<S>,
    ) -> Result<Shard<S, P>, Memory>
    where
        S: Drop,
        P: Drop,
        requires numbered { shard < (shape_of setup.now).shards }
        requires first { AreInitialStates S.Trail setup.now shard states.items }
        ensures made { IfOk result (λ made. IsInitialShard setup.now shard states.items made) }
        ensures kept { IfOk result (λ made. IsConsistent S.Trail S.fits_under made) }
    {
        let room = ShardRoom::new(alloc, states.len())?;
        Ok(Shard::in_room(room, setup, shard, states))
    }

    /// What [`new`](Shard::new) makes, in room that was made beforehand for at least as many
    /// colours as there are states. It takes no memory.
    pub fn in_room(room: ShardRoom<S, P>, setup: &Setup, shard: u16, states: Vec<S>) -> Shard<S, P>
    where
        S: Drop,
        P: Drop,
        requires numbered { shard < (shape_of setup.now).shards }
        requires first { AreInitialStates S.Trail setup.now shard states.items }
        requires room { length states.items ≤ room.colours }
        ensures made { IsInitialShard setup.now shard states.items result }
        ensures kept { IsConsistent S.Trail S.fits_under result }
    {
        let ShardRoom {
            alloc,
            colours: _,
            slots,
            states: homes,
            queues,
        } = room;
        let slots = slots_of(alloc, setup, shard, states, slots);
        Shard {
            setup: *setup,
            shard,
            slots,
            alloc,
            states: homes,
            queues,
            apart: [0; 8],
            history: History::new(alloc, setup.is_listed()),
            running: 0,
            emptied: Vec::new(alloc),
            behind: [0; 8],
        }
    }

    /// The history, and the states and the queued events by colour, in the order of the colours. It
    /// takes no memory.
    pub fn into_parts(self) -> (History, Vec<S>, Vec<Vec<(Event, Option<P>)>>)
    where
        S: Drop,
        P: Drop,
        requires { (c : Colour) → IsOwn self c → ¬ IsRunning self.history c }
        ensures history { result.0.items ≡ self.history }
        ensures listed { result.0.listed ≡ is_listed self.setup }
        ensures states { map (λ state. Some state) result.1.items
            ≡ map (λ lane. lane.state) self.lanes }
        ensures queues { map (λ queue. queue.items) result.2.items
            ≡ map (λ lane. lane.events) self.lanes }
    {
        let Shard {
            history,
            slots,
            mut states,
            mut queues,
            ..
        } = self;
        take_apart(slots, &mut states, &mut queues);
        (history, states, queues)
    }

    /// Whether no colour of the shard runs and nothing is queued. It takes no memory, and time
    /// linear in the number of the shard's colours.
    pub fn is_drained(&self) -> bool
        ensures { IsTrue result ↔ IsDrained self.now.history }
    {
        all_drained(&self.slots)
    }

    /// The history so far, whose entries can be read where the setup lists them.
    pub fn history(&self) -> &History
        ensures value { result.now.items ≡ self.now.history }
        ensures listed { result.now.listed ≡ is_listed self.now.setup }
        ensures kept { IsConsistent S.Trail S.fits_under self.now }
    {
        &self.history
    }

    /// Registers an event behind the others of its colour, by the pass of the number `by`.
    ///
    /// # Errors
    ///
    /// There was no memory, or the history is at its limit: the event and its load are handed back,
    /// and the shard is as it was, but for a greater spare.
    // Inlined, its answer isn't written out for the caller to read again.
    #[inline(always)]
    pub fn register(
        &mut self,
        colour: Colour,
        event: Event,
        load: Option<P>,
        by: u16,
    ) -> Result<Registered, Unregistered<P>>
        requires own { IsOwn self.old colour }
        requires may { MayRegister self.old.setup colour event }
        requires fit { (lane : _) → lane_at self.old colour ≡ Some lane
            → S.fits_under (S.frame_of lane.given) colour event load }
        ensures ok { IfOk result (λ _. Registers self.old self.new colour event load by) }
        ensures reply { IfOk result (λ reply.
            RegisteredAs self.old.setup self.old.history self.new.history colour reply) }
        ensures err { OnErr result (KeepsAllButSpare self.old self.new) }
        ensures spare_left { self.old.spare ≤ self.new.spare + 1 }
        ensures spare_stays { OnErr result (self.old.spare ≤ self.new.spare) }
        ensures back { IfErr result (λ refused. (refused.event ≡ event) × (refused.load ≡ load)) }
        ensures kept { IsConsistent S.Trail S.fits_under self.new }
        ensures frame { KeepsFrame self.old self.new }
    {
        let Ok(()) = self.history.reserve(self.running + 1) else {
            return Err(Unregistered { event, load });
        };
        let weight = self.setup.handlers().weight(event.handler);
        let place = self.setup.place_of(colour);
        let reply = self.slots[place].register(event, load, weight)?;
        self.history.push(Entry::Reg { colour, event, by });
        Ok(reply)
    }

    /// Moves the state of a colour and its first events out, as many as the batch of the
    /// setup or all that are queued. It makes room for the entry of its finish.
    ///
    /// # Errors
    ///
    /// The first of these that applies: `Elsewhere`, the core is not the colour's owner; `Busy`, it
    /// runs; `Empty`, nothing is queued; `Memory`, there was none, or the history is at its limit.
    /// The shard is then as it was, but for a greater spare.
    pub fn take(&mut self, colour: Colour, core: u16) -> Result<Turn<S, P>, NoTake>
        requires own { IsOwn self.old colour }
        ensures ok { IfOk result (λ turn. Takes self.old self.new colour core turn) }
        ensures stands { IfOk result (λ turn. TurnStands S.Trail S.fits_under self.new turn) }
        ensures err { OnErr result (KeepsAllButSpare self.old self.new) }
        ensures spare_left { self.old.spare ≤ self.new.spare + 2 }
        ensures spare_stays { OnErr result (self.old.spare ≤ self.new.spare) }
        ensures refusal { IfErr result (λ refusal.
            NoTakeAs self.old.setup self.old.history colour core refusal) }
        ensures kept { IsConsistent S.Trail S.fits_under self.new }
        ensures frame { KeepsFrame self.old self.new }
    {
        let place = self.setup.place_of(colour);
        let slot = &mut self.slots[place];
        if let Some(refusal) = slot.no_take(core) {
            return Err(refusal);
        }
        let Ok(()) = self.history.reserve(self.running + 2) else {
            return Err(NoTake::Memory);
        };
        let batch = self.setup.batch();
        let Ok(turn) = slot.take(colour, core, batch, &mut self.emptied, self.alloc) else {
            return Err(NoTake::Memory);
        };
        let count = turn.count();
        self.history.push(Entry::Take {
            colour,
            core,
            count,
        });
        self.running += 1;
        Ok(turn)
    }

    /// Takes the state of a turn home, with the events that were run joined to its trail, and
    /// answers what is left of the colour. It takes no memory.
    pub fn finish(&mut self, turn: Turn<S, P>) -> After
    where
        S: Drop,
        P: Drop,
        requires own { IsOwn self.old turn.colour }
        requires spent { turn.events ≡ [] }
        requires stands { TurnStands S.Trail S.fits_under self.old turn }
        ensures home { Finishes self.old self.new turn }
        ensures reply { AfterAs self.old.setup self.new.history turn.colour result }
        ensures spare_stays { self.new.spare ≡ self.old.spare }
        ensures kept { IsConsistent S.Trail S.fits_under self.new }
        ensures frame { KeepsFrame self.old self.new }
    {
        let colour = turn.colour();
        let core = turn.core();
        let count = turn.count();
        let place = self.setup.place_of(colour);
        self.history.push(Entry::Fin {
            colour,
            core,
            count,
        });
        self.running -= 1;
        let (state, emptied) = turn.into_parts();
        self.emptied = emptied;
        self.slots[place].finish(count, state)
    }

    /// Makes the spare of the history at least this many entries, beside
    /// the room for running turns.
    ///
    /// # Errors
    ///
    /// There was no memory, or so many are over the limit: the spare is not lower than before.
    pub fn reserve(&mut self, entries: usize) -> Result<(), Memory>
        ensures ok { OnOk result (entries ≤ self.new.spare) }
        ensures not_lower { self.old.spare ≤ self.new.spare }
        ensures contents { KeepsAllButSpare self.old self.new }
        ensures kept { IsConsistent S.Trail S.fits_under self.new }
        ensures frame { KeepsFrame self.old self.new }
    {
        let entries = entries as u64;
        if entries > u64::MAX - self.running {
            return Err(Memory);
        }
        self.history.reserve(self.running + entries)
    }

    /// The state of a colour, where it does not run.
    pub fn state(&self, colour: Colour) -> Option<&S>
        requires { IsOwn self.now colour }
        ensures { (lane : _) → lane_at self.now colour ≡ Some lane
            → option_copied result ≡ lane.state }
    {
        let place = self.setup.place_of(colour);
        self.slots[place].home.as_ref()
    }

    /// The owner, how many events were started, and the worth of a colour that is ready.
    pub fn ready(&self, colour: Colour) -> Option<(u16, u64, u128)>
        requires { IsOwn self.now colour }
        ensures { ReadyAs self.now.setup self.now.history colour result }
    {
        let place = self.setup.place_of(colour);
        self.slots[place].ready()
    }

    /// Moves a colour with all that is queued to another core.
    ///
    /// # Errors
    ///
    /// The first of these that applies: `Pinned`, the colour is one of the setup's pinned
    /// ones; `Own`, the thief owns it already; `Busy`, it runs; `Empty`, nothing is queued;
    /// `Cheap`, its time left is not over the steal cost; `Memory`, there was none, or the
    /// history is at its limit, and never where the spare is at least 1. The shard is then as
    /// it was, but for a greater spare.
    pub fn steal(&mut self, colour: Colour, to: u16) -> Result<Stolen, NoSteal>
        requires own { IsOwn self.old colour }
        requires core { to < (shape_of self.old.setup).cores }
        ensures ok { IfOk result (λ stolen. Steals self.old self.new colour to stolen) }
        ensures err { OnErr result (KeepsAllButSpare self.old self.new) }
        ensures refusal { IfErr result (λ refusal.
            NoStealAs self.old.setup self.old.history colour to refusal) }
        ensures spare { 1 ≤ self.old.spare → IfErr result (λ refusal. refusal ≢ NoSteal.Memory) }
        ensures spare_left { self.old.spare ≤ self.new.spare + 1 }
        ensures spare_stays { OnErr result (self.old.spare ≤ self.new.spare) }
        ensures kept { IsConsistent S.Trail S.fits_under self.new }
        ensures frame { KeepsFrame self.old self.new }
    {
        if u32::from(colour.0) < self.setup.pinned() {
            return Err(NoSteal::Pinned { colour });
        }
        let place = self.setup.place_of(colour);
        let slot = &mut self.slots[place];
        if let Some(refusal) = slot.no_steal(to, self.setup.steal_cost()) {
            return Err(refusal);
        }
        let Ok(()) = self.history.reserve(self.running + 1) else {
            return Err(NoSteal::Memory);
        };
        let stolen = slot.steal(to);
        let from = stolen.from;
        self.history.push(Entry::Steal { colour, from, to });
        Ok(stolen)
    }

    /// The law of this type, for contracts alone: whatever calls were made on a shard, refused or
    /// not, each event that was registered on a colour is, once, among those that were run, those
    /// of the turn that is out, or those that are queued with their loads. A call does nothing.
    pub fn events_stand_once(&self)
        ensures { (c : Colour) (lane : _) → IsOwn self.now c → lane_at self.now c ≡ Some lane
            → StandsOnce self.now c lane }
    {
        let _history = self.history();
    }
}
