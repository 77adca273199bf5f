//! One colour of a shard: its queue, its owner, and its state where it is at home.
ghost use Rattle.std.specs.Prelude.{◌≡◌, ◌<◌, ◌≤◌, ◌+◌, ◌^◌, ◌-◌, [], None, Some, IfOk, IfErr, OnOk, OnErr, length, nat_lt, IsSomeAnd, map};
ghost use Rattle.std.specs.Prelude.{◌++◌, ◌≢◌, ℕ, IsSome, slice_get, vec_len, vec_capacity};
ghost use Rattle.mely_history.specs.Setup.{shape_of, colours_of};
ghost use Rattle.mely_shard.specs.Invariant.{IsInitialSlot, AreInitialSlots, AreAtHome};
ghost use Rattle.mely_shard.specs.Shard.{colour_at};
ghost use Rattle.mely_shard.specs.Replies.{slot_is_drained};
ghost use Rattle.std.specs.List.{list_all};
ghost use Rattle.mely_queue.specs.ColourQueue.{registered_in, after_push};

use mely_event::{Colour, Event, Fits, Memory, Trail, Unregistered};
use mely_history::{After, NoSteal, NoTake, Registered, Setup, Stolen};
use mely_queue::{ColourQueue, Turn};
use std::alloc::Global;
use std::mem;
use std::snapshot::Snapshot;

/// One colour of a shard. The state is at home where the colour does not run.
#[derive(Drop)]
pub(crate) struct ColourSlot<S, P> {
    pub(crate) queue: ColourQueue<P>,
    pub(crate) home: Option<S>,
    pub(crate) given: Snapshot<S>,
    pub(crate) owner: u16,
    pub(crate) core: u16,
    pub(crate) count: u16,
}

impl<S, P> ColourSlot<S, P> {
    ghost use Rattle.mely_shard.specs.Replies.{reply_of, no_take_of, after_of, no_steal_of};
    ghost use Rattle.mely_shard.specs.Replies.{ready_of, stolen_of};
    ghost use Rattle.mely_queue.specs.ColourQueue.{finished_by};

    /// Adds an event at the back, and answers what a registration found.
    #[inline(always)]
    pub(crate) fn register(
        &mut self,
        event: Event,
        load: Option<P>,
        weight: u32,
    ) -> Result<Registered, Unregistered<P>>
        requires { registered_in self.old.queue < 2 ^ 64 - 1 }
        ensures ok { OnOk result (self.new
            ≡ record self.old { queue = after_push self.old.queue event load weight }) }
        ensures reply { IfOk result (λ reply. reply
            ≡ reply_of self.new (nat_lt 0 (length self.old.queue.events))) }
        ensures err { OnErr result (self.new ≡ self.old) }
        ensures back { IfErr result (λ refused. (refused.event ≡ event) × (refused.load ≡ load)) }
    {
        let waited = self.queue.len() > 0;
        self.queue.push(event, load, weight)?;
        Ok(self.reply(waited))
    }

    fn reply(&self, waited: bool) -> Registered
        ensures { result ≡ reply_of self.now waited }
    {
        if self.home.is_none() {
            return Registered::Running { core: self.core };
        }
        let owner = self.owner;
        let started = self.queue.started();
        let worth = self.queue.time_left();
        if waited {
            Registered::Told {
                owner,
                started,
                worth,
            }
        } else {
            Registered::Woke {
                owner,
                started,
                worth,
            }
        }
    }

    /// Why a core may not take the colour, memory aside.
    pub(crate) fn no_take(&self, core: u16) -> Option<NoTake>
        ensures { result ≡ no_take_of self.now core }
    {
        if core != self.owner {
            return Some(NoTake::Elsewhere { owner: self.owner });
        }
        if self.home.is_none() {
            return Some(NoTake::Busy { core: self.core });
        }
        if self.queue.len() > 0 {
            None
        } else {
            Some(NoTake::Empty {
                registered: self.queue.registered(),
            })
        }
    }

    /// Why a core may not steal the colour, memory aside.
    pub(crate) fn no_steal(&self, to: u16, cost: u32) -> Option<NoSteal>
        ensures { result ≡ no_steal_of self.now to cost }
    {
        if to == self.owner {
            return Some(NoSteal::Own);
        }
        if self.home.is_none() {
            return Some(NoSteal::Busy { core: self.core });
        }
        if self.queue.len() == 0 {
            return Some(NoSteal::Empty {
                registered: self.queue.registered(),
            });
        }
        let worth = self.queue.time_left();
        if worth <= u128::from(cost) {
            Some(NoSteal::Cheap { worth })
        } else {
            None
        }
    }

    /// Whether the colour rests with nothing queued.
    pub(crate) fn is_drained(&self) -> bool
        ensures { result ≡ slot_is_drained self.now }
    {
        self.home.is_some() && self.queue.len() == 0
    }

    /// What is told of a ready colour.
    pub(crate) fn ready(&self) -> Option<(u16, u64, u128)>
        ensures { result ≡ ready_of self.now }
    {
        if self.home.is_some() && self.queue.len() > 0 {
            Some((self.owner, self.queue.started(), self.queue.time_left()))
        } else {
            None
        }
    }

    /// Takes the state home, and counts as finished.
    pub(crate) fn finish(&mut self, count: u16, state: S) -> After
    where
        S: Drop,
        requires { self.old.queue.finished + count ≤ self.old.queue.started }
        ensures slot { self.new
            ≡ record self.old { queue = finished_by self.old.queue count; home = Some state } }
        ensures reply { result ≡ after_of self.old }
    {
        self.queue.finish(count);
        self.home = Some(state);
        if self.queue.len() > 0 {
            After::More {
                started: self.queue.started(),
                worth: self.queue.time_left(),
            }
        } else {
            After::Idle
        }
    }

    /// Changes the owner, and answers what is told of a steal.
    pub(crate) fn steal(&mut self, to: u16) -> Stolen
        ensures slot { self.new ≡ record self.old { owner = to } }
        ensures reply { result ≡ stolen_of self.old }
    {
        let from = self.owner;
        self.owner = to;
        Stolen {
            from,
            started: self.queue.started(),
            worth: self.queue.time_left(),
        }
    }
}

impl<S: Fits<P>, P> ColourSlot<S, P> {
    ghost use Rattle.mely_shard.specs.Replies.{SlotTakes};
    ghost use Rattle.mely_queue.specs.Turn.{EachFits};

    /// Moves the state and the first events out, these in the emptied vector, in whose
    /// place a new one is left.
    pub(crate) fn take(
        &mut self,
        colour: Colour,
        core: u16,
        batch: u16,
        emptied: &mut Vec<(Event, Option<P>)>,
        alloc: Global,
    ) -> Result<Turn<S, P>, Memory>
        requires emptied { emptied.old.items ≡ [] }
        requires home { IsSomeAnd self.old.home (λ state. (S.colour_of state ≡ colour)
            × (S.frame_of state ≡ S.frame_of self.old.given.value)) }
        requires batch { (1 ≤ batch) × (batch ≤ 1000) }
        requires waiting { 0 < length self.old.queue.events }
        requires fit { EachFits (S.fits_under (S.frame_of self.old.given.value) colour)
            self.old.queue.events }
        ensures ok { IfOk result (λ turn.
            SlotTakes self.old self.new colour core batch turn) }
        ensures err { OnErr result (self.new ≡ self.old) }
        ensures emptied { emptied.new.items ≡ [] }
    {
        let count = (batch as usize).min(self.queue.len());
        self.queue.take_into(batch, emptied)?;
        let events = mem::replace(emptied, Vec::new(alloc));
        let Some(state) = self.home.take() else {
            unreachable!()
        };
        self.core = core;
        self.count = count as u16;
        Ok(Turn::new(colour, core, state, events))
    }
}

/// A slot at first: nothing was registered, and the state is at home on the core that the colour
/// begins on.
fn initial_slot<S, P>(alloc: Global, setup: &Setup, colour: u32, state: S) -> ColourSlot<S, P>
    ensures { IsInitialSlot setup.now colour state result }
{
    let given = Snapshot::of(&state);
    ColourSlot {
        queue: ColourQueue::new(alloc),
        home: Some(state),
        given,
        owner: (colour % u32::from(setup.cores())) as u16,
        core: 0,
        count: 0,
    }
}

/// A slot for each state, of the colours of a shard in ascending order, in the emptied list, which
/// has room for them.
pub(crate) fn slots_of<S: Drop, P: Drop>(
    alloc: Global,
    setup: &Setup,
    shard: u16,
    states: Vec<S>,
    emptied: Vec<ColourSlot<S, P>>,
) -> Vec<ColourSlot<S, P>>
    requires numbered { shard < (shape_of setup.now).shards }
    requires few { (i : ℕ) → i < length states.items → (colour_at setup.now shard i).0
        < colours_of setup.now }
    requires emptied { emptied.items ≡ [] }
    requires reserved { length states.items ≤ vec_capacity emptied }
    ensures many { length result.items ≡ length states.items }
    ensures first { AreInitialSlots setup.now shard states.items result.items }
{
    let mut slots = emptied;
    let mut colour = u32::from(shard);
    for state in states {
        slots.push_reserved(initial_slot(alloc, setup, colour, state));
        colour += u32::from(setup.shards());
    }
    slots
}

/// Whether each slot rests with nothing queued.
pub(crate) fn all_drained<S, P>(slots: &[ColourSlot<S, P>]) -> bool
    ensures { result ≡ list_all slot_is_drained slots.now }
{
    slots.iter().all(|slot| slot.is_drained())
}

/// Moves the states and the queued events out of slots whose states are all at home, into lists
/// that have room for them.
pub(crate) fn take_apart<S: Drop, P: Drop>(
    slots: Vec<ColourSlot<S, P>>,
    states: &mut Vec<S>,
    queues: &mut Vec<Vec<(Event, Option<P>)>>,
)
    requires at_home { AreAtHome slots.items }
    requires states { vec_len states.old + length slots.items ≤ vec_capacity states.old }
    requires queues { vec_len queues.old + length slots.items ≤ vec_capacity queues.old }
    ensures states { map (λ state. Some state) states.new.items
        ≡ map (λ state. Some state) states.old.items ++ map (λ slot. slot.home) slots.items }
    ensures queues { map (λ queue. queue.items) queues.new.items
        ≡ map (λ queue. queue.items) queues.old.items ++ map (λ slot.
        slot.queue.events) slots.items }
{
    for slot in slots {
        let ColourSlot { queue, home, .. } = slot;
        let Some(state) = home else { unreachable!() };
        states.push_reserved(state);
        queues.push_reserved(queue.into_events());
    }
}
