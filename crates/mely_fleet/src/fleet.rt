//! All shards and chains behind their locks, and the calls on them.
ghost use Rattle.std.specs.Prelude.{◌≡◌, ◌<◌, ◌≤◌, ◌↔◌, [], length, IsTrue, IfSome, vec_capacity};
ghost use Rattle.mely_history.specs.Setup.{shape_of};
ghost use Rattle.mely_fleet.specs.Rows.{HavePasses};

use crate::passes::Passes;
use crate::side::Side;
use mely_bell::Bell;
use mely_event::{Colour, Event, Fits, Kept, Mark, Memory, There, Trail, Unregistered};
use mely_history::{After, NoSteal, NoTake, Registered, Setup, Stolen};
use mely_kept::{KeptShard, finish_at, look_at, register_at, reserve_at, steal_at, take_at};
use mely_kept_chain::{KeptChain, pick_at, pop_at, push_at, retell_at};
use mely_lock::Ticketed;
use mely_note::Stamp;
use mely_queue::Turn;
use mely_worker::Delivery;
use std::sync::Wait;

/// All shards and the chain of each core, each behind a lock of its own. `V` is what the
/// locks of the shards keep.
#[derive(Drop)]
pub struct FleetOf<V: Kept> {
    pub(crate) setup: Setup,

    /// How many callers there are, each with passes of its number.
    pub(crate) passes: u16,
    pub(crate) shards: Vec<Ticketed<V>>,
    pub(crate) chains: Vec<Ticketed<KeptChain>>,
    pub(crate) bell: Bell,
    ghost enough_passes: { (shape_of setup).cores ≤ passes },
    ghost a_lock_for_each_shard: { length shards.items ≡ (shape_of setup).shards },
    ghost a_lock_for_each_core: { length chains.items ≡ (shape_of setup).cores },
    ghost shards_dealt: { HavePasses passes shards.items },
    ghost chains_dealt: { HavePasses passes chains.items },
}

/// All shards and the chain of each core of a coloured-event runtime, each behind a lock of its
/// own, for callers in many threads.
///
/// A call is made with the [`Passes`] of its caller, which are made with the fleet. It goes into
/// the lock of one shard or of one chain, and holds none over a handler.
pub type Fleet<S, P> = FleetOf<KeptShard<S, P>>;

/// Whether a registration made its colour ready.
fn is_woken<P>(answer: &Result<Registered, Unregistered<P>>) -> bool {
    matches!(answer, Ok(Registered::Woke { .. }))
}

impl<S: Fits<P> + Drop, P: Drop> FleetOf<KeptShard<S, P>> {
    ghost use Rattle.mely_history.specs.Legal.{IsDrained};
    ghost use Rattle.mely_note.specs.Notes.{entries_of};
    ghost use Rattle.mely_worker.specs.Access.{IsColour, IsCore, FitsSetup};
    ghost use Rattle.mely_worker.specs.Delivery.{MayDeliver};
    ghost use Rattle.mely_weave.specs.Side.{shard_of};
    ghost use Rattle.mely_kept.specs.Calls.{RegistersAt, TakesAt, FinishesAt, StealsAt, LooksAt};
    ghost use Rattle.mely_fleet.specs.Calls.{front_in};
    ghost use Rattle.mely_kept_chain.specs.Chains.{PushesAt, PopsAt, RetellsAt, PicksAt};
    ghost use Rattle.mely_kept.specs.Frames.{shard_frame};
    ghost use Rattle.mely_fleet.specs.Rows.{fronts};
    ghost use Rattle.mely_fleet.specs.Fleets.{ArePasses, frame_in, given_in, KeepChains, KeepShards, ReachesOn, SeesOn, owed_by};
    ghost use Rattle.mely_fleet.specs.Posted.{HasDelivered, IsPosted};

    /// The place of the shard of a colour.
    fn place(&self, colour: Colour) -> usize
        ensures value { result ≡ shard_of self.now.setup colour }
        ensures within { result < length self.now.shards.items }
    {
        self.setup.shard_of(colour)
    }

    /// Registers an event behind the others of its colour. No chain is told: where that makes the
    /// colour ready no worker runs it, and [`work`](FleetOf::work) ends by giving up. A caller may
    /// take it, or close the fleet, which chains it. [`post`](FleetOf::post) delivers too.
    ///
    /// # Errors
    ///
    /// There was no memory: event and load are handed back.
    pub fn register<R: Wait>(
        &self,
        rt: &R,
        passes: &mut Passes<S, P>,
        colour: Colour,
        event: Event,
        load: Option<P>,
    ) -> Result<Registered, Unregistered<P>>
        requires passes { ArePasses (shard_frame S.frame_of) self.now passes.old }
        requires fits { let frame = frame_in (shard_frame S.frame_of) self.now in
            FitsSetup S.fits_under self.now.setup frame (colour, event, load) }
        ensures passes { ArePasses (shard_frame S.frame_of) self.now passes.new }
        ensures same { KeepChains passes.old passes.new }
        ensures sees { SeesOn self.now (shard_of self.now.setup colour) passes.old passes.new
            (λ setup n. RegistersAt setup n colour event load result) }
    {
        let place = self.place(colour);
        let known = Stamp::latest(passes);
        let answer = register_at(
            rt,
            &self.shards[place],
            &mut passes.shards[place],
            &known,
            colour,
            event,
            load,
        );
        self.bell.registered(passes.number, is_woken(&answer));
        answer
    }

    /// Moves the state of a colour and its first events out, for the core of these passes to run
    /// them: the events with the loads that they were registered with, and the state that the last
    /// finish brought home, or at first the one that was given.
    ///
    /// # Errors
    ///
    /// Why nothing was taken; `Memory` is the last cause.
    pub fn take<R: Wait>(
        &self,
        rt: &R,
        passes: &mut Passes<S, P>,
        colour: Colour,
    ) -> Result<Turn<S, P>, NoTake>
        requires passes { ArePasses (shard_frame S.frame_of) self.now passes.old }
        requires core { IsCore self.now.setup passes.old.number }
        requires colour { IsColour self.now.setup colour }
        ensures passes { ArePasses (shard_frame S.frame_of) self.now passes.new }
        ensures same { KeepChains passes.old passes.new }
        ensures sees { let frame = frame_in (shard_frame S.frame_of) self.now in
            let given = given_in (shard_frame S.frame_of) self.now colour in
            SeesOn self.now (shard_of self.now.setup colour) passes.old passes.new
            (λ setup n. TakesAt S.Trail S.fits_under setup frame given n colour result) }
    {
        let place = self.place(colour);
        let known = Stamp::latest(passes);
        take_at(
            rt,
            &self.shards[place],
            &mut passes.shards[place],
            &known,
            colour,
        )
    }

    /// Takes the state of a turn home, all of whose events were run. Of the entries of
    /// these passes on its colour the last one that is no registration is the take of this
    /// turn. It takes no memory. Where more is queued no chain is told, as after
    /// [`register`](FleetOf::register).
    pub fn finish<R: Wait>(&self, rt: &R, passes: &mut Passes<S, P>, turn: Turn<S, P>) -> After
        requires passes { ArePasses (shard_frame S.frame_of) self.now passes.old }
        requires colour { IsColour self.now.setup turn.colour }
        requires spent { turn.events ≡ [] }
        requires owed { let trail = S.trail_of turn.state in
            owed_by self.now passes.old turn.colour turn.core turn.count trail }
        requires coloured { S.colour_of turn.state ≡ turn.colour }
        requires framed { S.frame_of turn.state ≡ frame_in (shard_frame S.frame_of) self.now }
        ensures passes { ArePasses (shard_frame S.frame_of) self.now passes.new }
        ensures same { KeepChains passes.old passes.new }
        ensures sees { SeesOn self.now (shard_of self.now.setup turn.colour) passes.old passes.new
            (λ setup n. FinishesAt setup n turn result) }
    {
        let place = self.place(turn.colour());
        let known = Stamp::latest(passes);
        let answer = finish_at(
            rt,
            &self.shards[place],
            &mut passes.shards[place],
            &known,
            turn,
        );
        self.bell.finished(rt, passes.number, answer == After::Idle);
        answer
    }

    /// Moves a colour with all that is queued to the core of these passes. No chain is told, as after
    /// [`register`](FleetOf::register).
    ///
    /// # Errors
    ///
    /// Why nothing was stolen; `Memory` is the last cause.
    pub fn steal<R: Wait>(
        &self,
        rt: &R,
        passes: &mut Passes<S, P>,
        colour: Colour,
    ) -> Result<Stolen, NoSteal>
        requires passes { ArePasses (shard_frame S.frame_of) self.now passes.old }
        requires core { IsCore self.now.setup passes.old.number }
        requires colour { IsColour self.now.setup colour }
        ensures passes { ArePasses (shard_frame S.frame_of) self.now passes.new }
        ensures same { KeepChains passes.old passes.new }
        ensures sees { SeesOn self.now (shard_of self.now.setup colour) passes.old passes.new
            (λ setup n. StealsAt setup n colour result) }
    {
        let place = self.place(colour);
        let known = Stamp::latest(passes);
        steal_at(
            rt,
            &self.shards[place],
            &mut passes.shards[place],
            &known,
            colour,
        )
    }

    /// Makes room for this many entries in the history of a shard. Others may use it. One that isn't
    /// listed has it already.
    ///
    /// # Errors
    ///
    /// There was no memory, or so many are over the limit of a history.
    pub fn reserve<R: Wait>(
        &self,
        rt: &R,
        passes: &mut Passes<S, P>,
        shard: u16,
        entries: usize,
    ) -> Result<(), Memory>
        requires passes { ArePasses (shard_frame S.frame_of) self.now passes.old }
        requires shard { shard < (shape_of self.now.setup).shards }
        ensures passes { ArePasses (shard_frame S.frame_of) self.now passes.new }
        ensures same { KeepChains passes.old passes.new }
        ensures sees { SeesOn self.now shard passes.old passes.new (λ setup n. LooksAt) }
    {
        let place = shard as usize;
        reserve_at(rt, &self.shards[place], &mut passes.shards[place], entries)
    }

    /// Registers an event, and gives the owner of its colour, as the reply names it, the mark or
    /// the report: the one call on the chain of that core, at a point of the chain's history that
    /// begins with all that these passes had seen of it. A mark of the colour may be there already,
    /// and a report may be late.
    ///
    /// # Errors
    ///
    /// There was no memory: event and load are handed back, and nothing was delivered.
    pub fn post<R: Wait>(
        &self,
        rt: &R,
        passes: &mut Passes<S, P>,
        colour: Colour,
        event: Event,
        load: Option<P>,
    ) -> Result<Registered, Unregistered<P>>
        requires passes { ArePasses (shard_frame S.frame_of) self.now passes.old }
        requires fits { let frame = frame_in (shard_frame S.frame_of) self.now in
            FitsSetup S.fits_under self.now.setup frame (colour, event, load) }
        ensures { IsPosted (shard_frame S.frame_of) self.now colour event load result
            passes.old passes.new }
    {
        self.bell.begin_news();
        let answer = self.register_and_deliver(rt, passes, colour, event, load);
        self.bell.end_news();
        answer
    }

    /// Registers an event, and delivers the mark or the report.
    ///
    /// # Errors
    ///
    /// There was no memory: event and load are handed back, and nothing was delivered.
    fn register_and_deliver<R: Wait>(
        &self,
        rt: &R,
        passes: &mut Passes<S, P>,
        colour: Colour,
        event: Event,
        load: Option<P>,
    ) -> Result<Registered, Unregistered<P>>
        requires passes { ArePasses (shard_frame S.frame_of) self.now passes.old }
        requires fits { let frame = frame_in (shard_frame S.frame_of) self.now in
            FitsSetup S.fits_under self.now.setup frame (colour, event, load) }
        ensures { IsPosted (shard_frame S.frame_of) self.now colour event load result
            passes.old passes.new }
    {
        let reply = self.register(rt, passes, colour, event, load)?;
        self.deliver(rt, passes, Delivery::after(colour, &reply));
        Ok(reply)
    }

    /// Makes the one call on a chain that delivers a mark or a report, as a worker does.
    fn deliver<R: Wait>(&self, rt: &R, passes: &mut Passes<S, P>, delivery: Delivery)
        requires passes { ArePasses (shard_frame S.frame_of) self.now passes.old }
        requires may { MayDeliver self.now.setup delivery }
        ensures { HasDelivered (shard_frame S.frame_of) self.now delivery passes.old passes.new }
    {
        let mut side = Side {
            rt,
            fleet: self,
            passes,
        };
        let _ = delivery.deliver(&mut side);
    }

    /// Whether a thief may take a mark of this colour and worth.
    fn is_worthy(&self, colour: Colour, worth: u128) -> bool {
        u32::from(colour.0) >= self.setup.pinned() && worth > u128::from(self.setup.steal_cost())
    }

    /// Whether no colour of a shard runs and nothing is queued.
    pub(crate) fn look<R: Wait>(&self, rt: &R, passes: &mut Passes<S, P>, shard: u16) -> bool
        requires passes { ArePasses (shard_frame S.frame_of) self.now passes.old }
        requires shard { shard < (shape_of self.now.setup).shards }
        ensures passes { ArePasses (shard_frame S.frame_of) self.now passes.new }
        ensures same { KeepChains passes.old passes.new }
        ensures sees { SeesOn self.now shard passes.old passes.new (λ setup n. LooksAt) }
        ensures drained { IsTrue result
            ↔ IsDrained (entries_of (front_in (fronts passes.new.shards.items) shard)) }
    {
        let place = shard as usize;
        look_at(rt, &self.shards[place], &mut passes.shards[place])
    }

    /// Puts a mark at the back of the chain of a core.
    pub(crate) fn push<R: Wait>(
        &self,
        rt: &R,
        passes: &mut Passes<S, P>,
        core: u16,
        mark: Mark,
    ) -> Result<(), There>
        requires passes { ArePasses (shard_frame S.frame_of) self.now passes.old }
        requires core { IsCore self.now.setup core }
        requires colour { IsColour self.now.setup mark.colour }
        ensures passes { ArePasses (shard_frame S.frame_of) self.now passes.new }
        ensures same { KeepShards passes.old passes.new }
        ensures reaches { ReachesOn self.now core passes.old passes.new (λ of n.
            PushesAt of n mark result) }
    {
        let place = core as usize;
        let is_worthy = self.is_worthy(mark.colour, mark.worth);
        let (answer, is_crowded) = push_at(
            rt,
            self.bell.hint(core),
            &self.chains[place],
            &mut passes.chains[place],
            mark,
            is_worthy,
        );
        // An owner that pushes a mark alone takes it next.
        let is_for_thieves = is_worthy & (is_crowded | (passes.number != core));
        self.bell.pushed(rt, passes.number, core, is_for_thieves);
        answer
    }

    /// Takes the front of the chain of a core.
    pub(crate) fn pop<R: Wait>(&self, rt: &R, passes: &mut Passes<S, P>, core: u16) -> Option<Mark>
        requires passes { ArePasses (shard_frame S.frame_of) self.now passes.old }
        requires core { IsCore self.now.setup core }
        ensures passes { ArePasses (shard_frame S.frame_of) self.now passes.new }
        ensures same { KeepShards passes.old passes.new }
        ensures reaches { ReachesOn self.now core passes.old passes.new
            (λ of n. PopsAt of n result) }
        ensures mark { IfSome result (λ mark. IsColour self.now.setup mark.colour) }
    {
        let place = core as usize;
        pop_at(
            rt,
            self.bell.hint(core),
            &self.chains[place],
            &mut passes.chains[place],
        )
    }

    /// Tells the chain of a core what a colour is worth.
    pub(crate) fn retell<R: Wait>(
        &self,
        rt: &R,
        passes: &mut Passes<S, P>,
        core: u16,
        colour: Colour,
        started: u64,
        worth: u128,
    ) -> bool
        requires passes { ArePasses (shard_frame S.frame_of) self.now passes.old }
        requires core { IsCore self.now.setup core }
        requires colour { IsColour self.now.setup colour }
        ensures passes { ArePasses (shard_frame S.frame_of) self.now passes.new }
        ensures same { KeepShards passes.old passes.new }
        ensures reaches { ReachesOn self.now core passes.old passes.new
            (λ of n. RetellsAt of n colour started worth result) }
    {
        let place = core as usize;
        let is_worthy = self.is_worthy(colour, worth);
        let is_found = retell_at(
            rt,
            self.bell.hint(core),
            &self.chains[place],
            &mut passes.chains[place],
            colour,
            started,
            worth,
            is_worthy,
        );
        self.bell.retold(rt, is_found & is_worthy);
        is_found
    }

    /// Takes the mark that is worth most off the chain of a core.
    pub(crate) fn pick<R: Wait>(&self, rt: &R, passes: &mut Passes<S, P>, core: u16) -> Option<Mark>
        requires passes { ArePasses (shard_frame S.frame_of) self.now passes.old }
        requires core { IsCore self.now.setup core }
        ensures passes { ArePasses (shard_frame S.frame_of) self.now passes.new }
        ensures same { KeepShards passes.old passes.new }
        ensures reaches { ReachesOn self.now core passes.old passes.new (λ of n.
            PicksAt of n result) }
        ensures mark { IfSome result (λ mark. IsColour self.now.setup mark.colour) }
    {
        let place = core as usize;
        pick_at(
            rt,
            self.bell.hint(core),
            &self.chains[place],
            &mut passes.chains[place],
        )
    }
}
