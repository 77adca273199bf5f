//! A worker at work on its own thread.
ghost use Rattle.std.specs.Prelude.{◌≡◌, ◌↔◌, None, true, IsTrue, IfSome};
ghost use Rattle.mely_worker.specs.Conditions.{AppServes};
ghost use Rattle.mely_worker.specs.Phase.{is_free};
ghost use Rattle.mely_kept.specs.Frames.{shard_frame};
ghost use Rattle.mely_fleet.specs.Fleets.{ArePasses, frame_in};
ghost use Rattle.mely_worker.specs.Gated.{behind};
ghost use Rattle.mely_worker.specs.Step.{Steps};
ghost use Rattle.mely_fleet.specs.Work.{standpoint, words, HasLooked, MakesOn, SeesMore, SeesAllDrained, HasFinishedBut};
ghost use Rattle.mely_fleet.specs.Working.{MayWorkOn, HasWorked, KeepsLosses};

use crate::fleet::FleetOf;
use crate::passes::Passes;
use crate::side::Side;
use mely_bell::Watch;
use mely_event::{Fits, Kept, Trail};
use mely_kept::KeptShard;
use mely_worker::{App, Gate, Made, Worker};
use std::sync::Wait;

/// How a worker's work ended. The worker is free.
#[derive(Clone, Copy, Debug, PartialEq, Eq)]
pub enum Worked {
    /// Nothing runs and nothing is queued, by what the worker's passes have seen of each shard.
    Quiet,

    /// The worker is halted, as it met want of memory: exactly where it is.
    Memory,

    /// The worker isn't halted, and left work all the same: another met want of memory, or all gave
    /// up. They do where some worker didn't begin, as the machine refused its thread or started it
    /// late; and where something was ready that no worker at work could take, as an event that was
    /// posted from outside for a core whose worker had just left, or a colour that was made ready
    /// and whose mark nobody pushed. What is queued then stays queued, until all work again or the
    /// fleet is closed.
    Stopped,
}

impl<S: Fits<P> + Drop, P: Drop> FleetOf<KeptShard<S, P>> {
    /// Lets the worker of the core of these passes work until nothing is left to do.
    ///
    /// It makes one step after another, and waits while it finds nothing. Where a worker is halted
    /// all come to an end: each ends its turn and puts back the mark in its hand; the halted one
    /// answers `Memory`, and the others `Stopped`. Where all that are at work find nothing, and
    /// something is ready all the same, they give up. So they do, whatever is left to do, where
    /// another hasn't begun after a tenth of a second or more: let all begin at once. A worker that
    /// begins when the others have given up and left is alone, and gives up in turn. That it returns
    /// isn't promised.
    ///
    /// The gate is passed before each handler, with the worker's core.
    pub fn work<R: Wait, A: App<State = S, Load = P>, G: Gate>(
        &self,
        rt: &R,
        worker: &mut Worker<S, P>,
        passes: &mut Passes<S, P>,
        app: &A,
        gate: &G,
    ) -> Worked
        requires may { MayWorkOn S.Trail S.fits_under self.now passes.old worker.old }
        requires served { let frame = frame_in (shard_frame S.frame_of) self.now in
            AppServes A.App self.now.setup frame app.now }
        ensures makes { let passed = G.passes gate.now passes.old.number in
            let app_behind = behind S.Trail passed A.App in
            MakesOn S.Trail S.fits_under app_behind app.now self.now
            passes.old worker.old passes.new worker.new }
        ensures worked { HasWorked S.Trail S.fits_under self.now
            passes.old worker.old passes.new worker.new }
        ensures losses { KeepsLosses worker.old worker.new }
        ensures free { IsTrue (is_free worker.new.phase) }
        ensures memory { (result ≡ Worked.Memory) ↔ (worker.new.halted ≡ true) }
        ensures quiet { let seen = standpoint (shard_frame S.frame_of) self.now passes.new in
            result ≡ Worked.Quiet → SeesAllDrained seen }
    {
        let mut watch = Watch::new();
        self.bell.begin();
        'steps: for _ in rt.forever() {
            if let Some(worked) = self.pause(rt, worker, passes, &mut watch) {
                return worked;
            }
            let made = self.step(rt, worker, passes, app, gate);
            self.bell.note(rt, passes.number, &mut watch, made);
        }
        unreachable!()
    }

    /// What a worker does between two steps: nothing, unless it is free. Then it comes to an end
    /// where some worker is halted, or all give up; it waits for a while where it would find
    /// nothing; and where it has looked for long, it looks whether everything is finished, or
    /// sleeps, or gives up. How its work ended, if it did.
    fn pause<R: Wait>(
        &self,
        rt: &R,
        worker: &Worker<S, P>,
        passes: &mut Passes<S, P>,
        watch: &mut Watch,
    ) -> Option<Worked>
        requires may { MayWorkOn S.Trail S.fits_under self.now passes.old worker.now }
        ensures looked { let at = standpoint (shard_frame S.frame_of) self.now in
            HasLooked (at passes.old) (at passes.new) }
        ensures worked { HasWorked S.Trail S.fits_under self.now
            passes.old worker.now passes.new worker.now }
        ensures free { IfSome result (λ _. IsTrue (is_free worker.now.phase)) }
        ensures memory { IfSome result (λ worked.
            (worked ≡ Worked.Memory) ↔ (worker.now.halted ≡ true)) }
        ensures quiet { let seen = standpoint (shard_frame S.frame_of) self.now passes.new in
            IfSome result (λ worked. worked ≡ Worked.Quiet → SeesAllDrained seen) }
    {
        if !worker.is_free() {
            return None;
        }
        if worker.is_halted() {
            self.bell.stop(rt, passes.number, watch);
            return Some(Worked::Memory);
        }
        if self.bell.is_stopped() {
            self.bell.stop(rt, passes.number, watch);
            return Some(Worked::Stopped);
        }
        if self.bell.is_over(watch) {
            self.bell.give_up(rt, passes.number, watch);
            return Some(Worked::Stopped);
        }
        self.bell.await_news(passes.number, watch);
        if !watch.is_hunted() {
            return None;
        }
        if self.bell.is_idle() {
            if self.are_drained(rt, passes) {
                self.bell.leave(rt, passes.number, watch);
                return Some(Worked::Quiet);
            }
            return None;
        }
        if self.bell.rest(rt, passes.number, watch) {
            self.bell.give_up(rt, passes.number, watch);
            return Some(Worked::Stopped);
        }
        None
    }

    /// Makes one step of the worker of the core of these passes, behind the gate.
    fn step<R: Wait, A: App<State = S, Load = P>, G: Gate>(
        &self,
        rt: &R,
        worker: &mut Worker<S, P>,
        passes: &mut Passes<S, P>,
        app: &A,
        gate: &G,
    ) -> Made
        requires may { MayWorkOn S.Trail S.fits_under self.now passes.old worker.old }
        requires served { let frame = frame_in (shard_frame S.frame_of) self.now in
            AppServes A.App self.now.setup frame app.now }
        ensures steps { let at = standpoint (shard_frame S.frame_of) self.now in
            Steps (words S.Trail S.fits_under)
            (behind S.Trail (G.passes gate.now passes.old.number) A.App) app.now
            (at passes.old) worker.old result (at passes.new) worker.new }
        ensures worked { HasWorked S.Trail S.fits_under self.now
            passes.old worker.old passes.new worker.new }
    {
        let mut side = Side {
            rt,
            fleet: self,
            passes,
        };
        worker.step(&mut side, app, gate)
    }

    /// Looks at each shard, in ascending order, until one isn't drained. Whether all were.
    fn are_drained<R: Wait>(&self, rt: &R, passes: &mut Passes<S, P>) -> bool
        requires { ArePasses (shard_frame S.frame_of) self.now passes.old }
        ensures passes { ArePasses (shard_frame S.frame_of) self.now passes.new }
        ensures number { passes.new.number ≡ passes.old.number }
        ensures looked { let at = standpoint (shard_frame S.frame_of) self.now in
            HasLooked (at passes.old) (at passes.new) }
        ensures more { let at = standpoint (shard_frame S.frame_of) self.now in
            SeesMore (at passes.old) (at passes.new) }
        ensures finished { let at = standpoint (shard_frame S.frame_of) self.now in
            HasFinishedBut (at passes.old) None → HasFinishedBut (at passes.new) None }
        ensures drained { let seen = standpoint (shard_frame S.frame_of) self.now passes.new in
            IsTrue result → SeesAllDrained seen }
    {
        'shards: for shard in 0..self.setup.shards() {
            if !self.look(rt, passes, shard) {
                return false;
            }
        }
        true
    }
}
