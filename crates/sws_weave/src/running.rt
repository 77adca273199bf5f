//! A run of the server on a weave.
ghost use Rattle.std.specs.Prelude.{◌≡◌, ◌≤◌, ◌<◌, ◌+◌, ◌^◌, All, sum_by, length};
ghost use Rattle.mely_event.specs.HandlerTable.{rows_of};
ghost use Rattle.mely_history.specs.Setup.{shape_of, colours_of, handlers_of};
ghost use Rattle.mely_weave.specs.Drains.{AllFree, HistoriesAreDrained};
ghost use Rattle.mely_weave.specs.Runs.{KeepsSetup};
ghost use Rattle.mely_run.specs.WholeRuns.{IsRunOut};
ghost use Rattle.mely_tally.specs.Account.{IsAccounted};
ghost use Rattle.sws_handlers.specs.Counting.{colours_over};
ghost use Rattle.sws_weave.specs.LogStream.{LogsInOrder};
ghost use Rattle.sws_weave.specs.RunFact.{RunFact};
ghost use Rattle.sws_link.specs.Limits.{conn_limit};
ghost use Rattle.sws_handlers.specs.Tasks.{handler_count};

use crate::gated::Gated;
use mely_event::{Fits, Trail};
use mely_order::what_is_sent_in_order_is_received_in_order;
use mely_tally::what_handlers_put_is_accounted_for;
use mely_weave::{Drained, Weave, Went};
use mely_worker::{App, Gate};
use std::sync::Wait;
use sws_conn::Talk;
use sws_handlers::{Load, Place};
use sws_link::{Link, World};

/// Runs the schedule, and then rounds until nothing is left. What stands of the run stands
/// afterwards too, the lines of the log stay in order, and what the handlers ran and put is accounted
/// for, each behind the gate.
pub fn run_through<'g, R: Wait, W: World + Drop, T: Talk<W::Link> + Drop, G: Gate>(
    rt: &R,
    weave: &mut Weave<Place<W, T>, Load<W, W::Link>>,
    app: &Gated<'g, W, T, G>,
    schedule: &[(u16, u32)],
) -> Drained
    requires cores { All (λ part. part.0 < (shape_of weave.old.setup).cores) schedule.now }
    requires count { sum_by (λ part. part.1) schedule.now < 2 ^ 64 }
    requires colours { colours_over app.now.app.total app.now.app.log
        ≤ colours_of weave.old.setup }
    requires handlers { handler_count ≤ length (rows_of (handlers_of weave.old.setup)) }
    requires total { (W.tells weave.old.given.first).total ≡ app.now.app.total }
    requires few { app.now.app.total ≤ conn_limit }
    requires stands { RunFact W.World T.Talk weave.old.given.first weave.old }
    requires ordered { LogsInOrder T.Talk app.now.app.total app.now.app.log weave.old }
    ensures stands { RunFact W.World T.Talk weave.old.given.first weave.new }
    ensures ordered { LogsInOrder T.Talk app.now.app.total app.now.app.log weave.new }
    ensures free { AllFree weave.new }
    ensures drained { result ≡ Drained.Empty → HistoriesAreDrained weave.new }
    ensures out { result ≡ Drained.Empty → IsRunOut ⟦<Place<W, T> as Trail>⟧
        ⟦<Place<W, T> as Fits<Load<W, W::Link>>>⟧.fits_under ⟦<Gated<'g, W, T, G> as App>⟧
        app.now weave.old schedule.now weave.new }
    ensures accounted { (posted : _) → IsAccounted ⟦<Place<W, T> as Trail>⟧
        ⟦<Place<W, T> as Fits<Load<W, W::Link>>>⟧.fits_under ⟦<Gated<'g, W, T, G> as App>⟧
        app.now posted weave.old → IsAccounted ⟦<Place<W, T> as Trail>⟧
        ⟦<Place<W, T> as Fits<Load<W, W::Link>>>⟧.fits_under ⟦<Gated<'g, W, T, G> as App>⟧
        app.now posted weave.new }
    ensures same { KeepsSetup weave.old weave.new }
{
    weave.stands_well();
    what_handlers_put_is_accounted_for::<Place<W, T>, Load<W, W::Link>, Gated<'g, W, T, G>>();
    what_is_sent_in_order_is_received_in_order::<
        Place<W, T>,
        Load<W, W::Link>,
        Gated<'g, W, T, G>,
    >();
    match weave.run(schedule, app) {
        Went::All => weave.drain(rt, app),
        Went::Memory { steps: _ } => {
            // The drain only ends what was begun: a worker is halted.
            weave.drain(rt, app);
            Drained::Memory
        }
    }
}
