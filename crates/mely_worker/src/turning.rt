//! The steps of a worker at a turn.
ghost use Rattle.std.specs.Prelude.{◌≡◌, [], ◌↔◌, IsTrue};
ghost use Rattle.mely_worker.specs.declared.phase.Phase.TheVariants.{Turning};
ghost use Rattle.mely_worker.specs.declared.delivery.Delivery.TheVariants.{Nothing};
ghost use Rattle.mely_worker.specs.Phase.{HasRunAll};
ghost use Rattle.mely_worker.specs.Gated.{HasPassed};
ghost use Rattle.mely_worker.specs.Rule.{StepsOn, StepDone};
ghost use Rattle.mely_worker.specs.WorkerFields.{worker_of};

use crate::access::Access;
use crate::app::App;
use crate::delivery::Delivery;
use crate::gate::Gate;
use crate::kept_phase::KeptPhase;
use crate::made::Made;
use crate::outs::Outs;
use crate::stage::Stage;
use crate::worker_fields::WorkerFields;
use mely_event::{Fits, Mark, Trail};
use mely_history::After;
use mely_queue::Turn;

/// Whether nothing is left of a turn but its finish.
pub(crate) fn has_run_all<S, P>(turn: &Turn<S, P>, hand: &Delivery, outs: &Outs<P>) -> bool
    ensures { IsTrue result ↔ HasRunAll {P = P} (Turning turn.now hand.now outs.now) }
{
    matches!(hand, Delivery::Nothing) && outs.is_empty() && turn.left() == 0
}

/// The step of a worker that is at a turn with something left to deliver, to register or to run.
pub(crate) fn step_turn<
    S: Fits<P> + Drop,
    P: Drop,
    A: Access<S, P>,
    R: App<State = S, Load = P>,
    G: Gate,
>(
    fields: &mut WorkerFields<P>,
    turn: &mut Turn<S, P>,
    hand: &mut Delivery,
    outs: &mut Outs<P>,
    access: &mut A,
    app: &R,
    gate: &G,
) -> Made
    requires left { ¬ (HasRunAll {P = P} (Turning turn.old hand.old outs.old)) }
    requires on { StepsOn S.Trail S.fits_under A.Access R.App app.now access.old fields.old
        (Turning turn.old hand.old outs.old) }
    ensures done { StepDone S.Trail S.fits_under A.Access R.App app.now access.old
        fields.old (Turning turn.old hand.old outs.old)
        result access.new fields.new (Turning turn.new hand.new outs.new) }
    ensures passed { HasPassed (G.passes gate.now)
        (worker_of fields.old (Turning turn.old hand.old outs.old)) }
{
    match *hand {
        Delivery::Nothing => {
            if outs.is_empty() {
                run_next(fields, turn, outs, access, app, gate)
            } else {
                step_put(fields, turn, hand, outs, access, app)
            }
        }
        Delivery::PushMark { core, mark } => {
            let _entered = hand.deliver(access);
            *hand = Delivery::Nothing;
            Made::Pushed {
                colour: mark.colour,
                core,
            }
        }
        Delivery::Report {
            core,
            colour,
            started: _,
            worth: _,
        } => {
            let found = hand.deliver(access);
            *hand = Delivery::Nothing;
            Made::Told {
                colour,
                core,
                found,
            }
        }
    }
}

/// Registers the first of the registrations that are left.
fn step_put<S: Fits<P> + Drop, P: Drop, A: Access<S, P>, R: App<State = S, Load = P>>(
    fields: &mut WorkerFields<P>,
    turn: &Turn<S, P>,
    hand: &mut Delivery,
    outs: &mut Outs<P>,
    access: &mut A,
    app: &R,
) -> Made
    requires some { ¬ (outs.old ≡ []) }
    requires empty { hand.old ≡ Nothing }
    requires on { StepsOn S.Trail S.fits_under A.Access R.App app.now access.old fields.old
        (Turning turn.now Nothing outs.old) }
    ensures done { StepDone S.Trail S.fits_under A.Access R.App app.now access.old
        fields.old (Turning turn.now Nothing outs.old)
        result access.new fields.new (Turning turn.now hand.new outs.new) }
{
    let Some((colour, event, load)) = outs.take_first() else {
        unreachable!()
    };
    match access.register(colour, event, load) {
        Ok(answer) => {
            *hand = Delivery::after(colour, &answer);
            Made::Registered { colour }
        }
        Err(back) => {
            fields.halted = true;
            fields.lost.push_reserved((colour, back.event, back.load));
            Made::Memory
        }
    }
}

/// Runs the handler of the next event.
fn run_next<S: Fits<P> + Drop, P: Drop, A: Access<S, P>, R: App<State = S, Load = P>, G: Gate>(
    fields: &mut WorkerFields<P>,
    turn: &mut Turn<S, P>,
    outs: &mut Outs<P>,
    access: &mut A,
    app: &R,
    gate: &G,
) -> Made
    requires some { ¬ (turn.old.events ≡ []) }
    requires none_left { outs.old ≡ [] }
    requires on { StepsOn S.Trail S.fits_under A.Access R.App app.now access.old fields.old
        (Turning turn.old Nothing outs.old) }
    ensures done { StepDone S.Trail S.fits_under A.Access R.App app.now access.old
        fields.old (Turning turn.old Nothing outs.old)
        result access.new fields.new (Turning turn.new Nothing outs.new) }
    ensures passed { HasPassed (G.passes gate.now)
        (worker_of fields.old (Turning turn.old Nothing outs.old)) }
{
    let Some((event, load)) = turn.next() else {
        unreachable!()
    };
    let colour = turn.colour();
    gate.pass(fields.core, colour, event);
    app.run(turn.state(), event, load, outs);
    Made::Ran {
        colour,
        handler: event.handler,
    }
}

/// Finishes a turn of which nothing is left.
pub(crate) fn finish_turn<S: Fits<P> + Drop, P: Drop, A: Access<S, P>, R: App<State = S, Load = P>>(
    fields: &mut WorkerFields<P>,
    phase: &mut KeptPhase<S, P>,
    access: &mut A,
    app: &R,
) -> Made
    requires ended { HasRunAll phase.old }
    requires on { StepsOn S.Trail S.fits_under A.Access R.App app.now access.old
        fields.old phase.old }
    ensures done { StepDone S.Trail S.fits_under A.Access R.App app.now access.old
        fields.old phase.old
        result access.new fields.new phase.new }
{
    let turn = phase.end();
    let colour = turn.colour();
    match access.finish(turn) {
        After::More { started, worth } => {
            let mark = Mark {
                colour,
                started,
                worth,
            };
            phase.go_to(Stage::Pushing {
                core: fields.core,
                mark,
            });
            Made::Finished { colour, more: true }
        }
        After::Idle => Made::Finished {
            colour,
            more: false,
        },
    }
}
