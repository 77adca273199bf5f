//! The steps of a worker outside a turn.
ghost use Rattle.std.specs.Prelude.{◌≡◌, false};
ghost use Rattle.mely_worker.specs.declared.phase.Phase.TheVariants.{Free, Popped, Picked};
ghost use Rattle.mely_worker.specs.Phase.{is_turning};
ghost use Rattle.mely_worker.specs.Gated.{HasPassed};
ghost use Rattle.mely_worker.specs.Rule.{StepsOn, StepDone};
ghost use Rattle.mely_worker.specs.WorkerFields.{worker_of};

use crate::access::Access;
use crate::app::App;
use crate::gate::Gate;
use crate::kept_phase::KeptPhase;
use crate::made::Made;
use crate::stage::Stage;
use crate::turning::{finish_turn, has_run_all, step_turn};
use crate::worker_fields::WorkerFields;
use mely_event::{Fits, Mark, Trail};
use mely_history::{NoSteal, NoTake};

/// The step of a worker that has popped a mark: it takes the colour, and where that
/// is refused drops the mark.
fn step_popped<S: Fits<P> + Drop, P: Drop, A: Access<S, P>, R: App<State = S, Load = P>>(
    fields: &mut WorkerFields<P>,
    phase: &mut KeptPhase<S, P>,
    mark: Mark,
    access: &mut A,
    app: &R,
) -> Made
    requires no_turn { is_turning phase.old ≡ false }
    requires on { StepsOn S.Trail S.fits_under A.Access R.App app.now access.old
        fields.old (Popped mark) }
    ensures done { StepDone S.Trail S.fits_under A.Access R.App app.now access.old
        fields.old (Popped mark)
        result access.new fields.new phase.new }
{
    match access.take(mark.colour) {
        Ok(turn) => {
            let made = Made::Took {
                colour: turn.colour(),
                count: turn.count(),
            };
            phase.begin(turn);
            made
        }
        Err(NoTake::Memory) => {
            fields.halted = true;
            phase.go_to(Stage::Pushing {
                core: fields.core,
                mark,
            });
            Made::Memory
        }
        Err(why) => {
            phase.go_to(Stage::Free { place: 0 });
            Made::NotTaken { why }
        }
    }
}

/// The step of a worker that has picked a mark: it steals the colour, and where that
/// is refused drops the mark.
fn step_picked<S: Fits<P> + Drop, P: Drop, A: Access<S, P>, R: App<State = S, Load = P>>(
    fields: &mut WorkerFields<P>,
    phase: &mut KeptPhase<S, P>,
    mark: Mark,
    victim: u16,
    access: &mut A,
    app: &R,
) -> Made
    requires no_turn { is_turning phase.old ≡ false }
    requires on { StepsOn S.Trail S.fits_under A.Access R.App app.now access.old fields.old
        (Picked mark victim) }
    ensures done { StepDone S.Trail S.fits_under A.Access R.App app.now access.old
        fields.old (Picked mark victim)
        result access.new fields.new phase.new }
{
    match access.steal(mark.colour) {
        Ok(stolen) => {
            phase.go_to(Stage::Landing {
                mark: Mark {
                    colour: mark.colour,
                    started: stolen.started,
                    worth: stolen.worth,
                },
            });
            Made::Stole {
                colour: mark.colour,
                from: stolen.from,
            }
        }
        Err(NoSteal::Memory) => {
            fields.halted = true;
            phase.go_to(Stage::Pushing { core: victim, mark });
            Made::Memory
        }
        Err(why) => {
            phase.go_to(Stage::Free { place: 0 });
            Made::NotStolen { why }
        }
    }
}

/// The step of a free worker: it looks for a mark at the next place of its hunt.
fn step_free<S: Fits<P> + Drop, P: Drop, A: Access<S, P>, R: App<State = S, Load = P>>(
    fields: &mut WorkerFields<P>,
    phase: &mut KeptPhase<S, P>,
    place: usize,
    access: &mut A,
    app: &R,
) -> Made
    requires no_turn { is_turning phase.old ≡ false }
    requires at { phase.old ≡ Free place }
    requires on { StepsOn S.Trail S.fits_under A.Access R.App app.now access.old
        fields.old (Free place) }
    ensures done { StepDone S.Trail S.fits_under A.Access R.App app.now access.old
        fields.old (Free place)
        result access.new fields.new phase.new }
{
    if fields.halted {
        return Made::Halted;
    }
    let count = fields.victims.len();
    let next = if place < count { place + 1 } else { 0 };
    if place == 0 {
        return match access.pop() {
            Some(mark) => {
                phase.go_to(Stage::Popped { mark });
                Made::Popped {
                    colour: mark.colour,
                }
            }
            None => {
                phase.go_to(Stage::Free { place: next });
                Made::NoneHere
            }
        };
    }
    let victim = fields.victims[place - 1];
    match access.pick(victim) {
        Some(mark) => {
            phase.go_to(Stage::Picked { mark, victim });
            Made::Picked {
                colour: mark.colour,
                victim,
            }
        }
        None => {
            phase.go_to(Stage::Free { place: next });
            Made::NoneThere { victim }
        }
    }
}

/// The step of a worker, by its phase.
pub(crate) fn step_by_phase<
    S: Fits<P> + Drop,
    P: Drop,
    A: Access<S, P>,
    R: App<State = S, Load = P>,
    G: Gate,
>(
    fields: &mut WorkerFields<P>,
    phase: &mut KeptPhase<S, P>,
    access: &mut A,
    app: &R,
    gate: &G,
) -> Made
    requires on { StepsOn S.Trail S.fits_under A.Access R.App app.now access.old
        fields.old phase.old }
    ensures done { StepDone S.Trail S.fits_under A.Access R.App app.now access.old
        fields.old phase.old
        result access.new fields.new phase.new }
    ensures passed { HasPassed (G.passes gate.now) (worker_of fields.old phase.old) }
{
    if let Some(turn) = &mut phase.turn {
        return if has_run_all(turn, &phase.hand, &phase.outs) {
            finish_turn(fields, phase, access, app)
        } else {
            step_turn(
                fields,
                turn,
                &mut phase.hand,
                &mut phase.outs,
                access,
                app,
                gate,
            )
        };
    }
    match phase.stage {
        Stage::Pushing { core, mark } => {
            let _ = access.push(core, mark);
            phase.go_to(Stage::Free { place: 0 });
            Made::Pushed {
                colour: mark.colour,
                core,
            }
        }
        Stage::Popped { mark } => step_popped(fields, phase, mark, access, app),
        Stage::Picked { mark, victim } => step_picked(fields, phase, mark, victim, access, app),
        Stage::Landing { mark } => {
            let _ = access.push(fields.core, mark);
            phase.go_to(Stage::Free { place: 0 });
            Made::Landed {
                colour: mark.colour,
            }
        }
        Stage::Free { place } => step_free(fields, phase, place, access, app),
    }
}
