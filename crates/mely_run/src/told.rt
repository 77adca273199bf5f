//! Apps that are told by a function.
ghost use Rattle.std.specs.Prelude.{◌≡◌, ◌∷◌, ℕ, All, Bool, false, List, Option};
ghost use Rattle.mely_event.specs.declared.colour.Colour.{Colour};
ghost use Rattle.mely_event.specs.declared.event.Event.{Event};
ghost use Rattle.mely_history.specs.declared.setup.Setup.{Setup};
ghost use Rattle.mely_history.specs.declared.entry.Entry.{Entry};
ghost use Rattle.mely_machine.specs.Rules.{rules_of};
ghost use Rattle.mely_machine.specs.Machine.{Acts};
ghost use Rattle.mely_machine.specs.MachineRun.{RunsTo};
ghost use Rattle.mely_run.specs.Pieces.{Piece, event_piece, kept_from, IsTold};
ghost use Rattle.mely_run.specs.WholeRuns.{IsWholeRun};

use mely_event::{Fits, Trail};
use mely_worker::App;

/// An app of which a function tells what each event registers.
///
/// Whoever implements it says what the app is for the function, gives the function, and says when
/// what the app has in a weave, its states and the events that are to come with their loads, agrees
/// with what it is. The law `is_told` is then to be proved.
pub trait Told: App {
    /// What the app is, for the function.
    type Is;

    /// What the app registers by an event of a colour, and what it is then, of what it was.
    ghost acts: { Self → Acts Self.Is };

    /// What the app has in a weave, in whatever order, agrees with what it is.
    ghost agrees: { Self → Self.Is → List (Piece Self.State Self.Load) → Type 0 };

    /// A state on which the function doesn't tell any more what follows, as after want of memory;
    /// false where there is none.
    ghost spoilt: { Self → Self.State → Bool };

    /// Where the two agree, a handler that leaves its state unspoilt registers what the function
    /// says, and the two agree again.
    ghost is_told: { (app : Self) (frame : Self.State.Frame)
        → IsTold Self.State.Trail Self.State.fits_under Self.App app frame
        (acts app) (agrees app) (spoilt app) };
}

/// The law of this crate, for contracts alone: where what the app has at first, and the event that
/// is posted, agree with what it is, a run of a weave after which no state is spoilt writes the
/// histories that the machine writes. A call does nothing.
pub fn a_run_is_the_machines<S: Fits<P>, P, R: Told<State = S, Load = P>>()
    ensures { (app : R) (setup : Setup) (states : List S) (c : Colour)
        (event : Event) (load : Option P)
        (schedule : List (ℕ × ℕ)) (histories : List (List Entry)) (left : List S) (x : R.Is)
        → IsWholeRun S.Trail S.fits_under R.App app setup states c event load
        schedule histories left
        → R.agrees app x (event_piece c event load ∷ kept_from 0 states)
        → All (λ state. R.spoilt app state ≡ false) left
        → RunsTo (rules_of setup) (R.acts app) x (c, event) schedule histories }
{}
