//! What a run of a coloured-event runtime comes to, as a definition.
//!
//! In libasync-smp (N. Zeldovich, A. Yip, F. Dabek, R. T. Morris, D. Mazières and F. Kaashoek,
//! *Multiprocessor Support for Event-Driven Programs*, USENIX 2003) and Mely (F. Gaud, S. Geneves,
//! R. Lachaize, B. Lepers, F. Mottet, G. Muller and V. Quéma, *Efficient Workstealing for Multicore
//! Event-Driven Systems*, ICDCS 2010) the cores of a machine run the events of each colour in
//! batches, and a core with nothing to do steals a colour from another. Here that machine is a
//! plain value and each of its steps a function, over histories and lists alone: no queue, owner or
//! worth is kept, since the histories say them, and a mark in a list has the number of the step in
//! which it entered its class, so that a pick is said without any order of the list.
//!
//! The crate has no code: it is what must be read to know which histories a run writes.
//! `specs/Rules.antt` has what a run goes by, `specs/Listing.antt` the marks of a core and which of
//! them a thief takes, `specs/Machine.antt` the machine, `specs/MachineStep.antt` the worker's
//! rule, a function a line, `specs/MachineRun.antt` whole runs, and `specs/Rows.antt` worked rows.
//! The functions are laws, for contracts alone.
#![tactic(auto)]

ghost use Rattle.std.specs.Prelude.{◌≡◌, ℕ, List};
ghost use Rattle.mely_event.specs.declared.colour.Colour.{Colour};
ghost use Rattle.mely_event.specs.declared.event.Event.{Event};
ghost use Rattle.mely_history.specs.declared.entry.Entry.{Entry};
ghost use Rattle.mely_machine.specs.Rules.{Rules, IsRuledBy};
ghost use Rattle.mely_machine.specs.Machine.{Acts};
ghost use Rattle.mely_machine.specs.MachineRun.{RunsTo};
ghost use Rattle.mely_machine.specs.Rows.{WorkedRows};

use mely_history::Setup;

/// The main law: for an app that is a function, an event and a schedule there is at most one list
/// of histories that a run writes. So a contract that says of histories that they are those of a
/// run leaves no choice. There is none where the run never ends. A call does nothing.
pub fn a_machine_has_one_run<X>()
    ensures { (rules : Rules) (act : Acts X) (app : X) (first : Colour × Event)
        (schedule : List (ℕ × ℕ)) (a b : List (List Entry))
        → RunsTo rules act app first schedule a → RunsTo rules act app first schedule b → a ≡ b }
{}

/// Owner and worth of a colour by the rules of a setup are those that `mely_history` defines for
/// the setup. A call does nothing.
pub fn a_setup_is_its_rules(setup: &Setup)
    ensures { IsRuledBy setup.now }
{
    let _setup = setup;
}

/// The worked rows hold. A call does nothing.
pub fn worked_rows_hold()
    ensures { WorkedRows }
{}
