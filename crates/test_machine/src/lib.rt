//! Runs of small machines that another program made, a model of the runtime with queues of its own:
//! the definition gives the same.
//!
//! Shapes, handlers, posts and schedules were drawn at random. Of each run there are the histories
//! and the marks of each core after the schedule, and mostly the histories after a drain and that
//! it takes so many rounds and no fewer.
#![tactic(auto)]

ghost use Rattle.test_machine.specs.Cases.{AreTheModels};

/// A law, for contracts alone: the machine's histories and marks in these runs are those that the
/// model says. A call does nothing.
pub fn model_runs_are_the_machines()
    ensures { AreTheModels }
{}
