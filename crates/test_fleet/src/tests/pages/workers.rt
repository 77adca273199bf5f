//! The pages of `mely_worker` and of its `Delivery`, over any access.
ghost use Rattle.std.specs.Prelude.{◌≡◌, IfErr, IfOk};
ghost use Rattle.std.specs.List.{AllByRecursion};
ghost use Rattle.mely_history.specs.Setup.{shape_of};
ghost use Rattle.mely_worker.specs.Access.{FitsSetup, IsCore, Stays};
ghost use Rattle.mely_worker.specs.Conditions.{AppServesAt};

use mely_event::{Colour, Event, Fits, Memory, Unregistered};
use mely_worker::{Access, App, Delivery, Made, OpenGate, Worker};
use std::alloc::Global;
use std::sync::Wait;

/// Registers an event, and tells the chain of the core that owns its colour.
fn post<S: Fits<P>, P, A: Access<S, P>>(
    access: &mut A,
    colour: Colour,
    event: Event,
    load: Option<P>,
) -> Result<(), Unregistered<P>>
    requires own { IsCore (A.setup_of access.old) (A.core_of access.old) }
    requires fits { FitsSetup S.fits_under (A.setup_of access.old) (A.frame_of access.old)
        (colour, event, load) }
    ensures back { IfErr result (λ refused. (refused.event ≡ event) × (refused.load ≡ load)) }
    ensures same { Stays A.setup_of A.core_of A.frame_of access.old access.new }
{
    let answer = access.register(colour, event, load)?;
    Delivery::after(colour, &answer).deliver(access);
    Ok(())
}

/// What is done with the name of a step.
fn log(_made: Made) {}

/// Lets a worker of a core work until it meets want of memory, and gives it back.
fn work<W: Wait, S: Fits<P> + Drop, P: Drop, A: Access<S, P> + Drop, R: App<State = S, Load = P>>(
    rt: &W,
    alloc: Global,
    core: u16,
    victims: Vec<u16>,
    batch: u16,
    mut access: A,
    app: R,
) -> Result<Worker<S, P>, Memory>
where
    R: Drop,
    requires own { A.core_of access ≡ core }
    requires core { IsCore (A.setup_of access) core }
    requires batch { batch ≡ (shape_of (A.setup_of access)).batch }
    requires victims { AllByRecursion (IsCore (A.setup_of access)) victims.items }
    requires served { AppServesAt A.Access R.App access app }
    ensures { IfOk result (λ worker. worker.core ≡ core) }
{
    let mut worker = Worker::new(alloc, core, victims, batch)?;
    for _ in rt.forever() {
        match worker.step(&mut access, &app, &OpenGate) {
            Made::Halted => break,
            made => log(made),
        }
    }
    Ok(worker)
}
