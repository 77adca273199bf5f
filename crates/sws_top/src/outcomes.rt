//! How a run has ended.
ghost use Rattle.std.specs.Prelude.{◌≡◌, None, Some};
ghost use Rattle.sws_top.specs.Faults.{status_of, fault_of};

use crate::faults::TopFault;
use sws_engine::Ended;
use sws_link::World;

/// How a run has ended.
#[derive(Drop)]
pub struct Outcome<W: World> {
    /// The status that the program ends with, which is 0 exactly where there is no fault.
    pub status: u8,

    pub fault: Option<TopFault>,

    /// What a run on the world that was handed in has left, where that was opened: its links, their
    /// ends, and the world.
    pub ended: Option<Ended<W>>,

    /// The world that was handed in, where nothing was run on it, as it stands now.
    pub world: Option<W>,
}

impl<W: World> Outcome<W> {
    /// A run of which the world has seen nothing but, at most, that it couldn't be opened.
    pub(crate) fn without_run(world: W, ended: Result<(), TopFault>) -> Outcome<W>
        ensures status { result.status ≡ status_of result.fault }
        ensures fault { result.fault ≡ fault_of ended }
        ensures none_ended { result.ended ≡ None }
        ensures back { result.world ≡ Some world }
    {
        let fault = ended.err();
        Outcome {
            status: status(fault),
            fault,
            ended: None,
            world: Some(world),
        }
    }

    /// A run on the world, which has left this.
    pub(crate) fn of_run(ended: Ended<W>, fault: Option<TopFault>) -> Outcome<W>
        ensures status { result.status ≡ status_of result.fault }
        ensures fault { result.fault ≡ fault }
        ensures there { result.ended ≡ Some ended }
        ensures gone { result.world ≡ None }
    {
        Outcome {
            status: status(fault),
            fault,
            ended: Some(ended),
            world: None,
        }
    }
}

/// The status of a run that ended by this fault, or by none.
fn status(fault: Option<TopFault>) -> u8
    ensures { result ≡ status_of fault }
{
    match fault {
        None => 0,
        Some(fault) => fault.status(),
    }
}
