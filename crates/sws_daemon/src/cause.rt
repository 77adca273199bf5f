//! Why generations fail.
ghost use Rattle.std.specs.Prelude.{◌≡◌};
ghost use Rattle.sws_daemon.specs.Causes.{cause_by, status_by};

use std::fmt;
use sws_engine::Verdict;
use sws_lane::Told;
use sws_link::Opened;

/// Why a generation has failed.
#[derive(Clone, Copy, Debug, PartialEq, Eq)]
pub enum Cause {
    /// Its world wasn't opened, since the machine has failed.
    Socket,

    /// There was no memory to open its world.
    Opening,

    /// The network has failed in its run.
    Network,

    /// There was no memory in its run.
    Memory,

    /// A connection was lost in its run.
    Apart,
}

impl Cause {
    /// The status of a program that ends with it: as of `sws`.
    pub fn status(self) -> u8
        ensures { result ≡ status_by self }
    {
        match self {
            Cause::Socket => 6,
            Cause::Opening => 7,
            Cause::Network => 6,
            Cause::Memory => 7,
            Cause::Apart => 13,
        }
    }
}

impl fmt::Display for Cause {
    fn fmt<W: fmt::Write>(&self, f: &mut fmt::Formatter<W>) -> fmt::Result {
        let text = match self {
            Cause::Socket => "the machine has no socket for a generation",
            Cause::Opening => "no memory for a generation",
            Cause::Network => "the network failed",
            Cause::Memory => "out of memory",
            Cause::Apart => "a connection was lost",
        };
        write!(f, "{text}")
    }
}

/// Why a generation has failed of which this was told; nothing where it hasn't.
pub fn cause_of(told: &Told) -> Option<Cause>
    ensures { result ≡ cause_by told.now.opened told.now.verdict }
{
    match told.opened {
        Opened::Ready => {}
        Opened::Failed => return Some(Cause::Socket),
        Opened::Memory => return Some(Cause::Opening),
    }
    match told.verdict {
        Some(Verdict::World) => Some(Cause::Network),
        Some(Verdict::Memory) => Some(Cause::Memory),
        Some(Verdict::Apart { conn: _ }) => Some(Cause::Apart),
        Some(Verdict::Ok) => None,
        None => None,
    }
}
