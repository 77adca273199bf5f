//! What follows a registration.
ghost use Rattle.std.specs.Prelude.{◌≡◌};
ghost use Rattle.mely_history.specs.declared.setup.Setup.{Setup};
ghost use Rattle.mely_worker.specs.Access.{IsColour, NamesCore, Stays, StillOwes};
ghost use Rattle.mely_worker.specs.Delivery.{delivery_after, Delivers, MayDeliver};

use crate::access::Access;
use mely_event::{Colour, Fits, Mark};
use mely_history::Registered;

/// What follows a registration: who registered an event delivers the colour's mark, or a report, to
/// the chain of the core that owns the colour.
///
/// A worker keeps it in its hand until its next step; whoever posts from
/// outside delivers it at once.
///
/// ```text
/// let answer = access.register(colour, event, load)?;
/// Delivery::after(colour, &answer).deliver(access);
/// ```
#[derive(Clone, Copy, Debug, PartialEq, Eq)]
pub enum Delivery {
    /// Nothing is to be delivered: the colour runs, and whoever finishes it finds the event.
    Nothing,

    /// The mark of a colour that the registration woke is to be pushed on the chain of a core.
    PushMark {
        core: u16,
        mark: Mark,
    },

    /// The chain of a core is to be told what a colour that waited already is worth now.
    Report {
        core: u16,
        colour: Colour,
        started: u64,
        worth: u128,
    },
}

impl Delivery {
    /// What is to be delivered after a registration on a colour that was answered so.
    pub fn after(colour: Colour, answer: &Registered) -> Delivery
        ensures after { result ≡ delivery_after colour answer.now }
        ensures may { (setup : Setup) → IsColour setup colour → NamesCore setup answer.now
            → MayDeliver setup result }
    {
        match *answer {
            Registered::Woke {
                owner,
                started,
                worth,
            } => Delivery::PushMark {
                core: owner,
                mark: Mark {
                    colour,
                    started,
                    worth,
                },
            },
            Registered::Told {
                owner,
                started,
                worth,
            } => Delivery::Report {
                core: owner,
                colour,
                started,
                worth,
            },
            Registered::Running { core: _ } => Delivery::Nothing,
        }
    }

    /// Makes the one call on the access that delivers it, and answers whether it arrived:
    /// a mark entered the chain, a report found its mark. With nothing to deliver it makes
    /// no call, and answers true.
    // Inlined, the mark isn't copied for the call.
    #[inline(always)]
    pub fn deliver<S: Fits<P>, P, A: Access<S, P>>(self, access: &mut A) -> bool
        requires may { MayDeliver (A.setup_of access.old) self }
        ensures delivers { Delivers A.Access access.old self result access.new }
        ensures same { Stays A.setup_of A.core_of A.frame_of access.old access.new }
        ensures kept { A.keeps access.old access.new }
        ensures owed { StillOwes A.owes access.old access.new }
    {
        match self {
            Delivery::Nothing => true,
            Delivery::PushMark { core, mark } => access.push(core, mark).is_ok(),
            Delivery::Report {
                core,
                colour,
                started,
                worth,
            } => access.retell(core, colour, started, worth),
        }
    }
}
