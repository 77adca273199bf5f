//! The entries of a history.
ghost use Rattle.std.specs.Prelude.{◌≡◌};
ghost use Rattle.mely_history.specs.Entries.{colour_of, pass_of};

use mely_event::{Colour, Event};

/// One step that changed a shard: a history is a list of these.
///
/// The number of the pass that made an entry is `by`, `core`, `core` and `to`.
#[derive(Clone, Copy, Debug, PartialEq, Eq)]
pub enum Entry {
    /// An event was registered behind the others of its colour.
    Reg {
        colour: Colour,
        event: Event,
        by: u16,
    },

    /// A core took the first `count` events that were queued; the colour runs from here on.
    Take {
        colour: Colour,
        core: u16,
        count: u16,
    },

    /// The core finished the events that it had taken; the colour rests from here on.
    Fin {
        colour: Colour,
        core: u16,
        count: u16,
    },

    /// The colour went over to another core, with all that was queued.
    Steal {
        colour: Colour,
        from: u16,
        to: u16,
    },
}

impl Entry {
    /// The colour that the entry is about.
    pub fn colour(&self) -> Colour
        ensures { result ≡ colour_of self.now }
    {
        match *self {
            Entry::Reg { colour, .. } => colour,
            Entry::Take { colour, .. } => colour,
            Entry::Fin { colour, .. } => colour,
            Entry::Steal { colour, .. } => colour,
        }
    }

    /// The number of the pass that made the entry.
    pub fn pass(&self) -> u16
        ensures { result ≡ pass_of self.now }
    {
        match *self {
            Entry::Reg { by, .. } => by,
            Entry::Take { core, .. } => core,
            Entry::Fin { core, .. } => core,
            Entry::Steal { to, .. } => to,
        }
    }
}
