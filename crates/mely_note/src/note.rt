//! One note.

use crate::stamp::{Stamp, Stamped};
use mely_event::{Colour, Event};
use mely_log::Log;
use std::snapshot::Snapshot;

/// One step that changed a shard, with the load or the state that went over.
///
/// The number of the pass that made a note is `by`, `core`, `core` and `to`. `at` is its stamp:
/// above those of all notes before it in its history, and above all that its pass had seen.
pub enum Note<S, P> {
    /// An event was registered behind the others of its colour, with this load.
    Reg {
        colour: Colour,
        event: Event,
        load: Snapshot<Option<P>>,
        by: u16,
        at: Snapshot<Stamp>,
    },

    /// A core took the first `count` events that waited, with their loads, and the state.
    Take {
        colour: Colour,
        core: u16,
        count: u16,
        at: Snapshot<Stamp>,
    },

    /// The core finished the events that it had taken, and brought this state home.
    Fin {
        colour: Colour,
        core: u16,
        count: u16,
        state: Snapshot<S>,
        at: Snapshot<Stamp>,
    },

    /// The colour went over to another core, with all that was queued.
    Steal {
        colour: Colour,
        from: u16,
        to: u16,
        at: Snapshot<Stamp>,
    },
}

impl<S, P> Drop for Note<S, P> {
    fn drop(self) {
        match self {
            Note::Reg {
                colour: _,
                event: _,
                load: _,
                by: _,
                at: _,
            } => {}
            Note::Take {
                colour: _,
                core: _,
                count: _,
                at: _,
            } => {}
            Note::Fin {
                colour: _,
                core: _,
                count: _,
                state: _,
                at: _,
            } => {}
            Note::Steal {
                colour: _,
                from: _,
                to: _,
                at: _,
            } => {}
        }
    }
}

impl<S, P> Stamped for Log<Note<S, P>> {
    ghost use Rattle.mely_note.specs.Notes.{latest};

    ghost latest_of = { λ log. latest log.items };
}
