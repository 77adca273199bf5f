//! States that keep the events that were run on them.
ghost use Rattle.std.specs.Prelude.{ℕ, List};
ghost use Rattle.mely_event.specs.declared.colour.Colour.{Colour};
ghost use Rattle.mely_event.specs.declared.event.Event.{Event};

/// The state of one colour, of which contracts know the list of the events that were run on it.
///
/// All of it is for contracts alone: a state has no bytes for its trail, and writing to it takes no
/// memory. Beside its trail a state tells its colour and its frame.
pub trait Trail {
    /// What stays the same of all states over a run, as a site and the inputs to come. A value of
    /// it is for contracts alone.
    type Frame;

    /// The events that were run, in order.
    ghost trail_of: { Self → List Event };

    /// The colour whose state it is.
    ghost colour_of: { Self → Colour };

    /// What stays the same over a run.
    ghost frame_of: { Self → Self.Frame };
}
