//! What holds of all pictures.
ghost use Rattle.std.specs.Prelude.{ℕ, List};
ghost use Rattle.mely_event.specs.declared.colour.Colour.{Colour as ColourValue};
ghost use Rattle.mely_history.specs.declared.entry.Entry.{Entry as EntryValue};
ghost use Rattle.mely_history.specs.declared.setup.Setup.{Setup as SetupValue};
ghost use Rattle.mely_history.specs.Legal.{IsLegal};
ghost use Rattle.mely_picture.specs.Turns.{EndsWithTurn};

/// A bar of a legal history is a whole turn: where it ends its core finishes its colour, with as
/// many events as were taken where it begins.
pub fn a_bar_is_a_turn()
    ensures { (setup : SetupValue) (history : List EntryValue) (at : ℕ) (c : ColourValue)
        (core count : ℕ) → IsLegal setup history → EndsWithTurn history at c core count }
{}
