//! `value` has a file of its own: its clause names the row of `Held`, which the file that declares
//! `Held` cannot import.
ghost use Rattle.std.specs.Prelude.{◌≡◌, []};
ghost use Rattle.std.specs.Borrow.{sem, Lends};
ghost use mir.Syntax.{named};
ghost use Rattle.mely_lock.specs.contracts.held.Held.{the_row};

use crate::held::Held;
use mely_event::Kept;

impl<V: Kept> Held<'_, V> {
    /// The value, which may be changed. What stands behind the reference when the
    /// borrow ends is what is held.
    pub fn value(&mut self) -> &mut V
        ensures* writes_back { sem 𝓛 (Lends (the_row (record { mir = named 1; lft = [] })
            V.row V.Note.row V.Frame.row V.Kept) V.row self.entry result (λ value.
            record self.old { value = value })) }
        ensures value { result.now ≡ self.old.value }
    {
        &mut self.value
    }
}
