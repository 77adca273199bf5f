//! Who hears a journal as it is read.
ghost use Rattle.std.specs.Prelude.{◌≡◌, OnOk, ⊤};
ghost use Rattle.mely_check.specs.Hearing.{Walk, MayCome, with_line};

use crate::reading::Line;
use std::alloc::AllocError;

/// Hears a journal as it is read: each shard's number and how many entries it says it has, and each
/// entry, in order.
///
/// Beside this a listener tells contracts what it has heard. That isn't a value of it, since it
/// needn't keep what it hears: it is which states a listener may be in that has heard so much.
pub trait Listener {
    /// What stays the same of it while it listens. A value of it is for contracts alone.
    type Frame;

    /// What stays the same while it listens.
    ghost frame_of: { Self → Self.Frame };

    /// It has heard so much, and nothing else.
    ghost Heard: { Walk → Self → Type 0 };

    /// Hears what the next line says.
    ///
    /// # Errors
    ///
    /// An allocation was refused.
    fn hear(&mut self, said: &Line) -> Result<(), AllocError>
        ensures heard { (walk : Walk) → MayCome walk said.now → Heard walk self.old
            → OnOk result (Heard (with_line walk said.now) self.new) }
        ensures frame { frame_of self.new ≡ frame_of self.old };
}

/// A listener that keeps nothing.
#[derive(Drop)]
pub(crate) struct Deaf;

impl Listener for Deaf {
    type Frame = ();

    ghost frame_of = { λ self. tt };

    ghost Heard = { λ walk self. ⊤ };

    fn hear(&mut self, _said: &Line) -> Result<(), AllocError> {
        Ok(())
    }
}
