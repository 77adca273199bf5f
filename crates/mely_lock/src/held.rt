//! The value of a lock while a pass is inside.
ghost use Rattle.std.specs.Prelude.{◌≡◌};

use crate::pass::Pass;
use crate::ticketed::Ticketed;
use mely_event::Kept;
use std::marker::PhantomData;

/// The value of a lock, in the hand of the pass that is inside.
///
/// It has no `Drop`: whoever came in has to spend it by [`Held::leave`].
pub struct Held<'a, V: Kept> {
    pub(crate) lock: &'a Ticketed<V>,
    pub(crate) value: V,
    pub(crate) exclusive: PhantomData<&'a mut V>,
}

impl<V: Kept> Held<'_, V> {
    ghost use Rattle.std.specs.Prelude.{length};
    ghost use Rattle.mely_lock.specs.Seen.{GrewByAtMostOne};
    ghost use Rattle.mely_lock.specs.Words.{initial_value, front, IsPassOf, IsOutside, IsInside};

    /// Puts the value back and goes out. The pass has then seen the whole history.
    ///
    /// `pass` is the one that came in. Since then the frame has stayed as it is, and the history
    /// too but for at most one further note, of the pass's number. It takes no memory and never
    /// waits, and wakes one of those that sleep before the lock.
    pub fn leave(self, pass: &mut Pass<V>)
        requires pass { IsPassOf V.frame_of self.lock.now pass.old × IsInside pass.old }
        requires frame { V.frame_of self.value ≡ V.frame_of (initial_value self.lock.now) }
        requires history { GrewByAtMostOne V.pass_of pass.old.number (front pass.old)
            (V.history_of self.value) }
        ensures pass { IsPassOf V.frame_of self.entry.lock.now pass.new × IsOutside pass.new
            × (pass.new.number ≡ pass.old.number) }
        ensures seen { front pass.new ≡ V.history_of self.entry.value }
    {
        let Held {
            lock,
            value,
            exclusive: _,
        } = self;
        let notes = value.notes();
        let grown = notes != pass.seen;
        lock.put_back(&mut pass.place, value, grown);
        pass.seen = notes;
    }
}
