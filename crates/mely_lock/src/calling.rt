//! A call: a pass goes in, something is done with the value, and the pass is outside again.
ghost use Rattle.std.specs.Prelude.{◌≡◌};
ghost use Rattle.mely_lock.specs.Calling.{MayCall, HasCalled};
ghost use Rattle.mely_lock.specs.Words.{initial_value, front, IsPassOf, IsOutside};

use crate::pass::Pass;
use crate::ticketed::Ticketed;
use mely_event::Kept;
use std::sync::Wait;

impl<V: Kept> Ticketed<V> {
    /// Waits until nobody is inside, goes in, lets `does` have the value, and goes out.
    ///
    /// `pass` is one of this lock's, and outside before and after. `does` has to take any value
    /// that [`Ticketed::enter`] may find, and to leave one that [`Held::leave`](crate::Held::leave)
    /// takes: of the old frame, with at most one further note, of the pass's number. It is told that
    /// number, and handed what is `given`, which unlike what a closure holds needs no `Drop`. The
    /// pass has then seen the whole history. The call takes no memory of its own.
    pub fn call<R: Wait, A, T, F: FnOnce(&mut V, A, u16) -> T>(
        &self,
        rt: &R,
        pass: &mut Pass<V>,
        given: A,
        does: F,
    ) -> T
        requires pass { IsPassOf V.frame_of self.now pass.old × IsOutside pass.old }
        requires may { MayCall V.history_of V.pass_of V.frame_of F.FnOnce does given
            (V.frame_of (initial_value self.now)) pass.old.number (front pass.old) }
        ensures pass { IsPassOf V.frame_of self.now pass.new × IsOutside pass.new
            × (pass.new.number ≡ pass.old.number) }
        ensures called { HasCalled V.history_of V.pass_of V.frame_of F.FnOnce does given
            (V.frame_of (initial_value self.now)) pass.old.number (front pass.old)
            (front pass.new) result }
    {
        let mut held = self.enter(rt, pass);
        let answer = does(held.value(), given, pass.number());
        held.leave(pass);
        answer
    }
}
