//! The list itself.
ghost use Rattle.std.specs.Borrow.{ftrue};
ghost use Rattle.std.specs.Prelude.{◌++◌, ◌∷◌, ◌≡◌, List, []};

use std::fmt;
use std::marker::{Model, PhantomData};
use std::mem::size_of;

/// A list of notes for contracts, which read it as `items`. It has no bytes, owns nothing, and may
/// be sent to and shared with other threads whatever its notes are.
pub struct Log<T> {
    of: PhantomData<T>,
    pub ghost items: { List T },
}

const _: () = prove!(size_of::<Log<u64>>() == 0);

impl<T> Model for Log<T> {
    // No memory is tied to `items`, so the proof of a function that makes a log chooses them.
    ghost also_owns = { λ _. ftrue };
}

// Notes of any type: a log owns none of them and leads to none.
unsafe impl<T> Send for Log<T> {}

unsafe impl<T> Sync for Log<T> {}

// By hand, since a derived one would ask that notes can be dropped.
impl<T> Drop for Log<T> {
    fn drop(self) {
        let Self { of: _ } = self;
    }
}

/// It has nothing that could be shown.
impl<T> fmt::Debug for Log<T> {
    fn fmt<W: fmt::Write>(&self, f: &mut fmt::Formatter<W>) -> Result<(), fmt::Error> {
        f.write_str("Log")
    }
}

impl<T> Log<T> {
    /// A log without notes.
    pub fn new() -> Log<T>
        ensures { result.items ≡ [] }
    {
        Log { of: PhantomData }
    }

    /// A log of one note.
    pub fn of(note: &T) -> Log<T>
        ensures { result.items ≡ note.now ∷ [] }
    {
        let _ = note;
        Log { of: PhantomData }
    }

    /// The notes of this log, and behind them those of another.
    ///
    /// A log of units is a number that only contracts see, its length, and this adds two of them.
    pub fn joined(&self, other: &Log<T>) -> Log<T>
        ensures { result.items ≡ self.now.items ++ other.now.items }
    {
        let _ = other;
        Log { of: PhantomData }
    }

    /// The notes of this log, and behind them one more.
    pub fn and(&self, note: &T) -> Log<T>
        ensures { result.items ≡ self.now.items ++ note.now ∷ [] }
    {
        self.joined(&Log::of(note))
    }

    /// Adds a note at the end. It can't be refused.
    pub fn push(&mut self, note: &T)
        ensures { self.new.items ≡ self.old.items ++ note.now ∷ [] }
    {
        *self = self.and(note);
    }
}
