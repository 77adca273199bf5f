//! The stamp of a note.
ghost use Rattle.std.specs.Borrow.{ftrue};
ghost use Rattle.std.specs.Prelude.{ℕ, max, suc, ◌≡◌};

use std::fmt;
use std::marker::{Model, PhantomData};
use std::mem::size_of;

/// Something in which contracts see stamps: the latest of them, and 0 where there is none.
pub trait Stamped {
    ghost latest_of: { Self → ℕ };
}

/// A number that only contracts see. It has no bytes.
///
/// Stamps are a logical clock (Lamport, "Time, clocks, and the ordering of events in a distributed
/// system", 1978): whoever makes a note gives it a stamp above all those of the notes that it
/// knows.
#[derive(Drop)]
pub struct Stamp {
    of: PhantomData<u8>,
    pub ghost number: { ℕ },
}

impl Model for Stamp {
    // No memory is tied to `number`, so the proof of a function that makes a stamp chooses it.
    ghost also_owns = { λ _. ftrue };
}

unsafe impl Send for Stamp {}

unsafe impl Sync for Stamp {}

/// It has nothing that could be shown.
impl fmt::Debug for Stamp {
    fn fmt<W: fmt::Write>(&self, f: &mut fmt::Formatter<W>) -> Result<(), fmt::Error> {
        f.write_str("Stamp")
    }
}

const _: () = prove!(size_of::<Stamp>() == 0);

impl Stamped for Stamp {
    ghost latest_of = { λ stamp. stamp.number };
}

impl Stamp {
    /// The latest stamp of what is shown.
    pub fn latest<V: Stamped>(seen: &V) -> Stamp
        ensures { result.number ≡ V.latest_of seen.now }
    {
        let _ = seen;
        Stamp { of: PhantomData }
    }

    /// A stamp above those of what is shown, and above this one.
    pub fn after<V: Stamped>(&self, seen: &V) -> Stamp
        ensures { result.number ≡ suc (max (V.latest_of seen.now) self.now.number) }
    {
        let _ = seen;
        Stamp { of: PhantomData }
    }
}
