//! The lists that an input has, of steps, connections and items.
ghost use Rattle.std.specs.Prelude.{◌≡◌, ◌++◌, [], ◌∷◌, OnOk};

use std::alloc::AllocError;
use std::marker::Model;

/// Members in order, which contracts see as a list.
#[derive(Debug, Drop)]
pub struct Sequence<T> {
    members: Vec<T>,
}

impl<T> Model for Sequence<T> {
    ghost use Rattle.std.specs.Prelude.{List};

    ghost Value = { List T };

    ghost view = { λ kept. kept.members.items };
}

impl<T> Sequence<T> {
    /// These members.
    pub fn new(members: Vec<T>) -> Sequence<T>
        ensures { result ≡ members.items }
    {
        Sequence { members }
    }

    /// The members in order.
    pub fn as_slice(&self) -> &[T]
        ensures { result.now ≡ self.now }
    {
        &self.members
    }

    /// The vector of the members.
    pub fn into_vec(self) -> Vec<T>
        ensures { result.items ≡ self }
    {
        self.members
    }
}

impl<T: Drop> Sequence<T> {
    /// Adds a member at the end.
    pub(crate) fn push(&mut self, member: T) -> Result<(), AllocError>
        ensures { OnOk result (self.new ≡ self.old ++ member ∷ []) }
    {
        self.members.push(member)?;
        Ok(())
    }
}
