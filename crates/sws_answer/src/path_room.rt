//! Room for the path that a target decodes to, made once a connection.
ghost use Rattle.std.specs.Prelude.{◌≡◌, ◌<◌, ◌≤◌, ◌+◌, true, false, [], ◌∷◌, ◌++◌, length, take, IfOk};

use std::alloc::Global;
use std::marker::Model;
use sws_link::Memory;

/// The most bytes that a path decodes to, with the name of a folder's index behind it.
pub const PATH_ROOM: usize = 8202;

/// Room for the name of a file, which is made once and never grows.
#[derive(Drop)]
pub struct PathRoom {
    bytes: Vec<u8>,
}

impl Model for PathRoom {
    ghost use Rattle.std.specs.Prelude.{List, ℕ, vec_capacity, ◌≤◌};
    ghost use Rattle.sws_answer.specs.declared.path_room.TheConstants.{PATH_ROOM};

    ghost Value = { List ℕ };

    ghost view = { λ room. room.bytes.items };

    ghost invariant = { λ room. PATH_ROOM ≤ vec_capacity room.bytes };
}

impl PathRoom {
    /// Room for [`PATH_ROOM`] bytes, or `Memory` where the allocation was refused.
    pub fn new(alloc: Global) -> Result<PathRoom, Memory>
        ensures { IfOk result (λ room. room ≡ []) }
    {
        let mut bytes = Vec::new(alloc);
        bytes.reserve(PATH_ROOM)?;
        Ok(PathRoom { bytes })
    }

    /// What was put in.
    pub(crate) fn bytes(&self) -> &[u8]
        ensures { result.now ≡ self.now }
    {
        &self.bytes
    }

    /// Takes out all that was put in.
    pub(crate) fn clear(&mut self)
        ensures { self.new ≡ [] }
    {
        self.bytes.clear();
    }

    /// Takes out all but the first bytes, as many as these.
    pub(crate) fn truncate(&mut self, len: usize)
        ensures { self.new ≡ take len self.old }
    {
        self.bytes.truncate(len);
    }

    /// Puts the bytes behind what was put in, where there is room for them,
    /// and says whether there is.
    pub(crate) fn put(&mut self, bytes: &[u8]) -> bool
        ensures put { result ≡ true → self.new ≡ self.old ++ bytes.now }
        ensures full { result ≡ false → PATH_ROOM < length self.old + length bytes.now }
    {
        if bytes.len() > PATH_ROOM || self.bytes.len() > PATH_ROOM - bytes.len() {
            return false;
        }
        match self.bytes.extend_from_slice(bytes) {
            Ok(()) => true,
            Err(_) => unreachable!(),
        }
    }
}
