//! The beginning of some bytes.
ghost use Rattle.std.specs.Prelude.{◌≡◌, ◌≤◌, ◌++◌, take, drop, length};

use std::marker::Model;

/// The most bytes of a [`Brief`].
pub const MAX_BRIEF: usize = 64;

/// The first bytes of a longer text, at most [`MAX_BRIEF`] of them, which lie in the value itself.
///
/// Contracts see it as the list of these bytes.
#[derive(Clone, Copy, Debug, PartialEq, Eq)]
pub struct Brief {
    bytes: [u8; MAX_BRIEF],
    len: u8,
}

impl Model for Brief {
    ghost use Rattle.std.specs.Prelude.{List, ℕ, take};
    ghost use Rattle.sws_log.specs.Briefs.{IsBrief, fields_of, fields_are};

    ghost Value = { List ℕ };

    ghost view = { λ brief. take brief.len brief.bytes };

    ghost invariant = { IsBrief };

    ghost inverse = { fields_of };

    ghost inverse_ok = { fields_are };
}

impl Brief {
    /// The first 64 of these bytes, or all of them where they are fewer.
    pub fn of(bytes: &[u8]) -> Brief
        ensures { result ≡ take MAX_BRIEF bytes.now }
    {
        let len = bytes.len().min(MAX_BRIEF);
        let mut kept = [0; MAX_BRIEF];
        put_front(&mut kept, &bytes[..len]);
        Brief {
            bytes: kept,
            len: len as u8,
        }
    }

    /// Its bytes, at most 64.
    pub fn bytes(&self) -> &[u8]
        ensures bytes { result.now ≡ self.now }
        ensures within { length result.now ≤ MAX_BRIEF }
    {
        &self.bytes[..self.len as usize]
    }
}

/// Puts the bytes in front of what stands there.
fn put_front(kept: &mut [u8], bytes: &[u8])
    requires { length bytes.now ≤ length kept.old }
    ensures { kept.new ≡ bytes.now ++ drop (length bytes.now) kept.old }
{
    kept[..bytes.len()].copy_from_slice(bytes);
}
