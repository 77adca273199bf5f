//! What a log says of an answer.
ghost use Rattle.std.specs.Prelude.{◌≡◌};
ghost use Rattle.sws_steps.specs.Protocol.{no_note};

use sws_log::Brief;

/// What a log says of an answer, whatever its connection and its number are.
#[derive(Clone, Copy, Debug, PartialEq, Eq)]
pub struct Note {
    /// The status code.
    pub code: u16,

    /// How many bytes the answer has.
    pub length: u64,

    /// The first 64 bytes of the target that was asked for.
    pub target: Brief,
}

impl Note {
    /// That of no answer, which no log shows.
    pub fn none() -> Note
        ensures { result ≡ no_note }
    {
        Note {
            code: 0,
            length: 0,
            target: Brief::of(b""),
        }
    }
}
