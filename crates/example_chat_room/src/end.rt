//! How a client's time in the room ends.
ghost use Rattle.std.specs.Prelude.{◌≡◌};
ghost use Rattle.example_chat_room.specs.declared.end.End.TheVariants as ends;

use std::alloc::AllocError;
use std::fmt;

/// How a client's time in the room ends.
#[derive(Clone, Copy, Debug, PartialEq, Eq)]
pub enum End {
    /// It hung up.
    Left,

    /// It said a line of more than 512 bytes.
    LongLine,

    /// It took so little of what others said that more than 64 KiB were on their way to it.
    Slow,

    /// Its connection failed, or the network.
    Fault,

    /// There was no memory for what it said or was to be shown.
    Memory,
}

impl fmt::Display for End {
    fn fmt<W: fmt::Write>(&self, f: &mut fmt::Formatter<W>) -> fmt::Result {
        f.write_str(match self {
            End::Left => "left",
            End::LongLine => "was dropped: its line was too long",
            End::Slow => "was dropped: it didn't take what others said",
            End::Fault => "was dropped: its connection failed",
            End::Memory => "was dropped: there was no memory",
        })
    }
}

impl From<AllocError> for End {
    ghost from_gives = { λ _ end. end ≡ ends.Memory };

    fn from(_error: AllocError) -> End {
        End::Memory
    }
}
