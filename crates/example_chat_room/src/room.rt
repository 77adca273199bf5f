//! The room.
ghost use Rattle.std.specs.Prelude.{◌≡◌};

/// The room, which keeps nothing but how many lines it got.
#[derive(Drop)]
pub struct Room {
    pub(crate) lines: u64,
}

impl Room {
    /// How many lines it got, modulo 2^64.
    pub fn lines(&self) -> u64
        ensures { result ≡ self.now.lines }
    {
        self.lines
    }
}
