//! Values that a lock keeps.
ghost use Rattle.std.specs.Prelude.{◌≡◌, ℕ, List, length};

/// A value that a lock keeps: its history grows by notes, each made by the pass that was inside,
/// and a frame stays as it was over all of its life.
pub trait Kept {
    /// One entry of the history.
    type Note;

    /// What no holder of the lock may change. A value of it is for contracts alone.
    type Frame;

    /// The notes, the oldest first.
    ghost history_of: { Self → List Self.Note };

    /// The number of the pass that made a note.
    ghost pass_of: { Self.Note → ℕ };

    /// What no holder of the lock may change.
    ghost frame_of: { Self → Self.Frame };

    /// The length of the history. It takes no memory.
    fn notes(&self) -> u64
        ensures { result ≡ length (history_of self.now) };
}
