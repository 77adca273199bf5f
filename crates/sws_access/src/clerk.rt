//! Who takes the lines of a connection.
ghost use Rattle.std.specs.Prelude.{◌≡◌, ◌∷◌, ◌++◌, [], List, ℕ};
ghost use Rattle.sws_log.specs.declared.line.LogLine.{LogLine as LogLineValue};

use crate::record::Record;
use sws_log::LogLine;

/// Takes the lines of one connection over links of this kind, as they are given.
///
/// It tells contracts the lines that it was told.
pub trait Clerk<L>: Sized {
    /// What it is lent, as that where it leaves its lines.
    type Desk: Copy + Drop;

    /// The lines that it was told, in order.
    ghost told_of: { Self → List LogLineValue };

    /// The number by which its lines name the connection.
    ghost number_of: { Self → ℕ };

    /// A clerk who has met no connection.
    fn of(desk: Self::Desk) -> Self;

    /// The connection is given this link. From now on the clerk takes its lines; it was told none.
    fn meet(&mut self, link: &L)
        ensures { told_of self.new ≡ [] };

    /// The number by which its lines name the connection.
    fn number(&self) -> u16
        ensures { result ≡ number_of self.now };

    /// An answer was written whole: this is its line, and the record of what it answers.
    fn tell(&mut self, line: LogLine, record: &Record)
        ensures told { told_of self.new ≡ told_of self.old ++ line ∷ [] }
        ensures number { number_of self.new ≡ number_of self.old };
}
