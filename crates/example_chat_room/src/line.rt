//! A line that is said in the room.

/// How many bytes a line has at most, without its end.
pub const LONGEST: usize = 512;

/// A line that a client has said.
#[derive(Debug, Drop)]
pub struct Line {
    /// Who said it, by the number of its connection, from 0 on.
    pub from: u16,

    /// What it says, without its end.
    pub text: Vec<u8>,
}
