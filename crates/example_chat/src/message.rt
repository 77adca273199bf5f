//! What colours are sent.

/// What a client or the room is sent. A line has its number in the script, below 256.
#[derive(Drop)]
pub enum Message {
    /// A client is to say a line.
    Say(u8, Vec<u8>),

    /// The room is told a line.
    Line(u8, Vec<u8>),

    /// A client hears a line: its place in the room's order, its number in the script, and what it
    /// says.
    Hear(u8, u8, Vec<u8>),
}
