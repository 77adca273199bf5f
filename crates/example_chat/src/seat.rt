//! What a colour of the chat has.

/// A line as it was heard.
#[derive(Drop)]
pub struct Heard {
    /// Its place in the room's order.
    pub place: u8,

    /// Its number in the script.
    pub number: u8,

    /// What it says.
    pub text: Vec<u8>,
}

/// The lines that a client has heard, or that the room was told, in the order in which they came.
#[derive(Drop)]
pub struct Seat {
    pub heard: Vec<Heard>,
}
