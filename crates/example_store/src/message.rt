//! What colours are sent.

/// What a bucket or a client is sent.
#[derive(Drop)]
pub enum Message {
    /// A bucket is to store a value under a key.
    Put(u64, String),

    /// A bucket is to tell a client what it has under a key.
    Get(u64, u16),

    /// A client is told what a bucket had under a key.
    Answer(u64, Option<String>),
}
