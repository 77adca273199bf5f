//! What colours are sent.

/// What a client or a bucket is sent.
#[derive(Drop)]
pub enum Message {
    /// A client is to ask, and so often more.
    Next(u16),

    /// A bucket is to store a value under a key.
    Put(u64, u64),

    /// A bucket is to look a key up.
    Get(u64),
}
