//! What an account is sent.

/// What an account is sent.
#[derive(Drop)]
pub enum Message {
    /// So much is paid in.
    Deposit(u32),

    /// As much as is there of an amount, the second number, goes to another account, the first.
    Transfer(u16, u32),
}
