//! Bytes that stand for themselves.
ghost use Rattle.std.specs.Prelude.{◌≡◌, ◌≤◌, ◌<◌, ◌↔◌, Some, ℕ, IsTrue, length, take, slice_get};
ghost use Rattle.std.specs.List.{AllByRecursion};
ghost use Rattle.sws_text.specs.Signs.{IsPlain};

/// How many bytes in front stand for themselves, counted up to `most`: the byte behind them,
/// where there is one, doesn't.
pub fn plain_front(bytes: &[u8], most: usize) -> usize
    ensures there { result ≤ length bytes.now }
    ensures few { result ≤ most }
    ensures plain { AllByRecursion IsPlain (take result bytes.now) }
    ensures behind { result < most → (byte : ℕ) → slice_get bytes.now result ≡ Some byte
        → IsPlain byte → ⊥ }
{
    for (at, byte) in bytes.iter().enumerate() {
        if at == most || !is_plain(*byte) {
            return at;
        }
    }
    bytes.len()
}

/// Whether a byte stands for itself.
fn is_plain(byte: u8) -> bool
    ensures { IsTrue result ↔ IsPlain byte }
{
    matches!(byte, b' '..=b'[' | b']'..=b'}')
}
