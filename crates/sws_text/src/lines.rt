//! The lines of a text.
ghost use Rattle.std.specs.Prelude.{◌≡◌, [], MatchOption};
ghost use Rattle.sws_text.specs.Lines.{IsFirstLine};

use memchr::memchr;

/// The first line of a text, without its LF, and what stands behind it.
pub fn first_line(text: &[u8]) -> Option<(&[u8], &[u8])>
    ensures { MatchOption result (text.now ≡ [])
        (λ found. IsFirstLine text.now found.0.now found.1.now) }
{
    if text.is_empty() {
        return None;
    }
    match memchr(b'\n', text) {
        None => Some((text, &text[text.len()..])),
        Some(at) => Some((&text[..at], &text[at + 1..])),
    }
}
