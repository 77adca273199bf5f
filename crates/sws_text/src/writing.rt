//! From bytes to the text that is written for them.
ghost use Rattle.std.specs.Prelude.{◌≡◌, ◌++◌, OnOk, IfSome, option_map};
ghost use Rattle.sws_text.specs.Signs.{IsSign};
ghost use Rattle.sws_text.specs.Texts.{sign_of, sign_before, text_of};

use crate::Sign;
use crate::plain::plain_front;
use std::alloc::AllocError;

/// Adds the text of bytes: from the left, CR LF is `~`, and each other byte has its own sign.
pub fn push_text(text: &mut Vec<u8>, bytes: &[u8]) -> Result<(), AllocError>
    ensures { OnOk result (text.new.items ≡ text.old.items ++ text_of bytes.now) }
{
    let mut rest = bytes;
    'signs: loop {
        let count = plain_front(rest, rest.len());
        text.extend_from_slice(&rest[..count])?;
        let Some((sign, after)) = next_sign(&rest[count..]) else {
            return Ok(());
        };
        sign.push_spelling(text)?;
        rest = after;
    }
}

/// The sign of the first byte, or of CR LF, and the bytes behind it.
pub fn next_sign(bytes: &[u8]) -> Option<(Sign, &[u8])>
    ensures value { option_map (λ found. (found.0, found.1.now)) result ≡ sign_before bytes.now }
    ensures sign { IfSome result (λ found. IsSign found.0) }
{
    match bytes {
        [] => None,
        [b'\r', b'\n', rest @ ..] => Some((Sign::LineEnd, rest)),
        [byte, rest @ ..] => Some((sign_for(*byte), rest)),
    }
}

/// The sign of one byte.
fn sign_for(byte: u8) -> Sign
    ensures value { result ≡ sign_of byte }
    ensures sign { IsSign result }
{
    match byte {
        b'\n' => Sign::Feed,
        b'\r' => Sign::Return,
        b'\t' => Sign::Tab,
        b'\\' => Sign::Backslash,
        b'~' => Sign::Tilde,
        b' '..=b'~' => Sign::Plain(byte),
        _ => Sign::Hex(byte),
    }
}
