//! From a text to the bytes for which it stands.
ghost use Rattle.std.specs.Prelude.{◌≡◌, ◌<◌, IfOk, IfSome, MatchOption, option_map};
ghost use Rattle.sws_text.specs.Texts.{StandsFor, IsNoText};
ghost use Rattle.sws_text.specs.SignsIn.{digit_in, hex_in, escape_in, sign_in};

use crate::Sign;
use std::alloc::{AllocError, Global};

/// The bytes for which a text stands, or `None` where it is no text.
pub fn read_text(alloc: Global, text: &[u8]) -> Result<Option<Vec<u8>>, AllocError>
    ensures { IfOk result (λ read. MatchOption read (IsNoText text.now)
        (λ bytes. StandsFor text.now bytes.items)) }
{
    let mut bytes = Vec::new(alloc);
    let mut rest = text;
    'signs: while !rest.is_empty() {
        let Some((sign, after)) = first_sign(rest) else {
            return Ok(None);
        };
        sign.push_bytes(&mut bytes)?;
        rest = after;
    }
    Ok(Some(bytes))
}

/// The sign at the front of a text, and what stands behind it.
fn first_sign(text: &[u8]) -> Option<(Sign, &[u8])>
    ensures { option_map (λ found. (found.0, found.1.now)) result ≡ sign_in text.now }
{
    match text {
        [] => None,
        [b'~', rest @ ..] => Some((Sign::LineEnd, rest)),
        [b'\\', rest @ ..] => escape(rest),
        [byte @ b' '..=b'}', rest @ ..] => Some((Sign::Plain(*byte), rest)),
        _ => None,
    }
}

/// The sign that goes on behind a backslash.
fn escape(text: &[u8]) -> Option<(Sign, &[u8])>
    ensures { option_map (λ found. (found.0, found.1.now)) result ≡ escape_in text.now }
{
    match text {
        [b'n', rest @ ..] => Some((Sign::Feed, rest)),
        [b'r', rest @ ..] => Some((Sign::Return, rest)),
        [b't', rest @ ..] => Some((Sign::Tab, rest)),
        [b'\\', rest @ ..] => Some((Sign::Backslash, rest)),
        [b'~', rest @ ..] => Some((Sign::Tilde, rest)),
        [b'x', rest @ ..] => hex(rest),
        _ => None,
    }
}

/// The byte of two hexadecimal digits.
fn hex(text: &[u8]) -> Option<(Sign, &[u8])>
    ensures { option_map (λ found. (found.0, found.1.now)) result ≡ hex_in text.now }
{
    let [high, low, rest @ ..] = text else {
        return None;
    };
    let (high, low) = (digit(*high)?, digit(*low)?);
    Some((Sign::Hex(high * 16 + low), rest))
}

/// The number of a hexadecimal digit, which has no capital letter.
fn digit(glyph: u8) -> Option<u8>
    ensures value { result ≡ digit_in glyph }
    ensures small { IfSome result (λ digit. digit < 16) }
{
    match glyph {
        b'0'..=b'9' => Some(glyph - b'0'),
        b'a'..=b'f' => Some(glyph - b'a' + 10),
        _ => None,
    }
}
