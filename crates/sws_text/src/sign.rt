//! The signs of a text.
ghost use Rattle.std.specs.Prelude.{◌≡◌, ◌++◌, ◌<◌, OnOk};
ghost use Rattle.sws_text.specs.Signs.{bytes_of, spelling_of, IsSign, glyph_of};
ghost use Rattle.sws_text.specs.Shown.{ends_line};

use std::alloc::AllocError;

/// What stands for one byte, or for CR LF.
#[derive(Clone, Copy, Debug, PartialEq, Eq)]
pub enum Sign {
    /// A byte from 0x20 to 0x7E that stands for itself.
    Plain(u8),
    /// `~`, for CR LF.
    LineEnd,
    /// `\n`, for LF.
    Feed,
    /// `\r`, for CR.
    Return,
    /// `\t`, for TAB.
    Tab,
    /// `\\`, for a backslash.
    Backslash,
    /// `\~`, for a tilde.
    Tilde,
    /// `\xHH`, for the byte of these two digits.
    Hex(u8),
}

impl Sign {
    /// Whether the bytes of the sign end with LF.
    pub(crate) fn ends_line(self) -> bool
        ensures { result ≡ ends_line self }
    {
        matches!(self, Sign::LineEnd | Sign::Feed)
    }

    /// Adds the bytes that the sign stands for.
    pub(crate) fn push_bytes(self, bytes: &mut Vec<u8>) -> Result<(), AllocError>
        ensures { OnOk result (bytes.new.items ≡ bytes.old.items ++ bytes_of self) }
    {
        match self {
            Sign::Plain(byte) => bytes.push(byte)?,
            Sign::LineEnd => bytes.extend_from_slice(b"\r\n")?,
            Sign::Feed => bytes.push(b'\n')?,
            Sign::Return => bytes.push(b'\r')?,
            Sign::Tab => bytes.push(b'\t')?,
            Sign::Backslash => bytes.push(b'\\')?,
            Sign::Tilde => bytes.push(b'~')?,
            Sign::Hex(byte) => bytes.push(byte)?,
        }
        Ok(())
    }

    /// Adds the spelling of the sign.
    pub(crate) fn push_spelling(self, text: &mut Vec<u8>) -> Result<(), AllocError>
        requires { IsSign self }
        ensures { OnOk result (text.new.items ≡ text.old.items ++ spelling_of self) }
    {
        match self {
            Sign::Plain(byte) => text.push(byte)?,
            Sign::LineEnd => text.push(b'~')?,
            Sign::Feed => text.extend_from_slice(b"\\n")?,
            Sign::Return => text.extend_from_slice(b"\\r")?,
            Sign::Tab => text.extend_from_slice(b"\\t")?,
            Sign::Backslash => text.extend_from_slice(b"\\\\")?,
            Sign::Tilde => text.extend_from_slice(b"\\~")?,
            Sign::Hex(byte) => {
                text.extend_from_slice(&[b'\\', b'x', glyph(byte / 16), glyph(byte % 16)])?
            }
        }
        Ok(())
    }
}

/// The hexadecimal digit of a number below 16.
fn glyph(digit: u8) -> u8
    requires { digit < 16 }
    ensures { result ≡ glyph_of digit }
{
    if digit < 10 {
        b'0' + digit
    } else {
        b'a' + (digit - 10)
    }
}
