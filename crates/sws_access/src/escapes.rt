//! What a log shows of bytes that a client has sent.
ghost use Rattle.std.specs.Prelude.{◌≡◌, ◌++◌, ◌<◌, OnOk};
ghost use Rattle.sws_access.specs.Escapes.{digit_of, escape_of, escaped, is_plain as is_plain_byte, quoted};

use std::alloc::AllocError;

/// Whether the byte stands for itself in a log.
fn is_plain(byte: u8) -> bool
    ensures { result ≡ is_plain_byte byte }
{
    32 <= byte && byte <= 126 && byte != b'"' && byte != b'\\'
}

/// The hexadecimal digit of a number, with large letters.
fn digit(number: u8) -> u8
    requires { number < 16 }
    ensures { result ≡ digit_of number }
{
    if number < 10 {
        b'0' + number
    } else {
        55 + number
    }
}

/// Adds a byte as a log shows it.
fn push_escape(text: &mut Vec<u8>, byte: u8) -> Result<(), AllocError>
    ensures { OnOk result (text.new.items ≡ text.old.items ++ escape_of byte) }
{
    if is_plain(byte) {
        text.push(byte)?;
        return Ok(());
    }
    text.extend_from_slice(&[b'\\', b'x', digit(byte / 16), digit(byte % 16)])?;
    Ok(())
}

/// Adds bytes as a log shows them.
fn push_escaped(text: &mut Vec<u8>, bytes: &[u8]) -> Result<(), AllocError>
    ensures { OnOk result (text.new.items ≡ text.old.items ++ escaped bytes.now) }
{
    'bytes: for byte in bytes {
        push_escape(text, *byte)?;
    }
    Ok(())
}

/// Adds bytes between quotes, as a log shows them; where there are none it is `-`.
pub fn push_quoted(text: &mut Vec<u8>, bytes: &[u8]) -> Result<(), AllocError>
    ensures { OnOk result (text.new.items ≡ text.old.items ++ quoted bytes.now) }
{
    text.push(b'"')?;
    if bytes.is_empty() {
        text.push(b'-')?;
    } else {
        push_escaped(text, bytes)?;
    }
    text.push(b'"')?;
    Ok(())
}
