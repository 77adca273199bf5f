//! The lines that show bytes.
ghost use Rattle.std.specs.Prelude.{◌≡◌, ◌≤◌, ◌<◌, ◌+◌, ◌++◌, [], OnOk, IfOk, vec_len};
ghost use Rattle.std.specs.Bool.{OnTrue, OnFalse};
ghost use Rattle.sws_text.specs.Signs.{IsSign};
ghost use Rattle.sws_text.specs.Shown.{shown_lines, margin, shown_sign};

use crate::Sign;
use crate::plain::plain_front;
use crate::writing::next_sign;
use std::alloc::AllocError;
use std::marker::Model;

/// The most bytes that are moved at a time, but for the beginning of their line.
const MAX_RUN: usize = 4_096;

/// The lines that show some bytes: each begins with `| `, and ends behind an LF that is shown
/// or behind the last byte. They are handed out a few bytes at a time, so that long ones can
/// be written piece by piece.
///
/// Contracts see the text that is still to be written.
#[derive(Debug, Drop)]
pub struct ShownLines<'b> {
    /// The bytes that are still to be shown.
    rest: &'b [u8],
    /// Whether the line of the first of them has begun.
    in_line: bool,
}

impl<'b> Model for ShownLines<'b> {
    ghost use Rattle.std.specs.Prelude.{List, ℕ};
    ghost use Rattle.sws_text.specs.Shown.{remaining_lines};

    ghost Value = { List ℕ };

    ghost view = { λ lines. remaining_lines lines.in_line lines.rest.now };
}

impl<'b> ShownLines<'b> {
    /// All the lines that show these bytes.
    pub fn new(bytes: &'b [u8]) -> ShownLines<'b>
        ensures { result ≡ shown_lines bytes.now }
    {
        ShownLines {
            rest: bytes,
            in_line: false,
        }
    }

    /// Moves the next few bytes of the lines to the end of a text, 4,098 at most, and
    /// says whether there were any.
    pub fn push_next(&mut self, text: &mut Vec<u8>) -> Result<bool, AllocError>
        ensures moves { OnOk result (text.new.items ++ self.new ≡ text.old.items ++ self.old) }
        ensures some { IfOk result (λ some. OnTrue some (vec_len text.old < vec_len text.new)) }
        ensures none { IfOk result (λ some. OnFalse some (self.new ≡ [])) }
        ensures within { OnOk result (vec_len text.new ≤ vec_len text.old + 4098) }
    {
        let count = plain_front(self.rest, MAX_RUN);
        if 0 < count {
            push_run(text, self.in_line, &self.rest[..count])?;
            self.rest = &self.rest[count..];
            self.in_line = true;
            return Ok(true);
        }
        let Some((sign, rest)) = next_sign(self.rest) else {
            if !self.in_line {
                return Ok(false);
            }
            text.push(b'\n')?;
            self.in_line = false;
            return Ok(true);
        };
        push_shown_sign(text, self.in_line, sign)?;
        self.rest = rest;
        self.in_line = !sign.ends_line();
        Ok(true)
    }
}

/// Adds bytes that stand for themselves, behind the beginning of their line
/// where that has not begun.
fn push_run(text: &mut Vec<u8>, in_line: bool, run: &[u8]) -> Result<(), AllocError>
    ensures { OnOk result (text.new.items ≡ text.old.items ++ (margin in_line ++ run.now)) }
{
    if !in_line {
        text.extend_from_slice(b"| ")?;
    }
    text.extend_from_slice(run)?;
    Ok(())
}

/// Adds a sign, behind the beginning of its line where that has not begun, and before the
/// end of a line that it ends.
fn push_shown_sign(text: &mut Vec<u8>, in_line: bool, sign: Sign) -> Result<(), AllocError>
    requires { IsSign sign }
    ensures { OnOk result (text.new.items ≡ text.old.items ++ shown_sign in_line sign) }
{
    if !in_line {
        text.extend_from_slice(b"| ")?;
    }
    sign.push_spelling(text)?;
    if sign.ends_line() {
        text.push(b'\n')?;
    }
    Ok(())
}
