//! A file as a text.
ghost use Rattle.std.specs.Prelude.{◌≡◌, ◌++◌, IfOk, OnOk};
ghost use Rattle.sws_gopher.specs.Texts.{text_of, text_line};

use std::alloc::{AllocError, Global};
use sws_text::first_line;

/// What ends a text and a menu.
pub(crate) const LAST_LINE: &[u8] = b".\r\n";

/// The text of a file of these contents: its lines, each with one more full stop in front where it
/// begins with one, and without a CR of its own at the end; and the line of one full stop.
pub(crate) fn text_in(alloc: Global, contents: &[u8]) -> Result<Vec<u8>, AllocError>
    ensures { IfOk result (λ text. text.items ≡ text_of contents.now) }
{
    let mut text = Vec::new(alloc);
    let mut rest = contents;
    'lines: while let Some((line, after)) = first_line(rest) {
        push_line(&mut text, line)?;
        rest = after;
    }
    text.extend_from_slice(LAST_LINE)?;
    Ok(text)
}

/// Adds a line of a file, which has no LF.
fn push_line(text: &mut Vec<u8>, line: &[u8]) -> Result<(), AllocError>
    ensures { OnOk result (text.new.items ≡ text.old.items ++ text_line line.now) }
{
    let line = line.strip_suffix(b"\r").unwrap_or(line);
    if line.starts_with(b".") {
        text.push(b'.')?;
    }
    text.extend_from_slice(line)?;
    text.extend_from_slice(b"\r\n")?;
    Ok(())
}
