//! The script of a chat.
ghost use Rattle.std.specs.Prelude.{◌≡◌, ◌≤◌, IfOk, IfSome, length};
ghost use Rattle.std.specs.List.{AllByRecursion};
ghost use Rattle.example_chat.specs.Chats.{IsByClient};

use crate::chat::{CLIENTS, LINES};
use mely_event::Memory;
use std::alloc::Global;

/// A line of the script.
#[derive(Drop)]
pub struct Line {
    /// Who says it: from 1 to the number of clients.
    pub client: u16,

    /// What it says.
    pub text: Vec<u8>,
}

/// The line that a text says, as `CLIENT WORDS..`; `None` where it is no line of a script.
///
/// # Errors
///
/// There was no memory.
fn read_line(alloc: Global, line: &str) -> Result<Option<Line>, Memory>
    ensures { IfOk result (λ read. IfSome read IsByClient) }
{
    let Some((client, said)) = line.split_once(' ') else {
        return Ok(None);
    };
    let Ok(client) = client.parse::<u16>() else {
        return Ok(None);
    };
    if client == 0 || client > CLIENTS {
        return Ok(None);
    }
    let mut text = Vec::new(alloc);
    text.extend_from_slice(said.as_bytes())?;
    Ok(Some(Line { client, text }))
}

/// The lines of a script, in order; `None` where it is no text, a line is wrong or there are more
/// than 256.
///
/// # Errors
///
/// There was no memory.
pub fn read_script(alloc: Global, bytes: &[u8]) -> Result<Option<Vec<Line>>, Memory>
    ensures few { IfOk result (λ read. IfSome read (λ lines. length lines.items ≤ 256)) }
    ensures clients { IfOk result (λ read. IfSome read (λ lines.
        AllByRecursion IsByClient lines.items)) }
{
    let Ok(text) = str::from_utf8(bytes) else {
        return Ok(None);
    };
    let mut lines = Vec::new(alloc);
    'lines: for line in text.lines() {
        let Some(line) = read_line(alloc, line)? else {
            return Ok(None);
        };
        if lines.len() >= LINES {
            return Ok(None);
        }
        lines.push(line)?;
    }
    Ok(Some(lines))
}
