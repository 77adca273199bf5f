//! A line of an access log in the combined format of nginx and Apache.
ghost use Rattle.std.specs.Prelude.{◌≡◌, ◌++◌, OnOk};
ghost use Rattle.sws_access.specs.Visits.{combined_line, log_date, visit_answer, visit_front, visit_origin};

use crate::escapes::push_quoted;
use std::alloc::AllocError;
use sws_text::push_spaced;

/// What a line says of one answer.
#[derive(Clone, Copy)]
pub struct Visit<'v> {
    /// The client's address as a text, or `-` where it isn't known.
    pub address: &'v [u8],

    /// When the answer was written, in UTC, as a date of HTTP (RFC 9110, section 5.6.7).
    pub date: [u8; 29],

    /// The request line as the client has sent it; empty where there is none.
    pub request: &'v [u8],

    /// The status code.
    pub code: u16,

    /// How many bytes the body of the answer has.
    pub length: u64,

    /// What the client has sent as `Referer` and as `User-Agent`; empty where it has sent none.
    pub referer: &'v [u8],
    pub agent: &'v [u8],
}

/// Adds a date of HTTP as logs write it: `06/Nov/1994:08:49:37 +0000`.
fn push_date(text: &mut Vec<u8>, date: &[u8; 29]) -> Result<(), AllocError>
    ensures { OnOk result (text.new.items ≡ text.old.items ++ log_date date.now) }
{
    text.extend_from_slice(&date[5..7])?;
    text.push(b'/')?;
    text.extend_from_slice(&date[8..11])?;
    text.push(b'/')?;
    text.extend_from_slice(&date[12..16])?;
    text.push(b':')?;
    text.extend_from_slice(&date[17..25])?;
    text.extend_from_slice(b" +0000")?;
    Ok(())
}

/// Adds the address and the time, with what stands between them.
fn push_front(text: &mut Vec<u8>, visit: &Visit<'_>) -> Result<(), AllocError>
    ensures { OnOk result (text.new.items ≡ text.old.items ++ visit_front visit.now) }
{
    text.extend_from_slice(visit.address)?;
    text.extend_from_slice(b" - - [")?;
    push_date(text, &visit.date)?;
    text.extend_from_slice(b"] ")?;
    Ok(())
}

/// Adds what was asked for and how it was answered.
fn push_answer(text: &mut Vec<u8>, visit: &Visit<'_>) -> Result<(), AllocError>
    ensures { OnOk result (text.new.items ≡ text.old.items ++ visit_answer visit.now) }
{
    push_quoted(text, visit.request)?;
    push_spaced(text, visit.code as u64)?;
    push_spaced(text, visit.length)?;
    Ok(())
}

/// Adds what the client says of itself.
fn push_origin(text: &mut Vec<u8>, visit: &Visit<'_>) -> Result<(), AllocError>
    ensures { OnOk result (text.new.items ≡ text.old.items ++ visit_origin visit.now) }
{
    text.push(b' ')?;
    push_quoted(text, visit.referer)?;
    text.push(b' ')?;
    push_quoted(text, visit.agent)?;
    Ok(())
}

/// Adds the line of a visit, with LF: `ADDRESS - - [DATE] "REQUEST" CODE LENGTH "REFERER" "AGENT"`.
///
/// What the client has sent is escaped as nginx does it, and a part that is empty is `-`.
pub fn push_combined(text: &mut Vec<u8>, visit: &Visit<'_>) -> Result<(), AllocError>
    ensures { OnOk result (text.new.items ≡ text.old.items ++ combined_line visit.now) }
{
    push_front(text, visit)?;
    push_answer(text, visit)?;
    push_origin(text, visit)?;
    text.push(b'\n')?;
    Ok(())
}
