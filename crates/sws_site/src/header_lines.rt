//! The lines that the owner of a site adds to the heads of its responses.
ghost use Rattle.std.specs.Prelude.{◌≡◌, ◌≤◌, ◌+◌, ◌++◌, None, IfNone, OnOk, OnErr, IfOk, IfErr, [], length, ℕ, List};
ghost use Rattle.sws_site.specs.HeaderFields.{is_one_of, connection_names, content_names, is_sent_name, header_fault, header_text, header_limit, IsHeaderFault};

use crate::header_faults::HeaderFault;
use crate::tokens::{is_field_value, is_token};
use std::alloc::{AllocError, Global};
use std::marker::Model;

/// The most bytes that the lines have together, with their ends.
const MAX_HEADERS: usize = 1024;

/// Whether the field names the server, a place or a state of the connection.
fn is_connection_name(name: &[u8]) -> bool
    ensures { result ≡ is_one_of connection_names name.now }
{
    name.eq_ignore_ascii_case(b"Server")
        || name.eq_ignore_ascii_case(b"Date")
        || name.eq_ignore_ascii_case(b"Location")
        || name.eq_ignore_ascii_case(b"Connection")
        || name.eq_ignore_ascii_case(b"Keep-Alive")
        || name.eq_ignore_ascii_case(b"Upgrade")
        || name.eq_ignore_ascii_case(b"Transfer-Encoding")
        || name.eq_ignore_ascii_case(b"Trailer")
}

/// Whether the field tells of a file or of its content.
fn is_content_name(name: &[u8]) -> bool
    ensures { result ≡ is_one_of content_names name.now }
{
    name.eq_ignore_ascii_case(b"Last-Modified")
        || name.eq_ignore_ascii_case(b"Allow")
        || name.eq_ignore_ascii_case(b"Accept-Ranges")
        || name.eq_ignore_ascii_case(b"Content-Range")
        || name.eq_ignore_ascii_case(b"Content-Type")
        || name.eq_ignore_ascii_case(b"Content-Length")
        || name.eq_ignore_ascii_case(b"Content-Encoding")
}

/// Whether the server answers for fields of this name itself.
fn is_sent_name(name: &[u8]) -> bool
    ensures { result ≡ is_sent_name name.now }
{
    is_connection_name(name) || is_content_name(name)
}

/// Header fields, one a line, each with its end, of at most 1,024 bytes together.
#[derive(Drop)]
pub struct HeaderLines {
    text: Vec<u8>,
}

impl Model for HeaderLines {
    ghost use Rattle.std.specs.Prelude.{ℕ, List};

    ghost Value = { List ℕ };

    ghost use Rattle.std.specs.Prelude.{◌≤◌, length};
    ghost use Rattle.sws_site.specs.HeaderFields.{header_limit};

    ghost view = { λ lines. lines.text.items };

    ghost invariant = { λ lines. length lines.text.items ≤ header_limit };
}

/// The line of this field, with its end.
fn header_text(alloc: Global, name: &[u8], value: &[u8]) -> Result<Vec<u8>, AllocError>
    ensures { IfOk result (λ line. line.items ≡ header_text name.now value.now) }
{
    let mut line = Vec::new(alloc);
    line.extend_from_slice(name)?;
    line.extend_from_slice(b": ")?;
    line.extend_from_slice(value)?;
    line.extend_from_slice(b"\r\n")?;
    Ok(line)
}

impl HeaderLines {
    /// No line.
    pub fn none(alloc: Global) -> HeaderLines
        ensures { result ≡ [] }
    {
        HeaderLines {
            text: Vec::new(alloc),
        }
    }

    /// Why a field can't be added, if it can't.
    fn fault(&self, name: &[u8], value: &[u8]) -> Option<HeaderFault>
        ensures fault { result ≡ header_fault self.now name.now value.now }
        ensures fits { IfNone result
            (length self.now + length name.now + length value.now + 4 ≤ header_limit) }
    {
        if !is_token(name) {
            return Some(HeaderFault::BadName);
        }
        if !is_field_value(value) {
            return Some(HeaderFault::BadValue);
        }
        if is_sent_name(name) {
            return Some(HeaderFault::SentAlready);
        }
        if name.len() > MAX_HEADERS || value.len() > MAX_HEADERS {
            return Some(HeaderFault::TooLong);
        }
        if self.text.len() + name.len() + value.len() + 4 > MAX_HEADERS {
            return Some(HeaderFault::TooLong);
        }
        None
    }

    /// Adds a line behind the others: the name, a colon, a space and the value.
    ///
    /// # Errors
    ///
    /// The first cause that holds, in the order `BadName`, `BadValue`, `SentAlready`, `TooLong`; or
    /// `Memory`, where an allocation was refused. Then the lines are as before.
    pub fn add(&mut self, alloc: Global, name: &[u8], value: &[u8]) -> Result<(), HeaderFault>
        ensures added { OnOk result (self.new ≡ self.old ++ header_text name.now value.now) }
        ensures short { length self.new ≤ header_limit }
        ensures sound { OnOk result (header_fault self.old name.now value.now ≡ None) }
        ensures kept { OnErr result (self.new ≡ self.old) }
        ensures cause { IfErr result
            (IsHeaderFault (header_fault self.old name.now value.now)) }
    {
        if let Some(fault) = self.fault(name, value) {
            return Err(fault);
        }
        let line = header_text(alloc, name, value)?;
        self.text.extend_from_slice(&line)?;
        Ok(())
    }

    /// The lines, each with its end.
    pub fn text(&self) -> &[u8]
        ensures text { result.now ≡ self.now }
        ensures short { length result.now ≤ header_limit }
    {
        &self.text
    }

    /// The same lines once more.
    pub fn copy(&self, alloc: Global) -> Result<HeaderLines, AllocError>
        ensures { IfOk result (λ copied. copied ≡ self.now) }
    {
        Ok(HeaderLines {
            text: Vec::from_slice(alloc, &self.text)?,
        })
    }
}
