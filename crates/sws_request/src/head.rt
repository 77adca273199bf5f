//! The end of a head.
ghost use Rattle.std.specs.Prelude.{◌≡◌, ◌≢◌, ◌<◌, ◌↔◌, false, ℕ, List, ◌++◌, length, IsTrue};
ghost use Rattle.sws_request.specs.declared.cuts.Cut.{Cut as CutValue};
ghost use Rattle.sws_request.specs.Head.{IsCutOf, IsEmptyLine, head_limit};
ghost use Rattle.sws_request.specs.Cuts.{cut_of};
ghost use Rattle.sws_request.specs.Scans.{StandsFor, whole_lines, IsFound, EndsWithin};

use crate::{Cut, Scan};
use memchr::memchr;

/// The most bytes that a head has.
pub const MAX_HEAD: usize = 8192;

/// Where the first head of the bytes ends (RFC 9112, section 2.2).
///
/// A line ends at LF, and an empty one is LF or CR LF. A head is any number of empty lines, then at
/// least one other line, then lines up to and with the first empty one.
pub fn cut(bytes: &[u8]) -> Cut
    ensures cut { IsCutOf bytes.now result }
    ensures only { result ≡ cut_of bytes.now }
{
    scan(bytes, Scan::start()).0
}

/// The cut of some bytes of which the front was searched already, and how far that is searched now.
///
/// `rest` is what comes behind the bytes that `from` stands for; these are not needed again. Where
/// more bytes may still make up a head, the scan stands for all lines that are whole now;
/// otherwise it is that of no bytes.
pub fn scan(rest: &[u8], from: Scan) -> (Cut, Scan)
    requires { from.at < head_limit }
    ensures cut { (front : List ℕ) → StandsFor from front → result.0 ≡ cut_of (front ++ rest.now) }
    ensures goes_on { (front : List ℕ) → StandsFor from front → result.0 ≡ Cut.NotYet
        → StandsFor result.1 (whole_lines (front ++ rest.now)) }
    ensures starts { result.0 ≢ Cut.NotYet → result.1 ≡ record { at = 0; begun = false } }
{
    let room = MAX_HEAD - from.at;
    let most = rest.len().min(room);
    match find_end(&rest[..most], from.begun) {
        Found::End(len) => (Cut::Head { len: from.at + len }, Scan::start()),
        Found::Lines(lines) if rest.len() < room => (
            Cut::NotYet,
            Scan {
                at: from.at + lines.at,
                begun: lines.begun,
            },
        ),
        Found::Lines(_) => (Cut::TooLong, Scan::start()),
    }
}

/// What a search of some bytes finds.
enum Found {
    /// The head ends after so many bytes.
    End(usize),
    /// It doesn't end in these lines.
    Lines(Scan),
}

/// Looks for the end of a head, of which a line that isn't empty has come before or not.
fn find_end(bytes: &[u8], begun: bool) -> Found
    ensures found { IsFound begun bytes.now result }
    ensures within { EndsWithin result (length bytes.now) }
{
    let mut start = 0;
    let mut begun = begun;
    while let Some(feed) = memchr(b'\n', &bytes[start..]) {
        let end = start + feed + 1;
        let is_empty = is_empty_line(&bytes[start..end]);
        if is_empty && begun {
            return Found::End(end);
        }
        begun = begun | !is_empty;
        start = end;
    }
    Found::Lines(Scan { at: start, begun })
}

/// Whether the line is LF or CR LF.
fn is_empty_line(line: &[u8]) -> bool
    ensures { IsTrue result ↔ IsEmptyLine line.now }
{
    line == b"\n".as_slice() || line == b"\r\n".as_slice()
}

/// More bytes do not change where a head ends, nor that it is too long.
pub fn cut_is_stable()
    ensures { (bytes more : List ℕ) → cut_of bytes ≢ CutValue.NotYet
        → cut_of (bytes ++ more) ≡ cut_of bytes }
{}
