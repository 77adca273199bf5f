//! Where a request ends, byte by byte.
//!
//! A request is an array of bulk strings, `*2 $3 GET $3 key` with a carriage return and a line feed
//! behind each part, or an inline command, a line. See RESP, the Redis serialization protocol:
//! <https://redis.io/docs/latest/develop/reference/protocol-spec/>.
ghost use Rattle.std.specs.Prelude.{◌≡◌, length};
ghost use Rattle.mely_net.specs.Cutting.{IsWithin};
ghost use Rattle.example_redis.specs.Frames.{cut_of, next_of, role_of, with_digit_of};
ghost use Rattle.example_redis.specs.declared.frame.Place.TheVariants.{Bytes, Count, Line, Size};

use crate::limits::{MOST_LINE, MOST_VALUE, MOST_WORDS};
use mely_net::Cut;

/// Why bytes are no request.
#[derive(Clone, Copy)]
pub enum Fault {
    /// The number of words isn't one, or too large.
    Count,

    /// The size of a word isn't one, or too large.
    Size,

    /// A word begins with this in place of `$`.
    NoWord(u8),

    /// A word doesn't end with its line.
    NoEnd,

    /// An inline command has too many bytes.
    LongLine,
}

/// What was read last, and what is to come.
#[derive(Clone, Copy)]
pub enum Place {
    /// A request begins.
    Start,

    /// An inline command, of so many bytes till now.
    Line(u32),

    /// The digits of the number of words, as far as they were read.
    Count(Option<u32>),

    /// The line feed behind it.
    CountEnd(u32),

    /// The dollar sign of the first of so many words.
    Word(u32),

    /// The digits of its size.
    Size(u32, Option<u32>),

    /// The line feed behind that.
    SizeEnd(u32, u32),

    /// So many bytes of it, and the carriage return behind them.
    Bytes(u32, u32),

    /// The line feed behind that.
    BytesEnd(u32),
}

/// What comes of a byte.
#[derive(Clone, Copy)]
pub enum Next {
    /// The request goes on.
    Goes(Place),

    /// It ends with this byte.
    Whole,

    /// This byte belongs to no request.
    Wrong(Fault),
}

/// What a byte is to the words of a request.
#[derive(Clone, Copy)]
pub enum Role {
    /// Nothing.
    Between,

    /// A byte of a word.
    Inside,

    /// It stands behind a word, which may be empty.
    Behind,

    /// It stands behind a word, if there was one.
    Space,
}

/// A number with a further digit, if that is one, and the number has no zero in front and isn't
/// greater than the most.
fn with_digit(number: Option<u32>, byte: u8, most: u32) -> Option<u32>
    ensures { result ≡ with_digit_of number byte most }
{
    if !byte.is_ascii_digit() {
        return None;
    }
    let digit = u32::from(byte - b'0');
    let Some(before) = number else {
        return Some(digit);
    };
    if before == 0 {
        return None;
    }
    let longer = u64::from(before) * 10 + u64::from(digit);
    if longer <= u64::from(most) {
        Some(longer as u32)
    } else {
        None
    }
}

/// What comes of a byte in the number of words.
fn next_of_count(number: Option<u32>, byte: u8) -> Next
    ensures { result ≡ next_of (Count number) byte }
{
    if byte == b'\r' {
        match number {
            Some(words) => Next::Goes(Place::CountEnd(words)),
            None => Next::Wrong(Fault::Count),
        }
    } else {
        match with_digit(number, byte, MOST_WORDS) {
            Some(longer) => Next::Goes(Place::Count(Some(longer))),
            None => Next::Wrong(Fault::Count),
        }
    }
}

/// What comes of a byte in the size of a word.
fn next_of_size(words: u32, number: Option<u32>, byte: u8) -> Next
    ensures { result ≡ next_of (Size words number) byte }
{
    if byte == b'\r' {
        match number {
            Some(size) => Next::Goes(Place::SizeEnd(words, size)),
            None => Next::Wrong(Fault::Size),
        }
    } else {
        match with_digit(number, byte, MOST_VALUE) {
            Some(longer) => Next::Goes(Place::Size(words, Some(longer))),
            None => Next::Wrong(Fault::Size),
        }
    }
}

/// What comes of a byte in an inline command of so many bytes.
fn next_of_line(count: u32, byte: u8) -> Next
    ensures { result ≡ next_of (Line count) byte }
{
    if byte == b'\n' {
        Next::Whole
    } else if count < MOST_LINE {
        Next::Goes(Place::Line(count + 1))
    } else {
        Next::Wrong(Fault::LongLine)
    }
}

/// What comes of a byte in a word.
fn next_of_bytes(words: u32, left: u32, byte: u8) -> Next
    ensures { result ≡ next_of (Bytes words left) byte }
{
    if left > 0 {
        Next::Goes(Place::Bytes(words, left - 1))
    } else if byte == b'\r' {
        Next::Goes(Place::BytesEnd(words))
    } else {
        Next::Wrong(Fault::NoEnd)
    }
}

/// What comes of a byte behind the first ones of a request.
pub fn next_at(place: Place, byte: u8) -> Next
    ensures { result ≡ next_of place byte }
{
    match place {
        Place::Start => match byte {
            b'*' => Next::Goes(Place::Count(None)),
            b'\n' => Next::Whole,
            _ => Next::Goes(Place::Line(1)),
        },
        Place::Line(count) => next_of_line(count, byte),
        Place::Count(number) => next_of_count(number, byte),
        Place::Size(words, number) => next_of_size(words, number, byte),
        Place::Bytes(words, left) => next_of_bytes(words, left, byte),
        Place::CountEnd(0) if byte == b'\n' => Next::Whole,
        Place::CountEnd(words) if byte == b'\n' => Next::Goes(Place::Word(words)),
        Place::CountEnd(_) => Next::Wrong(Fault::Count),
        Place::Word(words) if byte == b'$' => Next::Goes(Place::Size(words, None)),
        Place::Word(_) => Next::Wrong(Fault::NoWord(byte)),
        Place::SizeEnd(words, size) if byte == b'\n' => Next::Goes(Place::Bytes(words, size)),
        Place::SizeEnd(_, _) => Next::Wrong(Fault::Size),
        Place::BytesEnd(words) if byte == b'\n' && words > 1 => {
            Next::Goes(Place::Word(words - 1))
        }
        Place::BytesEnd(_) if byte == b'\n' => Next::Whole,
        Place::BytesEnd(_) => Next::Wrong(Fault::NoEnd),
    }
}

/// What a byte behind the first ones of a request is to its words.
pub fn role_at(place: Place, byte: u8) -> Role
    ensures { result ≡ role_of place byte }
{
    match place {
        Place::Start if byte == b'*' => Role::Between,
        Place::Start | Place::Line(_) => {
            if byte.is_ascii_whitespace() {
                Role::Space
            } else {
                Role::Inside
            }
        }
        Place::Bytes(_, 0) => Role::Behind,
        Place::Bytes(_, _) => Role::Inside,
        _ => Role::Between,
    }
}

/// Where the first request of some bytes ends. Where they begin with none, the frame ends with the
/// byte that shows it.
pub fn cut(bytes: &[u8]) -> Cut
    ensures cut { result ≡ cut_of bytes.now }
    ensures within { IsWithin result (length bytes.now) }
{
    let mut place = Place::Start;
    for (i, byte) in bytes.iter().enumerate() {
        match next_at(place, *byte) {
            Next::Goes(further) => place = further,
            Next::Whole | Next::Wrong(_) => return Cut::Frame(i + 1),
        }
    }
    Cut::More
}
