//! Which keys a pattern matches, as `*`, `?`, `[a-z]` and `\` have it.
//!
//! A pattern is read into parts once. Then a key is gone through from its first byte: behind a `*`
//! the parts up to the next one are tried at one byte after another, and once they were found there
//! nothing in front of them is tried again. So a key takes at most as many steps as the pattern's
//! parts times its bytes, whatever the pattern.
ghost use Rattle.std.specs.Prelude.{◌≡◌, ◌≤◌, ◌<◌, ◌∷◌, IfOk, OnOk, length, map};
ghost use Rattle.example_redis.specs.Globs.{close_at, deed_at, deed_within, is_among, is_between, is_star, last_at, matches, no_parts, part_of, parts_of, place_behind, place_within, takes, with_deed};
ghost use Rattle.example_redis.specs.Globbing.{Ends};
ghost use Rattle.example_redis.specs.declared.glob.Deed.TheVariants as deed;

use mely_event::Memory;
use std::alloc::Global;
use std::marker::Model;
use std::mem;

/// A part of a pattern.
#[derive(Drop)]
pub enum Part {
    /// Any bytes, also none.
    Many,

    /// One byte in one of these ranges or, if so said, in none of them.
    One(bool, Vec<(u8, u8)>),
}

/// What was read last of a pattern.
#[derive(Clone, Copy)]
pub enum Place {
    /// Something outside of classes.
    Plain,

    /// A `\` there.
    Escaped,

    /// The `[` of a class.
    Opened,

    /// Something of a class.
    Inside,

    /// A `\` in a class.
    Quoted,

    /// A byte in a class, with which a range may begin.
    Behind(u8),

    /// This byte, and a `-`.
    Dashed(u8),
}

/// What a byte of a pattern does to its parts.
#[derive(Clone, Copy)]
pub enum Deed {
    Nothing,

    /// There is a `*` more.
    Many,

    /// There is a `?` more.
    Any,

    /// There is a byte more.
    Byte(u8),

    /// The class is turned round.
    Other,

    /// The class has a range more.
    Range(u8, u8),

    /// The class is a part.
    Close,
}

/// Where a pattern goes on behind a byte within a class.
fn next_within(byte: u8) -> Place
    ensures { result ≡ place_within byte }
{
    if byte == b']' {
        Place::Plain
    } else if byte == b'\\' {
        Place::Quoted
    } else {
        Place::Behind(byte)
    }
}

/// Where a pattern goes on behind a byte.
fn next_place(place: Place, byte: u8) -> Place
    ensures { result ≡ place_behind place byte }
{
    match place {
        Place::Plain => {
            if byte == b'\\' {
                Place::Escaped
            } else if byte == b'[' {
                Place::Opened
            } else {
                Place::Plain
            }
        }
        Place::Escaped => Place::Plain,
        Place::Opened => {
            if byte == b'^' {
                Place::Inside
            } else {
                next_within(byte)
            }
        }
        Place::Inside => next_within(byte),
        Place::Quoted => Place::Inside,
        Place::Behind(first) => {
            if byte == b'-' {
                Place::Dashed(first)
            } else {
                next_within(byte)
            }
        }
        Place::Dashed(_) => Place::Inside,
    }
}

/// What a byte within a class does.
fn done_within(byte: u8) -> Deed
    ensures { result ≡ deed_within byte }
{
    if byte == b']' {
        Deed::Close
    } else if byte == b'\\' {
        Deed::Nothing
    } else {
        Deed::Range(byte, byte)
    }
}

/// What a byte does.
fn done_at(place: Place, byte: u8) -> Deed
    ensures { result ≡ deed_at place byte }
{
    match place {
        Place::Plain => {
            if byte == b'*' {
                Deed::Many
            } else if byte == b'?' {
                Deed::Any
            } else if byte == b'\\' || byte == b'[' {
                Deed::Nothing
            } else {
                Deed::Byte(byte)
            }
        }
        Place::Escaped => Deed::Byte(byte),
        Place::Opened => {
            if byte == b'^' {
                Deed::Other
            } else {
                done_within(byte)
            }
        }
        Place::Inside => done_within(byte),
        Place::Quoted => Deed::Range(byte, byte),
        Place::Behind(_) => {
            if byte == b'-' {
                Deed::Nothing
            } else {
                done_within(byte)
            }
        }
        Place::Dashed(first) => Deed::Range(first, byte),
    }
}

/// What the end of a pattern does first.
fn done_last(place: Place) -> Deed
    ensures { result ≡ last_at place }
{
    match place {
        Place::Escaped => Deed::Byte(b'\\'),
        Place::Quoted => Deed::Range(b'\\', b'\\'),
        Place::Dashed(_) => Deed::Range(b'-', b'-'),
        Place::Plain | Place::Opened | Place::Inside | Place::Behind(_) => Deed::Nothing,
    }
}

/// What it does then.
fn closed_at(place: Place) -> Deed
    ensures { result ≡ close_at place }
{
    match place {
        Place::Plain | Place::Escaped => Deed::Nothing,
        Place::Opened | Place::Inside | Place::Quoted | Place::Behind(_) | Place::Dashed(_) => {
            Deed::Close
        }
    }
}

/// The parts of a pattern that are whole, and the class that is read.
#[derive(Drop)]
struct Reading {
    parts: Vec<Part>,
    other: bool,
    ranges: Vec<(u8, u8)>,
}

impl Model for Reading {
    ghost use Rattle.std.specs.Prelude.{map};
    ghost use Rattle.example_redis.specs.Globs.{Reading, part_of};

    ghost Value = { Reading };

    ghost view = { λ reading. record {
      parts = map part_of reading.parts.items;
      other = reading.other;
      ranges = reading.ranges.items;
    } };
}

impl Reading {
    /// There are none.
    fn new(alloc: Global) -> Reading
        ensures { result ≡ no_parts }
    {
        Reading {
            parts: Vec::new(alloc),
            other: false,
            ranges: Vec::new(alloc),
        }
    }

    /// There is one byte more, of one range at most.
    fn add_one(&mut self, alloc: Global, byte: u8) -> Result<(), Memory>
        ensures { OnOk result (self.new ≡ with_deed (deed.Byte byte) self.old) }
    {
        let mut ranges = Vec::new(alloc);
        ranges.push((byte, byte))?;
        self.parts.push(Part::One(false, ranges))?;
        Ok(())
    }

    /// The class is a part.
    fn close(&mut self, alloc: Global) -> Result<(), Memory>
        ensures { OnOk result (self.new ≡ with_deed deed.Close self.old) }
    {
        let ranges = mem::replace(&mut self.ranges, Vec::new(alloc));
        self.parts.push(Part::One(self.other, ranges))?;
        self.other = false;
        Ok(())
    }

    /// Something is done to them.
    fn add(&mut self, alloc: Global, deed: Deed) -> Result<(), Memory>
        ensures { OnOk result (self.new ≡ with_deed deed self.old) }
    {
        match deed {
            Deed::Nothing => {}
            Deed::Many => self.parts.push(Part::Many)?,
            Deed::Any => self.parts.push(Part::One(true, Vec::new(alloc)))?,
            Deed::Byte(byte) => return self.add_one(alloc, byte),
            Deed::Other => self.other = true,
            Deed::Range(first, last) => self.ranges.push((first, last))?,
            Deed::Close => return self.close(alloc),
        }
        Ok(())
    }
}

/// The parts of a pattern.
///
/// # Errors
///
/// There was no memory.
pub fn read_parts(alloc: Global, pattern: &[u8]) -> Result<Vec<Part>, Memory>
    ensures { IfOk result (λ parts. map part_of parts.items ≡ parts_of pattern.now) }
{
    let mut reading = Reading::new(alloc);
    let mut place = Place::Plain;
    for byte in pattern {
        reading.add(alloc, done_at(place, *byte))?;
        place = next_place(place, *byte);
    }
    reading.add(alloc, done_last(place))?;
    reading.add(alloc, closed_at(place))?;
    Ok(reading.parts)
}

/// Whether a byte is in a range.
fn is_in(byte: u8, range: (u8, u8)) -> bool
    ensures { result ≡ is_between byte range }
{
    (range.0 <= byte && byte <= range.1) || (range.1 <= byte && byte <= range.0)
}

/// Whether a byte is in one of these ranges.
fn is_in_any(byte: u8, ranges: &[(u8, u8)]) -> bool
    ensures { result ≡ is_among byte ranges.now }
{
    'each: for range in ranges {
        if is_in(byte, *range) {
            return true;
        }
    }
    false
}

impl Part {
    /// Whether it is `*`.
    fn is_many(&self) -> bool
        ensures { result ≡ is_star (part_of self.now) }
    {
        match self {
            Part::Many => true,
            Part::One(..) => false,
        }
    }

    /// Whether one byte is it.
    fn is(&self, byte: u8) -> bool
        ensures { result ≡ takes (part_of self.now) byte }
    {
        match self {
            Part::Many => false,
            Part::One(true, ranges) => !is_in_any(byte, ranges.as_slice()),
            Part::One(false, ranges) => is_in_any(byte, ranges.as_slice()),
        }
    }
}

/// So many parts were passed, and so many bytes.
#[derive(Clone, Copy)]
pub struct Spot {
    pub part: usize,
    pub byte: usize,
}

/// How parts end that were tried at a spot.
#[derive(Clone, Copy)]
pub enum End {
    /// They match what is left of the key.
    Whole,

    /// They match no such key.
    Stuck,

    /// There is a `*` among them, and this is behind it.
    Starred(Spot),
}

/// Tries the parts from a spot on, up to the next `*`.
fn run(parts: &[Part], key: &[u8], from: Spot) -> End
    requires part { from.part ≤ length parts.now }
    requires byte { from.byte ≤ length key.now }
    ensures { Ends parts.now key.now from result }
{
    let Spot { mut part, mut byte } = from;
    'parts: while part < parts.len() {
        let tried = &parts[part];
        if tried.is_many() {
            return End::Starred(Spot {
                part: part + 1,
                byte,
            });
        }
        if byte >= key.len() || !tried.is(key[byte]) {
            return End::Stuck;
        }
        part += 1;
        byte += 1;
    }
    if byte == key.len() {
        End::Whole
    } else {
        End::Stuck
    }
}

/// Whether the parts of a pattern match a key.
pub fn is_match(parts: &[Part], key: &[u8]) -> bool
    ensures { result ≡ matches (map part_of parts.now) key.now }
{
    let mut from = match run(parts, key, Spot { part: 0, byte: 0 }) {
        End::Whole => return true,
        End::Stuck => return false,
        End::Starred(spot) => spot,
    };
    'starts: loop {
        match run(parts, key, from) {
            End::Whole => return true,
            End::Starred(spot) => from = spot,
            End::Stuck if from.byte < key.len() => from.byte += 1,
            End::Stuck => return false,
        }
    }
}
