//! For how many seconds files may be kept, by the ends of their names.
ghost use Rattle.std.specs.Prelude.{◌≡◌, ◌<◌, ◌^◌, ◌++◌, ◌∷◌, [], true, None, OnOk, OnErr, IfOk, IfErr};
ghost use Rattle.std.specs.List.{list_all};
ghost use Rattle.std.specs.Option.{ForSome};
ghost use Rattle.std.specs.Str.{bytes_eq};
ghost use Rattle.sws_site.specs.Ages.{age_of};
ghost use Rattle.sws_site.specs.OwnAges.{ages_of, own_age, longest_age, is_name_byte, is_end, are_short_ages, age_fault, IsAgeFault};

use crate::age_faults::AgeFault;
use crate::options::SiteOptions;
use std::alloc::{AllocError, Global};
use std::marker::Model;

/// For how many ends of names an age is given at most.
const MAX_AGES: usize = 64;

/// Whether the name of a file may have the byte.
fn is_name_byte(byte: u8) -> bool
    ensures { result ≡ is_name_byte byte }
{
    !(byte == 0 || byte == b'/')
}

/// Whether the name of a file may have each byte.
fn are_name_bytes(bytes: &[u8]) -> bool
    ensures { result ≡ list_all is_name_byte bytes.now }
{
    for byte in bytes {
        if !is_name_byte(*byte) {
            return false;
        }
    }
    true
}

/// Whether a name of a file may end so.
fn is_end(bytes: &[u8]) -> bool
    ensures { result ≡ is_end bytes.now }
{
    !bytes.is_empty() && are_name_bytes(bytes)
}

/// Whether it is this end.
fn is_same_end(known: &[u8], end: &[u8]) -> bool
    ensures { result ≡ bytes_eq known.now end.now }
{
    known == end
}

/// The age of just this end, if it has one.
fn own_age(rows: &[(Vec<u8>, u32)], end: &[u8]) -> Option<u32>
    ensures { result ≡ own_age (ages_of rows.now) end.now }
{
    for (known, seconds) in rows {
        if is_same_end(known, end) {
            return Some(*seconds);
        }
    }
    None
}

/// The age of the longest end that the name has, if it has one of them.
fn longest_age(rows: &[(Vec<u8>, u32)], name: &[u8]) -> Option<u32>
    ensures { result ≡ longest_age (ages_of rows.now) name.now }
{
    let mut start = 0;
    'ends: while start < name.len() {
        let age = own_age(rows, &name[start..]);
        if age.is_some() {
            return age;
        }
        start += 1;
    }
    None
}

/// For how many seconds a file of this name may be kept, if that is said.
pub(crate) fn age_of(options: &SiteOptions, name: &[u8]) -> Option<u32>
    ensures age { result ≡ age_of options.now name.now }
    ensures short { ForSome result (λ seconds. seconds < 2 ^ 32) }
{
    options.added.ages.longest(name).or(options.added.max_age)
}

/// The same rows once more.
fn copy_rows(alloc: Global, rows: &[(Vec<u8>, u32)]) -> Result<Vec<(Vec<u8>, u32)>, AllocError>
    ensures { IfOk result (λ copied. ages_of copied.items ≡ ages_of rows.now) }
{
    let mut copied = Vec::new(alloc);
    for (end, seconds) in rows {
        let end = Vec::from_slice(alloc, end)?;
        copied.push((end, *seconds))?;
    }
    Ok(copied)
}

/// For how many seconds files may be kept, each age behind the end of names that it is for: 64 at
/// most, and none of an end twice.
#[derive(Drop)]
pub struct OwnAges {
    rows: Vec<(Vec<u8>, u32)>,
}

impl Model for OwnAges {
    ghost use Rattle.std.specs.Prelude.{ℕ, List};

    ghost Value = { List (List ℕ × ℕ) };

    ghost use Rattle.std.specs.Prelude.{◌≡◌, true};
    ghost use Rattle.sws_site.specs.OwnAges.{are_short_ages, ages_of};

    ghost view = { λ ages. ages_of ages.rows.items };

    ghost invariant = { λ ages. are_short_ages (ages_of ages.rows.items) ≡ true };
}

impl OwnAges {
    /// No age.
    pub fn none(alloc: Global) -> OwnAges
        ensures { result ≡ [] }
    {
        OwnAges {
            rows: Vec::new(alloc),
        }
    }

    /// Read for contracts: no age is longer than 32 bits can say, which its type keeps.
    fn are_short(&self)
        ensures { are_short_ages self.now ≡ true }
    {
        let _ = &self.rows;
    }

    /// Why an age can't be given for this end, if it can't.
    fn fault(&self, end: &[u8]) -> Option<AgeFault>
        ensures { result ≡ age_fault self.now end.now }
    {
        if !is_end(end) {
            return Some(AgeFault::BadEnd);
        }
        if own_age(&self.rows, end).is_some() {
            return Some(AgeFault::GivenTwice);
        }
        if self.rows.len() >= MAX_AGES {
            return Some(AgeFault::TooMany);
        }
        None
    }

    /// Gives an age, in seconds, to the files whose names have this end.
    ///
    /// # Errors
    ///
    /// The first cause that holds, in the order `BadEnd`, `GivenTwice`, `TooMany`; or `Memory`,
    /// where an allocation was refused. Then the ages are as before.
    pub fn add(&mut self, alloc: Global, end: &[u8], seconds: u32) -> Result<(), AgeFault>
        ensures added { OnOk result (self.new ≡ self.old ++ (end.now, seconds) ∷ []) }
        ensures short { are_short_ages self.new ≡ true }
        ensures sound { OnOk result (age_fault self.old end.now ≡ None) }
        ensures kept { OnErr result (self.new ≡ self.old) }
        ensures cause { IfErr result (IsAgeFault (age_fault self.old end.now)) }
    {
        self.are_short();
        if let Some(fault) = self.fault(end) {
            return Err(fault);
        }
        let end = Vec::from_slice(alloc, end)?;
        match self.rows.push((end, seconds)) {
            Ok(()) => Ok(()),
            Err(_) => Err(AgeFault::Memory),
        }
    }

    /// The age of the longest end that the name has, if it has one of them.
    pub fn longest(&self, name: &[u8]) -> Option<u32>
        ensures { result ≡ longest_age self.now name.now }
    {
        longest_age(&self.rows, name)
    }

    /// The same ages once more.
    pub fn copy(&self, alloc: Global) -> Result<OwnAges, AllocError>
        ensures { IfOk result (λ copied. copied ≡ self.now) }
    {
        Ok(OwnAges {
            rows: copy_rows(alloc, &self.rows)?,
        })
    }
}
