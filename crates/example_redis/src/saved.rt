//! A store as the bytes of a file, and back.
ghost use Rattle.std.specs.Fmt.{decimal};
ghost use Rattle.std.specs.Prelude.{◌≡◌, ◌++◌, IfOk, None, OnOk, Some, codes, length};
ghost use Rattle.example_redis.specs.Replies.{bulk};
ghost use Rattle.example_redis.specs.Saved.{begun, saved, saved_entries, saved_entry, saved_until};
ghost use Rattle.example_redis.specs.declared.limits.TheConstants.{CELLS};

use crate::frame::cut;
use crate::life::{Kept, Term, is_past};
use crate::limits::CELLS;
use crate::reply::{Reply, begin_list, write_value};
use crate::request::{Action, Change, How, Request, Tells, When};
use crate::store::{Cell, Values, ask_frame};
use itoa::Buffer;
use mely_event::Memory;
use mely_net::{Asked, Cut};
use std::alloc::{AllocError, Global};
use std::collections::BTreeMap;

/// Puts the beginning of a request of so many words that sets a key behind others.
fn begin_set(words: usize, key: &[u8], bytes: &[u8], out: &mut Vec<u8>) -> Result<(), Memory>
    ensures { OnOk result (out.new.items
        ≡ out.old.items ++ (begun words ++ bulk (codes "SET") ++ bulk key.now ++ bulk bytes.now)) }
{
    begin_list(words, out)?;
    write_value(b"SET", out)?;
    write_value(key, out)?;
    write_value(bytes, out)
}

/// Puts a deadline, as a request has it, behind others.
fn save_time(until: u64, out: &mut Vec<u8>) -> Result<(), Memory>
    ensures { OnOk result (out.new.items
        ≡ out.old.items ++ (bulk (codes "PXAT") ++ bulk (decimal until))) }
{
    let mut digits = Buffer::new();
    write_value(b"PXAT", out)?;
    write_value(digits.format(until).as_bytes(), out)
}

/// Puts the request that sets a key behind others.
fn save_value(key: &[u8], bytes: &[u8], out: &mut Vec<u8>) -> Result<(), Memory>
    ensures { OnOk result (out.new.items ≡ out.old.items ++ saved_until key.now bytes.now None) }
{
    begin_set(3, key, bytes, out)
}

/// Puts the request that sets a key until a moment behind others.
fn save_value_until(key: &[u8], bytes: &[u8], until: u64, out: &mut Vec<u8>) -> Result<(), Memory>
    ensures { OnOk result (out.new.items
        ≡ out.old.items ++ saved_until key.now bytes.now (Some until)) }
{
    begin_set(5, key, bytes, out)?;
    save_time(until, out)
}

/// Puts the request that makes an entry behind others, if its time isn't over.
fn save_entry(now: u64, key: &Vec<u8>, kept: &Kept, out: &mut Vec<u8>) -> Result<(), Memory>
    ensures { OnOk result (out.new.items ≡ out.old.items ++ saved_entry now key.now kept.now) }
{
    if is_past(now, kept.until) {
        return Ok(());
    }
    match kept.until {
        Some(until) => save_value_until(key.as_slice(), kept.bytes.as_slice(), until, out),
        None => save_value(key.as_slice(), kept.bytes.as_slice(), out),
    }
}

/// Puts those of a cell behind others.
fn save_values(now: u64, values: &Values, out: &mut Vec<u8>) -> Result<(), Memory>
    ensures { OnOk result (out.new.items
        ≡ out.old.items ++ saved_entries now values.now.entries) }
{
    'entries: for (key, kept) in values.iter() {
        save_entry(now, key, kept, out)?;
    }
    Ok(())
}

/// A store as the bytes of a file, with what is there at a moment.
///
/// # Errors
///
/// There was no memory.
pub fn save(alloc: Global, now: u64, cells: &[Cell]) -> Result<Vec<u8>, Memory>
    ensures { IfOk result (λ bytes. bytes.items ≡ saved now cells.now) }
{
    let mut out = Vec::new(alloc);
    'cells: for cell in cells {
        save_values(cell.now.max(now), &cell.values, &mut out)?;
    }
    begin_list(1, &mut out)?;
    write_value(b"QUIT", &mut out)?;
    Ok(out)
}

/// Why bytes are no store.
#[derive(Clone, Copy)]
pub enum Unsaved {
    /// They end before their end, behind so many.
    Torn(usize),

    /// There is something else behind so many.
    Damaged(usize),

    /// There was no memory.
    Memory,
}

impl From<AllocError> for Unsaved {
    fn from(_error: AllocError) -> Unsaved {
        Unsaved::Memory
    }
}

impl From<Memory> for Unsaved {
    fn from(_error: Memory) -> Unsaved {
        Unsaved::Memory
    }
}

/// Cells without a key.
///
/// # Errors
///
/// There was no memory.
pub fn no_cells(alloc: Global) -> Result<Vec<Cell>, Memory>
    ensures { IfOk result (λ cells. length cells.items ≡ CELLS) }
{
    let mut cells = Vec::new(alloc);
    'cells: for _ in 0..CELLS {
        cells.push(Cell {
            now: 0,
            values: BTreeMap::new(alloc),
        })?;
    }
    Ok(cells)
}

/// What a request in a file says.
#[derive(Drop)]
enum Said {
    /// A key of a cell has this value.
    Entry(u16, Vec<u8>, Kept),

    /// That is all.
    End,

    /// Something else.
    Other,
}

/// What a request that sets a key says in a file.
fn read_set(cell: u16, key: Vec<u8>, bytes: Vec<u8>, how: How) -> Said {
    let until = match how {
        How {
            when: When::Always,
            tells: Tells::Done,
            term: Term::Ever,
        } => None,
        How {
            when: When::Always,
            tells: Tells::Done,
            term: Term::Until(until),
        } => Some(until),
        _ => return Said::Other,
    };
    Said::Entry(cell, key, Kept { bytes, until })
}

/// What a request in a file says.
fn read_asked(asked: Asked<Request, Reply>) -> Said {
    match asked {
        Asked::At(cell, Request::Of(key, action)) => match action {
            Action::Make(Change::Set(bytes, how)) => read_set(cell, key, bytes, how),
            _ => Said::Other,
        },
        Asked::Last(Reply::Okay) => Said::End,
        _ => Said::Other,
    }
}

/// A key of a cell gets a value. Answers whether there is such a cell.
fn put_in(cells: &mut Vec<Cell>, cell: u16, key: Vec<u8>, value: Kept) -> Result<bool, Memory>
    ensures { OnOk result (length cells.new.items ≡ length cells.old.items) }
{
    let place = usize::from(cell);
    if place >= cells.len() {
        return Ok(false);
    }
    cells[place].values.insert(key, value)?;
    Ok(true)
}

/// The cells that the requests in a file make.
fn read(alloc: Global, bytes: &[u8]) -> Result<Vec<Cell>, Unsaved>
    ensures { IfOk result (λ cells. length cells.items ≡ CELLS) }
{
    let mut cells = no_cells(alloc)?;
    let mut from = 0;
    'requests: for _ in 0..bytes.len() {
        let rest = &bytes[from..];
        let Cut::Frame(size) = cut(rest) else {
            return Err(Unsaved::Torn(from));
        };
        match read_asked(ask_frame(alloc, &rest[..size])?) {
            Said::Entry(cell, key, value) => {
                if !put_in(&mut cells, cell, key, value)? {
                    return Err(Unsaved::Damaged(from));
                }
            }
            Said::End if size == rest.len() => return Ok(cells),
            _ => return Err(Unsaved::Damaged(from)),
        }
        from += size;
    }
    Err(Unsaved::Torn(from))
}

/// How many bytes of two lists are the same from the first one on.
fn same_bytes(one: &[u8], other: &[u8]) -> usize {
    let mut count: usize = 0;
    for (byte, second) in one.iter().zip(other.iter()) {
        if *byte != *second {
            return count;
        }
        count = count.saturating_add(1);
    }
    count
}

/// The store of a file. Written again, as at the beginning of time, it is the same bytes.
///
/// # Errors
///
/// The bytes are no store, or there was no memory.
pub fn load(alloc: Global, bytes: &[u8]) -> Result<Vec<Cell>, Unsaved>
    ensures many { IfOk result (λ cells. length cells.items ≡ CELLS) }
    ensures same { IfOk result (λ cells. saved 0 cells.items ≡ bytes.now) }
{
    let cells = read(alloc, bytes)?;
    let again = save(alloc, 0, cells.as_slice())?;
    if again.as_slice() == bytes {
        Ok(cells)
    } else {
        Err(Unsaved::Damaged(same_bytes(again.as_slice(), bytes)))
    }
}
