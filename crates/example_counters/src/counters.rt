//! Counters, as a service.
ghost use Rattle.std.specs.Prelude.{◌≡◌, []};
ghost use Rattle.example_counters.specs.Counting.{IsCounted, IsPlaced, IsRefused, line_end, line_end-steady, shown_reply, value_at};
ghost use Rattle.example_counters.specs.declared.counters.TheConstants.{CELLS, LONGEST};

use itoa::Buffer;
use mely_event::Memory;
use mely_net::{Asked, Cut, Service};
use std::alloc::Global;
use std::collections::BTreeMap;

/// How many cells the counters are spread over.
pub const CELLS: u16 = 16;

/// How many bytes a line has at most, with its line feed.
pub const LONGEST: usize = 128;

/// What a cell is asked.
#[derive(Drop)]
pub enum Request {
    /// To add to a counter.
    Add(u64, u64),

    /// To tell one.
    Get(u64),
}

/// What is replied.
#[derive(Drop)]
pub enum Reply {
    /// What a counter is.
    Number(u64),

    /// That a line asks nothing.
    Unknown,

    /// To who quits.
    Bye,
}

/// Counters under numbers.
#[derive(Drop)]
pub struct Counters;

/// What a counter is; one that nothing was added to is 0.
fn value(counters: &BTreeMap<u64, u64>, key: u64) -> u64
    ensures { result ≡ value_at counters.now.entries key }
{
    match counters.get(&key) {
        Some(value) => *value,
        None => 0,
    }
}

/// What a line asks.
fn read_line(line: &str) -> Asked<Request, Reply>
    ensures { IsPlaced result }
{
    let mut words = line.split_ascii_whitespace();
    let (verb, key) = (words.next(), words.next());
    let (Some(verb), Some(key)) = (verb, key) else {
        return match verb {
            Some("QUIT") => Asked::Last(Reply::Bye),
            _ => Asked::Here(Reply::Unknown),
        };
    };
    let Ok(key) = key.parse::<u64>() else {
        return Asked::Here(Reply::Unknown);
    };
    let cell = (key % (CELLS as u64)) as u16;
    match (verb, words.next()) {
        ("ADD", Some(number)) => match number.parse::<u64>() {
            Ok(number) => Asked::At(cell, Request::Add(key, number)),
            Err(_) => Asked::Here(Reply::Unknown),
        },
        ("GET", None) => Asked::At(cell, Request::Get(key)),
        _ => Asked::Here(Reply::Unknown),
    }
}

impl Service for Counters {
    type Request = Request;

    type Reply = Reply;

    type Cell = BTreeMap<u64, u64>;

    ghost rules_of = { λ counters. record {
      cells = CELLS;
      longest = LONGEST;
      cut = line_end;
      Asks = λ frame asked. IsPlaced asked;
      Refuses = λ reply. IsRefused reply;
      Begins = λ cell counters. counters.entries ≡ [];
      Serves = λ cell before request after reply. IsCounted before.entries request after.entries
          reply;
      shown = λ reply parts. shown_reply reply;
    } };

    fn cells(&self) -> u16 {
        CELLS
    }

    fn longest(&self) -> usize {
        LONGEST
    }

    fn cut(&self, bytes: &[u8]) -> Cut {
        for (i, byte) in bytes.iter().enumerate() {
            if *byte == b'\n' {
                return Cut::Frame(i + 1);
            }
        }
        Cut::More
    }

    fn ask(&self, _alloc: Global, frame: &[u8]) -> Result<Asked<Request, Reply>, Memory> {
        match str::from_utf8(frame) {
            Ok(line) => Ok(read_line(line)),
            Err(_) => Ok(Asked::Here(Reply::Unknown)),
        }
    }

    fn refuse(&self, _alloc: Global) -> Result<Reply, Memory> {
        Ok(Reply::Unknown)
    }

    fn begin(&self, alloc: Global, _cell: u16) -> Result<BTreeMap<u64, u64>, Memory> {
        Ok(BTreeMap::new(alloc))
    }

    fn on(
        &self,
        _alloc: Global,
        _cell: u16,
        counters: &mut BTreeMap<u64, u64>,
        request: Request,
    ) -> Result<Reply, Memory> {
        match request {
            Request::Add(key, number) => {
                let sum = value(counters, key).saturating_add(number);
                counters.insert(key, sum)?;
                Ok(Reply::Number(sum))
            }
            Request::Get(key) => Ok(Reply::Number(value(counters, key))),
        }
    }

    fn write(&self, reply: &Reply, _parts: &[Reply], out: &mut Vec<u8>) -> Result<(), Memory> {
        match reply {
            Reply::Number(number) => {
                let mut digits = Buffer::new();
                out.extend_from_slice(digits.format(*number).as_bytes())?;
            }
            Reply::Unknown => out.extend_from_slice(b"?")?,
            Reply::Bye => out.extend_from_slice(b"bye")?,
        }
        out.push(b'\n')?;
        Ok(())
    }

    ghost steady = { λ counters. line_end-steady };
}
