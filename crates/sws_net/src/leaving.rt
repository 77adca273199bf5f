//! Connections that their links have ended.
ghost use Rattle.std.specs.Prelude.{◌≤◌, IfOk, length};

use crate::errors::is_not_yet;
use crate::kept::Kept;
use crate::places::register;
use mio::Registry;
use mio::net::TcpStream;
use std::io::{self, Read, Write};
use std::net::Shutdown;

/// How many bytes of a peer that still sends are taken at most.
const MOST: usize = 16 * 1024 * 1024;

/// How many pieces of them are taken in one step.
const PIECES: u32 = 16;

/// The size of such a piece in bytes.
const PIECE: usize = 4096;

/// What a step of a leaving connection came to.
#[derive(Clone, Copy, PartialEq, Eq)]
pub enum Step {
    /// It is to be closed now.
    Done,

    /// The machine has more at once.
    More,

    /// It waits for the peer.
    Waits,
}

/// A connection whose link has ended it, but whose last bytes may still have to go, or whose peer
/// may still be sending: a machine drops what it has for a peer with a connection that is closed
/// over bytes that nobody took.
#[derive(Drop)]
pub struct Leaving {
    stream: TcpStream,

    /// The number by which the world knows it: that of its link, as long as the link's generation
    /// lasts.
    pub number: usize,
    last: Kept,

    /// Whether the peer was told that no more comes.
    is_told: bool,

    /// Whether the peer sends no more.
    has_ended: bool,

    /// How many bytes of the peer may still be taken.
    left: usize,
}

/// Hands the bytes to the machine, which takes some of them, and answers whether none is left.
fn send_last(stream: &TcpStream, last: &mut Kept) -> io::Result<bool> {
    if !last.is_empty() {
        let count = write_some(stream, last.bytes())?;
        last.take_off(count);
    }
    Ok(last.is_empty())
}

/// Writes, and answers that nothing was taken where the machine takes nothing yet.
fn write_some(stream: &TcpStream, bytes: &[u8]) -> io::Result<usize>
    ensures { IfOk result (λ count. count ≤ length bytes.now) }
{
    match (&mut &*stream).write(bytes) {
        Err(error) if is_not_yet(&error) => Ok(0),
        answer => answer,
    }
}

impl Leaving {
    /// The connection of the link of this number, with the bytes that are to go before its end.
    /// Nothing more comes where the input has ended.
    pub fn new(stream: TcpStream, number: usize, last: Kept, has_ended: bool) -> Leaving {
        Leaving {
            stream,
            number,
            last,
            is_told: false,
            has_ended,
            left: MOST,
        }
    }

    /// Lets another world see it out, by this number.
    pub fn move_to(&mut self, registry: &Registry, number: usize) -> io::Result<()> {
        self.number = number;
        register(registry, &mut self.stream, number)
    }

    /// Hands over the last bytes, says that no more comes, and takes what the peer sent, as far as
    /// the machine does so at once.
    pub fn step(&mut self) -> Step {
        match self.try_step() {
            Ok(step) => step,
            Err(error) if is_not_yet(&error) => Step::Waits,
            Err(_) => Step::Done,
        }
    }

    /// A step, or the machine's error.
    fn try_step(&mut self) -> io::Result<Step> {
        if !self.is_told && send_last(&self.stream, &mut self.last)? {
            self.stream.shutdown(Shutdown::Write)?;
            self.is_told = true;
        }
        if self.has_ended {
            return Ok(if self.is_told {
                Step::Done
            } else {
                Step::Waits
            });
        }
        let mut room = [0; PIECE];
        for _ in 0..PIECES {
            let count = (&mut &self.stream).read(&mut room)?;
            self.has_ended = count == 0;
            self.left = self.left.saturating_sub(count);
            if self.has_ended || self.left == 0 {
                let is_over = self.is_told || self.left == 0;
                return Ok(if is_over { Step::Done } else { Step::Waits });
            }
        }
        Ok(Step::More)
    }
}
