//! What the server asks of the outside: a source of bytes, a sink for bytes, a folder of files,
//! links to clients, and a world that gives these links.
//!
//! A server that reads and writes the machine itself can promise nothing of what it sends, since no
//! contract knows what a socket or a disk holds. So everything of the server is written over the
//! traits of this crate. An object of the outside has a *ghost model* of its contents, as far as
//! these are known: a source the bytes that are left, a sink the bytes that were written, a folder
//! its files, a link its input, what was taken of it and what was written, a world the inputs of
//! the links to come. An object without one goes on without. Each object also has a count of its
//! faults, which never falls: every answer `Failed` comes only where that count rose in the call,
//! and a call that answers anything else leaves it as it was. A link counts likewise how often it
//! was not ready; and of every link contracts know whether it was shut, after which it is neither
//! read nor written. The model of a link that answers by the lines of a script has these lines as
//! well.
//!
//! [`MemSource`], [`MemSink`], [`MemFolder`], [`MemLink`] and [`MemWorld`] hold their contents in
//! memory, have a model of all of them, and fail at the calls that they are given to fail at.
//! [`SureSource`], [`SureSink`], [`SureFolder`], [`SureLink`] and [`SureWorld`] are the same
//! without faults. Adapters of the machine's own files and streams have no model of contents, and
//! count errors.
//!
//! ```text
//! let mut source = SureSource::new(bytes);
//! let mut sink = SureSink::new(alloc);
//! let mut piece = [0; 4096];
//! while let Got::Took(count) = source.read(&mut piece) {
//!     if sink.write_all(&piece[..count]) != Put::Done {
//!         break;
//!     }
//! }
//! ```
#![tactic(auto)]

ghost use Rattle.std.specs.Prelude.{◌≡◌, ◌<◌, List, ℕ, Bool, false, IsTrue, Option, None, length};
ghost use Rattle.sws_link.specs.Counts.{Count, HasCause};
ghost use Rattle.sws_link.specs.Contents.{TakesWithin, Takes, Puts};
ghost use Rattle.sws_link.specs.Told.{FolderContents};
ghost use Rattle.sws_link.specs.Folders.{Opens, Gives, TakesOfFile, at_file_after_open, is_file};
ghost use Rattle.sws_link.specs.Links.{LinkContents, Way, read_fault, write_fault, Reads, Writes, Shuts};

mod calls;
mod copying;
mod link_item;
mod lobby;
mod mem_folder;
mod mem_link;
mod mem_sink;
mod mem_source;
mod mem_world;
mod pieces;
mod script_reader;
mod scripted_bytes;
mod sure_folder;
mod sure_link;
mod sure_sink;
mod sure_source;
mod sure_world;
mod world;

pub use link_item::LinkItem;
pub use mem_folder::MemFolder;
pub use mem_link::MemLink;
pub use mem_sink::MemSink;
pub use mem_source::MemSource;
pub use mem_world::MemWorld;
pub use pieces::{Unwritten, write_pieces};
use std::alloc::{AllocError, AllocFailed};
use std::error::Error;
use std::fmt;
pub use sure_folder::SureFolder;
pub use sure_link::SureLink;
pub use sure_sink::SureSink;
pub use sure_source::SureSource;
pub use sure_world::SureWorld;
pub use world::World;

/// Want of memory: an allocation was refused.
#[derive(Clone, Copy, Debug, PartialEq, Eq)]
pub struct Memory;

impl fmt::Display for Memory {
    fn fmt<W: fmt::Write>(&self, f: &mut fmt::Formatter<W>) -> fmt::Result {
        f.write_str("there was no memory")
    }
}

impl Error for Memory {}

impl From<AllocError> for Memory {
    fn from(_error: AllocError) -> Memory {
        Memory
    }
}

impl<T: Drop> From<AllocFailed<T>> for Memory {
    fn from(_failed: AllocFailed<T>) -> Memory {
        Memory
    }
}

/// What a read answers.
#[derive(Clone, Copy, Debug, PartialEq, Eq)]
pub enum Got {
    /// So many bytes were taken, and stand at the front of the room.
    Took(usize),
    /// Nothing is left.
    End,
    /// The outside failed, and nothing was taken.
    Failed,
}

/// What a write answers.
#[derive(Clone, Copy, Debug, PartialEq, Eq)]
pub enum Put {
    /// All bytes were written.
    Done,
    /// The outside failed, and a front of the bytes was written.
    Failed,
    /// There was no memory, and a front of the bytes was written.
    Memory,
}

/// Bytes that are read in order, as those of standard input.
pub trait Source {
    /// The bytes that are left, where they are known.
    ghost left: { Self → Option (List ℕ) };

    /// How often a read has failed.
    ghost faults: { Self → Count };

    /// Takes at least one of the bytes that are left, and at most as many as there is room for.
    fn read(&mut self, into: &mut [u8]) -> Got
        requires { 0 < length into.old }
        ensures within { TakesWithin result (length into.old) }
        ensures bytes { Takes (left self.old) (left self.new) result into.new }
        ensures cause { HasCause (faults self.old) (faults self.new) (result ≡ Got.Failed) };
}

/// Where bytes are written in order, as standard output.
pub trait Sink {
    /// The bytes that were written, where they are known.
    ghost written: { Self → Option (List ℕ) };

    /// How often a write has failed.
    ghost faults: { Self → Count };

    /// Writes all the bytes.
    fn write_all(&mut self, bytes: &[u8]) -> Put
        ensures bytes { Puts (written self.old) (written self.new) result bytes.now }
        ensures cause { HasCause (faults self.old) (faults self.new) (result ≡ Put.Failed) };
}

/// What opening a folder answers.
#[derive(Clone, Copy, Debug, PartialEq, Eq)]
pub enum Opened {
    /// The folder is open, and none of its files was given.
    Ready,
    /// The outside failed, and all is as before.
    Failed,
    /// There was no memory, and all is as before.
    Memory,
}

/// What the step to the next file answers.
#[derive(Clone, Copy, Debug, PartialEq, Eq)]
pub enum NextFile {
    /// The next file is current; its name has `len` bytes, of which the first 1,024 were copied.
    File { len: usize },
    /// All files were given.
    End,
    /// The outside failed, and no file was given.
    Failed,
    /// There was no memory, and no file was given.
    Memory,
}

/// Files that are given one after another, each with its name and its bytes.
pub trait Folder {
    /// The path, the files and how far they were given, where these are known.
    ghost tells: { Self → Option FolderContents };

    /// Whether a file is current: the last `next` gave it, and the folder was not opened since.
    ghost at_file: { Self → Bool };

    /// How often a call has failed.
    ghost faults: { Self → Count };

    /// Opens the folder at a path, with all its files still to be given.
    fn open(&mut self, path: &str) -> Opened
        ensures opens { Opens (tells self.old) (tells self.new) result path.now }
        ensures at_file { at_file self.new ≡ at_file_after_open (at_file self.old) result }
        ensures cause { HasCause (faults self.old) (faults self.new) (result ≡ Opened.Failed) };

    /// Goes to the next file, and copies its name, or the first 1,024 bytes of a longer one.
    fn next(&mut self, name: &mut [u8; 1024]) -> NextFile
        ensures gives { Gives (tells self.old) (tells self.new) result name.new }
        ensures at_file { at_file self.new ≡ is_file result }
        ensures cause { HasCause (faults self.old) (faults self.new) (result ≡ NextFile.Failed) };

    /// Takes of the current file what a [`Source`] with its bytes would give.
    fn read(&mut self, into: &mut [u8]) -> Got
        requires room { 0 < length into.old }
        requires file { IsTrue (at_file self.old) }
        ensures within { TakesWithin result (length into.old) }
        ensures bytes { TakesOfFile (tells self.old) (tells self.new) result into.new }
        ensures at_file { IsTrue (at_file self.new) }
        ensures cause { HasCause (faults self.old) (faults self.new) (result ≡ Got.Failed) };
}

/// What a read of a link answers.
#[derive(Clone, Copy, Debug, PartialEq, Eq)]
pub enum LinkRead {
    /// So many bytes were taken, and stand at the front of the room.
    Took(usize),
    /// All input was taken.
    End,
    /// Nothing has come yet, and nothing was taken.
    NotReady,
    /// The outside failed, and nothing was taken.
    Failed,
}

/// What a write of a link answers.
#[derive(Clone, Copy, Debug, PartialEq, Eq)]
pub enum LinkWrite {
    /// So many bytes of the piece were written, the first ones.
    Wrote(usize),
    /// The peer takes nothing yet, and nothing was written.
    NotReady,
    /// The outside failed, and a front of the piece was written.
    Failed,
    /// There was no memory, and a front of the piece was written.
    Memory,
}

/// The two ways of a connection to one client. No call changes the whole input: a read moves bytes
/// from what is left to what was taken.
pub trait Link {
    /// The bytes that were taken, are left and were written, and the answers to
    /// come, where these are known.
    ghost tells: { Self → Option LinkContents };

    /// How often a call has failed.
    ghost faults: { Self → Count };

    /// Whether the link was shut. Then it is not read or written any more, nor shut again.
    ghost is_shut: { Self → Bool };

    /// How often a call found the link not ready.
    ghost waits: { Self → Count };

    /// What a link keeps of an earlier state over calls, of which the last one failed in this way,
    /// or in none. A link that holds another object says by it that this is still the same one, and
    /// which of its two ways is at fault.
    ghost since: { Self → Option Way → Self → Type 0 };

    /// Takes at least one of the bytes that are left, and at most as many as there is room for,
    /// unless the link is at its end, not ready, or at fault.
    fn read(&mut self, into: &mut [u8]) -> LinkRead
        requires room { 0 < length into.old }
        requires not_shut { is_shut self.old ≡ false }
        ensures reads { Reads tells is_shut faults waits self.old (length into.old)
            result into.new self.new }
        ensures since { (first : Self) → since first None self.old
            → since first (read_fault result) self.new };

    /// Writes at least one byte of the piece, and as many as the peer takes, unless the link is not
    /// ready or at fault.
    fn write(&mut self, bytes: &[u8]) -> LinkWrite
        requires some { 0 < length bytes.now }
        requires not_shut { is_shut self.old ≡ false }
        ensures writes { Writes tells is_shut faults waits self.old bytes.now result self.new }
        ensures since { (first : Self) → since first None self.old
            → since first (write_fault result) self.new };

    /// Ends the connection, once. What was taken and written and both counts stay as they are.
    fn shut(&mut self)
        requires { is_shut self.old ≡ false }
        ensures shuts { Shuts tells is_shut faults waits self.old self.new }
        ensures since { (first : Self) (fault : Option Way) → since first fault self.old
            → since first fault self.new };
}

/// What a poll of a world answers.
#[derive(Clone, Copy, Debug, PartialEq, Eq)]
pub enum Polled {
    /// This one of those that wait may be ready.
    Ready(u16),
    /// None is ready yet.
    Quiet,
    /// The outside failed.
    Failed,
}

/// What a world answers that is asked for the next link.
#[derive(Debug, Drop)]
pub enum Accepted<L> {
    /// The next link.
    Link(L),
    /// It has not come yet.
    NotYet,
    /// The outside failed.
    Failed,
}
