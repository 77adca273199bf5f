//! The files below a folder of the machine.
ghost use Rattle.std.specs.Prelude.{◌≡◌, None, is_some};
ghost use Rattle.sws_link.specs.Counts.{kept_count};

use crate::file_walk::FileWalk;
use crate::unread::{Cause, Unread};
use std::alloc::{AllocError, Global};
use std::fs::File;
use std::io::{self, Read};
use sws_link::{Folder, Got, NextFile, Opened};

/// The most bytes of a name that are copied.
const NAME_ROOM: usize = 1024;

/// How many of those that were left out are kept by name.
const MOST_NAMED: usize = 100;

/// Gives the regular files below a folder, of which nothing is known, and
/// counts the machine's errors.
///
/// What can't be read is an error; a lenient folder leaves it out instead, where it can't be read
/// for good: where the program has no right to it, where a name isn't UTF-8, and what lies more
/// than 32 folders deep. Both keep what it was, and why.
#[derive(Drop)]
pub struct FileFolder<'r> {
    rt: &'r HostRuntime,
    walk: Option<FileWalk<'r>>,
    /// The current file.
    file: Option<File>,
    faults: u64,
    /// Whether hidden entries are given.
    hidden: bool,
    /// What was left out, in a lenient folder.
    left_out: Option<LeftOut>,
    /// What the last call failed at.
    unread: Option<Unread>,
}

/// What was left out of a folder: the first of them, and how many there are.
#[derive(Drop)]
struct LeftOut {
    first: Vec<Unread>,
    count: u64,
}

impl LeftOut {
    /// Keeps one more.
    fn add(&mut self, alloc: Global, path: &str, cause: Cause) -> Result<(), AllocError> {
        if self.first.len() < MOST_NAMED {
            let path = String::from_str(alloc, path)?;
            self.first.push(Unread { path, cause })?;
        }
        self.count = self.count.saturating_add(1);
        Ok(())
    }
}

impl<'r> FileFolder<'r> {
    /// A folder that was not opened yet, of which all files are given.
    pub fn new(rt: &'r HostRuntime) -> Self {
        FileFolder {
            rt,
            walk: None,
            file: None,
            faults: 0,
            hidden: true,
            left_out: None,
            unread: None,
        }
    }

    /// A folder that was not opened yet, which leaves out what can't be read. What is hidden
    /// ([`is_hidden`](crate::is_hidden)) is given only where it is asked for.
    pub fn lenient(rt: &'r HostRuntime, hidden: bool) -> Self {
        let left_out = LeftOut {
            first: Vec::new(rt.alloc()),
            count: 0,
        };
        FileFolder {
            rt,
            walk: None,
            file: None,
            faults: 0,
            hidden,
            left_out: Some(left_out),
            unread: None,
        }
    }

    /// What was left out so far, by name: the first hundred of them.
    pub fn left_out(&self) -> &[Unread] {
        match &self.left_out {
            Some(left_out) => &left_out.first,
            None => &[],
        }
    }

    /// How many were left out so far.
    pub fn count_left_out(&self) -> u64 {
        match &self.left_out {
            Some(left_out) => left_out.count,
            None => 0,
        }
    }

    /// What the last call that failed couldn't read, and why; nothing where there was no memory to
    /// keep its name.
    pub fn unread(&self) -> Option<&Unread> {
        self.unread.as_ref()
    }
}

/// Leaves out what can't be read for good, where that is left out; else that is the error.
fn leave_out(
    alloc: Global,
    left_out: &mut Option<LeftOut>,
    path: &str,
    cause: Cause,
) -> Result<(), Cause> {
    match left_out {
        Some(left_out) if cause.is_lasting() => {
            left_out.add(alloc, path, cause)?;
            Ok(())
        }
        _ => Err(cause),
    }
}

/// Opens the next file that can be read, or that isn't to be left out.
fn next_readable(
    alloc: Global,
    walk: &mut FileWalk<'_>,
    left_out: &mut Option<LeftOut>,
) -> Result<Option<File>, Cause> {
    // No walk takes as many steps; the bound shows that the loop ends.
    for _ in 0..u64::MAX {
        match walk.next_file() {
            Ok(file) => return Ok(file),
            Err(cause) => leave_out(alloc, left_out, walk.name(), cause)?,
        }
    }
    Ok(None)
}

/// Opens the next file, copies its name as far as there is room, and gives it
/// with the length of its name.
fn open_next(
    alloc: Global,
    walk: &mut FileWalk<'_>,
    left_out: &mut Option<LeftOut>,
    name: &mut [u8; NAME_ROOM],
) -> Result<Option<(File, usize)>, Cause> {
    let Some(file) = next_readable(alloc, walk, left_out)? else {
        return Ok(None);
    };
    let given = walk.name().as_bytes();
    let count = given.len().min(name.len());
    name[..count].copy_from_slice(&given[..count]);
    Ok(Some((file, given.len())))
}

/// What couldn't be read at a path, if there is memory for it.
fn unread_at(alloc: Global, path: &str, cause: Cause) -> Option<Unread> {
    match String::from_str(alloc, path) {
        Ok(path) => Some(Unread { path, cause }),
        Err(_) => None,
    }
}

/// What couldn't be read at the place of a walk, if there is memory for it.
fn unread_of(alloc: Global, walk: &Option<FileWalk<'_>>, error: io::Error) -> Option<Unread> {
    match walk {
        Some(walk) => unread_at(alloc, walk.name(), Cause::Machine(error)),
        None => None,
    }
}

impl<'r> Folder for FileFolder<'r> {
    ghost tells = { λ _. None };

    ghost at_file = { λ folder. is_some folder.file };

    ghost faults = { λ folder. kept_count folder.faults };

    fn open(&mut self, path: &str) -> Opened {
        match FileWalk::new(self.rt, path, self.hidden) {
            Ok(walk) => {
                self.walk = Some(walk);
                self.file = None;
                Opened::Ready
            }
            Err(cause) if cause.is_want_of_memory() => Opened::Memory,
            Err(cause) => {
                self.unread = unread_at(self.rt.alloc(), "", cause);
                self.faults = self.faults.saturating_add(1);
                Opened::Failed
            }
        }
    }

    fn next(&mut self, name: &mut [u8; NAME_ROOM]) -> NextFile {
        self.file = None;
        let Some(walk) = &mut self.walk else {
            return NextFile::End;
        };
        match open_next(self.rt.alloc(), walk, &mut self.left_out, name) {
            Ok(Some((file, len))) => {
                self.file = Some(file);
                NextFile::File { len }
            }
            Ok(None) => NextFile::End,
            Err(cause) if cause.is_want_of_memory() => NextFile::Memory,
            Err(cause) => {
                self.unread = unread_at(self.rt.alloc(), walk.name(), cause);
                self.faults = self.faults.saturating_add(1);
                NextFile::Failed
            }
        }
    }

    fn read(&mut self, into: &mut [u8]) -> Got {
        let answer = match &mut self.file {
            Some(file) => file.read(into),
            None => unreachable!(),
        };
        match answer {
            Ok(0) => Got::End,
            Ok(count) => Got::Took(count),
            Err(error) => {
                self.unread = unread_of(self.rt.alloc(), &self.walk, error);
                self.faults = self.faults.saturating_add(1);
                Got::Failed
            }
        }
    }
}
