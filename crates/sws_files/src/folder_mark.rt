//! What a folder looks like, to tell whether it has changed.

use crate::hidden::is_hidden;
use std::fs::{self, DirEntry, Metadata, ReadDir};
use std::io::{self, ErrorKind};
use std::os::unix::fs::MetadataExt;

/// How many folders deep a folder may lie.
const MAX_DEPTH: usize = 32;

/// How many entries are looked at at most: more than any site has, with its folders.
const MOST: u32 = 10_000_000;

/// Lists a folder; nothing where the program has no right to it.
fn list(rt: &HostRuntime, folder: &DirEntry) -> io::Result<Option<ReadDir>> {
    match fs::read_dir(rt, folder.path()) {
        Ok(listing) => Ok(Some(listing)),
        Err(error) => unlisted(error),
    }
}

/// Nothing in place of a folder to which the program has no right; of every other one the error.
fn unlisted(error: io::Error) -> io::Result<Option<ReadDir>> {
    if matches!(error.kind(), ErrorKind::PermissionDenied) {
        return Ok(None);
    }
    Err(error)
}

/// The bytes of a name, in a sum that depends on their places.
fn sum_of(name: &str) -> u64 {
    let mut sum: u64 = 1;
    for byte in name.as_bytes() {
        sum = sum.wrapping_mul(31).wrapping_add(u64::from(*byte));
    }
    sum
}

/// The later of two times, in seconds and nanoseconds.
fn later(one: (i64, i64), other: (i64, i64)) -> (i64, i64) {
    if one.0 < other.0 || one.0 == other.0 && one.1 < other.1 {
        other
    } else {
        one
    }
}

/// What is below a folder, in numbers. Where a file is made, written, renamed or taken away, one of
/// them is mostly another; nothing is opened and read for it.
#[derive(Clone, Copy, Debug, PartialEq, Eq)]
pub struct FolderMark {
    /// How many regular files and folders there are, and how many bytes the files have.
    entries: u32,
    bytes: u64,

    /// When the last change of one of them was, in seconds and nanoseconds.
    newest: (i64, i64),

    /// Their numbers on the machine, in a sum.
    inodes: u64,

    /// The bytes of their names, in a sum that depends on their places in a name.
    names: u64,
}

impl FolderMark {
    /// What the folder of this path looks like. Hidden entries ([`is_hidden`]), and what is below
    /// them, count only where these are asked for. What a lenient
    /// [`FileFolder`](crate::FileFolder) leaves out counts as far as it is seen.
    ///
    /// # Errors
    ///
    /// The folder can't be listed, or has no end; or one below it can't be listed just now.
    pub fn of(rt: &HostRuntime, path: &str, hidden: bool) -> io::Result<FolderMark> {
        let mut walk = MarkWalk::new(rt, path, hidden)?;
        for _ in 0..MOST {
            if walk.levels.is_empty() {
                return Ok(walk.mark);
            }
            walk.go_on()?;
        }
        Err(io::Error::from(ErrorKind::Other))
    }

    /// Of nothing.
    fn none() -> FolderMark {
        FolderMark {
            entries: 0,
            bytes: 0,
            newest: (0, 0),
            inodes: 0,
            names: 0,
        }
    }

    /// In which second after the beginning of 1970 the last change was; 0 where there is nothing, or
    /// it was before.
    pub fn newest(&self) -> u64 {
        u64::try_from(self.newest.0).unwrap_or(0)
    }

    /// Looks at an entry, and lists it where it is a folder that can be listed.
    fn look(&mut self, rt: &HostRuntime, entry: &DirEntry) -> io::Result<Option<ReadDir>> {
        let found = entry.metadata()?;
        if found.is_file() {
            self.bytes = self.bytes.wrapping_add(found.len());
            self.count(entry, &found);
            return Ok(None);
        }
        if found.is_dir() {
            self.count(entry, &found);
            return list(rt, entry);
        }
        Ok(None)
    }

    /// Counts an entry.
    fn count(&mut self, entry: &DirEntry, found: &Metadata) {
        self.entries = self.entries.wrapping_add(1);
        self.inodes = self.inodes.wrapping_add(found.ino());
        self.newest = later(self.newest, (found.mtime(), found.mtime_nsec()));
        self.newest = later(self.newest, (found.ctime(), found.ctime_nsec()));
        self.names = self.names.wrapping_add(sum_of(entry.file_name()));
    }
}

/// A walk over what is below a folder, to make a mark of it.
#[derive(Drop)]
struct MarkWalk<'r> {
    rt: &'r HostRuntime,

    /// Whether hidden entries count.
    hidden: bool,

    /// The folders on the way to where the walk is, each as far as it was listed.
    levels: Vec<ReadDir>,

    /// What was seen so far.
    mark: FolderMark,
}

impl<'r> MarkWalk<'r> {
    /// A walk that begins in the folder of this path.
    fn new(rt: &'r HostRuntime, path: &str, hidden: bool) -> io::Result<MarkWalk<'r>> {
        let listing = fs::read_dir(rt, path)?;
        let mut walk = MarkWalk {
            rt,
            hidden,
            levels: Vec::new(rt.alloc()),
            mark: FolderMark::none(),
        };
        walk.go_into(listing)?;
        Ok(walk)
    }

    /// Looks at the next entry; where the folder has no more, the walk goes back.
    fn go_on(&mut self) -> io::Result<()> {
        let Some(level) = self.levels.last_mut() else {
            return Ok(());
        };
        match level.next() {
            Some(Ok(entry)) => self.look(entry),
            Some(Err(error)) => self.pass_by(error),
            None => {
                self.levels.pop();
                Ok(())
            }
        }
    }

    /// Counts an entry that isn't listed for its name; any other error ends the walk.
    fn pass_by(&mut self, error: io::Error) -> io::Result<()> {
        if matches!(error.kind(), ErrorKind::InvalidFilename) {
            self.mark.entries = self.mark.entries.wrapping_add(1);
            return Ok(());
        }
        Err(error)
    }

    /// Looks at an entry, if it counts, and goes into it where it is a folder.
    fn look(&mut self, entry: DirEntry) -> io::Result<()> {
        if !self.hidden && is_hidden(entry.file_name(), self.levels.len() == 1) {
            return Ok(());
        }
        match self.mark.look(self.rt, &entry)? {
            Some(below) => self.go_into(below),
            None => Ok(()),
        }
    }

    /// Goes on in a folder, unless it lies too deep.
    fn go_into(&mut self, folder: ReadDir) -> io::Result<()> {
        if self.levels.len() <= MAX_DEPTH {
            self.levels.push(folder)?;
        }
        Ok(())
    }
}
