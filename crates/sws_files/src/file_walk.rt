//! A walk over the regular files below a folder.

use crate::hidden::is_hidden;
use crate::unread::Cause;
use std::fs::{self, DirEntry, File, Metadata, ReadDir};
use std::io::{self, ErrorKind};
use std::os::fd::AsRawFd;
use std::os::unix::fs::MetadataExt;

/// How many folders deep a folder may lie.
const MAX_DEPTH: usize = 32;

/// Opens a folder. The path ends in a dot, so that the machine refuses what is no folder before it
/// opens it: a FIFO would wait for a writer.
fn open_folder(rt: &HostRuntime, path: &str) -> io::Result<File> {
    if path.is_empty() {
        return Err(io::Error::from(ErrorKind::NotFound));
    }
    let path = format!(in rt.alloc(); "{path}/.")?;
    fs::open(rt, path.as_str())
}

/// An entry of a folder, and which file of the machine it was when it was listed.
#[derive(Drop)]
struct Listed {
    entry: DirEntry,
    device: u64,
    inode: u64,
}

impl Listed {
    fn new(entry: DirEntry, listed: &Metadata) -> Listed {
        Listed {
            entry,
            device: listed.dev(),
            inode: listed.ino(),
        }
    }

    /// Opens it. Where something else has taken its place since it was listed, as
    /// a link, that is an error.
    fn open(&self, rt: &HostRuntime) -> Result<File, Cause> {
        let file = fs::open(rt, self.entry.path())?;
        self.check(file)
    }

    /// Opens it as a folder.
    fn open_folder(&self, rt: &HostRuntime) -> Result<File, Cause> {
        let file = open_folder(rt, self.entry.path().as_str())?;
        self.check(file)
    }

    /// The file, if it is the one that was listed.
    fn check(&self, file: File) -> Result<File, Cause> {
        let opened = file.metadata()?;
        if opened.dev() == self.device && opened.ino() == self.inode {
            return Ok(file);
        }
        Err(Cause::Replaced)
    }
}

/// A folder on the way to where the walk is.
///
/// It is held open, and the paths of its entries go by its descriptor: whatever takes the place of
/// a folder on the way, what is opened lies in this one.
#[derive(Drop)]
struct Level {
    _folder: File,
    listing: ReadDir,
    /// The name of the folder, with the slash behind it; none of the folder of the walk.
    name: String,
}

impl Level {
    fn new(rt: &HostRuntime, folder: File, name: String) -> Result<Level, Cause> {
        let path = format!(in rt.alloc(); "/proc/self/fd/{}", folder.as_raw_fd())?;
        match fs::read_dir(rt, path.as_str()) {
            Ok(listing) => Ok(Level {
                _folder: folder,
                listing,
                name,
            }),
            Err(error) => Err(Cause::Listing(path, error)),
        }
    }

    /// The name of an entry: its path from the folder of the walk on.
    fn name_of(&self, rt: &HostRuntime, entry: &DirEntry) -> io::Result<String> {
        let mut name = String::from_str(rt.alloc(), self.name.as_str())?;
        name.push_str(entry.file_name())?;
        Ok(name)
    }
}

/// Goes one folder deeper.
fn add_level(levels: &mut Vec<Level>, level: Level) -> io::Result<()> {
    levels.push(level)?;
    Ok(())
}

/// Why an entry isn't listed.
fn cause_of(error: io::Error) -> Cause {
    if matches!(error.kind(), ErrorKind::InvalidFilename) {
        return Cause::Name;
    }
    Cause::Machine(error)
}

/// Gives the regular files below a folder one after another, in the order in
/// which the machine lists them.
///
/// Links are not followed, but for the folder itself. A folder that lies more than 32 deep
/// is an error, as is a name that is not UTF-8, and an entry in whose place another file
/// stands when it is opened. Behind an error the walk goes on with the next entry.
#[derive(Drop)]
pub struct FileWalk<'r> {
    rt: &'r HostRuntime,
    /// The folders on the way to where the walk is, each as far as it was listed.
    levels: Vec<Level>,
    /// The name of what was looked at last.
    name: String,
    /// Whether hidden entries are given.
    hidden: bool,
}

impl<'r> FileWalk<'r> {
    /// A walk that begins in the folder of this path. Hidden entries ([`is_hidden`]), and what is
    /// below them, are given only where these are asked for.
    pub fn new(rt: &'r HostRuntime, path: &str, hidden: bool) -> Result<FileWalk<'r>, Cause> {
        let folder = open_folder(rt, path)?;
        let mut levels = Vec::new(rt.alloc());
        add_level(
            &mut levels,
            Level::new(rt, folder, String::new(rt.alloc()))?,
        )?;
        Ok(FileWalk {
            rt,
            levels,
            name: String::new(rt.alloc()),
            hidden,
        })
    }

    /// Opens the next regular file, if there is one. [`FileWalk::name`] is then its name; behind
    /// an error it is the name of what can't be read.
    pub fn next_file(&mut self) -> Result<Option<File>, Cause> {
        // No walk takes as many steps; the bound shows that the loop ends.
        for _ in 0..u64::MAX {
            let Some(level) = self.levels.last_mut() else {
                return Ok(None);
            };
            match level.listing.next() {
                None => {
                    self.levels.pop();
                }
                Some(listed) => {
                    if let Some(file) = self.take(listed)? {
                        return Ok(Some(file));
                    }
                }
            }
        }
        Err(Cause::Machine(io::Error::from(ErrorKind::Other)))
    }

    /// Opens what was listed, if it is a regular file that is to be given.
    fn take(&mut self, listed: io::Result<DirEntry>) -> Result<Option<File>, Cause> {
        let Some(level) = self.levels.last() else {
            return Ok(None);
        };
        let entry = match listed {
            Ok(entry) => entry,
            Err(error) => {
                self.name = String::from_str(self.rt.alloc(), level.name.as_str())?;
                return Err(cause_of(error));
            }
        };
        if !self.hidden && is_hidden(entry.file_name(), self.levels.len() == 1) {
            return Ok(None);
        }
        self.name = level.name_of(self.rt, &entry)?;
        self.enter(entry)
    }

    /// Opens the entry that is looked at, if it is a regular file; into a folder the walk goes on.
    fn enter(&mut self, entry: DirEntry) -> Result<Option<File>, Cause> {
        let kind = entry.metadata()?;
        if kind.is_file() {
            return Ok(Some(Listed::new(entry, &kind).open(self.rt)?));
        }
        if kind.is_dir() {
            self.name.push('/')?;
            if self.levels.len() > MAX_DEPTH {
                return Err(Cause::Depth);
            }
            let folder = Listed::new(entry, &kind).open_folder(self.rt)?;
            self.go_into(folder)?;
        }
        Ok(None)
    }

    /// Goes on in the folder that is looked at.
    fn go_into(&mut self, folder: File) -> Result<(), Cause> {
        let name = String::from_str(self.rt.alloc(), self.name.as_str())?;
        add_level(&mut self.levels, Level::new(self.rt, folder, name)?)?;
        Ok(())
    }

    /// The name of what was looked at last: its path from the folder of the walk on, of a folder
    /// with a slash at its end.
    pub fn name(&self) -> &str {
        self.name.as_str()
    }
}
