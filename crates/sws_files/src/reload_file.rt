//! A file that asks a server to load its folder anew.
ghost use Rattle.std.specs.Prelude.{◌≡◌, ◌↔◌, IsTrue, IsSome};

use std::fs;
use std::os::unix::fs::MetadataExt;

/// What a file looks like: which one it is, how long, and when it was written and changed last, in
/// seconds and nanoseconds.
#[derive(Clone, Copy, Debug, PartialEq, Eq)]
pub struct FileMark {
    pub inode: u64,
    pub len: u64,
    pub written: (i64, i64),
    pub changed: (i64, i64),
}

/// A path. Each time the file there is made or written, somebody asks for something.
#[derive(Drop)]
pub struct ReloadFile {
    path: String,

    /// What was there at first.
    first: Option<FileMark>,
}

/// What the file of this path looks like, where there is one that can be looked at.
fn mark_of(rt: &HostRuntime, path: &str) -> Option<FileMark> {
    match fs::metadata(rt, path) {
        Ok(found) => Some(FileMark {
            inode: found.ino(),
            len: found.len(),
            written: (found.mtime(), found.mtime_nsec()),
            changed: (found.ctime(), found.ctime_nsec()),
        }),
        Err(_) => None,
    }
}

impl ReloadFile {
    /// The file of this path. What is there now asks for nothing.
    pub fn new(rt: &HostRuntime, path: String) -> ReloadFile {
        let first = mark_of(rt, path.as_str());
        ReloadFile { path, first }
    }

    /// What was there at first.
    pub fn first(&self) -> Option<FileMark> {
        self.first
    }

    /// What is there now.
    pub fn mark(&self, rt: &HostRuntime) -> Option<FileMark> {
        mark_of(rt, self.path.as_str())
    }
}

/// Whether a file asks for something that looked so before and looks so now: it is there, and it is
/// another, or was written since. A file that has gone asks for nothing.
pub fn is_asking(before: Option<FileMark>, now: Option<FileMark>) -> bool
    ensures { IsTrue result ↔ (IsSome now × (before ≡ now → ⊥)) }
{
    now.is_some() && now != before
}
