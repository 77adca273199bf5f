//! What a folder that is loaded leaves to be said.

use std::alloc::{AllocError, Global};
use sws_files::{FileFolder, Unread};

/// What of a folder can't be read, a line each, and how many more there are.
#[derive(Drop)]
pub struct Notes {
    alloc: Global,
    lines: Vec<String>,
    more: u64,
}

impl Notes {
    /// Nothing is to be said.
    pub fn new(alloc: Global) -> Notes {
        Notes {
            alloc,
            lines: Vec::new(alloc),
            more: 0,
        }
    }

    /// The lines.
    pub fn lines(&self) -> &[String] {
        &self.lines
    }

    /// How many more there are, for which there is no line.
    pub fn more(&self) -> u64 {
        self.more
    }

    /// Notes what the folder left out as it was walked, and what it failed at.
    pub fn take(&mut self, folder: &FileFolder<'_>) {
        let mut count = folder.count_left_out();
        for unread in folder.left_out() {
            if self.add("left out", unread).is_ok() {
                count = count.saturating_sub(1);
            }
        }
        self.more = self.more.saturating_add(count);
        if let Some(unread) = folder.unread() {
            if self.add("can't be read", unread).is_err() {
                self.more = self.more.saturating_add(1);
            }
        }
    }

    /// Adds a line. The path is quoted, so that none ends a line.
    fn add(&mut self, what: &str, unread: &Unread) -> Result<(), AllocError> {
        let Unread { path, cause } = unread;
        let line = if path.is_empty() {
            format!(in self.alloc; "{what}: the folder itself: {cause}")?
        } else {
            format!(in self.alloc; "{what}: {path:?}: {cause}")?
        };
        self.lines.push(line)?;
        Ok(())
    }
}
