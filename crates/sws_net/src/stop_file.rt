//! A file that tells a server to stop.

use crate::door::Door;
use std::fs;
use std::sync::atomic::{AtomicU64, Ordering};

/// How many milliseconds go by at least between two looks for the file.
const TICK: u64 = 250;

/// A path. Once there is a file, all that stand behind a door are to leave.
#[derive(Drop)]
pub struct StopFile {
    path: String,

    /// When it was looked for last, in milliseconds.
    looked: AtomicU64,
}

impl StopFile {
    /// The file of this path, which was not looked for yet.
    pub fn new(path: String) -> StopFile {
        StopFile {
            path,
            looked: AtomicU64::new(0),
        }
    }

    /// Whether the file is there.
    pub fn is_there(&self, rt: &HostRuntime) -> bool {
        matches!(fs::exists(rt, self.path.as_str()), Ok(true))
    }

    /// Closes the door where the file is there. It is looked for four times a second at most,
    /// whoever asks. The time is in milliseconds.
    pub fn look(&self, rt: &HostRuntime, door: &Door, now: u64) {
        let looked = self.looked.load(Ordering::SeqCst);
        if now.saturating_sub(looked) < TICK {
            return;
        }
        self.looked.store(now, Ordering::SeqCst);
        if self.is_there(rt) {
            door.close();
        }
    }
}
