//! A writer of the machine as a sink.
ghost use Rattle.std.specs.Prelude.{None};
ghost use Rattle.sws_link.specs.Counts.{kept_count};

use std::io::Write;
use sws_link::{Put, Sink};

/// Writes each piece as it comes, and counts the errors. Nothing is known of what the machine took.
#[derive(Drop)]
pub struct Out<W: Write + Drop> {
    writer: W,
    faults: u64,
}

impl<W: Write + Drop> Out<W> {
    pub fn new(writer: W) -> Self {
        Out { writer, faults: 0 }
    }
}

impl<W: Write + Drop> Sink for Out<W> {
    ghost written = { λ _. None };

    ghost faults = { λ out. kept_count out.faults };

    fn write_all(&mut self, bytes: &[u8]) -> Put {
        if self.writer.write_all(bytes).is_err() {
            self.faults = self.faults.saturating_add(1);
            return Put::Failed;
        }
        Put::Done
    }
}
