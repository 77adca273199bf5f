//! What a run has left.
use crate::cause::Cause;
use crate::given::bytes_of;
use crate::verbs::View;
use memchr::memmem;
use std::alloc::{AllocError, Global};
use std::mem;
use sws_conn::End;
use sws_engine::Served;
use sws_link::{MemLink, MemWorld};
use sws_text::{ShownLines, push_spaced, push_text};
use sws_top::{Outcome, TopFault};

/// How the journal of a run begins.
const JOURNAL: &[u8] = b"shard 0 ";

/// Whether some bytes were written, in a line.
const IS_THERE: &[u8] = b"is there\n";

const IS_NOT_THERE: &[u8] = b"is not there\n";

/// What the last run has left.
#[derive(Drop)]
pub struct Told {
    status: u8,
    fault: Option<TopFault>,

    /// What the run before that, and this one, have written.
    before: Vec<u8>,
    written: Vec<u8>,

    /// What became of the world, in lines.
    served: Vec<u8>,
}

/// The word for how a connection has ended.
fn word_of(end: Option<End>) -> &'static [u8] {
    match end {
        None => b"open",
        Some(End::Done) => b"done",
        Some(End::Idle) => b"idle",
        Some(End::Fault) => b"fault",
        Some(End::Memory) => b"memory",
    }
}

/// Adds a line that a connection has ended so, with what it was sent.
fn push_client(text: &mut Vec<u8>, end: Option<End>, sent: &[u8]) -> Result<(), AllocError> {
    text.extend_from_slice(word_of(end))?;
    text.push(b' ')?;
    push_text(text, sent)?;
    text.push(b'\n')?;
    Ok(())
}

impl Told {
    /// Nothing, as there was no run.
    pub fn new(alloc: Global) -> Told {
        Told {
            status: 0,
            fault: None,
            before: Vec::new(alloc),
            written: Vec::new(alloc),
            served: Vec::new(alloc),
        }
    }

    /// Keeps what a run has written.
    pub fn keep_written(&mut self, written: &[u8]) -> Result<(), Cause> {
        mem::swap(&mut self.before, &mut self.written);
        self.written.clear();
        self.written.extend_from_slice(written)?;
        Ok(())
    }

    /// Keeps how a run has ended, and what became of the world.
    pub fn keep_end(&mut self, outcome: &Outcome<MemWorld>) -> Result<(), Cause> {
        self.status = outcome.status;
        self.fault = outcome.fault;
        self.served.clear();
        if outcome.world.is_some() {
            self.served.extend_from_slice(b"the world came back\n")?;
        }
        match &outcome.ended {
            Some(ended) => self.keep_clients(&ended.served),
            None => Ok(()),
        }
    }

    /// Keeps how the connection of each link has ended that came, and what it was sent.
    fn keep_clients(&mut self, clients: &[Served<MemLink>]) -> Result<(), Cause> {
        self.served.extend_from_slice(b"the world was opened\n")?;
        for client in clients {
            if let Some(link) = &client.link {
                push_client(&mut self.served, client.end, link.written())?;
            }
        }
        Ok(())
    }

    /// Adds the status of the run.
    pub fn show_status(&self, shown: &mut Vec<u8>) -> Result<(), Cause> {
        shown.extend_from_slice(b"status")?;
        push_spaced(shown, u64::from(self.status))?;
        shown.push(b'\n')?;
        Ok(())
    }

    /// Adds how the run has ended, with how much it has written where that was not well.
    pub fn show_end(&self, alloc: Global, shown: &mut Vec<u8>) -> Result<(), Cause> {
        let (status, len) = (self.status, self.written.len());
        let line = match self.fault {
            None => format!(in alloc; "ended {status}\n")?,
            Some(fault) => format!(in alloc; "ended {status} behind {len} bytes: {fault}\n")?,
        };
        shown.extend_from_slice(line.as_bytes())?;
        Ok(())
    }

    /// Where the journal begins, which stands behind everything else that was written.
    pub fn journal_place(&self) -> Option<usize> {
        memmem::find(&self.written, JOURNAL)
    }

    /// What was written from this place on.
    pub fn behind(&self, at: usize) -> &[u8] {
        self.written.get(at..).unwrap_or(b"")
    }

    /// Forgets what was written from this place on.
    pub fn cut(&mut self, at: usize) {
        self.written.truncate(at);
    }

    /// Adds what is to be seen of the run.
    pub fn show(
        &self,
        alloc: Global,
        view: View,
        rest: &[u8],
        shown: &mut Vec<u8>,
    ) -> Result<(), Cause> {
        match view {
            View::Written => shown.extend_from_slice(&self.written)?,
            View::Shown => self.show_lines(shown)?,
            View::Lines => self.show_some(&bytes_of(alloc, rest)?, shown)?,
            View::Has => self.show_whether(&bytes_of(alloc, rest)?, shown)?,
            View::Behind => self.show_behind(shown)?,
            View::Served => shown.extend_from_slice(&self.served)?,
        }
        Ok(())
    }

    /// Adds the lines that show what was written.
    fn show_lines(&self, shown: &mut Vec<u8>) -> Result<(), AllocError> {
        let mut lines = ShownLines::new(&self.written);
        // No text takes as many calls; the bound shows that the loop ends.
        for _ in 0..u64::MAX {
            if !lines.push_next(shown)? {
                return Ok(());
            }
        }
        Ok(())
    }

    /// Adds the lines that begin so.
    fn show_some(&self, begin: &[u8], shown: &mut Vec<u8>) -> Result<(), AllocError> {
        for line in self.written.split(|byte| *byte == b'\n') {
            if line.starts_with(begin) {
                shown.extend_from_slice(line)?;
                shown.push(b'\n')?;
            }
        }
        Ok(())
    }

    /// Adds whether these bytes were written.
    fn show_whether(&self, part: &[u8], shown: &mut Vec<u8>) -> Result<(), AllocError> {
        let is_there = memmem::find(&self.written, part).is_some();
        shown.extend_from_slice(if is_there { IS_THERE } else { IS_NOT_THERE })?;
        Ok(())
    }

    /// Adds how what was written goes on behind what was written before.
    fn show_behind(&self, shown: &mut Vec<u8>) -> Result<(), AllocError> {
        match self.written.strip_prefix(self.before.as_slice()) {
            Some(rest) => {
                shown.extend_from_slice(b"the same, and behind it")?;
                push_spaced(shown, rest.len() as u64)?;
                shown.extend_from_slice(b" bytes\n")?;
            }
            None if self.before.starts_with(&self.written) => {
                shown.extend_from_slice(b"a front of the same\n")?;
            }
            None => shown.extend_from_slice(b"something else\n")?,
        }
        Ok(())
    }
}
