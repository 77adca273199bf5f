//! A link in memory whose calls are not counted.
ghost use Rattle.std.specs.Prelude.{◌≡◌, ◌<◌, ◌≤◌, length, map};
ghost use Rattle.sws_link.specs.Scripts.{left_of_limit, within, read_of};
ghost use Rattle.sws_link.specs.Links.{IsReadWithin, IsWriteWithin, given_by};
ghost use Rattle.sws_link.specs.LinkItems.{item_of};
ghost use Rattle.sws_link.specs.MemLinks.{initial_bytes, bytes_after_read, MayAnswer, bytes_after_write};

use crate::script_reader::ScriptReader;
use crate::{LinkItem, LinkRead, LinkWrite};
use std::alloc::Global;
use std::marker::Model;

/// Items that are read, and bytes that are kept, at most `step` in one write
/// and at most `cut` in all.
#[derive(Debug, Drop)]
pub struct ScriptedBytes {
    input: ScriptReader,
    step: Option<u32>,
    cut: Option<u64>,
    written: Vec<u8>,
}

impl Model for ScriptedBytes {
    ghost use Rattle.sws_link.specs.ScriptedBytes.{ScriptedBytesState};

    ghost Value = { ScriptedBytesState };

    ghost use Rattle.sws_link.specs.MemLinkViews.{shown_scripted_bytes};

    ghost view = { shown_scripted_bytes };
}

impl ScriptedBytes {
    /// Nothing was taken or written.
    pub fn new(
        alloc: Global,
        items: Vec<LinkItem>,
        step: Option<u32>,
        cut: Option<u64>,
    ) -> ScriptedBytes
        ensures { result ≡ initial_bytes (map item_of items.items) step cut }
    {
        ScriptedBytes {
            input: ScriptReader::new(items),
            step,
            cut,
            written: Vec::new(alloc),
        }
    }

    /// What was written, in order.
    pub fn written(&self) -> &[u8]
        ensures { result.now ≡ self.now.written }
    {
        &self.written
    }

    /// Reads as the items say.
    pub fn read(&mut self, into: &mut [u8]) -> LinkRead
        requires { 0 < length into.old }
        ensures within { IsReadWithin result (length into.old) }
        ensures answer { result ≡ (read_of (length into.old) self.old.input.items).answer }
        ensures bytes { given_by result into.new
            ≡ (read_of (length into.old) self.old.input.items).bytes }
        ensures becomes { self.new ≡ bytes_after_read self.old (length into.old) }
    {
        self.input.read(into)
    }

    /// Keeps as many bytes as the two bounds allow.
    pub fn write(&mut self, bytes: &[u8]) -> LinkWrite
        requires { 0 < length bytes.now }
        ensures within { IsWriteWithin result (length bytes.now) }
        ensures answer { MayAnswer self.old (length bytes.now) result }
        ensures becomes { self.new ≡ bytes_after_write self.old result bytes.now }
    {
        let left = self.left();
        if let Some(0) = left {
            return LinkWrite::Failed;
        }
        let count = at_most(self.step.map(u64::from), at_most(left, bytes.len()));
        if count == 0 {
            return LinkWrite::NotReady;
        }
        match self.written.extend_from_slice(&bytes[..count]) {
            Ok(()) => LinkWrite::Wrote(count),
            Err(_) => LinkWrite::Memory,
        }
    }

    /// How many bytes may still be written, where that is bounded.
    fn left(&self) -> Option<u64>
        ensures { result ≡ left_of_limit self.now.cut (length self.now.written) }
    {
        match self.cut {
            None => None,
            Some(cut) => Some(cut.saturating_sub(self.written.len() as u64)),
        }
    }
}

/// The count, or the limit where there is one that is less.
fn at_most(limit: Option<u64>, count: usize) -> usize
    ensures value { result ≡ within limit count }
    ensures no_more { result ≤ count }
{
    match limit {
        None => count,
        Some(limit) => limit.min(count as u64) as usize,
    }
}
