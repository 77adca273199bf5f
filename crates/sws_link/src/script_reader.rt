//! The input of a link in memory.
ghost use Rattle.std.specs.Prelude.{◌≡◌, ◌<◌, ◌≤◌, ◌+◌, ◌++◌, [], length, map, replicate};
ghost use Rattle.sws_link.specs.Scripts.{read_of};
ghost use Rattle.sws_link.specs.Links.{IsReadWithin, given_by};
ghost use Rattle.sws_link.specs.LinkItems.{item_of};
ghost use Rattle.sws_link.specs.ScriptReader.{size_of, Plays, GivesPiece};

use crate::{LinkItem, LinkRead};
use std::marker::Model;

/// Items that are given in order. A contract sees the bytes that were taken, and
/// the items that are left.
#[derive(Debug, Drop)]
pub struct ScriptReader {
    items: Vec<LinkItem>,
    /// How many items are used up.
    at: usize,
    /// How much of the next one is used up.
    used: usize,
}

impl Model for ScriptReader {
    ghost use Rattle.sws_link.specs.ScriptReader.{ScriptReaderState};

    ghost Value = { ScriptReaderState };

    ghost use Rattle.sws_link.specs.ScriptReaderFields.{state_of, IsConsistent};

    ghost view = { state_of };

    ghost invariant = { IsConsistent };
}

impl ScriptReader {
    /// Items of which none was given.
    pub fn new(items: Vec<LinkItem>) -> ScriptReader
        ensures { result ≡ record { taken = []; items = map item_of items.items } }
    {
        ScriptReader {
            items,
            at: 0,
            used: 0,
        }
    }

    /// Reads as the first item says that is not used up.
    pub fn read(&mut self, into: &mut [u8]) -> LinkRead
        requires { 0 < length into.old }
        ensures within { IsReadWithin result (length into.old) }
        ensures answer { result ≡ (read_of (length into.old) self.old.items).answer }
        ensures bytes { given_by result into.new
            ≡ (read_of (length into.old) self.old.items).bytes }
        ensures items { self.new.items ≡ (read_of (length into.old) self.old.items).items }
        ensures taken { self.new.taken ≡ self.old.taken ++ given_by result into.new }
    {
        'items: while self.at < self.items.len() {
            match play(&self.items[self.at], self.used, into) {
                Some((answer, used)) => {
                    self.used = used;
                    return answer;
                }
                None => {
                    self.at += 1;
                    self.used = 0;
                }
            }
        }
        LinkRead::End
    }
}

/// What an item answers of which so much is used up, and how much is used up then; `None`
/// where nothing is left of it.
fn play(item: &LinkItem, used: usize, into: &mut [u8]) -> Option<(LinkRead, usize)>
    requires used { used ≤ size_of (item_of item.now) }
    requires room { 0 < length into.old }
    ensures { Plays (item_of item.now) used (length into.old) result into.new }
{
    match item {
        LinkItem::Bytes(bytes) => give(&bytes[used..], used, into),
        LinkItem::Fill(size) => give_fill(*size as usize - used, used, into),
        LinkItem::Wait(count) => {
            if used < *count as usize {
                Some((LinkRead::NotReady, used + 1))
            } else {
                None
            }
        }
        LinkItem::Fail => Some((LinkRead::Failed, used)),
    }
}

/// Gives of a piece what there is room for.
fn give(left: &[u8], used: usize, into: &mut [u8]) -> Option<(LinkRead, usize)>
    requires room { 0 < length into.old }
    requires fits { used + length left.now < 9223372036854775808 }
    ensures { GivesPiece left.now used (length into.old) result into.new }
{
    if left.is_empty() {
        return None;
    }
    let count = left.len().min(into.len());
    into[..count].copy_from_slice(&left[..count]);
    Some((LinkRead::Took(count), used + count))
}

/// Gives as many bytes `a` as there is room for.
fn give_fill(left: usize, used: usize, into: &mut [u8]) -> Option<(LinkRead, usize)>
    requires room { 0 < length into.old }
    requires fits { used + left < 9223372036854775808 }
    ensures { GivesPiece (replicate left 97) used (length into.old) result into.new }
{
    if left == 0 {
        return None;
    }
    let count = left.min(into.len());
    fill(&mut into[..count]);
    Some((LinkRead::Took(count), used + count))
}

/// Writes `a` everywhere.
fn fill(room: &mut [u8])
    ensures { room.new ≡ replicate (length room.old) 97 }
{
    for i in 0..room.len() {
        room[i] = b'a';
    }
}
