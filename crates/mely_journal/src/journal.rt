//! The journal of histories.
ghost use Rattle.std.specs.Prelude.{◌≡◌, ◌<◌, ◌++◌, ◌∷◌, [], map, drop, OnOk, IfOk, vec_len};
ghost use Rattle.std.specs.Bool.{OnTrue, OnFalse};
ghost use Rattle.std.specs.List.{flat_map};
ghost use Rattle.sws_link.specs.declared.Put.TheVariants as put;
ghost use Rattle.sws_link.specs.Counts.{HasCause};
ghost use Rattle.sws_link.specs.Contents.{Puts};
ghost use Rattle.sws_text.specs.Numbers.{space_number};
ghost use Rattle.mely_journal.specs.Journal.{entry_line, shard_line, journal_from, journal};

use mely_history::Entry;
use std::alloc::{AllocError, Global};
use sws_link::{Put, Sink, Unwritten, write_pieces};
use sws_text::push_spaced;

/// Writes the journal of the shards' histories, in their order: for each shard its number, how many
/// entries its history has, and these.
pub fn write_journal<O: Sink>(alloc: Global, sink: &mut O, histories: &[Vec<Entry>]) -> Put
    ensures text { Puts (O.written sink.old) (O.written sink.new) result
        (journal (map (λ history. history.items) histories.now)) }
    ensures cause { HasCause (O.faults sink.old) (O.faults sink.new) (result ≡ put.Failed) }
{
    let lines = JournalLines {
        histories,
        next: 0,
        entries: &[],
    };
    write_pieces(sink, Vec::new(alloc), lines)
}

/// The lines of a journal that are still to be written.
#[derive(Drop)]
struct JournalLines<'h> {
    /// The histories of all shards.
    histories: &'h [Vec<Entry>],
    /// The number of the next shard.
    next: usize,
    /// The entries that are left of the shard before it.
    entries: &'h [Entry],
}

impl<'h> Unwritten for JournalLines<'h> {
    ghost left = { λ lines. flat_map entry_line lines.entries.now
        ++ journal_from lines.next
        (map (λ history. history.items) (drop lines.next lines.histories.now)) };

    fn push_next(&mut self, piece: &mut Vec<u8>) -> Result<bool, AllocError> {
        if let [entry, entries @ ..] = self.entries {
            push_entry(piece, entry)?;
            self.entries = entries;
            return Ok(true);
        }
        if self.next >= self.histories.len() {
            return Ok(false);
        }
        let history = &self.histories[self.next];
        push_shard_line(piece, self.next as u64, history.len() as u64)?;
        self.entries = history;
        self.next += 1;
        Ok(true)
    }
}

/// Adds the line of a shard.
fn push_shard_line(text: &mut Vec<u8>, number: u64, count: u64) -> Result<(), AllocError>
    ensures { OnOk result (text.new.items ≡ text.old.items ++ shard_line number count) }
{
    text.extend_from_slice(b"shard")?;
    push_spaced(text, number)?;
    push_spaced(text, count)?;
    text.push(b'\n')?;
    Ok(())
}

/// Adds the line of an entry.
fn push_entry(text: &mut Vec<u8>, entry: &Entry) -> Result<(), AllocError>
    ensures { OnOk result (text.new.items ≡ text.old.items ++ entry_line entry.now) }
{
    match *entry {
        Entry::Reg { colour, event, by } => {
            text.extend_from_slice(b"reg")?;
            push_spaced(text, colour.0 as u64)?;
            push_spaced(text, event.handler as u64)?;
            push_spaced(text, event.arg as u64)?;
            push_spaced(text, by as u64)?;
            text.push(b'\n')?;
            Ok(())
        }
        Entry::Take {
            colour,
            core,
            count,
        } => push_three(text, b"take", colour.0, core, count),
        Entry::Fin {
            colour,
            core,
            count,
        } => push_three(text, b"fin", colour.0, core, count),
        Entry::Steal { colour, from, to } => push_three(text, b"steal", colour.0, from, to),
    }
}

/// Adds a line of a word and three numbers.
fn push_three(
    text: &mut Vec<u8>,
    word: &[u8],
    first: u16,
    second: u16,
    third: u16,
) -> Result<(), AllocError>
    ensures { OnOk result (text.new.items
        ≡ text.old.items ++ word.now ++ space_number first ++ space_number second
        ++ space_number third ++ 10 ∷ []) }
{
    text.extend_from_slice(word)?;
    push_spaced(text, first as u64)?;
    push_spaced(text, second as u64)?;
    push_spaced(text, third as u64)?;
    text.push(b'\n')?;
    Ok(())
}
