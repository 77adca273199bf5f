//! What a line says.
ghost use Rattle.std.specs.Prelude.{◌≡◌, ◌<◌, ◌^◌, ◌++◌, ◌∷◌, [], ℕ, List, MatchOption, option_map, codes};
ghost use Rattle.sws_text.specs.Numbers.{space_number};
ghost use Rattle.mely_check.specs.Reading.{IsHigh, IsBehind, ReadsField, ReadsLine};
ghost use Rattle.mely_history.specs.declared.entry.Entry.{Entry as EntryValue};
ghost use Rattle.mely_event.specs.declared.colour.Colour.{Colour as ColourValue};
ghost use Rattle.mely_event.specs.declared.event.Event.{Event as EventValue};
ghost use Rattle.mely_history.specs.declared.entry.Entry.TheVariants.{Reg};
ghost use Rattle.mely_check.specs.Journals.{IsFit};
ghost use Rattle.mely_journal.specs.Journal.{entry_line, shard_line};

use mely_event::{Colour, Event};
use mely_history::Entry as HistoryEntry;
use sws_text::read_decimal;

/// A line of a journal.
#[derive(Clone, Copy, Debug, PartialEq, Eq)]
pub enum Line {
    /// A shard begins: its number, and how many entries it has.
    Shard(u16, u64),

    /// An entry of the shard that has begun.
    Entry(HistoryEntry),
}

/// What a line with its LF says, or `None` where it says nothing.
pub fn read_line(line: &[u8]) -> Option<Line>
    ensures { ReadsLine line.now result }
{
    if let Some((number, count)) = read_shard(line) {
        return Some(Line::Shard(number, count));
    }
    let entry = read_entry(line)?;
    Some(Line::Entry(entry))
}

/// The number of a shard that begins with this line, and how many entries it has.
fn read_shard(line: &[u8]) -> Option<(u16, u64)>
    ensures { MatchOption result
        ((number count : ℕ) → number < 65536 → count < 2 ^ 64
        → line.now ≡ shard_line number count → ⊥)
        (λ found. (found.0 < 65536) × (found.1 < 2 ^ 64)
        × (line.now ≡ shard_line found.0 found.1)) }
{
    let rest = behind(line, b"shard")?;
    let (number, rest) = field(rest, 65_535)?;
    let (count, rest) = field(rest, u64::MAX)?;
    if rest != b"\n".as_slice() {
        return None;
    }
    Some((number as u16, count))
}

/// The entry that a line says.
fn read_entry(line: &[u8]) -> Option<HistoryEntry>
    ensures { MatchOption result ((entry : EntryValue) → IsFit entry
        → line.now ≡ entry_line entry → ⊥)
        (λ entry. IsFit entry × (line.now ≡ entry_line entry)) }
{
    if let Some(rest) = behind(line, b"reg") {
        return read_reg(rest);
    }
    if let Some(rest) = behind(line, b"take") {
        let (colour, core, count) = three(rest)?;
        return Some(HistoryEntry::Take {
            colour: Colour(colour),
            core,
            count,
        });
    }
    if let Some(rest) = behind(line, b"fin") {
        let (colour, core, count) = three(rest)?;
        return Some(HistoryEntry::Fin {
            colour: Colour(colour),
            core,
            count,
        });
    }
    let (colour, from, to) = three(behind(line, b"steal")?)?;
    Some(HistoryEntry::Steal {
        colour: Colour(colour),
        from,
        to,
    })
}

/// The entry that `reg` begins.
fn read_reg(text: &[u8]) -> Option<HistoryEntry>
    ensures { MatchOption result
        ((colour : ColourValue) (event : EventValue) (by : ℕ) → IsFit (Reg colour event by)
        → codes "reg" ++ text.now ≡ entry_line (Reg colour event by) → ⊥)
        (λ entry. IsFit entry × (codes "reg" ++ text.now ≡ entry_line entry)) }
{
    let (colour, rest) = field(text, 65_535)?;
    let (handler, rest) = field(rest, 255)?;
    let (arg, by) = two(rest)?;
    Some(HistoryEntry::Reg {
        colour: Colour(colour as u16),
        event: Event {
            handler: handler as u8,
            arg,
        },
        by,
    })
}

/// Three numbers up to the end of the line.
fn three(text: &[u8]) -> Option<(u16, u16, u16)>
    ensures { MatchOption result
        ((a b c : ℕ) → a < 65536 → b < 65536 → c < 65536
        → text.now ≡ space_number a ++ (space_number b ++ (space_number c ++ 10 ∷ [])) → ⊥)
        (λ found. (found.0 < 65536) × (found.1 < 65536) × (found.2 < 65536)
        × (text.now ≡ space_number found.0
        ++ (space_number found.1 ++ (space_number found.2 ++ 10 ∷ [])))) }
{
    let (first, rest) = field(text, 65_535)?;
    let (second, third) = two(rest)?;
    Some((first as u16, second, third))
}

/// Two numbers up to the end of the line.
fn two(text: &[u8]) -> Option<(u16, u16)>
    ensures { MatchOption result
        ((a b : ℕ) → a < 65536 → b < 65536
        → text.now ≡ space_number a ++ (space_number b ++ 10 ∷ []) → ⊥)
        (λ found. (found.0 < 65536) × (found.1 < 65536)
        × (text.now ≡ space_number found.0 ++ (space_number found.1 ++ 10 ∷ []))) }
{
    let (first, rest) = field(text, 65_535)?;
    let (second, rest) = field(rest, 65_535)?;
    if rest != b"\n".as_slice() {
        return None;
    }
    Some((first as u16, second as u16))
}

/// What stands behind a word at the front of a text.
fn behind<'t>(text: &'t [u8], word: &[u8]) -> Option<&'t [u8]>
    ensures { MatchOption result ((rest : List ℕ) → text.now ≡ word.now ++ rest → ⊥)
        (λ rest. text.now ≡ word.now ++ rest.now) }
{
    text.strip_prefix(word)
}

/// The number behind a space at the front of a text, and what stands behind it.
fn field(text: &[u8], high: u64) -> Option<(u64, &[u8])>
    ensures { ReadsField high text.now (option_map (λ found. (found.0, found.1.now)) result) }
{
    let (digits, rest) = split_low(behind(text, b" ")?);
    let value = read_decimal(digits, high)?;
    Some((value, rest))
}

/// A text up to its first byte below `0`, and from there on.
fn split_low(text: &[u8]) -> (&[u8], &[u8])
    ensures whole { text.now ≡ result.0.now ++ result.1.now }
    ensures high { IsHigh result.0.now }
    ensures behind { IsBehind result.1.now }
{
    for (at, byte) in text.iter().enumerate() {
        if *byte < b'0' {
            return text.split_at(at);
        }
    }
    (text, &[])
}
