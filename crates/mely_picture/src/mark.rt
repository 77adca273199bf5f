//! The marks of a history: its bars and arrows.
ghost use Rattle.std.specs.Prelude.{◌≡◌, ◌<◌, ◌≤◌, ◌+◌, ◌++◌, ◌^◌, OnOk, length};
ghost use Rattle.std.specs.List.{flat_map};
ghost use Rattle.mely_picture.specs.Marks.{before_finish, finishes as is_finish, marks_of, marks};
ghost use Rattle.mely_picture.specs.Texts.{mark_text};
ghost use Rattle.mely_picture.specs.Drawings.{text_limit};

use crate::arrow::{Arrow, push_arrow};
use crate::bar::{Bar, push_bar};
use mely_event::Colour;
use mely_history::Entry;
use std::alloc::AllocError;

/// Adds the bars and arrows of a history, in a panel with this upper edge.
pub fn push_marks(text: &mut Vec<u8>, top: u64, history: &[Entry]) -> Result<(), AllocError>
    requires top { top < 2 ^ 40 }
    requires short { length history.now ≤ text_limit }
    ensures { OnOk result (text.new.items
        ≡ text.old.items ++ flat_map (mark_text top) (marks history.now)) }
{
    for (at, entry) in history.iter().enumerate() {
        push_mark(text, top, at as u64, entry, &history[at + 1..])?;
    }
    Ok(())
}

/// Adds the mark of an entry at a place, with those behind it.
fn push_mark(
    text: &mut Vec<u8>,
    top: u64,
    at: u64,
    entry: &Entry,
    rest: &[Entry],
) -> Result<(), AllocError>
    requires top { top < 2 ^ 40 }
    requires place { at + length rest.now < text_limit }
    ensures { OnOk result (text.new.items
        ≡ text.old.items ++ flat_map (mark_text top) (marks_of at entry.now rest.now)) }
{
    match *entry {
        Entry::Reg { .. } | Entry::Fin { .. } => Ok(()),
        Entry::Take {
            colour,
            core,
            count,
        } => {
            let bar = Bar {
                colour: colour.0,
                core,
                count,
                begin: at,
                end: at + 1 + entries_before_finish(colour, rest) as u64,
            };
            push_bar(text, top, &bar)?;
            Ok(())
        }
        Entry::Steal { colour, from, to } => {
            let arrow = Arrow {
                colour: colour.0,
                from,
                to,
                at,
            };
            push_arrow(text, top, &arrow)?;
            Ok(())
        }
    }
}

/// How many entries stand before the first that finishes the colour; all of them, where none does.
fn entries_before_finish(colour: Colour, entries: &[Entry]) -> usize
    ensures value { result ≡ before_finish colour entries.now }
    ensures range { result ≤ length entries.now }
{
    for (at, entry) in entries.iter().enumerate() {
        if finishes(colour, entry) {
            return at;
        }
    }
    entries.len()
}

/// Whether an entry finishes the colour.
fn finishes(colour: Colour, entry: &Entry) -> bool
    ensures { result ≡ is_finish colour entry.now }
{
    match *entry {
        Entry::Fin { colour: other, .. } => other.0 == colour.0,
        _ => false,
    }
}
