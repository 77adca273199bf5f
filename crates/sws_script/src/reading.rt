//! Reading one line.
ghost use Rattle.std.specs.Prelude.{◌≡◌, ◌++◌, [], ◌∷◌, ℕ, IfOk, MatchOption};
ghost use Rattle.sws_script.specs.declared.line.Line.TheVariants as line;
ghost use Rattle.std.specs.Fmt.{decimal};
ghost use Rattle.sws_script.specs.Lines.{ReadsLine, IsWithin};
ghost use Rattle.sws_script.specs.Limits.{run_limit, write_limit};
ghost use Rattle.sws_script.specs.Words.{ReadsBehind, HasNo};
ghost use Rattle.sws_script.specs.declared.words.Word.TheVariants as word;

use crate::line::Line;
use crate::number::number;
use crate::words::{Word, split_word};
use crate::{Bytes, Item};
use memchr::memchr;
use std::alloc::{AllocError, Global};
use sws_text::read_text;

/// The most bytes that a line `send` sends.
const MAX_PIECE: usize = 4_096;

/// The most bytes of a text that stands for so many: each of them is spelled with four at most.
/// A longer text isn't read.
const MAX_TEXT: usize = 16_384;

/// The line that a text without its LF spells, or `None` where it spells none.
pub fn read_line(alloc: Global, text: &[u8]) -> Result<Option<Line>, AllocError>
    ensures { IfOk result (ReadsLine text.now) }
{
    match split_word(text) {
        None => Ok(None),
        Some((word, rest)) => read_rest(alloc, word, rest),
    }
}

/// The line of a word, by what stands behind it.
fn read_rest(alloc: Global, word: Word, rest: &[u8]) -> Result<Option<Line>, AllocError>
    ensures { IfOk result (ReadsBehind word rest.now) }
{
    match word {
        Word::ScheduleHead => Ok(alone(rest, Line::ScheduleHead)),
        Word::End => Ok(alone(rest, Line::End)),
        Word::ScriptHead => Ok(alone(rest, Line::ScriptHead)),
        Word::Conn => Ok(alone(rest, Line::Conn)),
        Word::Step => Ok(read_step(rest)),
        Word::Cut => Ok(read_cut(rest)),
        Word::Send => read_send(alloc, rest),
        Word::Fill => Ok(read_fill(rest)),
        Word::Pause => Ok(read_pause(rest)),
        Word::Fault => Ok(alone(rest, Line::Item(Item::Fault))),
    }
}

/// A line of its word alone.
fn alone(rest: &[u8], line: Line) -> Option<Line>
    ensures { MatchOption result (rest.now ≡ [] → ⊥) (λ says. (rest.now ≡ []) × (says ≡ line)) }
{
    if rest.is_empty() { Some(line) } else { None }
}

/// `step N` or `step CORE COUNT`.
fn read_step(rest: &[u8]) -> Option<Line>
    ensures { ReadsBehind word.Step rest.now result }
{
    match split_at_space(rest) {
        None => read_one_step(rest),
        Some((core, count)) => read_run(core, count),
    }
}

/// `N` behind `step`.
fn read_one_step(count: &[u8]) -> Option<Line>
    ensures { MatchOption result ((n : ℕ) → count.now ≡ decimal n → IsWithin 1 write_limit n → ⊥)
        (λ says. (n : ℕ) × (says ≡ line.Step n) × (count.now ≡ decimal n)
        × IsWithin 1 write_limit n) }
{
    let count = number(count, 1, 65_536)?;
    Some(Line::Step(count as u32))
}

/// `CORE` and `COUNT` behind `step`.
fn read_run(core: &[u8], count: &[u8]) -> Option<Line>
    ensures { MatchOption result ((m n : ℕ) → core.now ≡ decimal m → IsWithin 0 65535 m
        → count.now ≡ decimal n → IsWithin 1 run_limit n → ⊥)
        (λ says. (m : ℕ) × (n : ℕ) × (says ≡ line.Run m n) × (core.now ≡ decimal m)
        × IsWithin 0 65535 m × (count.now ≡ decimal n) × IsWithin 1 run_limit n) }
{
    let core = number(core, 0, 65_535)?;
    let count = number(count, 1, 1_000_000)?;
    Some(Line::Run {
        core: core as u16,
        count: count as u32,
    })
}

/// `cut N`.
fn read_cut(rest: &[u8]) -> Option<Line>
    ensures { ReadsBehind word.Cut rest.now result }
{
    let count = number(rest, 0, 1_000_000_000)?;
    Some(Line::Cut(count))
}

/// `fill N`.
fn read_fill(rest: &[u8]) -> Option<Line>
    ensures { ReadsBehind word.Fill rest.now result }
{
    let count = number(rest, 1, 65_536)?;
    Some(Line::Item(Item::Fill(count as u32)))
}

/// `pause N`.
fn read_pause(rest: &[u8]) -> Option<Line>
    ensures { ReadsBehind word.Pause rest.now result }
{
    let count = number(rest, 1, 1_000)?;
    Some(Line::Item(Item::Pause(count as u16)))
}

/// `send TEXT`.
fn read_send(alloc: Global, rest: &[u8]) -> Result<Option<Line>, AllocError>
    ensures { IfOk result (ReadsBehind word.Send rest.now) }
{
    if rest.len() > MAX_TEXT {
        return Ok(None);
    }
    let Some(bytes) = read_text(alloc, rest)? else {
        return Ok(None);
    };
    if bytes.is_empty() || bytes.len() > MAX_PIECE {
        return Ok(None);
    }
    Ok(Some(Line::Item(Item::Send(Bytes::new(bytes)))))
}

/// What stands before the first space, and what behind it.
fn split_at_space(text: &[u8]) -> Option<(&[u8], &[u8])>
    ensures { MatchOption result (HasNo 32 text.now)
        (λ parts. HasNo 32 parts.0.now × (text.now ≡ parts.0.now ++ 32 ∷ parts.1.now)) }
{
    let at = memchr(b' ', text)?;
    Some((&text[..at], &text[at + 1..]))
}
