//! Reading the text of a script, line by line, to the input that it spells or the first fault.
ghost use Rattle.std.specs.Prelude.{◌≡◌, ◌≢◌, ◌≤◌, ◌↔◌, length, IsTrue, IfOk, IfErr};
ghost use Rattle.sws_script.specs.declared.fault.ScriptFault.{ScriptFault as FaultValue};
ghost use Rattle.sws_script.specs.declared.fault.ScriptFault.TheVariants.{Memory};
ghost use Rattle.sws_script.specs.declared.input.Input.{Input as InputValue};
ghost use Rattle.sws_script.specs.declared.line.Line.TheVariants as line;
ghost use Rattle.sws_script.specs.Limits.{step_limit};
ghost use Rattle.sws_link.specs.Limits.{conn_limit};
ghost use Rattle.sws_script.specs.Grammar.{Spells, IsCause, IsUnlessMemory};
ghost use Rattle.sws_script.specs.Order.{conns_of};
ghost use Rattle.sws_script.specs.Adding.{AddsLine};

use crate::line::Line;
use crate::parser::Parser;
use crate::reading::read_line;
use crate::{Input, ScriptFault};
use std::alloc::Global;
use sws_text::first_line;

/// The most bytes of a text.
pub const MAX_BYTES: usize = 16_777_216;

/// The most connections of a script.
pub const MAX_CONNS: usize = 1_024;

/// The input that a text spells: a script, with a schedule before it where `schedule` is true,
/// whose cores are below `cores`.
///
/// A text spells one input at most. The answer is that input where there is one with at most
/// [`MAX_CONNS`] connections, and else the one fault that the text has; only where memory was
/// refused it may be [`ScriptFault::Memory`] instead.
pub fn parse(alloc: Global, text: &[u8], schedule: bool, cores: u16) -> Result<Input, ScriptFault>
    ensures input { IfOk result (λ input. Spells schedule cores text.now input
        × (length input.conns ≤ conn_limit)) }
    ensures fault { IfErr result (IsCause schedule cores text.now) }
    ensures reads { (input : InputValue) → Spells schedule cores text.now input
        → length input.conns ≤ conn_limit → IsUnlessMemory (Ok input) result }
    ensures refuses { (fault : FaultValue) → IsCause schedule cores text.now fault → fault ≢ Memory
        → IsUnlessMemory (Err fault) result }
{
    read_lines(alloc, text, schedule, cores)
}

/// The input of the lines, or why the first of them that is refused is so.
fn read_lines(alloc: Global, text: &[u8], schedule: bool, cores: u16) -> Result<Input, ScriptFault>
    ensures input { IfOk result (λ input. Spells schedule cores text.now input
        × (length input.conns ≤ conn_limit)) }
    ensures fault { IfErr result (IsCause schedule cores text.now) }
{
    let mut parser = Parser::new(alloc, schedule, cores);
    let mut rest = text;
    let mut line: u32 = 0;
    'lines: while let Some((words, after)) = first_line(rest) {
        line += 1;
        if text.len() - after.len() > MAX_BYTES {
            return Err(ScriptFault::Bad { line });
        }
        add_line(alloc, &mut parser, words, line)?;
        rest = after;
    }
    match parser.finish()? {
        Some(input) => Ok(input),
        None => Err(ScriptFault::Bad { line: line + 1 }),
    }
}

/// Adds what the line of this number says.
fn add_line(alloc: Global, parser: &mut Parser, text: &[u8], line: u32) -> Result<(), ScriptFault>
    requires total { parser.old.total ≤ step_limit }
    requires conns { length (conns_of parser.old.contents) ≤ conn_limit }
    ensures { AddsLine parser.old parser.new text.now line result }
{
    let Some(says) = read_line(alloc, text)? else {
        return Err(ScriptFault::Bad { line });
    };
    if parser.conns() == MAX_CONNS && is_conn(&says) {
        return Err(ScriptFault::TooMany { line });
    }
    if parser.add(alloc, says)? {
        Ok(())
    } else {
        Err(ScriptFault::Bad { line })
    }
}

/// Whether the line begins a connection.
fn is_conn(says: &Line) -> bool
    ensures { IsTrue result ↔ (says.now ≡ line.Conn) }
{
    matches!(says, Line::Conn)
}
