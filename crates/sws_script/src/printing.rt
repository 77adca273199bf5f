//! Writing the text of an input, which is read again as the same input.
ghost use Rattle.std.specs.Prelude.{◌≡◌, ◌≤◌, ◌++◌, ◌∷◌, [], ℕ, List, map, length, IfOk, OnOk};
ghost use Rattle.std.specs.List.{flat_map};
ghost use Rattle.std.specs.Fmt.{decimal};
ghost use Rattle.sws_script.specs.declared.line.Line.TheVariants as line;
ghost use Rattle.sws_script.specs.declared.input.Item.TheVariants.{Send};
ghost use Rattle.sws_script.specs.Inputs.{IsInput, conn_lines, cut_lines, step_lines, run_line, schedule_lines, script_lines};
ghost use Rattle.sws_script.specs.Grammar.{Spells};
ghost use Rattle.sws_script.specs.Limits.{byte_limit};
ghost use Rattle.sws_script.specs.Printed.{printed_line, printed_lines, print_input};

use crate::{Input, Item, ScriptConn};
use itoa::Buffer;
use std::alloc::{AllocError, Global};
use sws_link::Memory;
use sws_text::push_text;

/// The text of an input, with a schedule before the script where `schedule` is true. Where the
/// input is one that is read with this `schedule`, and the text has at most
/// [`MAX_BYTES`](crate::MAX_BYTES), it is read again as this input.
pub fn print(alloc: Global, input: &Input, schedule: bool) -> Result<Vec<u8>, Memory>
    ensures text { IfOk result (λ text. text.items ≡ print_input schedule input.now) }
    ensures spells { IfOk result (λ text. (cores : ℕ) → IsInput schedule cores input.now
        → length text.items ≤ byte_limit → Spells schedule cores text.items input.now) }
{
    let text = print_all(alloc, input, schedule)?;
    Ok(text)
}

/// The lines of an input.
fn print_all(alloc: Global, input: &Input, schedule: bool) -> Result<Vec<u8>, AllocError>
    ensures { IfOk result (λ text. text.items ≡ print_input schedule input.now) }
{
    let mut text = Vec::new(alloc);
    if schedule {
        push_schedule(&mut text, input.steps.as_slice())?;
    }
    push_script(&mut text, input.conns.as_slice())?;
    Ok(text)
}

/// Adds the lines of a schedule.
fn push_schedule(text: &mut Vec<u8>, steps: &[(u16, u32)]) -> Result<(), AllocError>
    ensures { OnOk result (text.new.items
        ≡ text.old.items ++ printed_lines (schedule_lines steps.now)) }
{
    text.extend_from_slice(b"sws-schedule 1\n")?;
    push_steps(text, steps)?;
    text.extend_from_slice(b"end\n")?;
    Ok(())
}

/// Adds the lines of the steps.
fn push_steps(text: &mut Vec<u8>, steps: &[(u16, u32)]) -> Result<(), AllocError>
    ensures { OnOk result (text.new.items
        ≡ text.old.items ++ printed_lines (map run_line steps.now)) }
{
    for (core, count) in steps {
        push_run(text, *core, *count)?;
    }
    Ok(())
}

/// Adds `step CORE COUNT`.
fn push_run(text: &mut Vec<u8>, core: u16, count: u32) -> Result<(), AllocError>
    ensures { OnOk result (text.new.items ≡ text.old.items ++ printed_line (line.Run core count)) }
{
    text.extend_from_slice(b"step ")?;
    push_number(text, core as u64)?;
    text.push(b' ')?;
    push_number(text, count as u64)?;
    text.push(b'\n')?;
    Ok(())
}

/// Adds the lines of a script.
fn push_script(text: &mut Vec<u8>, conns: &[ScriptConn]) -> Result<(), AllocError>
    ensures { OnOk result (text.new.items
        ≡ text.old.items ++ printed_lines (script_lines conns.now)) }
{
    text.extend_from_slice(b"sws-script 1\n")?;
    push_conns(text, conns)
}

/// Adds the lines of the connections.
fn push_conns(text: &mut Vec<u8>, conns: &[ScriptConn]) -> Result<(), AllocError>
    ensures { OnOk result (text.new.items
        ≡ text.old.items ++ printed_lines (flat_map conn_lines conns.now)) }
{
    for conn in conns {
        push_conn(text, conn)?;
    }
    Ok(())
}

/// Adds the lines of a connection.
fn push_conn(text: &mut Vec<u8>, conn: &ScriptConn) -> Result<(), AllocError>
    ensures { OnOk result (text.new.items ≡ text.old.items ++ printed_lines (conn_lines conn.now)) }
{
    text.extend_from_slice(b"conn\n")?;
    push_step(text, conn.step)?;
    push_cut(text, conn.cut)?;
    push_items(text, conn.items.as_slice())
}

/// Adds `step N`, if there is a bound.
fn push_step(text: &mut Vec<u8>, step: Option<u32>) -> Result<(), AllocError>
    ensures { OnOk result (text.new.items ≡ text.old.items ++ printed_lines (step_lines step)) }
{
    match step {
        None => Ok(()),
        Some(count) => push_counted(text, b"step ", count as u64),
    }
}

/// Adds `cut N`, if writes fail.
fn push_cut(text: &mut Vec<u8>, cut: Option<u64>) -> Result<(), AllocError>
    ensures { OnOk result (text.new.items ≡ text.old.items ++ printed_lines (cut_lines cut)) }
{
    match cut {
        None => Ok(()),
        Some(count) => push_counted(text, b"cut ", count),
    }
}

/// Adds the lines of the items.
fn push_items(text: &mut Vec<u8>, items: &[Item]) -> Result<(), AllocError>
    ensures { OnOk result (text.new.items
        ≡ text.old.items ++ printed_lines (map line.Item items.now)) }
{
    for item in items {
        push_item(text, item)?;
    }
    Ok(())
}

/// Adds the line of an item.
fn push_item(text: &mut Vec<u8>, item: &Item) -> Result<(), AllocError>
    ensures { OnOk result (text.new.items ≡ text.old.items ++ printed_line (line.Item item.now)) }
{
    match item {
        Item::Send(bytes) => push_send(text, bytes.bytes()),
        Item::Fill(count) => push_counted(text, b"fill ", *count as u64),
        Item::Pause(count) => push_counted(text, b"pause ", *count as u64),
        Item::Fault => {
            text.extend_from_slice(b"fault\n")?;
            Ok(())
        }
    }
}

/// Adds `send TEXT`.
fn push_send(text: &mut Vec<u8>, bytes: &[u8]) -> Result<(), AllocError>
    ensures { OnOk result (text.new.items
        ≡ text.old.items ++ printed_line (line.Item (Send bytes.now))) }
{
    text.extend_from_slice(b"send ")?;
    push_text(text, bytes)?;
    text.push(b'\n')?;
    Ok(())
}

/// Adds a line of a word and a number.
fn push_counted(text: &mut Vec<u8>, word: &[u8], count: u64) -> Result<(), AllocError>
    ensures { OnOk result (text.new.items
        ≡ text.old.items ++ (word.now ++ decimal count) ++ 10 ∷ []) }
{
    text.extend_from_slice(word)?;
    push_number(text, count)?;
    text.push(b'\n')?;
    Ok(())
}

/// Adds the decimal digits of a number.
fn push_number(text: &mut Vec<u8>, number: u64) -> Result<(), AllocError>
    ensures { OnOk result (text.new.items ≡ text.old.items ++ decimal number) }
{
    text.extend_from_slice(Buffer::new().format(number).as_bytes())?;
    Ok(())
}
