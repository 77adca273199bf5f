//! The command `sws` on cases that stand as text on standard input: folders, inputs and clients in
//! memory, of which any call may fail, the words of a command, and what is shown of its run.
//!
//! A line is a verb with what belongs to it. A TEXT is written as in scripts (`~` is CR LF), an N in
//! decimal digits. An empty line says nothing, nor does one that begins with `#`.
//!
//! ```usage
//! folder               from here on a folder without files
//! file NAME TEXT       a file more in it
//! files N NAME         so many empty files more of that name
//! input TEXT           from here on an input of these bytes
//! more N TEXT          these bytes so many times behind it
//! text                 from here on an input of the lines up to one that is a full stop
//! journal              from here on an input that is the journal which the last run has written, and
//!                      which is taken off that
//! clients TEXT         from here on a world of two clients, each of which sends these bytes
//! fail PLACE N         the Nth call of the folder, source, sink or world fails in the next run
//! sws WORDS            runs the command, and tells how it ended
//! ends WORDS           runs the command, and tells its status alone
//! written              what the last run has written, as it stands
//! shown                the same as a transcript shows bytes
//! lines TEXT           those lines of it that begin so
//! has TEXT             whether these bytes are in it
//! behind               how it goes on behind what the run before that has written
//! served               what became of the world, and what its clients were sent
//! ```
//!
//! A line that is none of these ends the program, which names it.
#![tactic(auto)]

mod cause;
mod given;
mod running;
mod stage;
mod told;
mod verbs;

use crate::cause::CaseFault;
use crate::stage::play;
use std::io::{self, Read, Write};
use std::process::ExitCode;

/// The status of a program that has met a line which is no case.
const BAD_CASE: u8 = 2;

/// All of standard input.
fn read_all(rt: &HostRuntime) -> io::Result<Vec<u8>> {
    let mut text = Vec::new(rt.alloc());
    rt.reader().read_to_end(&mut text)?;
    Ok(text)
}

/// Writes what the cases have shown, and says why they ended early, if they did.
fn say(rt: &HostRuntime, shown: &[u8], fault: Option<CaseFault>) -> io::Result<ExitCode> {
    io::writer(rt).write_all(shown)?;
    match fault {
        None => Ok(ExitCode::SUCCESS),
        Some(fault) => {
            eprintln!(rt; "run_cases: {fault}")?;
            Ok(ExitCode::from(BAD_CASE))
        }
    }
}

fn main(rt: HostRuntime) -> io::Result<ExitCode> {
    let text = read_all(&rt)?;
    let mut shown = Vec::new(rt.alloc());
    let fault = play(&rt, &text, &mut shown).err();
    say(&rt, &shown, fault)
}
