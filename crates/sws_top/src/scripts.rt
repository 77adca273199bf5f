//! The script of a run.
ghost use Rattle.std.specs.Prelude.{◌≡◌, IfOk, IfErr};
ghost use Rattle.sws_top.specs.Faults.{script_fault_of};
ghost use Rattle.sws_top.specs.Scripts.{IsTextRead, ReadsInput, StopsReading};

use crate::faults::TopFault;
use std::alloc::Global;
use sws_link::{Got, Source};
use sws_script::{Input, MAX_BYTES, ScriptFault, parse};

/// How many bytes are read at a time.
const PIECE: usize = 4096;

/// Reads the source to its end, as a script, before which a schedule stands
/// where `schedule` is true.
///
/// Of a source that gives more than a script may have no more is read than shows this. The line at
/// fault is that of all its bytes.
pub fn read_input<R: Source>(
    alloc: Global,
    source: &mut R,
    schedule: bool,
    cores: u16,
) -> Result<Input, TopFault>
    ensures { ReadsInput R.Source schedule cores source.old source.new result }
{
    let text = read_text(alloc, source)?;
    match parse(alloc, &text, schedule, cores) {
        Ok(input) => Ok(input),
        Err(fault) => Err(script_fault(fault)),
    }
}

/// Reads the bytes of a script: all that the source gives, or more than a script may have.
fn read_text<R: Source>(alloc: Global, source: &mut R) -> Result<Vec<u8>, TopFault>
    ensures read { IfOk result (λ text. IsTextRead R.Source source.old source.new text.items) }
    ensures stopped { IfErr result (StopsReading R.Source source.old source.new) }
{
    let mut text = Vec::new(alloc);
    let mut piece = [0; PIECE];
    'pieces: while text.len() <= MAX_BYTES {
        match source.read(&mut piece) {
            Got::Took(count) => {
                if text.extend_from_slice(&piece[..count]).is_err() {
                    return Err(TopFault::Memory);
                }
            }
            Got::End => return Ok(text),
            Got::Failed => return Err(TopFault::ReadFault),
        }
    }
    Ok(text)
}

/// The fault of a run whose script is none.
fn script_fault(fault: ScriptFault) -> TopFault
    ensures { result ≡ script_fault_of fault }
{
    match fault {
        ScriptFault::Bad { line } => TopFault::BadScript { line },
        ScriptFault::TooMany { line } => TopFault::TooMany { line },
        ScriptFault::Memory => TopFault::Memory,
    }
}
