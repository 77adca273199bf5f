//! Checking a journal piece by piece.
ghost use Rattle.std.specs.Prelude.{◌≡◌, ◌≢◌, ◌+◌, ◌≤◌, ◌++◌, ℕ, List, length, OnOk, IfErr, Err, MatchResult};
ghost use Rattle.sws_link.specs.Counts.{HasCause};
ghost use Rattle.mely_history.specs.declared.setup.Setup.{Setup as SetupValue};
ghost use Rattle.mely_check.specs.Extent.{IsFrom, ReadsTold};
ghost use Rattle.mely_check.specs.Verdicts.{Finds, Accepts, IsExact};
ghost use Rattle.mely_check.specs.Hearing.{Walk, start, HearsRun};
ghost use Rattle.mely_check.specs.Readers.{Stands, IsOpen, Refuses, Knows, reach};

use crate::fault::CheckFault;
use crate::listener::{Deaf, Listener};
use crate::reader::Reader;
use crate::report::Report;
use mely_history::Setup;
use std::alloc::Global;
use sws_link::{Got, Source};

/// How many bytes are asked for at a time.
const PIECE: usize = 4_096;

/// Reads a journal to its end, and says whether it is that of a legal and drained run of the setup.
///
/// A line that no journal has there ends the reading: the piece in which that line ends, of at most
/// 4,096 bytes, is the last that is read.
///
/// A journal has the setup's shards, numbered from 0, each with a line for each entry that it says
/// it has. What is read is not kept: of each colour there are its owner, its take and the weights
/// of its queued events. The time grows with the journal alone.
///
/// # Errors
///
/// The first of these that holds: `Read` only where the source failed in this call; `BadJournal`
/// exactly where that line is the first that no journal has there; `NotLegal` exactly where the
/// text is a journal and that line is the first whose entry has a colour of another shard or isn't
/// allowed after the entries of its shard before it; `NotDrained` exactly where the text is the
/// journal of a legal run and that colour is the least that runs or has something queued. `Memory`
/// where an allocation was refused.
pub fn check_journal<R: Source>(
    alloc: Global,
    setup: &Setup,
    source: &mut R,
) -> Result<Report, CheckFault>
    ensures finds { Finds setup.now (R.left source.old) result }
    ensures accepts { Accepts setup.now (R.left source.old) result }
    ensures exact { IsExact setup.now (R.left source.old) result }
    ensures reads { ReadsTold (R.left source.old) (R.left source.new) result }
    ensures cause { HasCause (R.faults source.old) (R.faults source.new)
        (result ≡ Err CheckFault.Read) }
{
    hear_journal(alloc, setup, source, &mut Deaf)
}

/// Reads a journal as [`check_journal`] does, and lets a listener that has heard nothing hear it,
/// line by line. Of a journal that is accepted it has then heard the histories, and nothing else.
///
/// # Errors
///
/// Those of [`check_journal`], and `Memory` where the listener was refused an allocation.
pub fn hear_journal<R: Source, L: Listener>(
    alloc: Global,
    setup: &Setup,
    source: &mut R,
    listener: &mut L,
) -> Result<Report, CheckFault>
    requires silent { L.Heard start listener.old }
    ensures finds { Finds setup.now (R.left source.old) result }
    ensures accepts { Accepts setup.now (R.left source.old) result }
    ensures exact { IsExact setup.now (R.left source.old) result }
    ensures reads { ReadsTold (R.left source.old) (R.left source.new) result }
    ensures heard { HearsRun setup.now (R.left source.old) (λ walk. L.Heard walk listener.new)
        result }
    ensures frame { L.frame_of listener.new ≡ L.frame_of listener.old }
    ensures cause { HasCause (R.faults source.old) (R.faults source.new)
        (result ≡ Err CheckFault.Read) }
{
    find(alloc, setup, source, listener)
}

/// What is found of a journal, and heard.
fn find<R: Source, L: Listener>(
    alloc: Global,
    setup: &Setup,
    source: &mut R,
    listener: &mut L,
) -> Result<Report, CheckFault>
    requires silent { L.Heard start listener.old }
    ensures finds { Finds setup.now (R.left source.old) result }
    ensures heard { HearsRun setup.now (R.left source.old) (λ walk. L.Heard walk listener.new)
        result }
    ensures reads { ReadsTold (R.left source.old) (R.left source.new) result }
    ensures frame { L.frame_of listener.new ≡ L.frame_of listener.old }
    ensures cause { HasCause (R.faults source.old) (R.faults source.new)
        (result ≡ Err CheckFault.Read) }
{
    let Ok(mut reader) = Reader::new(alloc, setup) else {
        return Err(CheckFault::Memory);
    };
    let mut room = [0; PIECE];
    'pieces: loop {
        match source.read(&mut room) {
            Got::Took(count) => match take_all(&mut reader, listener, &room[..count]) {
                Ok(()) => {}
                Err(fault) => return Err(fault),
            },
            Got::End => {
                return match reader.end() {
                    Ok(()) => Ok(reader.report()),
                    Err(fault) => Err(fault),
                };
            }
            Got::Failed => return Err(CheckFault::Read),
        }
    }
}

/// Goes on behind all these bytes.
fn take_all<L: Listener>(
    reader: &mut Reader,
    listener: &mut L,
    bytes: &[u8],
) -> Result<(), CheckFault>
    requires { IsOpen reader.old }
    ensures goes { (text : List ℕ) → Stands text reader.old
        → MatchResult result (λ _. Stands (text ++ bytes.now) reader.new)
        (Refuses reader.old.place.shards (text ++ bytes.now)) }
    ensures knows { (setup : SetupValue) (text : List ℕ)
        → Knows (λ walk. L.Heard walk listener.old) setup text reader.old
        → OnOk result (Knows (λ walk. L.Heard walk listener.new) setup (text ++ bytes.now)
        reader.new) }
    ensures frame { L.frame_of listener.new ≡ L.frame_of listener.old }
    ensures open_line { OnOk result (IsOpen reader.new) }
    ensures further { OnOk result (reach reader.old + length bytes.now ≤ reach reader.new) }
    ensures from { IfErr result (IsFrom reader.old.place.number) }
    ensures shards { reader.new.place.shards ≡ reader.old.place.shards }
    ensures sound { IfErr result (λ fault. fault ≢ CheckFault.Read) }
{
    for byte in bytes {
        match reader.take(listener, *byte) {
            Ok(()) => {}
            Err(fault) => return Err(fault),
        }
    }
    Ok(())
}
