//! The file that a store is kept in.
ghost use Rattle.std.specs.Prelude.{◌≡◌, IfOk, length};
ghost use Rattle.example_redis.specs.declared.limits.TheConstants.{CELLS};

use crate::over_tcp::Fault;
use crate::saved::{load, no_cells, save};
use crate::store::Cell;
use mely_net::{Part, take_cells};
use std::fs::{self, File};
use std::io::{self, ErrorKind, Write};
use std::time::{SystemTime, UNIX_EPOCH};
use sws_link::Link;

/// The time, in milliseconds since 1970; 0 where the clock can't be read, so that no value goes.
pub fn time_of(rt: &HostRuntime) -> u64 {
    let Ok(now) = SystemTime::now(rt) else {
        return 0;
    };
    match now.duration_since(UNIX_EPOCH) {
        Ok(time) => u64::try_from(time.as_millis()).unwrap_or(u64::MAX),
        Err(_) => 0,
    }
}

/// Where the bytes of a file are written before they are put in its place.
fn beside(rt: &HostRuntime, path: &str) -> io::Result<String> {
    Ok(format!(in rt.alloc(); "{path}.new")?)
}

/// Makes the file in which a store is written at its end, so that a place where nobody can write is
/// found before anybody is served.
fn try_to_keep(rt: &HostRuntime, path: &str) -> io::Result<()> {
    let beside = beside(rt, path)?;
    let _file = File::create(rt, beside.as_str())?;
    Ok(())
}

/// The cells that a store begins with: those of its file, where it has one that is there.
///
/// # Errors
///
/// As of [`Fault`]: also where no file can be written beside this one.
pub fn begin_store(rt: &HostRuntime, file: &Option<String>) -> Result<Vec<Cell>, Fault>
    ensures { IfOk result (λ cells. length cells.items ≡ CELLS) }
{
    let Some(path) = file else {
        return Ok(no_cells(rt.alloc())?);
    };
    if let Err(error) = try_to_keep(rt, path.as_str()) {
        return Err(Fault::File(error));
    }
    match fs::read(rt, path.as_str()) {
        Ok(bytes) => load(rt.alloc(), bytes.as_slice()).map_err(Fault::Unsaved),
        Err(error) if error.kind() == ErrorKind::NotFound => Ok(no_cells(rt.alloc())?),
        Err(error) => Err(Fault::File(error)),
    }
}

/// Writes a file beside another one, and puts it in its place once all of it is there.
fn replace(rt: &HostRuntime, path: &str, bytes: &[u8]) -> io::Result<()> {
    let beside = beside(rt, path)?;
    let mut file = File::create(rt, beside.as_str())?;
    file.write_all(bytes)?;
    file.sync_all()?;
    fs::rename(rt, beside.as_str(), path)
}

/// Keeps the cells that a run left in their file, where there is one.
///
/// # Errors
///
/// There was no memory, or the file can't be written: the file is as it was.
pub fn keep<W: Drop, L: Link + Drop, Q: Drop, P: Drop>(
    rt: &HostRuntime,
    file: &Option<String>,
    parts: Vec<Part<Cell, W, L, Q, P>>,
) -> Result<(), Fault> {
    let Some(path) = file else {
        return Ok(());
    };
    let Ok(cells) = take_cells(rt.alloc(), parts) else {
        return Err(Fault::Memory);
    };
    let bytes = save(rt.alloc(), time_of(rt), cells.as_slice())?;
    replace(rt, path.as_str(), bytes.as_slice()).map_err(Fault::File)
}

/// Keeps the cells that are left of a run which wanted memory in a file of their own, beside the one
/// of the store, which stays as it was.
///
/// # Errors
///
/// As of [`keep`].
pub fn keep_rest<W: Drop, L: Link + Drop, Q: Drop, P: Drop>(
    rt: &HostRuntime,
    file: &Option<String>,
    parts: Vec<Option<Part<Cell, W, L, Q, P>>>,
) -> Result<(), Fault> {
    let Some(path) = file else {
        return Ok(());
    };
    let mut there = Vec::new(rt.alloc());
    for part in parts {
        if let Some(part) = part {
            if there.push(part).is_err() {
                return Err(Fault::Memory);
            }
        }
    }
    let rest = Some(format!(in rt.alloc(); "{path}.rest")?);
    keep(rt, &rest, there)
}
