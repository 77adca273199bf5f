//! Reading the files of a folder.
ghost use Rattle.std.specs.Prelude.{◌≡◌, ◌<◌, ◌≤◌, IfOk, IfErr, OnErr, IfSome, IsTrue, Ok, Err, length, option_map};
ghost use Rattle.sws_link.specs.Counts.{HasCause};
ghost use Rattle.sws_site.specs.Limits.{size_limit, most_files, most_bytes, IsWithinOptions};
ghost use Rattle.sws_site.specs.Loading.{IsInitialFolder, IsSameFolder};
ghost use Rattle.sws_site.specs.Steps.{HasReadMore, HasReadAll, ReadFails, StepsTo, IsWithin, StepFails};
ghost use Rattle.sws_site.specs.Stored.{file_of, files_of, HasHeads, AllHaveHeads, LoadsStored};

use crate::options::SiteOptions;
use crate::site_faults::SiteFault;
use crate::stored::StoredFile;
use httpdate::HttpDate;
use std::alloc::{AllocError, Global};
use sws_link::{Folder, Got, NextFile};

/// The most files of any site.
const MAX_FILES: u32 = 1_048_576;

/// The most bytes of a file's name.
const MAX_NAME: usize = 1024;

/// The most bytes of all contents of any site.
const MAX_BYTES: u64 = 8_589_934_592;

/// How many bytes of a file are asked for at first, and how many at most at a time.
const FIRST_PIECE: usize = 4096;

const MAX_PIECE: usize = 65536;

/// The most files of a site with these options.
fn most_files(options: &SiteOptions) -> u32
    ensures { result ≡ most_files options.now }
{
    options.max_files.min(MAX_FILES)
}

/// The most bytes of all its contents.
fn most_bytes(options: &SiteOptions) -> usize
    ensures { result ≡ most_bytes options.now }
{
    options.max_bytes.min(MAX_BYTES) as usize
}

/// How many bytes more are asked for: what the buffer has spare, or else as many again as it holds.
fn next_piece(filled: usize, spare: usize) -> usize
    ensures some { 0 < result }
    ensures few { result ≤ MAX_PIECE }
{
    if spare > 0 {
        return spare.min(MAX_PIECE);
    }
    filled.max(FIRST_PIECE).min(MAX_PIECE)
}

/// Reads more of the current file, to behind the bytes that were read of it.
fn read_more<F: Folder>(folder: &mut F, bytes: &mut Vec<u8>) -> Result<Got, AllocError>
    requires file { IsTrue (F.at_file folder.old) }
    requires room { length bytes.old.items ≤ size_limit }
    ensures reads { IfOk result (λ got.
        HasReadMore (F.tells folder.old) (F.tells folder.new) got bytes.old.items bytes.new.items) }
    ensures fails { OnErr result (F.tells folder.new ≡ F.tells folder.old) }
    ensures file { IsTrue (F.at_file folder.new) }
    ensures cause { HasCause (F.faults folder.old) (F.faults folder.new) (result ≡ Ok Got.Failed) }
{
    let filled = bytes.len();
    let piece = next_piece(filled, bytes.capacity() - filled);
    bytes.resize(filled + piece, 0)?;
    let got = folder.read(&mut bytes[filled..]);
    match got {
        Got::Took(count) => bytes.truncate(filled + count),
        Got::End => bytes.truncate(filled),
        Got::Failed => bytes.truncate(filled),
    }
    Ok(got)
}

/// Reads the current file into a buffer of its own, if it has at most `room` bytes.
fn read_file<F: Folder>(
    alloc: Global,
    folder: &mut F,
    number: u32,
    room: usize,
) -> Result<Vec<u8>, SiteFault>
    requires file { IsTrue (F.at_file folder.old) }
    requires room { room ≤ size_limit }
    ensures reads { IfOk result (λ bytes.
        HasReadAll (F.tells folder.old) (F.tells folder.new) bytes.items) }
    ensures fits { IfOk result (λ bytes. length bytes.items ≤ room) }
    ensures fails { IfErr result (ReadFails number room (F.tells folder.old)) }
    ensures same { IsSameFolder (F.tells folder.old) (F.tells folder.new) }
    ensures cause { HasCause (F.faults folder.old) (F.faults folder.new) (result
        ≡ Err SiteFault.Fault) }
{
    let mut bytes = Vec::new(alloc);
    'pieces: while bytes.len() <= room {
        match read_more(folder, &mut bytes)? {
            Got::Took(_) => {}
            Got::End => {
                bytes.shrink_to_fit();
                return Ok(bytes);
            }
            Got::Failed => return Err(SiteFault::Fault),
        }
    }
    Err(SiteFault::TooManyBytes { number })
}

/// Reads the next file, which has this number, if there is one; `room` bytes of
/// contents are still free.
fn next_file<F: Folder>(
    alloc: Global,
    folder: &mut F,
    options: &SiteOptions,
    date: &Option<HttpDate>,
    number: u32,
    room: usize,
) -> Result<Option<StoredFile>, SiteFault>
    requires { room ≤ size_limit }
    ensures steps { IfOk result (λ file.
        StepsTo (F.tells folder.old) (F.tells folder.new) (option_map file_of file)) }
    ensures within { IfOk result (λ file.
        IfSome file (λ file. IsWithin options.now number room (file_of file))) }
    ensures heads { IfOk result (λ file. IfSome file (HasHeads options.now date.now)) }
    ensures fails { IfErr result (StepFails options.now number room (F.tells folder.old)) }
    ensures same { IsSameFolder (F.tells folder.old) (F.tells folder.new) }
    ensures cause { HasCause (F.faults folder.old) (F.faults folder.new) (result
        ≡ Err SiteFault.Fault) }
{
    let mut name = [0u8; MAX_NAME];
    let len = match folder.next(&mut name) {
        NextFile::File { len } => len,
        NextFile::End => return Ok(None),
        NextFile::Failed => return Err(SiteFault::Fault),
        NextFile::Memory => return Err(SiteFault::Memory),
    };
    if number > most_files(options) {
        return Err(SiteFault::TooManyFiles { count: number });
    }
    if len > name.len() {
        return Err(SiteFault::LongName { number });
    }
    let contents = read_file(alloc, folder, number, room)?;
    let file = StoredFile::new(alloc, options, date, &name[..len], contents)?;
    Ok(Some(file))
}

/// Reads all files of a folder, of which none was given.
pub(crate) fn read_files<F: Folder>(
    alloc: Global,
    folder: &mut F,
    options: &SiteOptions,
    date: &Option<HttpDate>,
) -> Result<Vec<StoredFile>, SiteFault>
    requires { IsInitialFolder (F.tells folder.old) }
    ensures loads { LoadsStored options.now (F.tells folder.old) result }
    ensures limits { IfOk result (λ files. IsWithinOptions options.now (files_of files.items)) }
    ensures heads { IfOk result (λ files. AllHaveHeads options.now date.now files.items) }
    ensures same { IsSameFolder (F.tells folder.old) (F.tells folder.new) }
    ensures cause { HasCause (F.faults folder.old) (F.faults folder.new) (result
        ≡ Err SiteFault.Fault) }
{
    let mut files = Vec::new(alloc);
    let mut room = most_bytes(options);
    'files: loop {
        let number = files.len() as u32 + 1;
        match next_file(alloc, folder, options, date, number, room) {
            Ok(Some(file)) => {
                room -= file.response.body.len();
                match files.push(file) {
                    Ok(()) => {}
                    Err(_) => return Err(SiteFault::Memory),
                }
            }
            Ok(None) => return Ok(files),
            Err(fault) => return Err(fault),
        }
    }
}
