//! The site of a bench.
ghost use Rattle.std.specs.Prelude.{◌≡◌, ◌<◌, ◌+◌, ◌*◌, ◌%◌, map, IfOk, OnOk};
ghost use Rattle.std.specs.List.{range_with_len};
ghost use Rattle.sws_link.specs.FolderFiles.{files_of};
ghost use Rattle.sws_bench.specs.BenchSite.{contents, file_name, bench_files, bench_site};

use itoa::Buffer;
use std::alloc::{AllocError, Global};
use sws_link::{Memory, SureFolder};
use sws_site::{Site, SiteFault};

/// How many files there are.
const FILES: u8 = 16;

/// The site that a bench asks for files: `f0.txt` to `f15.txt` of 64 to 1,024
/// letters, without a date.
pub fn bench_site(alloc: Global) -> Result<Site, Memory>
    ensures { IfOk result (λ site. site ≡ bench_site) }
{
    let files = files(alloc)?;
    match Site::load(alloc, &mut SureFolder::new(alloc, files), None) {
        Ok(site) => Ok(site),
        Err(SiteFault::Memory) => Err(Memory),
        Err(SiteFault::Fault) => unreachable!(),
        Err(SiteFault::TooManyFiles { .. }) => unreachable!(),
        Err(SiteFault::LongName { .. }) => unreachable!(),
        Err(SiteFault::TooManyBytes { .. }) => unreachable!(),
    }
}

/// The files, each its name and its contents.
fn files(alloc: Global) -> Result<Vec<(Vec<u8>, Vec<u8>)>, AllocError>
    ensures { IfOk result (λ files. files_of files.items ≡ bench_files) }
{
    let mut files = Vec::new(alloc);
    for number in 0..FILES {
        files.push((file_name(alloc, number)?, contents(alloc, number)?))?;
    }
    Ok(files)
}

/// The name of the file of this number.
fn file_name(alloc: Global, number: u8) -> Result<Vec<u8>, AllocError>
    ensures { IfOk result (λ name. name.items ≡ file_name number) }
{
    let mut name = Vec::new(alloc);
    name.push(b'f')?;
    name.extend_from_slice(Buffer::new().format(number).as_bytes())?;
    name.extend_from_slice(b".txt")?;
    Ok(name)
}

/// The contents of the file of this number.
fn contents(alloc: Global, number: u8) -> Result<Vec<u8>, AllocError>
    requires { number < 16 }
    ensures { IfOk result (λ bytes. bytes.items ≡ contents number) }
{
    let first = u16::from(number);
    let mut bytes = Vec::new(alloc);
    for place in 0..64 * (first + 1) {
        bytes.push(b'a' + ((place + first) % 26) as u8)?;
    }
    Ok(bytes)
}
