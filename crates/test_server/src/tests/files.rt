//! What the tests make of their rows: owned bytes, files, and the sites of these.

ghost use Rattle.sws_site.specs.Loading.{IsInitialFolder};

use std::alloc::Global;
use std::process::Abort;
use sws_link::{Folder, SureFolder};
use sws_site::{Site, SiteFault};

/// Names with their contents, as a folder takes them.
pub(super) type Files = Vec<(Vec<u8>, Vec<u8>)>;

/// Three small files.
pub(super) static THREE_FILES: [(&[u8], &[u8]); 3] = [
    (b"index.html", b"hi\n"),
    (b"a/b.txt", b"0123456789"),
    (b"empty.css", b""),
];

/// A copy of these bytes.
pub(super) fn owned(rt: &(impl AllocGlobal + Abort), bytes: &[u8]) -> Vec<u8> {
    Vec::from_slice(rt.alloc(), bytes).expect(rt, "memory")
}

/// The files of these names and contents.
pub(super) fn files_of(rt: &(impl AllocGlobal + Abort), rows: &[(&[u8], &[u8])]) -> Files {
    let mut files = Vec::new(rt.alloc());
    for &(name, contents) in rows {
        let file = (owned(rt, name), owned(rt, contents));
        files.push(file).expect(rt, "memory");
    }
    files
}

/// What comes of loading a plain site.
///
/// It says nothing of that, so that no test carries what `Site::load` promises.
pub(super) fn load<F: Folder>(
    alloc: Global,
    folder: &mut F,
    date: Option<u32>,
) -> Result<Site, SiteFault>
    requires { IsInitialFolder (F.tells folder.old) }
{
    let date = match date {
        Some(date) => Some(u64::from(date)),
        None => None,
    };
    Site::load(alloc, folder, date)
}

/// The plain site of these files, with the seconds of its date.
pub(super) fn site_of(
    rt: &(impl AllocGlobal + Abort),
    rows: &[(&[u8], &[u8])],
    date: Option<u32>,
) -> Site {
    let mut folder = SureFolder::new(rt.alloc(), files_of(rt, rows));
    folder.open("site");
    load(rt.alloc(), &mut folder, date).expect(rt, "a site")
}
