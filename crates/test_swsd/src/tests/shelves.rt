//! A folder that changes while its site is served.

use super::orders::owned;
use std::process::Abort;
use std::sync::Wait;
use std::{fs, io};
use sws_shelf::{LoadFault, Notes, Origin, Shelf};
use sws_site::{Additions, Site};

const FOLDER: &str = "swsd_rows_shelf";

/// The folders in it, and the files, of which those that begin with a full stop are hidden, but for what
/// is well known.
static FOLDERS: [&str; 2] = [
    "swsd_rows_shelf/.well-known/.not",
    "swsd_rows_shelf/below/.well-known",
];

static FILES: [(&str, &[u8]); 6] = [
    ("swsd_rows_shelf/index.html", b"hi\n"),
    ("swsd_rows_shelf/.secret", b"no\n"),
    ("swsd_rows_shelf/.well-known/a", b"a\n"),
    ("swsd_rows_shelf/.well-known/.b", b"b\n"),
    ("swsd_rows_shelf/.well-known/.not/c", b"c\n"),
    ("swsd_rows_shelf/below/.well-known/d", b"d\n"),
];

/// Makes the folder anew.
fn make_folder(rt: &HostRuntime) -> io::Result<()> {
    let _ = fs::remove_dir_all(rt, FOLDER);
    for &folder in &FOLDERS {
        fs::create_dir_all(rt, folder)?;
    }
    for &(file, bytes) in &FILES {
        fs::write(rt, file, bytes)?;
    }
    Ok(())
}

/// Where the site of a folder comes from.
fn origin_of(rt: &(impl AllocGlobal + Abort), folder: &str) -> Origin {
    Origin {
        path: owned(rt, folder),
        hidden: false,
        answers: 1000,
        input: 4_194_304,
        max_files: 65_536,
        max_bytes: 1_073_741_824,
        added: Additions::none(rt.alloc()),
    }
}

/// Whether the site of a shelf has a file of this name.
fn has<R: Wait>(threads: &R, shelf: &Shelf, name: &[u8]) -> bool {
    match shelf.site(threads) {
        Ok(site) => site.lookup(name).is_some(),
        Err(_) => false,
    }
}

/// How many files the site of a shelf has.
fn count_of<R: Wait>(threads: &R, shelf: &Shelf) -> usize {
    match shelf.site(threads) {
        Ok(site) => site.files(),
        Err(_) => 0,
    }
}

/// The date of the site of a shelf.
fn date_of<R: Wait>(threads: &R, shelf: &Shelf) -> Option<u64> {
    match shelf.site(threads) {
        Ok(site) => site.date(),
        Err(_) => None,
    }
}

/// Whether the site of a shelf is the first one, which has the index and what is well known, and
/// nothing that is hidden.
fn is_first<R: Wait>(threads: &R, shelf: &Shelf) -> bool {
    count_of(threads, shelf) == 2
        && has(threads, shelf, b"index.html")
        && has(threads, shelf, b".well-known/a")
        && !has(threads, shelf, b".secret")
        && !has(threads, shelf, b"new.txt")
}

/// Whether the site that somebody has stays as it is where the folder is loaded anew, and the later
/// one has what has come, and a later date.
fn is_loaded_beside<R: Wait>(
    rt: &HostRuntime,
    threads: &R,
    shelf: &Shelf,
    first: &Site,
    notes: &mut Notes,
) -> bool {
    let is_other = shelf.look(rt, threads, false, notes) == Ok(true);
    let is_kept = first.lookup(b"new.txt").is_none() && first.files() == 2;
    // Both were loaded within a second of the changes.
    let is_later = first.date().is_some() && date_of(threads, shelf) > first.date();
    is_other && is_kept && is_later && has(threads, shelf, b"new.txt")
}

/// Whether a folder is loaded anew where a file has come.
fn is_loaded_anew<R: Wait>(
    rt: &HostRuntime,
    threads: &R,
    shelf: &Shelf,
    notes: &mut Notes,
) -> bool {
    let is_same = shelf.look(rt, threads, false, notes) == Ok(false);
    let is_written = fs::write(rt, "swsd_rows_shelf/new.txt", b"new\n").is_ok();
    match shelf.site(threads) {
        Ok(first) => {
            is_same && is_written && is_loaded_beside(rt, threads, shelf, &first, notes)
        }
        Err(_) => false,
    }
}

/// Whether it is loaded anew where one has come that is well known, and where somebody asks for it.
fn is_loaded_where_asked<R: Wait>(
    rt: &HostRuntime,
    threads: &R,
    shelf: &Shelf,
    notes: &mut Notes,
) -> bool {
    fs::write(rt, "swsd_rows_shelf/.well-known/e", b"e\n").is_ok()
        && shelf.look(rt, threads, false, notes) == Ok(true)
        && shelf.look(rt, threads, false, notes) == Ok(false)
        && shelf.look(rt, threads, true, notes) == Ok(true)
}

/// Whether the site stays where the folder has gone, which is later than the one of this date.
fn is_kept<R: Wait>(
    rt: &HostRuntime,
    threads: &R,
    shelf: &Shelf,
    notes: &mut Notes,
    date: Option<u64>,
) -> bool {
    fs::remove_dir_all(rt, FOLDER).is_ok()
        && shelf.look(rt, threads, false, notes) == Err(LoadFault::Folder)
        && has(threads, shelf, b"new.txt")
        && has(threads, shelf, b".well-known/e")
        && date_of(threads, shelf) > date
}

/// Whether all of this comes of the folder of a shelf.
fn is_followed<R: Wait>(rt: &HostRuntime, threads: &R, shelf: &Shelf, notes: &mut Notes) -> bool {
    let is_new = is_first(threads, shelf) && is_loaded_anew(rt, threads, shelf, notes);
    let second = date_of(threads, shelf);
    is_new
        && is_loaded_where_asked(rt, threads, shelf, notes)
        && is_kept(rt, threads, shelf, notes, second)
}

/// Whether the folder is loaded, and followed then.
fn is_loaded_and_followed<R: AllocGlobal + Abort + Wait>(rt: &HostRuntime, threads: &R) -> bool {
    let mut notes = Notes::new(rt.alloc());
    match Shelf::new(rt, origin_of(threads, FOLDER), &mut notes) {
        Ok(shelf) => is_followed(rt, threads, &shelf, &mut notes),
        Err(_) => false,
    }
}

#[test]
fn a_folder_is_loaded_anew_where_it_has_changed(rt: HostRuntime) {
    assert!(rt; make_folder(&rt).is_ok());
    assert!(rt; is_loaded_and_followed(&rt, &rt));
}

/// Makes a folder with an index and a folder that lies too deep in it.
fn make_deep(rt: &HostRuntime) -> io::Result<()> {
    fs::create_dir_all(rt, "swsd_rows_deep")?;
    fs::write(rt, "swsd_rows_deep/index.html", b"hi\n")?;
    let below = "/d".repeat(rt.alloc(), 35)?;
    let deep = format!(in rt.alloc(); "swsd_rows_deep{below}")?;
    fs::create_dir_all(rt, deep.as_str())
}

/// Whether the notes are of one folder that lies too deep.
fn are_of_deep(notes: &Notes) -> bool {
    for line in notes.lines() {
        if !line.starts_with("left out: \"d/d/d/")
            || !line.ends_with("/\": it lies more than 32 folders deep")
        {
            return false;
        }
    }
    notes.lines().len() == 1 && notes.more() == 0
}

/// Whether what lies too deep is left out and named.
fn is_left_out<R: AllocGlobal + Abort + Wait>(rt: &HostRuntime, threads: &R) -> bool {
    let mut notes = Notes::new(rt.alloc());
    match Shelf::new(rt, origin_of(threads, "swsd_rows_deep"), &mut notes) {
        Ok(shelf) => count_of(threads, &shelf) == 1 && are_of_deep(&notes),
        Err(_) => false,
    }
}

#[test]
fn what_cant_be_read_is_left_out_and_named(rt: HostRuntime) {
    assert!(rt; make_deep(&rt).is_ok());
    assert!(rt; is_left_out(&rt, &rt));
}
