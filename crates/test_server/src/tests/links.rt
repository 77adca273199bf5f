//! What the forms in memory give with ample memory.
ghost use Rattle.std.specs.Prelude.{◌≡◌, ◌<◌, ◌≤◌, false};
ghost use Rattle.sws_link.specs.MemWorlds.{IsInitialMemLink, IsInitialSureLink};

mod worlds;

use super::files::{files_of, owned};
use std::process::Abort;
use sws_link::{
    Folder, Got, Link, LinkItem, LinkRead, LinkWrite, MemFolder, MemLink, MemSink, MemSource,
    NextFile, Opened, Put, Sink, Source, SureFolder, SureLink, SureSink, SureSource,
};

/// The calls of these numbers, as ones that fail.
pub(super) fn calls_of(rt: &(impl AllocGlobal + Abort), numbers: &[u32]) -> Vec<u32> {
    Vec::from_slice(rt.alloc(), numbers).expect(rt, "memory")
}

/// Whether reads of two bytes each answer so, through the bound.
fn reads_so<R: Source>(source: &mut R, answers: &[Got]) -> bool {
    let mut room = [0; 2];
    for answer in answers {
        if source.read(&mut room) != *answer {
            return false;
        }
    }
    true
}

#[test]
fn a_source_gives_its_bytes_and_fails_where_it_is_told_to(rt: HostRuntime) {
    let answers = [Got::Took(2), Got::Took(1), Got::End];
    assert!(rt; reads_so(&mut SureSource::new(owned(&rt, b"abc")), &answers));
    let mut source = MemSource::new(owned(&rt, b"abc"), calls_of(&rt, &[2]));
    assert!(rt; reads_so(&mut source, &[Got::Took(2), Got::Failed, Got::Took(1)]));
}

/// Whether writes of `ab` and of `c` answer so, through the bound.
fn writes_so<O: Sink>(sink: &mut O, first: Put, second: Put) -> bool {
    sink.write_all(b"ab") == first && sink.write_all(b"c") == second
}

#[test]
fn a_sink_keeps_what_is_written(rt: HostRuntime) {
    let mut sink = SureSink::new(rt.alloc());
    assert!(rt; writes_so(&mut sink, Put::Done, Put::Done));
    assert!(rt; sink.written() == b"abc".as_slice());
}

#[test]
fn a_sink_keeps_what_is_written_and_nothing_of_a_failing_call(rt: HostRuntime) {
    let mut sink = MemSink::new(rt.alloc(), calls_of(&rt, &[1]));
    assert!(rt; writes_so(&mut sink, Put::Failed, Put::Done));
    assert!(rt; sink.written() == b"c".as_slice());
}

/// A file with contents, and one without.
static TWO_FILES: [(&[u8], &[u8]); 2] = [(b"index.html", b"hi\n"), (b"empty.css", b"")];

/// Whether the next files of a folder are these, through the bound.
fn lists_so<F: Folder>(folder: &mut F, answers: &[NextFile]) -> bool {
    let mut name = [0; 1024];
    for answer in answers {
        if folder.next(&mut name) != *answer {
            return false;
        }
    }
    true
}

/// What the two files are.
static ALL: [NextFile; 3] = [
    NextFile::File { len: 10 },
    NextFile::File { len: 9 },
    NextFile::End,
];

/// What they are where the second step fails.
static WITH_A_FAILURE: [NextFile; 3] = [
    NextFile::File { len: 10 },
    NextFile::Failed,
    NextFile::File { len: 9 },
];

#[test]
fn a_folder_gives_its_files_in_their_order(rt: HostRuntime) {
    let mut folder = SureFolder::new(rt.alloc(), files_of(&rt, &TWO_FILES));
    assert!(rt; folder.open("site") == Opened::Ready && lists_so(&mut folder, &ALL));
    assert!(rt; folder.open("site") == Opened::Ready && lists_so(&mut folder, &ALL));
}

#[test]
fn a_folder_fails_where_it_is_told_to(rt: HostRuntime) {
    let calls = calls_of(&rt, &[1, 3]);
    let mut folder = MemFolder::new(rt.alloc(), files_of(&rt, &TWO_FILES), calls);
    assert!(rt; folder.open("site") == Opened::Failed);
    assert!(rt; lists_so(&mut folder, &WITH_A_FAILURE));
}

/// Whether the next file has this name, and three bytes that are read as two and one.
fn gives_file(folder: &mut MemFolder, name: &[u8], two: &[u8], one: &[u8]) -> bool {
    let mut given = [0; 1024];
    let mut room = [0; 2];
    if folder.next(&mut given) != (NextFile::File { len: name.len() }) || !given.starts_with(name) {
        return false;
    }
    let is_two = folder.read(&mut room) == Got::Took(2) && room.as_slice() == two;
    let is_one = folder.read(&mut room) == Got::Took(1) && room.starts_with(one);
    is_two && is_one && folder.read(&mut room) == Got::End
}

#[test]
fn a_folder_copies_names_and_lends_bytes(rt: HostRuntime) {
    let mut folder = MemFolder::new(rt.alloc(), files_of(&rt, &TWO_FILES), calls_of(&rt, &[]));
    assert!(rt; folder.open("site") == Opened::Ready);
    assert!(rt; gives_file(&mut folder, b"index.html", b"hi", b"\n"));
}

/// An item of a link.
#[derive(Clone, Copy)]
pub(super) enum Item<'a> {
    Bytes(&'a [u8]),
    Fill(u32),
    Fail,
}

fn item_of(rt: &(impl AllocGlobal + Abort), item: Item<'_>) -> LinkItem {
    match item {
        Item::Bytes(bytes) => LinkItem::Bytes(owned(rt, bytes)),
        Item::Fill(count) => LinkItem::Fill(count),
        Item::Fail => LinkItem::Fail,
    }
}

/// The items of a link.
pub(super) fn items_of(rt: &(impl AllocGlobal + Abort), items: &[Item<'_>]) -> Vec<LinkItem> {
    let mut owned = Vec::new(rt.alloc());
    for item in items {
        owned.push(item_of(rt, *item)).expect(rt, "memory");
    }
    owned
}

/// A link of these items, whose calls of these numbers are to fail.
pub(super) fn failing_link(
    rt: &(impl AllocGlobal + Abort),
    items: &[Item<'_>],
    failing: &[u32],
) -> MemLink
    ensures initial { IsInitialMemLink result }
    ensures not_shut { result.shut ≡ false }
{
    let calls = calls_of(rt, failing);
    MemLink::new(rt.alloc(), items_of(rt, items), None, None, calls)
}

/// A link without faults whose client sends these bytes, then isn't ready so often, and then sends so
/// many bytes `a`. One write takes at most `step` bytes.
pub(super) fn sure_link(
    rt: &(impl AllocGlobal + Abort),
    bytes: &[u8],
    waits: u16,
    fill: u32,
    step: Option<u32>,
) -> SureLink
    ensures initial { IsInitialSureLink result }
    ensures not_shut { result.shut ≡ false }
{
    let mut items = Vec::new(rt.alloc());
    items
        .push(LinkItem::Bytes(owned(rt, bytes)))
        .expect(rt, "memory");
    items.push(LinkItem::Wait(waits)).expect(rt, "memory");
    items.push(LinkItem::Fill(fill)).expect(rt, "memory");
    SureLink::new(rt.alloc(), items, step)
}

/// Whether reads of so many bytes each answer so, through the bound, and copy these bytes.
fn gives_so<L: Link>(link: &mut L, size: usize, answers: &[(LinkRead, &[u8])]) -> bool
    requires not_shut { L.is_shut link.old ≡ false }
    requires some { 0 < size }
    requires room { size ≤ 4 }
{
    let mut room = [0; 4];
    'reads: for (answer, bytes) in answers {
        if link.read(&mut room[..size]) != *answer || !room.starts_with(bytes) {
            return false;
        }
    }
    true
}

/// What reads of two bytes give of three bytes, a wait and a byte.
static IN_ORDER: [(LinkRead, &[u8]); 5] = [
    (LinkRead::Took(2), b"ab"),
    (LinkRead::Took(1), b"c"),
    (LinkRead::NotReady, b""),
    (LinkRead::Took(1), b"a"),
    (LinkRead::End, b""),
];

/// What reads of four bytes give of two bytes and three more.
static COPIED: [(LinkRead, &[u8]); 3] = [
    (LinkRead::Took(2), b"xy"),
    (LinkRead::Took(3), b"aaa"),
    (LinkRead::End, b""),
];

#[test]
fn a_link_gives_its_items_in_order_and_copies_their_bytes(rt: HostRuntime) {
    let mut link = sure_link(&rt, b"abc", 1, 1, None);
    assert!(rt; gives_so(&mut link, 2, &IN_ORDER));
    let mut link = sure_link(&rt, b"xy", 0, 3, None);
    assert!(rt; gives_so(&mut link, 4, &COPIED));
}

/// Items with a fault, and what reads of two bytes give of them where the second one fails.
static FAULTY: [Item<'static>; 3] = [Item::Bytes(b"abc"), Item::Fail, Item::Bytes(b"d")];

static WITH_FAULTS: [(LinkRead, &[u8]); 5] = [
    (LinkRead::Took(2), b"ab"),
    (LinkRead::Failed, b""),
    (LinkRead::Took(1), b"c"),
    (LinkRead::Failed, b""),
    (LinkRead::Failed, b""),
];

#[test]
fn a_link_fails_where_it_is_told_to(rt: HostRuntime) {
    assert!(rt; gives_so(&mut failing_link(&rt, &FAULTY, &[2]), 2, &WITH_FAULTS));
}

/// Shuts through the bound.
fn shut_once<L: Link>(link: &mut L)
    requires { L.is_shut link.old ≡ false }
{
    link.shut();
}

#[test]
fn a_link_tells_whether_it_was_shut(rt: HostRuntime) {
    let mut link = sure_link(&rt, b"", 0, 0, None);
    assert!(rt; !link.is_shut());
    shut_once(&mut link);
    assert!(rt; link.is_shut());
}

/// To shut a link is no call of those that are counted.
#[test]
fn a_link_whose_first_call_is_to_fail_is_shut(rt: HostRuntime) {
    let mut link = failing_link(&rt, &[], &[1]);
    assert!(rt; !link.is_shut());
    shut_once(&mut link);
    assert!(rt; link.is_shut());
}

/// Whether writes of a piece of five bytes answer so, through the bound.
fn takes_so<L: Link>(link: &mut L, answers: &[LinkWrite]) -> bool
    requires { L.is_shut link.old ≡ false }
{
    'writes: for answer in answers {
        if link.write(b"abcde") != *answer {
            return false;
        }
    }
    true
}

/// The steps of links, what each of three writes answers, and what is written.
static STEPS: [(Option<u32>, LinkWrite, &[u8]); 3] = [
    (None, LinkWrite::Wrote(5), b"abcdeabcdeabcde"),
    (Some(2), LinkWrite::Wrote(2), b"ababab"),
    (Some(0), LinkWrite::NotReady, b""),
];

#[test]
fn a_link_takes_as_much_as_its_bounds_allow(rt: HostRuntime) {
    for &(step, answer, written) in &STEPS {
        let mut link = sure_link(&rt, b"", 0, 0, step);
        assert!(rt; takes_so(&mut link, &[answer; 3]));
        assert!(rt; link.written() == written);
    }
}

/// The steps, the cuts and the failing calls of links, what three writes answer, and what is written.
static FAULTS: [(Option<u32>, Option<u64>, &[u32], &[LinkWrite], &[u8]); 2] = [
    (
        None,
        Some(7),
        &[],
        &[LinkWrite::Wrote(5), LinkWrite::Wrote(2), LinkWrite::Failed],
        b"abcdeab",
    ),
    (
        Some(3),
        None,
        &[2],
        &[LinkWrite::Wrote(3), LinkWrite::Failed, LinkWrite::Wrote(3)],
        b"abcabc",
    ),
];

#[test]
fn a_link_fails_at_its_cut_and_writes_nothing_in_a_failing_call(rt: HostRuntime) {
    for &(step, cut, failing, answers, written) in &FAULTS {
        let calls = calls_of(&rt, failing);
        let mut link = MemLink::new(rt.alloc(), items_of(&rt, &[]), step, cut, calls);
        assert!(rt; takes_so(&mut link, answers));
        assert!(rt; link.written() == written);
    }
}
