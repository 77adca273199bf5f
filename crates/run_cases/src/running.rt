//! A run of the command.
ghost use Rattle.std.specs.Prelude.{IfOk};
ghost use Rattle.sws_link.specs.MemWorlds.{IsInitialMemLink};

use crate::cause::Cause;
use crate::given::{Given, calls_of};
use crate::told::Told;
use std::alloc::{AllocError, Global};
use std::sync::Wait;
use std::thread::Threads;
use sws_link::{Folder, LinkItem, MemLink, MemSink, MemWorld, Sink, Source, World};
use sws_top::{Outcome, sws};

/// The words of a line, which stand one space apart or more.
fn words_of(alloc: Global, line: &str) -> Result<Vec<String>, AllocError> {
    let mut words = Vec::new(alloc);
    for word in line.split(' ') {
        if !word.is_empty() {
            words.push(String::from_str(alloc, word)?)?;
        }
    }
    Ok(words)
}

/// What a link gives whose client sends these bytes.
fn items_of(alloc: Global, bytes: &[u8]) -> Result<Vec<LinkItem>, AllocError> {
    let mut items = Vec::new(alloc);
    items.push(LinkItem::Bytes(bytes.to_vec(alloc)?))?;
    Ok(items)
}

/// A link whose client sends these bytes.
fn asking(alloc: Global, bytes: &[u8]) -> Result<MemLink, AllocError>
    ensures { IfOk result IsInitialMemLink }
{
    let items = items_of(alloc, bytes)?;
    Ok(MemLink::new(alloc, items, None, None, Vec::new(alloc)))
}

/// A world of two such links, whose call of this number fails.
fn two_clients(alloc: Global, bytes: &[u8], failing: u32) -> Result<MemWorld, AllocError> {
    let first = asking(alloc, bytes)?;
    let second = asking(alloc, bytes)?;
    let links = vec![in alloc; first, second]?;
    Ok(MemWorld::new(links, calls_of(alloc, failing)?))
}

/// Runs these words.
///
/// It is the one call of `sws`, and says nothing of it, so that nothing above carries the contract of
/// that call: what a run comes to is what is shown of it.
fn run<
    T: AllocGlobal + Threads + Wait + Sync,
    F: Folder,
    R: Source,
    W: World + Drop + Send,
    O: Sink,
>(rt: &T, words: &[String], folder: &mut F, source: &mut R, world: W, sink: &mut O) -> Outcome<W>
where
    W::Link: Send,
{
    sws(rt, words, folder, source, world, sink)
}

/// Runs the words of a line on what is given, and keeps what is told of it.
pub fn run_line<T: AllocGlobal + Threads + Wait + Sync>(
    rt: &T,
    line: &[u8],
    given: &Given,
    told: &mut Told,
) -> Result<(), Cause> {
    let Ok(line) = str::from_utf8(line) else {
        return Err(Cause::NoWords);
    };
    let words = words_of(rt.alloc(), line)?;
    run_words(rt, &words, given, told)
}

/// Runs the words on the folder that is given.
fn run_words<T: AllocGlobal + Threads + Wait + Sync>(
    rt: &T,
    words: &[String],
    given: &Given,
    told: &mut Told,
) -> Result<(), Cause> {
    let mut folder = given.folder(rt.alloc())?;
    run_on(rt, words, &mut folder, given, told)
}

/// Runs the words on the input that is given.
fn run_on<T: AllocGlobal + Threads + Wait + Sync, F: Folder>(
    rt: &T,
    words: &[String],
    folder: &mut F,
    given: &Given,
    told: &mut Told,
) -> Result<(), Cause> {
    let mut source = given.source(rt.alloc())?;
    run_to_sink(rt, words, folder, &mut source, given, told)
}

/// Runs the words with a sink of its own, and keeps what was written.
fn run_to_sink<T: AllocGlobal + Threads + Wait + Sync, F: Folder, R: Source>(
    rt: &T,
    words: &[String],
    folder: &mut F,
    source: &mut R,
    given: &Given,
    told: &mut Told,
) -> Result<(), Cause> {
    let mut sink = MemSink::new(rt.alloc(), calls_of(rt.alloc(), given.failing.sink)?);
    run_for_clients(rt, words, folder, source, &mut sink, given, told)?;
    told.keep_written(sink.written())
}

/// Runs the words with a world of the clients, and keeps how that ended and what became of the world.
fn run_for_clients<T: AllocGlobal + Threads + Wait + Sync, F: Folder, R: Source, O: Sink>(
    rt: &T,
    words: &[String],
    folder: &mut F,
    source: &mut R,
    sink: &mut O,
    given: &Given,
    told: &mut Told,
) -> Result<(), Cause> {
    let world = two_clients(rt.alloc(), &given.client, given.failing.world)?;
    let outcome = run(rt, words, folder, source, world, sink);
    told.keep_end(&outcome)
}
