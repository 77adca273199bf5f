//! What is written of runs: connections, journals and summaries.
use super::links::calls_of;
use mely_event::{Colour, Event};
use mely_history::Entry;
use std::alloc::Global;
use std::process::Abort;
use sws_conn::End;
use sws_link::{MemSink, Put, SureSink};
use sws_report::{write_conn, write_journal, write_summary};

/// The two responses of the row with three connections.
const HELLO: &[u8] =
    b"HTTP/1.1 200 OK\r\nServer: sws\r\nContent-Type: text/html\r\nContent-Length: 3\r\n\r\nhi\n";

const EMPTY: &[u8] =
    b"HTTP/1.1 200 OK\r\nServer: sws\r\nContent-Type: text/css\r\nContent-Length: 0\r\n\r\n";

/// Connections with how they end and what they were sent, and the text that shows them.
static THREE: [(u16, End, &[u8]); 3] = [
    (0, End::Done, HELLO),
    (1, End::Done, EMPTY),
    (2, End::Done, b""),
];

const THREE_SHOWN: &[u8] =
    b"conn 0 done 79\n| HTTP/1.1 200 OK~\n| Server: sws~\n| Content-Type: text/html~\n| Content-Length: 3~\n| ~\n| hi\\n\nconn 1 done 75\n| HTTP/1.1 200 OK~\n| Server: sws~\n| Content-Type: text/css~\n| Content-Length: 0~\n| ~\nconn 2 done 0\n";

/// Whether these connections are shown so, one after another.
fn are_shown(alloc: Global, conns: &[(u16, End, &[u8])], shown: &[u8]) -> bool {
    let mut sink = SureSink::new(alloc);
    for &(number, end, written) in conns {
        if end == End::Memory || write_conn(alloc, &mut sink, number, end, written) != Put::Done {
            return false;
        }
    }
    sink.written() == shown
}

static CUT: [(u16, End, &[u8]); 2] = [
    (0, End::Fault, b"HTTP/1."),
    (7, End::Idle, b"\r\n\r\x00\n~\\\t\xff"),
];

const CUT_SHOWN: &[u8] =
    b"conn 0 fault 7\n| HTTP/1.\nconn 7 idle 9\n| ~\n| \\r\\x00\\n\n| \\~\\\\\\t\\xff\n";

#[test]
fn connections_are_shown_line_by_line(rt: HostRuntime) {
    assert!(rt; are_shown(rt.alloc(), &THREE, THREE_SHOWN));
    assert!(rt;
        are_shown(rt.alloc(), &CUT, CUT_SHOWN),
        "lines that are cut"
    );
}

/// The journal of a connection without input that two workers serve by a schedule.
const JOURNAL: &[u8] =
    b"shard 0 22\nreg 0 0 0 2\ntake 0 0 1\nreg 1 2 0 0\nfin 0 0 1\ntake 1 1 1\nreg 0 0 1 1\nreg 2 3 0 1\nfin 1 1 1\nsteal 2 0 1\ntake 0 0 1\ntake 2 1 1\nfin 0 0 1\nreg 2 4 0 1\nfin 2 1 1\ntake 2 1 1\nreg 2 5 0 1\nfin 2 1 1\ntake 2 1 1\nreg 2 8 0 1\nfin 2 1 1\ntake 2 1 1\nfin 2 1 1\nshard 1 0\n";

/// An entry with its colour, and what stands with it.
#[derive(Clone, Copy)]
enum Row {
    /// A registration of an event of this handler and argument by a core.
    Reg(u16, u8, u16, u16),

    /// A take of one event by a core, and its finish.
    Take(u16, u16),
    Fin(u16, u16),

    /// A steal, from a core by another.
    Steal(u16, u16, u16),
}

/// The entries of the journal's first shard.
static ENTRIES: [Row; 22] = [
    Row::Reg(0, 0, 0, 2),
    Row::Take(0, 0),
    Row::Reg(1, 2, 0, 0),
    Row::Fin(0, 0),
    Row::Take(1, 1),
    Row::Reg(0, 0, 1, 1),
    Row::Reg(2, 3, 0, 1),
    Row::Fin(1, 1),
    Row::Steal(2, 0, 1),
    Row::Take(0, 0),
    Row::Take(2, 1),
    Row::Fin(0, 0),
    Row::Reg(2, 4, 0, 1),
    Row::Fin(2, 1),
    Row::Take(2, 1),
    Row::Reg(2, 5, 0, 1),
    Row::Fin(2, 1),
    Row::Take(2, 1),
    Row::Reg(2, 8, 0, 1),
    Row::Fin(2, 1),
    Row::Take(2, 1),
    Row::Fin(2, 1),
];

fn entry_of(row: Row) -> Entry {
    match row {
        Row::Reg(colour, handler, arg, by) => Entry::Reg {
            colour: Colour(colour),
            event: Event { handler, arg },
            by,
        },
        Row::Take(colour, core) => Entry::Take {
            colour: Colour(colour),
            core,
            count: 1,
        },
        Row::Fin(colour, core) => Entry::Fin {
            colour: Colour(colour),
            core,
            count: 1,
        },
        Row::Steal(colour, from, to) => Entry::Steal {
            colour: Colour(colour),
            from,
            to,
        },
    }
}

/// The history of the rows.
fn history_of(rt: &(impl AllocGlobal + Abort), rows: &[Row]) -> Vec<Entry> {
    let mut history = Vec::new(rt.alloc());
    for &row in rows {
        history.push(entry_of(row)).expect(rt, "memory");
    }
    history
}

/// Whether the journal of a history of the rows and of an empty one is this text.
fn is_journal(rt: &(impl AllocGlobal + Abort), rows: &[Row], text: &[u8]) -> bool {
    let mut histories = Vec::new(rt.alloc());
    histories.push(history_of(rt, rows)).expect(rt, "memory");
    histories.push(history_of(rt, &[])).expect(rt, "memory");
    let mut sink = SureSink::new(rt.alloc());
    write_journal(rt.alloc(), &mut sink, &histories) == Put::Done && sink.written() == text
}

#[test]
fn a_journal_has_a_line_for_each_entry(rt: HostRuntime) {
    assert!(rt; is_journal(&rt, &ENTRIES, JOURNAL));
}

/// A hundred thousand bytes.
fn long(rt: &(impl AllocGlobal + Abort)) -> Vec<u8> {
    b"a".repeat(rt.alloc(), 100_000).expect(rt, "memory")
}

#[test]
fn a_long_transcript_is_written_in_pieces(rt: HostRuntime) {
    let mut sink = MemSink::new(rt.alloc(), calls_of(&rt, &[2]));
    let put = write_conn(rt.alloc(), &mut sink, 0, End::Done, &long(&rt));
    assert!(rt; put == Put::Failed);
    assert!(rt; matches!(sink.written().len(), 65_536..70_000));
}

#[test]
fn a_long_transcript_is_one_line(rt: HostRuntime) {
    let mut sink = SureSink::new(rt.alloc());
    let put = write_conn(rt.alloc(), &mut sink, 0, End::Done, &long(&rt));
    assert!(rt; put == Put::Done);
    assert!(rt; sink.written().len() == b"conn 0 done 100000\n| ".len() + 100_000 + 1);
}

/// Connections by how they end, how many bytes were read and written in all, and the text.
static SUMMARIES: [(&[End], u64, u64, &[u8]); 2] = [
    (
        &[End::Done],
        33,
        142,
        b"connections 1 done 1 idle 0 fault 0\nread 33 written 142\n",
    ),
    (
        &[End::Idle, End::Done, End::Fault, End::Done],
        0,
        7,
        b"connections 4 done 2 idle 1 fault 1\nread 0 written 7\n",
    ),
];

#[test]
fn a_summary_counts_the_ends(rt: HostRuntime) {
    for &(ends, read, written, text) in &SUMMARIES {
        let mut sink = SureSink::new(rt.alloc());
        assert!(rt; write_summary(rt.alloc(), &mut sink, ends, read, written) == Put::Done);
        assert!(rt; sink.written() == text);
    }
}

#[test]
fn a_sink_that_fails_is_told(rt: HostRuntime) {
    let mut sink = MemSink::new(rt.alloc(), calls_of(&rt, &[1]));
    assert!(rt; write_conn(rt.alloc(), &mut sink, 0, End::Done, HELLO) == Put::Failed);
    assert!(rt; sink.written().is_empty());
}
