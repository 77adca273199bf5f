//! The lines of an access log, as text.
use super::links::calls_of;
use std::process::Abort;
use sws_link::{MemSink, Put, SureSink};
use sws_log::{Brief, LogLine, write_log};

/// The connection, the number of the answer, its code, its bytes and its target.
type Row = (u16, u16, u16, u64, &'static [u8]);

static ROWS: [Row; 4] = [
    (0, 1, 200, 79, b"/"),
    (0, 2, 200, 78, b"/a/b.txt"),
    (3, 64, 431, 162, b"-"),
    (1023, 1, 404, 98, b"/a b\r\n~"),
];

const TEXT: &[u8] =
    b"log 0 1 200 79 /\nlog 0 2 200 78 /a/b.txt\nlog 3 64 431 162 -\nlog 1023 1 404 98 /a b~\\~\n";

fn line(row: Row) -> LogLine {
    LogLine {
        conn: row.0,
        turn: row.1,
        code: row.2,
        length: row.3,
        target: Brief::of(row.4),
    }
}

/// The lines of the rows.
fn lines_of(rt: &(impl AllocGlobal + Abort), rows: &[Row]) -> Vec<LogLine> {
    let mut lines = Vec::new(rt.alloc());
    for &row in rows {
        lines.push(line(row)).expect(rt, "memory");
    }
    lines
}

/// Whether a log of these rows is this text.
fn is_written_as(rt: &(impl AllocGlobal + Abort), rows: &[Row], text: &[u8]) -> bool {
    let mut sink = SureSink::new(rt.alloc());
    write_log(rt.alloc(), &mut sink, &lines_of(rt, rows)) == Put::Done && sink.written() == text
}

#[test]
fn lines_are_written_one_after_another(rt: HostRuntime) {
    assert!(rt; is_written_as(&rt, &ROWS, TEXT));
    assert!(rt; is_written_as(&rt, &[], b""), "no lines");
}

/// Targets, and what is kept of each.
static TARGETS: [(&[u8], &[u8]); 4] = [
    (&[b'a'; 70], &[b'a'; 64]),
    (&[b'a'; 64], &[b'a'; 64]),
    (b"/a", b"/a"),
    (b"", b""),
];

#[test]
fn a_target_is_cut_behind_its_64th_byte(rt: HostRuntime) {
    for &(target, kept) in &TARGETS {
        assert!(rt; Brief::of(target).bytes() == kept);
    }
    assert!(rt; Brief::of(b"/a") == Brief::of(b"/a"));
    assert!(rt; Brief::of(b"/a") != Brief::of(b"/b"));
}

#[test]
fn a_sink_that_fails_is_told_of_a_log(rt: HostRuntime) {
    let mut sink = MemSink::new(rt.alloc(), calls_of(&rt, &[1]));
    let lines = [line((0, 1, 200, 79, b"/"))];
    assert!(rt; write_log(rt.alloc(), &mut sink, &lines) == Put::Failed);
    assert!(rt; sink.written().is_empty());
}
