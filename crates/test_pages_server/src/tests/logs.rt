//! The page of `sws_log`.
use std::test::Fail;
use sws_link::SureSink;
use sws_log::{Brief, LogLine, write_log};

#[test]
fn a_line_is_written(rt: HostRuntime) -> Result<(), Fail> {
    let alloc = rt.alloc();
    let mut sink = SureSink::new(alloc);
    let line = LogLine {
        conn: 0,
        turn: 1,
        code: 200,
        length: 79,
        target: Brief::of(b"/"),
    };
    write_log(alloc, &mut sink, &[line]);
    assert!(rt; sink.written() == b"log 0 1 200 79 /\n".as_slice());
    Ok(())
}
