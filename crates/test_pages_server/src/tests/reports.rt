//! The page of `sws_report`.
use std::test::Fail;
use sws_conn::End;
use sws_link::SureSink;
use sws_report::{write_conn, write_summary};

const TEXT: &[u8] =
    b"conn 0 done 79\n| HTTP/1.1 200 OK~\n| Server: sws~\n| Content-Type: text/html~\n\
| Content-Length: 3~\n| ~\n| hi\\n\nconnections 1 done 1 idle 0 fault 0\nread 27 written 79\n";

#[test]
fn a_run_of_one_connection_is_told(rt: HostRuntime) -> Result<(), Fail> {
    let alloc = rt.alloc();
    let response =
        b"HTTP/1.1 200 OK\r\nServer: sws\r\nContent-Type: text/html\r\nContent-Length: 3\r\n\r\nhi\n";
    let mut sink = SureSink::new(alloc);
    write_conn(alloc, &mut sink, 0, End::Done, response);
    write_summary(alloc, &mut sink, &[End::Done], 27, 79);
    assert!(rt; sink.written() == TEXT);
    Ok(())
}
