//! The lines that faults print.
use std::alloc::{AllocError, Global};
use sws_top::{SiteLimit, TopFault};

/// Faults of words, scripts and the outside, each limit of a site, and faults of journals and of a
/// lost connection, each with its line.
static LINES: [(TopFault, &str); 14] = [
    (TopFault::Usage, "sws: the command line is not understood"),
    (
        TopFault::BadScript { line: 7 },
        "sws: line 7 is not understood",
    ),
    (TopFault::ReadFault, "sws: reading failed"),
    (TopFault::WriteFault, "sws: writing failed"),
    (TopFault::WorldFault, "sws: the network failed"),
    (TopFault::Memory, "sws: no memory"),
    (
        TopFault::TooMany { line: 1026 },
        "sws: line 1026 begins connection 1025",
    ),
    (
        TopFault::SiteFull(SiteLimit::Files { count: 4097 }),
        "sws: the site has more than 4096 files",
    ),
    (
        TopFault::SiteFull(SiteLimit::Bytes { number: 7 }),
        "sws: the site passes 268435456 bytes at file 7",
    ),
    (
        TopFault::SiteFull(SiteLimit::Name { number: 2 }),
        "sws: the name of file 2 is too long",
    ),
    (
        TopFault::BadJournal { line: 23 },
        "sws: line 23 is not a journal line",
    ),
    (TopFault::NotLegal { line: 8 }, "sws: line 8 is not allowed"),
    (
        TopFault::NotDrained { colour: 2 },
        "sws: colour 2 is not drained",
    ),
    (
        TopFault::Apart { conn: 3 },
        "sws: the run lost connection 3",
    ),
];

/// Whether a fault prints as this line.
fn is_printed(alloc: Global, fault: TopFault, line: &str) -> Result<bool, AllocError> {
    Ok(fault.to_string(alloc)?.as_str() == line)
}

#[test]
fn each_fault_has_its_line(rt: HostRuntime) {
    for &(fault, line) in &LINES {
        assert!(rt; is_printed(rt.alloc(), fault, line) == Ok(true), "{line}");
    }
}
