//! What the program says.

use crate::cause::Cause;
use log::kv::Source;
use log::span::Spans;
use log::{LevelFilter, Line, Log, Logged, Metadata, Record, info, warn};
use std::fmt;
use std::net::SocketAddr;
use std::sync::Wait;
use sws_lane::Totals;
use sws_outbox::Outbox;
use sws_shelf::{LoadFault, Notes};

/// Says lines, which are left in the outbox.
#[derive(Drop)]
pub struct Voice<'d, T: Wait> {
    threads: &'d T,
    outbox: &'d Outbox,
    quiet: bool,
}

/// Where the lines of a logger go.
#[derive(Drop)]
struct Desk<'d, T: Wait> {
    threads: &'d T,
    outbox: &'d Outbox,
}

impl<'d, T: Wait> Log for Desk<'d, T> {
    fn enabled(&self, _metadata: &Metadata<'_>) -> bool {
        true
    }

    fn log<D: fmt::Display, K: Source, S: Spans>(&self, record: &Record<'_, D, K, S>) {
        let line = Line::new(record);
        match format!(in self.outbox.alloc(); "{line}\n") {
            Ok(text) => {
                self.outbox.tell(self.threads, text.as_bytes());
            }
            Err(_) => self.outbox.lose_message(self.threads),
        }
    }

    fn flush(&self) {}

    fn target(&self) -> &str {
        ""
    }
}

impl<'d, T: Wait> Voice<'d, T> {
    /// A voice that says faults alone where it is to be quiet.
    pub fn new(threads: &'d T, outbox: &'d Outbox, quiet: bool) -> Voice<'d, T> {
        Voice {
            threads,
            outbox,
            quiet,
        }
    }

    /// The same voice for somebody else.
    pub fn again(&self) -> Voice<'d, T> {
        Voice::new(self.threads, self.outbox, self.quiet)
    }

    fn desk(&self) -> Desk<'d, T> {
        Desk {
            threads: self.threads,
            outbox: self.outbox,
        }
    }

    /// Whether the machine has ever refused to write to standard output.
    pub fn has_refused(&self) -> bool {
        self.outbox.has_refused(self.threads)
    }

    /// Says what has gone well.
    pub fn tell<D: fmt::Display + Drop>(&self, line: D) {
        if !self.quiet {
            let log = Logged::new(self.threads, LevelFilter::Info, self.desk());
            info!(log; target: "swsd", "{line}");
        }
    }

    /// Says what has not.
    pub fn warn<D: fmt::Display + Drop>(&self, line: D) {
        let log = Logged::new(self.threads, LevelFilter::Warn, self.desk());
        warn!(log; target: "swsd", "{line}");
    }

    /// Says where the program listens, and by how many lanes and workers.
    pub fn tell_of_start(
        &self,
        addresses: &[SocketAddr],
        lanes: u16,
        accepting: u16,
        workers: u16,
    ) {
        for address in addresses {
            self.tell(format_args!(
                "listening at {address}: {lanes} lanes, of which {accepting} take connections at a time, with a worker count of {workers} each"
            ));
        }
    }

    /// Says that the folder was loaded anew, since it has changed or since somebody has asked.
    pub fn tell_of_site(&self, is_asked: bool) {
        if is_asked {
            self.tell("the folder was loaded anew, as the reload file asks");
        } else {
            self.tell("the folder has changed and was loaded anew");
        }
    }

    /// Says why the folder was not loaded anew.
    pub fn warn_of_site(&self, fault: LoadFault) {
        self.warn(format_args!("the folder isn't loaded anew, and the old files stay: {fault}"));
    }

    /// Says what of a folder can't be read.
    pub fn warn_of_notes(&self, notes: &Notes) {
        for line in notes.lines() {
            self.warn(line.as_str());
        }
        let more = notes.more();
        if more > 0 {
            self.warn(format_args!("left out: {more} more"));
        }
    }

    /// Says why a generation of this lane has failed.
    pub fn warn_of_lane(&self, lane: usize, cause: Cause) {
        self.warn(format_args!("lane {lane}: {cause}"));
    }
}

/// The line of a generation.
#[derive(Drop)]
pub struct GenerationLine<'t> {
    pub number: u64,
    pub lane: usize,
    pub totals: &'t Totals,
    pub seconds: u64,
}

impl fmt::Display for GenerationLine<'_> {
    fn fmt<W: fmt::Write>(&self, f: &mut fmt::Formatter<W>) -> fmt::Result {
        let (number, lane, seconds) = (self.number, self.lane, self.seconds);
        let (connections, done) = (self.totals.connections, self.totals.done);
        let (idle, fault) = (self.totals.idle, self.totals.fault);
        let (read, written) = (self.totals.read, self.totals.written);
        write!(
            f,
            "generation {number} lane {lane} connections {connections} done {done} idle {idle} fault {fault} read {read} written {written} seconds {seconds}"
        )
    }
}
