//! Who makes the lines of the access log of `swsd`.

use httpdate::HttpDate;
use mely_log::Log;
use std::alloc::AllocError;
use std::sync::Wait;
use sws_access::{Clerk, Record, Visit, push_combined};
use sws_link::{Put, SureSink};
use sws_log::{LogLine, write_log};
use sws_net::{Client, TcpLink};
use sws_outbox::Outbox;
use sws_shelf::time_of;
use swsd_words::LogFormat;

/// Where the lines of all connections are left, and how they are written.
#[derive(Drop)]
#[derive_where(Clone, Copy)]
pub struct LogDesk<'d, T> {
    pub rt: &'d HostRuntime,
    pub threads: &'d T,
    pub outbox: &'d Outbox,
    pub format: LogFormat,
}

/// Makes the lines of one connection as it gives them, and leaves them in the outbox. A line that
/// there is no memory for is counted as dropped.
#[derive(Drop)]
pub struct LineClerk<'d, T> {
    desk: LogDesk<'d, T>,

    /// The number of the connection in its generation, and its client, where these are known.
    number: u16,
    client: Option<Client>,

    /// The lines that it was told, for contracts alone.
    told: Log<LogLine>,
}

/// The date of the clock as HTTP writes it; that of the first second where it can't be read.
fn date_of(rt: &HostRuntime) -> [u8; 29] {
    let seconds = match time_of(rt) {
        Some(time) => time.as_secs(),
        None => 0,
    };
    match HttpDate::from_unix_secs(seconds) {
        Ok(date) => date.to_bytes(),
        Err(_) => *b"Thu, 01 Jan 1970 00:00:00 GMT",
    }
}

impl<'d, T: Wait> LineClerk<'d, T> {
    /// The line in the combined format.
    fn combined(&self, line: &LogLine, record: &Record) -> Result<Vec<u8>, AllocError> {
        let alloc = self.desk.outbox.alloc();
        let client = match &self.client {
            Some(client) => client.address(),
            None => None,
        };
        let address = match client {
            Some(address) => format!(in alloc; "{}", address.to_canonical())?,
            None => String::from_str(alloc, "-")?,
        };
        let origin = record.origin();
        let mut text = Vec::new(alloc);
        push_combined(
            &mut text,
            &Visit {
                address: address.as_bytes(),
                date: date_of(self.desk.rt),
                request: record.request(),
                code: line.code,
                length: record.body(),
                referer: origin.referer,
                agent: origin.agent,
            },
        )?;
        Ok(text)
    }

    /// Leaves the line in the short format.
    fn leave_short(&self, line: LogLine) {
        let outbox = self.desk.outbox;
        let mut text = SureSink::new(outbox.alloc());
        match write_log(outbox.alloc(), &mut text, &[line]) {
            Put::Done => {
                outbox.log(self.desk.threads, text.written());
            }
            Put::Failed | Put::Memory => outbox.lose_lines(self.desk.threads, 1),
        }
    }

    /// Leaves the line in the combined format.
    fn leave_combined(&self, line: LogLine, record: &Record) {
        let outbox = self.desk.outbox;
        match self.combined(&line, record) {
            Ok(text) => {
                outbox.log(self.desk.threads, &text);
            }
            Err(_) => outbox.lose_lines(self.desk.threads, 1),
        }
    }
}

impl<'d, T: Wait> Clerk<TcpLink> for LineClerk<'d, T> {
    type Desk = LogDesk<'d, T>;

    ghost told_of = { λ clerk. clerk.told.items };

    ghost number_of = { λ clerk. clerk.number };

    fn of(desk: LogDesk<'d, T>) -> LineClerk<'d, T> {
        LineClerk {
            desk,
            number: 0,
            client: None,
            told: Log::new(),
        }
    }

    fn meet(&mut self, link: &TcpLink) {
        self.number = link.number().unwrap_or(0);
        self.client = Some(link.client());
        self.told = Log::new();
    }

    fn number(&self) -> u16 {
        self.number
    }

    fn tell(&mut self, line: LogLine, record: &Record) {
        self.told.push(&line);
        match self.desk.format {
            LogFormat::Combined => self.leave_combined(line, record),
            LogFormat::Short => self.leave_short(line),
        }
    }
}
