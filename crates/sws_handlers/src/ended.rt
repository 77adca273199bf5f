//! What a run leaves.
ghost use Rattle.std.specs.Prelude.{◌≡◌, ◌≤◌, ◌+◌, [], IfOk, vec_capacity};
ghost use Rattle.sws_handlers.specs.EndRoom.{HasEndRoom};
ghost use Rattle.sws_link.specs.Limits.{conn_limit};

use crate::logging::KeptLines;
use mely_event::Event;
use mely_history::History;
use mely_log::Log;
use std::alloc::Global;
use sws_conn::End;
use sws_link::{Link, Memory, World};
use sws_log::LogLine;

/// How a run is judged.
#[derive(Clone, Copy, Debug, PartialEq, Eq)]
pub enum Verdict {
    /// All was run, and each link was served.
    Ok,

    /// The world failed; all was run, and each link that was accepted was served.
    World,

    /// All was run, but a connection was lost: that of the link with this number lacks what it is
    /// owed or its lines in the access log are out of turn. Where this is the number of all links,
    /// the world was lost. This never comes: each call that runs the server promises so.
    Apart { conn: u16 },

    /// Memory was refused.
    Memory,
}

/// What has become of a connection.
#[derive(Drop)]
pub struct Served<L> {
    /// The link, where it was accepted.
    pub link: Option<L>,

    /// How it ended, where it did.
    pub end: Option<End>,

    /// How many bytes were taken, as many at most as count of a connection.
    pub read: u64,

    /// How many bytes were written.
    pub written: u64,

    /// How many lines it gave for the access log, whether or not they were kept.
    pub answered: u16,

    /// The first event of the connection that wasn't due.
    pub stray: Option<Event>,
}

/// What a run leaves.
#[derive(Drop)]
pub struct Ended<W: World> {
    pub verdict: Verdict,

    /// The world, where it is still there.
    pub world: Option<W>,

    /// How many links it gave, and whether it failed; 0 and false where it isn't there.
    pub accepted: u16,
    pub failed: bool,

    /// What has become of each connection, by number.
    pub served: Vec<Served<W::Link>>,

    /// The history of each shard, whose entries can be read where they were to be listed.
    pub histories: Vec<History>,

    /// The events that were run of each colour, in order, for contracts alone.
    pub trails: Vec<Log<Event>>,

    /// The lines of the access log, in the order in which they came; none without the log. Where
    /// memory was refused they end before the first line that found none.
    pub log: Vec<LogLine>,
}

/// Room for what a run leaves, made before it begins.
#[derive(Drop)]
pub struct EndRoom<L> {
    pub(crate) served: Vec<Served<L>>,
    pub(crate) trails: Vec<Log<Event>>,

    /// It takes the lines of the log as they come, and has none itself.
    pub(crate) no_line: KeptLines,

    /// For each connection the last turn of its lines, before the first.
    pub(crate) turns: Vec<Option<u16>>,
}

impl<L> EndRoom<L> {
    /// Room for so many connections.
    ///
    /// # Errors
    ///
    /// There was no memory.
    pub fn new(alloc: Global, total: u16) -> Result<EndRoom<L>, Memory>
    where
        L: Drop,
        requires { total ≤ conn_limit }
        ensures { IfOk result (HasEndRoom total) }
    {
        let served = Vec::with_capacity(alloc, usize::from(total))?;
        let trails = Vec::with_capacity(alloc, usize::from(total) + 3)?;
        Ok(EndRoom {
            served,
            trails,
            no_line: KeptLines::new(alloc),
            turns: vec![in alloc; Some(0); usize::from(total)]?,
        })
    }
}
