//! How a run is judged.
ghost use Rattle.std.specs.Prelude.{◌≡◌, ◌<◌, ◌≤◌, [], MatchBool, MatchOption, length};
ghost use Rattle.sws_handlers.specs.LogTurns.{AreLastTurns, next_turn as next_turn_of};
ghost use Rattle.sws_handlers.specs.RunLeaves.{is_lacking, is_out_of_turn as is_out_of, is_lost, lines_kept, is_out_of_memory, AreWhole, IsFirstLacking, NoneOutOfMemory, SomeOutOfMemory, VerdictIs};

use crate::ended::{Served, Verdict};
use sws_conn::End;
use sws_log::LogLine;

/// Whether a connection lacks its link or its end, or met an event that wasn't due.
fn lacks<L>(served: &Served<L>) -> bool
    ensures { result ≡ is_lacking served.now }
{
    (served.link.is_none() || served.end.is_none()) || served.stray.is_some()
}

/// A turn behind the last one, if it is the next.
fn next_turn(last: Option<u16>, turn: u16) -> Option<u16>
    ensures { result ≡ next_turn_of last turn }
{
    match last {
        Some(last) => {
            if turn > 0 && turn - 1 == last {
                Some(turn)
            } else {
                None
            }
        }
        None => None,
    }
}

/// Counts the lines of each connection that the table has, in one pass: the last turn of its lines,
/// 0 before the first, where they are 1, 2, 3 and so on.
fn number_lines(lines: &[LogLine], turns: &mut [Option<u16>])
    requires { AreLastTurns [] turns.old }
    ensures counted { AreLastTurns lines.now turns.new }
    ensures many { length turns.new ≡ length turns.old }
{
    for line in lines {
        let conn = usize::from(line.conn);
        if conn < turns.len() {
            turns[conn] = next_turn(turns[conn], line.turn);
        }
    }
}

/// Whether the turns of a connection's lines aren't 1 to as many as it gave, where there is a log.
/// The lines are for the contract alone.
fn is_out_of_turn<L>(
    log: bool,
    _lines: &[LogLine],
    turns: &[Option<u16>],
    conn: u16,
    served: &Served<L>,
) -> bool
    requires counted { AreLastTurns _lines.now turns.now }
    requires there { conn < length turns.now }
    ensures { result ≡ is_out_of (lines_kept log _lines.now) conn served.now }
{
    if !log {
        return false;
    }
    match turns[usize::from(conn)] {
        Some(last) => last != served.answered,
        None => true,
    }
}

/// Whether a connection ended for want of memory, by its end.
fn ran_out(end: Option<End>) -> bool
    ensures { result ≡ is_out_of_memory end }
{
    match end {
        Some(End::Memory) => true,
        Some(End::Done) => false,
        Some(End::Idle) => false,
        Some(End::Fault) => false,
        None => false,
    }
}

/// Whether some connection ended for want of memory.
fn any_ran_out<L>(served: &[Served<L>]) -> bool
    ensures { MatchBool result (SomeOutOfMemory served.now) (NoneOutOfMemory served.now) }
{
    for one in served {
        if ran_out(one.end) {
            return true;
        }
    }
    false
}

/// The first of so many connections that lacks something, or whose lines are out of turn.
fn first_lacking<L>(
    log: bool,
    lines: &[LogLine],
    turns: &[Option<u16>],
    served: &[Served<L>],
    count: u16,
) -> Option<u16>
    requires counted { AreLastTurns lines.now turns.now }
    requires there { length served.now ≤ length turns.now }
    ensures { MatchOption result (AreWhole (lines_kept log lines.now) served.now count) (λ conn.
        IsFirstLacking (lines_kept log lines.now) served.now count conn) }
{
    for conn in 0..count {
        match served.get(usize::from(conn)) {
            Some(one) => {
                if lacks(one) || is_out_of_turn(log, lines, turns, conn, one) {
                    return Some(conn);
                }
            }
            None => {}
        }
    }
    None
}

/// The verdict: by the lines of the log where there is one, whether all was run, how many links
/// there are, whether the world is there, how many links it gave and whether it failed, and what
/// has become of each connection. The table counts the lines.
pub(crate) fn judge<L>(
    log: bool,
    lines: &[LogLine],
    turns: &mut [Option<u16>],
    whole: bool,
    total: u16,
    is_there: bool,
    accepted: u16,
    failed: bool,
    served: &[Served<L>],
) -> Verdict
    requires counted { AreLastTurns [] turns.old }
    requires there { length served.now ≤ length turns.old }
    ensures { VerdictIs (lines_kept log lines.now) served.now whole total is_there accepted failed
        result }
{
    if !whole || any_ran_out(served) {
        return Verdict::Memory;
    }
    number_lines(lines, turns);
    let owed = if failed { accepted } else { total };
    match first_lacking(log, lines, turns, served, owed) {
        Some(conn) => Verdict::Apart { conn },
        None => {
            if !is_there {
                Verdict::Apart { conn: total }
            } else if failed {
                Verdict::World
            } else {
                Verdict::Ok
            }
        }
    }
}
