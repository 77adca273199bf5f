//! What is done on the colour of a connection: its steps.
ghost use Rattle.std.specs.Prelude.{false, ◌≡◌, ◌<◌, ◌≤◌, ◌≢◌, IsSome, ◌∷◌, ◌++◌, [], ◌↔◌, ◌+◌, ◌==◌, ◌&&◌, List, Option, Some, None, IsTrue, ℕ, length, MatchOption};
ghost use Rattle.sws_link.specs.Links.{IsInitialLink};
ghost use Rattle.sws_handlers.specs.Seating.{LoadSuits, IsUnopened, HasRunSome, IsUnopenedOrRan, PutsTold};
ghost use Rattle.sws_conn.specs.Talks.{due, due_after, reported_next, opened_view};
ghost use Rattle.sws_handlers.specs.Tasks.{number_of};
ghost use Rattle.sws_handlers.specs.Invariant.{RanBy};
ghost use Rattle.sws_link.specs.Limits.{conn_limit};
ghost use Rattle.sws_handlers.specs.Handling.{is_due, next_puts, log_put, line_puts, KeepsEnd, PutsNext, RunsSeat};

use crate::load::Load;
use crate::place::Seat;
use crate::task::Task;
use mely_event::{Colour, Event};
use mely_worker::Outs;
use sws_conn::{Handler, Next, Talk};
use sws_link::Link;
use sws_log::LogLine;

/// Whether the event is the one that is due on the connection after a step that answered this.
pub(crate) fn is_due_on(next: Next, conn: u16, event: Event) -> bool
    ensures { result ≡ is_due conn (due_after next) event }
{
    match next.handler() {
        Some(step) => event.handler == Task::Step(step).number() && event.arg == conn,
        None => false,
    }
}

/// Puts what comes after a step that answered this: the next step on the connection's colour, or
/// where the link was not ready that it waits.
pub(crate) fn put_next<W: Drop, L: Drop>(next: Next, conn: u16, outs: &mut Outs<Load<W, L>>)
    requires empty { outs.old ≡ [] }
    requires small { conn < 65534 }
    ensures { outs.new ≡ next_puts conn (due_after next) }
{
    match next.handler() {
        Some(Handler::Resume) => outs.put(Colour(0), Task::Wait.event(conn), None),
        Some(step) => outs.put(Colour(conn + 2), Task::Step(step).event(conn), None),
        None => {}
    }
}

/// Gives an unopened connection its link.
fn open_seat<W: Drop, L: Link + Drop, T: Talk<L>>(
    seat: &mut Seat<T>,
    conn: u16,
    link: L,
    outs: &mut Outs<Load<W, L>>,
)
    requires empty { outs.old ≡ [] }
    requires small { conn < 65534 }
    requires initial { IsInitialLink (L.tells link) }
    requires not_shut { L.is_shut link ≡ false }
    requires unopened { IsUnopened T.Talk seat.old.talk }
    ensures ran { T.has_run link (Handler.Open ∷ []) seat.new.talk }
    ensures view { T.view_of seat.new.talk ≡ opened_view }
    ensures hall { T.hall_of seat.new.talk ≡ T.hall_of seat.old.talk }
    ensures next { seat.new.next ≡ Next.Read }
    ensures ended { KeepsEnd T.Talk seat.old.talk seat.new.talk }
    ensures answered { seat.new.answered ≡ seat.old.answered }
    ensures told { T.told seat.new.talk ≡ false }
    ensures stray { seat.new.stray ≡ seat.old.stray }
    ensures puts { outs.new ≡ next_puts conn (Some Handler.Read) }
{
    match seat.talk.open(link) {
        Ok(next) => {
            seat.next = next;
            put_next(next, conn, outs);
        }
        Err(_) => unreachable!(),
    }
}

/// How many lines were given, once the last step gave this one or none.
fn count_line(line: &Option<LogLine>, answered: u16) -> u16
    ensures { MatchOption line.now (result ≡ answered) (λ line. result ≡ line.turn) }
{
    match line {
        Some(line) => line.turn,
        None => answered,
    }
}

/// Puts the line that was given, if one was, on the colour of the log, if there is a log.
fn put_line<W: Drop, L: Drop>(
    log: bool,
    total: u16,
    conn: u16,
    line: Option<LogLine>,
    outs: &mut Outs<Load<W, L>>,
)
    requires room { length outs.old < 2 }
    requires small { total ≤ conn_limit }
    ensures { outs.new ≡ outs.old ++ line_puts log total conn line }
{
    if let Some(line) = line {
        if log {
            outs.put(
                Colour(total + 2),
                Task::Log.event(conn),
                Some(Load::Line(line)),
            );
        }
    }
}

/// Does the pending step of a connection that has run some. The line that it gave, if it gave one,
/// is counted, and kept where there is a log.
fn step_seat<W: Drop, L: Link + Drop, T: Talk<L>>(
    seat: &mut Seat<T>,
    conn: u16,
    total: u16,
    log: bool,
    outs: &mut Outs<Load<W, L>>,
)
    requires empty { outs.old ≡ [] }
    requires small { conn < 65534 }
    requires few { total ≤ conn_limit }
    requires answered { seat.old.answered ≡ (T.view_of seat.old.talk).lines }
    requires ran { HasRunSome T.Talk seat.old.talk }
    requires pending { IsSome (due (T.view_of seat.old.talk)) }
    ensures moved { due (T.view_of seat.new.talk) ≢ Some Handler.Open }
    ensures runs { (first : L) (ran : List Handler) (step : Handler)
        → T.has_run first ran seat.old.talk → due (T.view_of seat.old.talk) ≡ Some step
        → T.has_run first (ran ++ step ∷ []) seat.new.talk }
    ensures hall { T.hall_of seat.new.talk ≡ T.hall_of seat.old.talk }
    ensures next { seat.new.next ≡ reported_next (T.view_of seat.new.talk) }
    ensures answered { seat.new.answered ≡ (T.view_of seat.new.talk).lines }
    ensures ended { KeepsEnd T.Talk seat.old.talk seat.new.talk }
    ensures stray { seat.new.stray ≡ seat.old.stray }
    ensures puts { PutsNext T.Talk log total conn seat.old.talk seat.new.talk outs.new }
    ensures lines { PutsTold L.Link T.Talk conn seat.new.talk outs.new }
{
    let next = seat.talk.step();
    // What holds of a run: its link is there, so the connection isn't to be opened again.
    T::a_run_serves();
    let _pending = seat.talk.pending();
    seat.next = next;
    put_next(next, conn, outs);
    let line = seat.talk.answered(conn);
    seat.answered = count_line(&line, seat.answered);
    put_line(log, total, conn, line, outs);
}

/// What a connection does with an event: the due one does its step, and the next one is put; any
/// other one is stray, of which the first is kept.
pub(crate) fn serve<W: Drop, L: Link + Drop, T: Talk<L>>(
    seat: &mut Seat<T>,
    conn: u16,
    total: u16,
    log: bool,
    event: Event,
    load: Option<Load<W, L>>,
    outs: &mut Outs<Load<W, L>>,
)
    requires empty { outs.old ≡ [] }
    requires small { conn < 65534 }
    requires few { total ≤ conn_limit }
    requires answered { seat.old.answered ≡ (T.view_of seat.old.talk).lines }
    requires next { seat.old.next ≡ reported_next (T.view_of seat.old.talk) }
    requires ran { IsUnopenedOrRan T.Talk seat.old.talk }
    requires suits { LoadSuits L.Link (event.handler == number_of Handler.Open) load }
    ensures runs { RunsSeat T.Talk log total
        (is_due conn (due (T.view_of seat.old.talk)) event) conn seat.old event load
        seat.new outs.new }
    ensures answered { seat.new.answered ≡ (T.view_of seat.new.talk).lines }
    ensures lines { PutsTold L.Link T.Talk conn seat.new.talk outs.new }
    ensures next { seat.new.next ≡ reported_next (T.view_of seat.new.talk) }
    ensures once { HasRunSome T.Talk seat.old.talk
        → due (T.view_of seat.old.talk) ≢ Some Handler.Open }
{
    // What holds of a run: its link is there, so the connection isn't to be opened again.
    T::a_run_serves();
    let _pending = seat.talk.pending();
    if is_due_on(seat.next, conn, event) {
        match load {
            Some(Load::Link(link)) => open_seat(seat, conn, link, outs),
            Some(Load::World(_)) => step_seat(seat, conn, total, log, outs),
            Some(Load::Line(_)) => step_seat(seat, conn, total, log, outs),
            None => step_seat(seat, conn, total, log, outs),
        }
    } else if seat.stray.is_none() {
        seat.stray = Some(event);
    }
}
