//! A connection.
ghost use Rattle.std.specs.Prelude.{◌≡◌, None, false};
ghost use Rattle.std.specs.Option.{ForSome};

use crate::asked::Asked;
use crate::cut::Cut;
use crate::end::End;
use crate::service::Service;
use crate::several::{Next, Several};
use crate::window::Window;
use std::alloc::Global;
use sws_link::{Link, LinkRead, LinkWrite};

/// What a connection does next.
#[derive(Drop)]
pub(crate) enum Turn<Q> {
    /// It asks a cell.
    Asks(u16, Q),

    /// It waits for its link.
    Waits,

    /// It goes on by itself.
    GoesOn,

    /// It does nothing of its own: its link hasn't come, or a cell is to reply, or it has ended.
    Rests,
}

/// A connection: its link, what has come from it and what is on its way to it. Cells are asked `Q`
/// and reply `P`.
#[derive(Drop)]
pub struct Client<L: Link, Q, P> {
    /// Nothing before it has come.
    link: Option<L>,
    inbox: Window,
    outbox: Window,

    /// The cell that is to reply.
    asked: Option<u16>,

    /// The request that it was asked for, where that asks several.
    several: Option<Several<Q, P>>,

    /// Whether it ends once all is written.
    is_last: bool,
    end: Option<End>,

    ghost not_shut: { end ≡ None → ForSome link (λ l. L.is_shut l ≡ false) },
}

/// How many bytes a read asks for at most.
const PIECE: usize = 4096;

/// How many bytes wait to be written at most before no further frame is cut.
const FULL: usize = 65_536;

/// How many steps a connection makes in one turn.
const STEPS: u8 = 64;

impl<L: Link + Drop, Q: Drop, P: Drop> Client<L, Q, P> {
    ghost use Rattle.std.specs.Prelude.{◌≤◌, ◌<◌, ◌∷◌, [], ℕ, IfSome, Some, IsTrue, is_some, true, length};
    ghost use Rattle.std.specs.List.{AllByRecursion};
    ghost use Rattle.mely_net.specs.declared.cut.Cut.TheVariants as cut;
    ghost use Rattle.mely_net.specs.Clients.{Finishes, Reads, Says, Writes, after_leaving, after_opening, asks_of, asks_of_step, shown_client, to_come};
    ghost use Rattle.mely_net.specs.Turning.{Answers, Begins, TurnsTo};
    ghost use Rattle.mely_net.specs.Cutting.{IsWithin, cut_within};
    ghost use Rattle.mely_net.specs.Talks.{Hears, Keeps};

    /// A connection that is still to come. It takes no memory.
    pub(crate) fn new(alloc: Global) -> Client<L, Q, P>
        ensures { shown_client result ≡ to_come }
    {
        Client {
            link: None,
            inbox: Window::new(alloc),
            outbox: Window::new(alloc),
            asked: None,
            several: None,
            is_last: false,
            end: None,
        }
    }

    /// How it has ended, if it has.
    pub fn end(&self) -> Option<End>
        ensures { result ≡ self.now.end }
    {
        self.end
    }

    /// Its link, which was shut if it has ended.
    pub fn link(&self) -> Option<&L> {
        self.link.as_ref()
    }

    /// Its link has come.
    pub(crate) fn open(&mut self, link: L)
        requires { L.is_shut link ≡ false }
        ensures { shown_client self.new ≡ after_opening (L.tells link) (shown_client self.old) }
    {
        if self.link.is_none() && self.end.is_none() {
            self.link = Some(link);
        }
    }

    /// It ends, if it hasn't.
    pub(crate) fn leave(&mut self, end: End)
        ensures { shown_client self.new ≡ after_leaving end (shown_client self.old) }
    {
        if self.end.is_some() {
            return;
        }
        if let Some(link) = &mut self.link {
            link.shut();
        }
        self.end = Some(end);
    }

    /// It goes on until it asks a cell, waits, rests, or has made so many steps.
    pub(crate) fn go_on<S: Service<Request = Q, Reply = P>>(
        &mut self,
        service: &S,
        alloc: Global,
    ) -> Turn<Q>
        ensures keeps { Keeps (S.rules_of service.now) (asks_of result) (shown_client self.old)
            (shown_client self.new) }
        ensures there { AllByRecursion (λ ask. ask.0 < (S.rules_of service.now).cells)
            (asks_of result) }
    {
        'steps: for _ in 0..STEPS {
            if let Some(turn) = self.step(service, alloc) {
                return turn;
            }
        }
        Turn::GoesOn
    }

    /// A cell has replied. What the connection does next, where it doesn't go on: it asks the next
    /// cell, if its request asks several.
    pub(crate) fn hear<S: Service<Request = Q, Reply = P>>(
        &mut self,
        service: &S,
        cell: u16,
        reply: P,
    ) -> Option<Turn<Q>>
        ensures hears { Hears (S.rules_of service.now) (cell, reply) (asks_of_step result)
            (shown_client self.old) (shown_client self.new) }
        ensures there { AllByRecursion (λ ask. ask.0 < (S.rules_of service.now).cells)
            (asks_of_step result) }
    {
        if self.asked == Some(cell) {
            self.asked = None;
            self.hear_asked(service, reply)
        } else {
            self.asked = None;
            self.leave(End::Astray);
            None
        }
    }

    /// The cell that was asked has replied.
    fn hear_asked<S: Service<Request = Q, Reply = P>>(
        &mut self,
        service: &S,
        reply: P,
    ) -> Option<Turn<Q>>
        ensures answers { Answers (S.rules_of service.now) reply (asks_of_step result)
            (shown_client self.old) (shown_client self.new) }
        ensures there { AllByRecursion (λ ask. ask.0 < (S.rules_of service.now).cells)
            (asks_of_step result) }
    {
        match self.several.take() {
            Some(several) => self.turn_to(service, several.hear(reply)),
            None => {
                self.say(service, &reply, &[]);
                None
            }
        }
    }

    /// What is done next for a request that asks several cells: one of them is asked, or the reply
    /// is said with its parts.
    fn turn_to<S: Service<Request = Q, Reply = P>>(
        &mut self,
        service: &S,
        next: Next<Q, P>,
    ) -> Option<Turn<Q>>
        ensures turns { TurnsTo (S.rules_of service.now) next (asks_of_step result)
            (shown_client self.old) (shown_client self.new) }
        ensures there { AllByRecursion (λ ask. ask.0 < (S.rules_of service.now).cells)
            (asks_of_step result) }
    {
        match next {
            Next::Asks(cell, request, several) => {
                // no service asks a cell that there isn't
                if cell >= service.cells() {
                    self.leave(End::Astray);
                    return None;
                }
                self.asked = Some(cell);
                self.several = Some(several);
                Some(Turn::Asks(cell, request))
            }
            Next::Whole(reply, parts) => {
                self.say(service, &reply, parts.as_slice());
                None
            }
        }
    }

    /// One step: a frame is answered, or bytes are read. Where there is nothing to do, what the
    /// connection does next.
    fn step<S: Service<Request = Q, Reply = P>>(
        &mut self,
        service: &S,
        alloc: Global,
    ) -> Option<Turn<Q>>
        ensures keeps { Keeps (S.rules_of service.now) (asks_of_step result)
            (shown_client self.old) (shown_client self.new) }
        ensures there { AllByRecursion (λ ask. ask.0 < (S.rules_of service.now).cells)
            (asks_of_step result) }
    {
        if self.link.is_none() || self.asked.is_some() || self.end.is_some() {
            return Some(Turn::Rests);
        }
        if self.is_last || self.outbox.bytes().len() >= FULL {
            return self.finish();
        }
        match self.cut(service) {
            Cut::More => {
                if self.flush() {
                    self.read()
                } else {
                    Some(self.pause())
                }
            }
            Cut::Frame(size) => self.answer(service, alloc, size),
            Cut::Fault => {
                self.refuse(service, alloc);
                None
            }
        }
    }

    /// Where the first frame of what has come ends, if it has no more bytes than a frame may have.
    fn cut<S: Service>(&self, service: &S) -> Cut
        ensures cut { let rules = S.rules_of service.now in
            result ≡ cut_within rules.cut rules.longest self.now.inbox }
        ensures within { IsWithin result (length self.now.inbox) }
    {
        let bytes = self.inbox.bytes();
        match service.cut(bytes) {
            Cut::More if bytes.len() <= service.longest() => Cut::More,
            Cut::Frame(size) if size <= service.longest() => Cut::Frame(size),
            _ => Cut::Fault,
        }
    }

    /// The first frame, which has so many bytes, is answered, or a cell is asked.
    fn answer<S: Service<Request = Q, Reply = P>>(
        &mut self,
        service: &S,
        alloc: Global,
        size: usize,
    ) -> Option<Turn<Q>>
        requires come { is_some self.old.link ≡ true }
        requires goes_on { self.old.end ≡ None }
        requires idle { self.old.asked ≡ None }
        requires not_last { self.old.is_last ≡ false }
        requires cut { let rules = S.rules_of service.now in
            cut_within rules.cut rules.longest self.old.inbox ≡ cut.Frame size }
        requires fits { size ≤ length self.old.inbox }
        ensures keeps { Keeps (S.rules_of service.now) (asks_of_step result)
            (shown_client self.old) (shown_client self.new) }
        ensures there { AllByRecursion (λ ask. ask.0 < (S.rules_of service.now).cells)
            (asks_of_step result) }
    {
        let Ok(asked) = service.ask(alloc, &self.inbox.bytes()[..size]) else {
            self.leave(End::Memory);
            return Some(Turn::Rests);
        };
        self.inbox.take_off(size);
        match asked {
            Asked::At(cell, request) => {
                self.asked = Some(cell);
                Some(Turn::Asks(cell, request))
            }
            Asked::Each(asks, reply) => self.begin(service, alloc, asks, reply),
            Asked::Here(reply) => {
                self.say(service, &reply, &[]);
                None
            }
            Asked::Last(reply) => {
                self.is_last = true;
                self.say(service, &reply, &[]);
                None
            }
        }
    }

    /// The first of these cells is asked for a part of this reply. Where there is none, the reply
    /// is said.
    fn begin<S: Service<Request = Q, Reply = P>>(
        &mut self,
        service: &S,
        alloc: Global,
        asks: Vec<(u16, Q)>,
        reply: P,
    ) -> Option<Turn<Q>>
        ensures begins { Begins (S.rules_of service.now) asks.items reply (asks_of_step result)
            (shown_client self.old) (shown_client self.new) }
        ensures there { AllByRecursion (λ ask. ask.0 < (S.rules_of service.now).cells)
            (asks_of_step result) }
    {
        match Several::begin(alloc, asks, reply) {
            Ok(next) => self.turn_to(service, next),
            Err(_) => {
                self.leave(End::Memory);
                Some(Turn::Rests)
            }
        }
    }

    /// What has come begins with no frame.
    fn refuse<S: Service<Request = Q, Reply = P>>(&mut self, service: &S, alloc: Global)
        requires come { is_some self.old.link ≡ true }
        requires goes_on { self.old.end ≡ None }
        requires idle { self.old.asked ≡ None }
        requires not_last { self.old.is_last ≡ false }
        requires cut { let rules = S.rules_of service.now in
            cut_within rules.cut rules.longest self.old.inbox ≡ cut.Fault }
        ensures { Keeps (S.rules_of service.now) [] (shown_client self.old)
            (shown_client self.new) }
    {
        match service.refuse(alloc) {
            Ok(reply) => {
                self.is_last = true;
                self.say(service, &reply, &[]);
            }
            Err(_) => self.leave(End::Memory),
        }
    }

    /// A reply is on its way, with its parts where it has any, unless the connection has ended.
    fn say<S: Service<Request = Q, Reply = P>>(&mut self, service: &S, reply: &P, parts: &[P])
        ensures { Says ((S.rules_of service.now).shown reply.now parts.now)
            (shown_client self.old) (shown_client self.new) }
    {
        if self.end.is_none() && self.outbox.add_reply(service, reply, parts).is_err() {
            self.leave(End::Memory);
        }
    }

    /// All is written before anything else is done, and where it was the last, the connection ends.
    fn finish(&mut self) -> Option<Turn<Q>>
        requires { self.old.end ≡ None }
        ensures finishes { Finishes (shown_client self.old) (shown_client self.new) }
        ensures none { asks_of_step result ≡ [] }
    {
        if !self.flush() {
            return Some(self.pause());
        }
        if self.is_last {
            self.leave(End::Done);
        }
        None
    }

    /// What a connection does that can't write: it waits for its link, unless it has ended.
    fn pause(&self) -> Turn<Q>
        ensures { asks_of result ≡ [] }
    {
        if self.end.is_some() {
            Turn::Rests
        } else {
            Turn::Waits
        }
    }

    /// Writes what is on its way, and answers whether all of it was. Where the link fails the
    /// connection ends.
    fn flush(&mut self) -> bool
        requires { self.old.end ≡ None }
        ensures writes { Writes (shown_client self.old) (shown_client self.new) }
        ensures goes_on { IsTrue result → self.new.end ≡ None }
        ensures all { IsTrue result → self.new.outbox ≡ [] }
    {
        'writes: while !self.outbox.bytes().is_empty() {
            let Some(link) = &mut self.link else {
                return false;
            };
            match link.write(self.outbox.bytes()) {
                LinkWrite::Wrote(count) => self.outbox.take_off(count),
                LinkWrite::NotReady => return false,
                LinkWrite::Failed => {
                    self.leave(End::Fault);
                    return false;
                }
                LinkWrite::Memory => {
                    self.leave(End::Memory);
                    return false;
                }
            }
        }
        true
    }

    /// Reads what has come. Where nothing has, what the connection does next.
    fn read(&mut self) -> Option<Turn<Q>>
        requires { self.old.end ≡ None }
        ensures reads { Reads (shown_client self.old) (shown_client self.new) }
        ensures none { asks_of_step result ≡ [] }
    {
        let Some(link) = &mut self.link else {
            return Some(Turn::Rests);
        };
        let mut piece = [0; PIECE];
        match link.read(&mut piece) {
            LinkRead::Took(count) => {
                if self.inbox.add(&piece[..count]).is_err() {
                    self.leave(End::Memory);
                }
            }
            LinkRead::End => self.leave(End::Left),
            LinkRead::NotReady => return Some(Turn::Waits),
            LinkRead::Failed => self.leave(End::Fault),
        }
        None
    }
}
