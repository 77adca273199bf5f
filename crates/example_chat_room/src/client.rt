//! A client of the room.
ghost use Rattle.std.specs.Prelude.{◌≡◌, None, false, true};
ghost use Rattle.std.specs.Option.{ForSome};

use crate::end::End;
use crate::inbox::Inbox;
use crate::line::{LONGEST, Line};
use crate::outbox::Outbox;
use itoa::Buffer;
use std::alloc::Global;
use sws_link::{Link, LinkRead, LinkWrite};

/// What a client does next.
#[derive(Drop)]
pub(crate) enum Turn {
    /// It says a line.
    Says(Vec<u8>),

    /// It waits for its link.
    Waits,

    /// It does nothing: its time in the room has ended, or its link hasn't come.
    Gone,
}

/// A client of the room: its link, what has come from it, and what is on its way to it.
#[derive(Drop)]
pub struct Client<L: Link> {
    /// Nothing before the client has come.
    link: Option<L>,
    inbox: Inbox,
    outbox: Outbox,
    end: Option<End>,

    /// Whether its link was shut, after its end.
    is_gone: bool,

    ghost open: { is_gone ≡ false → ForSome link (λ l. L.is_shut l ≡ false) },
    ghost stays: { end ≡ None → is_gone ≡ false },
    ghost was_shut: { is_gone ≡ true → ForSome link (λ l. L.is_shut l ≡ true) },
}

/// How many bytes a read asks for at most.
const PIECE: usize = 512;

impl<L: Link + Drop> Client<L> {
    ghost use Rattle.std.specs.Prelude.{◌≢◌, [], ℕ, List, IfSome, Some, is_some};
    ghost use Rattle.example_chat_room.specs.declared.end.End.TheVariants as ends;
    ghost use Rattle.example_chat_room.specs.Clients.{Goes, IsLine, IsStepLine, StepGoes, shown_client, to_come};
    ghost use Rattle.example_chat_room.specs.Shown.{FitsLine, shown, shown_of};
    ghost use Rattle.example_chat_room.specs.Talks.{GoesOn, IsTalk, Keeps, Shows};

    /// A client that is still to come. It takes no memory.
    pub(crate) fn new(alloc: Global) -> Client<L>
        ensures { shown_client result ≡ to_come }
    {
        Client {
            link: None,
            inbox: Inbox::new(alloc),
            outbox: Outbox::new(alloc),
            end: None,
            is_gone: false,
        }
    }

    /// How its time in the room has ended, if it has.
    pub fn end(&self) -> Option<End>
        ensures { result ≡ self.now.end }
    {
        self.end
    }

    /// Its link, which was shut, once it is gone.
    pub fn gone(&self) -> Option<&L>
        ensures { IfSome result (λ link. L.is_shut link.now ≡ true) }
    {
        if self.is_gone {
            self.link.as_ref()
        } else {
            None
        }
    }

    /// The client has come, by this link. It takes no second one.
    pub(crate) fn open(&mut self, mut link: L)
        requires { L.is_shut link ≡ false }
        ensures first { (shown_client self.old).has_come ≡ false → shown_client self.new
            ≡ record (shown_client self.old) { has_come = true; told = L.tells link } }
        ensures second { (shown_client self.old).has_come ≡ true
            → shown_client self.new ≡ shown_client self.old }
    {
        if self.link.is_some() {
            return;
        }
        if self.is_gone {
            link.shut();
        }
        self.link = Some(link);
    }

    /// The network has failed: the client's time in the room ends, if it hasn't.
    pub(crate) fn cut(&mut self)
        ensures keeps { Keeps (shown_client self.old) (shown_client self.new) }
        ensures goes_on { GoesOn (shown_client self.old) (shown_client self.new) }
    {
        if self.end.is_none() {
            self.end = Some(End::Fault);
        }
        self.leave();
    }

    /// The client writes what its link takes of what is on its way. Where that is all, it says the
    /// next line of what has come, if there is one: who doesn't take lines isn't heard either.
    pub(crate) fn go_on(&mut self) -> Turn
        ensures goes { Goes result (shown_client self.old) (shown_client self.new) }
        ensures line { IsLine result }
        ensures goes_on { GoesOn (shown_client self.old) (shown_client self.new) }
    {
        if self.link.is_none() {
            return Turn::Gone;
        }
        self.flush();
        if self.end.is_none() && !self.outbox.bytes().is_empty() {
            return Turn::Waits;
        }
        // each read brings a byte at least, and a line has few
        'reads: for _ in 0..=LONGEST {
            if self.end.is_some() {
                break;
            }
            if let Some(turn) = self.step() {
                return turn;
            }
        }
        if self.end.is_none() {
            return Turn::Waits;
        }
        self.leave();
        Turn::Gone
    }

    /// The client says a line that has come, or else reads what comes. Where nothing has, it waits.
    fn step(&mut self) -> Option<Turn>
        requires come { (shown_client self.old).has_come ≡ true }
        requires goes_on { self.old.end ≡ None }
        requires written { self.old.outbox.bytes.items ≡ [] }
        ensures goes { StepGoes result (shown_client self.old) (shown_client self.new) }
        ensures line { IsStepLine result }
        ensures come { (shown_client self.new).has_come ≡ true }
        ensures written { self.new.outbox.bytes.items ≡ [] }
    {
        let taken = match self.inbox.take_line() {
            Ok(taken) => taken,
            Err(end) => {
                self.end = Some(end);
                return None;
            }
        };
        if let Some(text) = taken {
            return Some(Turn::Says(text));
        }
        if self.read() { None } else { Some(Turn::Waits) }
    }

    /// A line of the room comes to the client: it is shown it, unless it said it. Before it has
    /// come and once its time has ended, it is shown none.
    pub(crate) fn hear(&mut self, own: u16, line: &Line)
        ensures shows { (shown_client self.old).has_come ≡ true → self.old.end ≡ None
            → Shows (shown_of own line.now) (shown_client self.old) (shown_client self.new) }
        ensures before { (shown_client self.old).has_come ≡ false
            → shown_client self.new ≡ shown_client self.old }
        ensures after { is_some self.old.end ≡ true → shown_client self.new ≡ shown_client self.old }
        ensures goes_on { GoesOn (shown_client self.old) (shown_client self.new) }
    {
        if self.link.is_some() && self.end.is_none() && line.from != own {
            self.show(line);
        }
    }

    /// The client is shown a line. Its head goes first, by itself: a link that keeps heads back
    /// sends it with what is behind it.
    fn show(&mut self, line: &Line)
        requires come { (shown_client self.old).has_come ≡ true }
        requires not_left { self.old.end ≢ Some ends.Left }
        ensures shows { Shows (shown line.now) (shown_client self.old) (shown_client self.new) }
        ensures goes_on { GoesOn (shown_client self.old) (shown_client self.new) }
    {
        let mut number = Buffer::new();
        self.put(number.format(u32::from(line.from) + 1).as_bytes());
        self.put(b": ");
        self.flush();
        self.put(&line.text);
        self.put(b"\n");
        self.flush();
    }

    /// These bytes are on their way too, or its time ends.
    fn put(&mut self, piece: &[u8])
        requires come { (shown_client self.old).has_come ≡ true }
        requires not_left { self.old.end ≢ Some ends.Left }
        ensures shows { Shows piece.now (shown_client self.old) (shown_client self.new) }
        ensures not_left { self.new.end ≢ Some ends.Left }
        ensures goes_on { GoesOn (shown_client self.old) (shown_client self.new) }
    {
        if self.end.is_some() {
            return;
        }
        if let Err(end) = self.outbox.add(piece) {
            self.end = Some(end);
        }
    }

    /// Writes what is on its way, as far as the link takes it.
    fn flush(&mut self)
        ensures keeps { Keeps (shown_client self.old) (shown_client self.new) }
        ensures not_left { self.old.end ≢ Some ends.Left → self.new.end ≢ Some ends.Left }
        ensures goes_on { GoesOn (shown_client self.old) (shown_client self.new) }
    {
        if self.end.is_some() {
            return;
        }
        'writes: while !self.outbox.bytes().is_empty() {
            let Some(link) = &mut self.link else {
                return;
            };
            match link.write(self.outbox.bytes()) {
                LinkWrite::Wrote(count) => self.outbox.take_off(count),
                LinkWrite::NotReady => return,
                LinkWrite::Failed => {
                    self.end = Some(End::Fault);
                    return;
                }
                LinkWrite::Memory => {
                    self.end = Some(End::Memory);
                    return;
                }
            }
        }
    }

    /// Reads what has come, and answers whether anything has, the end among it.
    fn read(&mut self) -> bool
        requires goes_on { self.old.end ≡ None }
        requires no_line { FitsLine self.old.inbox.bytes.items }
        requires written { self.old.outbox.bytes.items ≡ [] }
        ensures keeps { Keeps (shown_client self.old) (shown_client self.new) }
        ensures come { (shown_client self.new).has_come ≡ (shown_client self.old).has_come }
        ensures written { self.new.outbox.bytes.items ≡ [] }
    {
        let Some(link) = &mut self.link else {
            return false;
        };
        let mut piece = [0; PIECE];
        match link.read(&mut piece) {
            LinkRead::Took(count) => {
                if let Err(end) = self.inbox.add(&piece[..count]) {
                    self.end = Some(end);
                }
                true
            }
            LinkRead::End => {
                self.end = Some(End::Left);
                true
            }
            LinkRead::NotReady => false,
            LinkRead::Failed => {
                self.end = Some(End::Fault);
                true
            }
        }
    }

    /// The connection is ended.
    fn leave(&mut self)
        requires { self.old.end ≢ None }
        ensures { shown_client self.new ≡ shown_client self.old }
    {
        if self.is_gone {
            return;
        }
        if let Some(link) = &mut self.link {
            link.shut();
        }
        self.is_gone = true;
    }
}
