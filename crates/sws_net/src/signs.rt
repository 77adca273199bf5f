//! Which links have shown a sign of life.
ghost use Rattle.std.specs.Prelude.{◌≤◌, IfOk, IfSome, Contains};
ghost use Rattle.std.specs.Bool.{OnTrue};
ghost use Rattle.sws_net.specs.Invariant.{silence};

use crate::lobby::{Lobby, Way};
use std::alloc::{AllocError, Global};
use std::collections::VecDeque;

/// After so many milliseconds without a sign a link that waits counts as ready, so that one whose
/// peer says nothing comes to its end.
const SILENCE: u64 = 1000;

/// What is known of a link.
#[derive(Clone, Copy)]
struct Sign {
    /// Whether it showed since it was last named for reading that there is something to read, or
    /// the end.
    can_read: bool,

    /// Whether it showed since it was last named for writing that the machine would take bytes.
    can_write: bool,

    /// When it was accepted or last named, in milliseconds.
    named: u64,
}

impl Sign {
    /// Takes what it showed in this way.
    fn take(&mut self, way: Way) -> bool {
        let shown = match way {
            Way::Reading => &mut self.can_read,
            Way::Writing => &mut self.can_write,
        };
        let was_shown = *shown;
        *shown = false;
        was_shown
    }

    /// It showed something in this way. Answers whether it had shown nothing there.
    fn show(&mut self, way: Way) -> bool {
        let shown = match way {
            Way::Reading => &mut self.can_read,
            Way::Writing => &mut self.can_write,
        };
        let is_new = !*shown;
        *shown = true;
        is_new
    }
}

/// Whether the link is one of those that wait. It is looked for from both ends at once: links are
/// named in the order in which they began to wait, and those that stay idle stay in front.
fn is_among(waiting: &[u16], conn: u16) -> bool
    ensures { OnTrue result (Contains waiting.now conn) }
{
    let len = waiting.len();
    for front in 0..len.div_ceil(2) {
        if waiting[front] == conn || waiting[len - 1 - front] == conn {
            return true;
        }
    }
    false
}

/// What is known of each link, by number.
///
/// A link that waits to write isn't ready because something has come, nor one that waits to read
/// because the machine would take bytes: for it that is no sign of life.
///
/// Who is ready to be read is found without a look at those that aren't, so that a thousand idle
/// links cost the others nothing.
#[derive(Drop)]
pub struct Signs {
    signs: Vec<Sign>,

    /// The links that have shown that there is something to read, in the order in which they did,
    /// each once. One that is gone leaves them when it is next looked at. There is room for all.
    readable: VecDeque<u16>,

    /// Before this time no link that waited when it was reckoned is due, in milliseconds.
    due: u64,
}

impl Signs {
    /// Of so many links, none of which has shown anything.
    pub fn new(alloc: Global, links: u16, now: u64) -> Result<Signs, AllocError> {
        let none = Sign {
            can_read: false,
            can_write: false,
            named: now,
        };
        Ok(Signs {
            signs: Vec::from_elem(alloc, none, links as usize)?,
            readable: VecDeque::with_capacity(alloc, links as usize)?,
            due: now,
        })
    }

    /// The link was accepted now.
    pub fn begin(&mut self, link: usize, now: u64) {
        if let Some(sign) = self.signs.get_mut(link) {
            sign.named = now;
        }
    }

    /// The link showed that it is ready in this way.
    pub fn note(&mut self, link: usize, way: Way) {
        let (Some(sign), Ok(conn)) = (self.signs.get_mut(link), u16::try_from(link)) else {
            return;
        };
        if sign.show(way) && way == Way::Reading {
            // each is there once, and there is room for all
            let _ = self.readable.push_back(conn);
        }
    }

    /// One of those that wait which showed that it is ready in the way for which it waits: to read,
    /// the first that showed it, and else to write. From then on it has shown nothing there.
    pub fn take_ready(&mut self, lobby: &Lobby, waiting: &[u16], now: u64) -> Option<u16>
        ensures { IfSome result (λ conn. Contains waiting.now conn) }
    {
        match self.take_readable(lobby, waiting) {
            Some(conn) => {
                self.name(conn, now);
                Some(conn)
            }
            None if lobby.writers() == 0 => None,
            None => self.take_writable(lobby, waiting, now),
        }
    }

    /// The first of those that wait to read which showed that it can.
    fn take_readable(&mut self, lobby: &Lobby, waiting: &[u16]) -> Option<u16>
        ensures { IfSome result (λ conn. Contains waiting.now conn) }
    {
        for _ in 0..self.readable.len() {
            let conn = self.readable.pop_front()?;
            let link = conn as usize;
            if lobby.way(link) == Way::Reading && is_among(waiting, conn) {
                self.forget(link);
                return Some(conn);
            }
            if lobby.is_there(link) {
                let _ = self.readable.push_back(conn);
            } else {
                self.forget(link);
            }
        }
        None
    }

    /// It isn't known any more that there is something to read of the link.
    fn forget(&mut self, link: usize) {
        if let Some(sign) = self.signs.get_mut(link) {
            sign.take(Way::Reading);
        }
    }

    /// The first of those that wait to write which showed that it can.
    fn take_writable(&mut self, lobby: &Lobby, waiting: &[u16], now: u64) -> Option<u16>
        ensures { IfSome result (λ conn. Contains waiting.now conn) }
    {
        for conn in waiting {
            let link = *conn as usize;
            if lobby.way(link) == Way::Writing {
                if let Some(sign) = self.signs.get_mut(link) {
                    if sign.take(Way::Writing) {
                        sign.named = now;
                        return Some(*conn);
                    }
                }
            }
        }
        None
    }

    /// The link is named now.
    fn name(&mut self, link: u16, now: u64) {
        if let Some(sign) = self.signs.get_mut(link as usize) {
            sign.named = now;
        }
    }

    /// Those that wait and weren't named for long count as ready. Each is counted by itself, so
    /// that one that stays idle comes to its end beside others that don't.
    pub fn sweep(&mut self, lobby: &Lobby, waiting: &[u16], now: u64) {
        for conn in waiting {
            let link = *conn as usize;
            let is_due = match self.signs.get(link) {
                Some(sign) => now.saturating_sub(sign.named) >= SILENCE,
                None => false,
            };
            if is_due {
                self.note(link, lobby.way(link));
            }
        }
    }

    /// In how many milliseconds the first of those that wait is to be named at the latest, and in
    /// a second where none waits. It is reckoned anew where that time has come: a link that has
    /// begun to wait since may be named up to a second later.
    pub fn until_due(&mut self, waiting: &[u16], now: u64) -> u64
        ensures { result ≤ silence }
    {
        if now >= self.due {
            self.due = now.saturating_add(self.first_due(waiting, now));
        }
        SILENCE.min(self.due.saturating_sub(now))
    }

    /// The same, by all that wait.
    fn first_due(&self, waiting: &[u16], now: u64) -> u64 {
        let mut until = SILENCE;
        for conn in waiting {
            if let Some(sign) = self.signs.get(*conn as usize) {
                until = until.min(SILENCE.saturating_sub(now.saturating_sub(sign.named)));
            }
        }
        until
    }
}
