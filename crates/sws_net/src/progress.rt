//! Which links of a world still move.
ghost use Rattle.std.specs.Prelude.{IsTrue, ◌↔◌};
ghost use Rattle.sws_net.specs.Retiring.{IsToRetire};

use crate::lobby::Lobby;
use std::alloc::{AllocError, Global};

/// How many bytes a link had moved when it was last seen to get on, and when that was, in
/// milliseconds.
#[derive(Clone, Copy)]
struct Pace {
    moved: u64,
    since: u64,

    /// How many it had moved at the last look for those that rest.
    last: u64,
}

/// Whether a link is to end that has moved so many bytes, and so many at the last look, and hasn't
/// got on for so many milliseconds.
fn is_to_retire(
    is_resting: bool,
    is_late: bool,
    moved: u64,
    last: u64,
    idle: u64,
    longest: u64,
) -> bool
    ensures { IsTrue result ↔ IsToRetire is_resting is_late moved last idle longest }
{
    is_resting && (is_late || moved == last) && (moved != 0 || idle >= longest)
}

/// How each of the links gets on, by number, since it was first looked.
#[derive(Drop)]
pub struct Progress {
    paces: Vec<Pace>,
}

impl Progress {
    /// Of so many links.
    pub fn new(alloc: Global, links: u16) -> Result<Progress, AllocError> {
        let none = Pace {
            moved: 0,
            since: 0,
            last: 0,
        };
        Ok(Progress {
            paces: Vec::from_elem(alloc, none, links as usize)?,
        })
    }

    /// What the links have moved so far counts no more.
    pub fn begin(&mut self, lobby: &Lobby, now: u64) {
        for (number, pace) in self.paces.iter_mut().enumerate() {
            pace.moved = lobby.moved(number);
            pace.since = now;
            pace.last = pace.moved;
        }
    }

    /// Notes which of them have moved so many bytes since they were last seen to get on.
    pub fn look(&mut self, lobby: &Lobby, now: u64, step: u64) {
        for (number, pace) in self.paces.iter_mut().enumerate() {
            let moved = lobby.moved(number);
            if moved.saturating_sub(pace.moved) >= step {
                pace.moved = moved;
                pace.since = now;
            }
        }
    }

    /// Tells those to end that are to, of those that rest; whether it is late, and for how many
    /// milliseconds one may be there that never moved anything, are given.
    pub fn retire(&mut self, lobby: &Lobby, now: u64, is_late: bool, longest: u64) {
        for (number, pace) in self.paces.iter_mut().enumerate() {
            let moved = lobby.moved(number);
            let idle = now.saturating_sub(pace.since);
            let is_resting = lobby.is_resting(number);
            if is_to_retire(is_resting, is_late, moved, pace.last, idle, longest) {
                lobby.retire(number);
            }
            pace.last = moved;
        }
    }

    /// Cuts those that weren't seen to get on for so many milliseconds, and answers how many others
    /// are there.
    pub fn cut_idle(&self, lobby: &Lobby, now: u64, longest: u64) -> u32 {
        let mut others: u32 = 0;
        for (number, pace) in self.paces.iter().enumerate() {
            if now.saturating_sub(pace.since) >= longest {
                lobby.cut(number);
            } else if lobby.is_there(number) {
                others = others.saturating_add(1);
            }
        }
        others
    }
}
