//! The door behind which worlds take connections.

use std::alloc::{AllocError, Global};
use std::rt::Clock;
use std::sync::atomic::{AtomicBool, AtomicU64, Ordering};
use std::sync::{Condvar, Mutex, Wait};
use std::time::Duration;

/// For how many milliseconds a lane sleeps before the door at most, before it looks again.
const LONGEST: u64 = 250;

/// The turn of a lane that isn't inside.
const OUTSIDE: u64 = 0;

/// How often who leaves tries to take the lock of those that sleep, which nobody holds for long.
const TRIES: u32 = 1000;

/// Lets a few of many lanes at a time take connections from one listener.
///
/// A lane enters before its generation begins, and leaves once it takes no further connection,
/// however long the others then last. Once the door is closed nobody enters, and those inside are
/// told to leave.
///
/// Where what is served changes, the door is renewed ([`renew`](Door::renew)): those inside are told
/// to leave, and nobody enters before the last of them has left. So whoever is accepted after
/// somebody who was served the new is served the new too.
#[derive(Drop)]
pub struct Door {
    /// How many may be inside, and how many are.
    most: u64,
    inside: AtomicU64,
    is_closed: AtomicBool,

    /// How often it was renewed, from 1.
    turn: AtomicU64,

    /// Of each lane, in which turn it entered; 0 where it is outside.
    lanes: Vec<AtomicU64>,

    /// Of each lane whose connections go on beyond their grace, the number of its asking for that,
    /// from 1; 0 of every other lane.
    overtimes: Vec<AtomicU64>,

    /// How many lanes have asked for it in all.
    asked: AtomicU64,

    /// How many lanes wait before the door.
    waiting: AtomicU64,

    /// What lanes that wait before the door sleep by, until one of those inside leaves.
    sleepers: Mutex<()>,
    left: Condvar,
}

/// The number of a lane whose connections are within their grace.
const IN_TIME: u64 = 0;

impl Door {
    /// An open door for so many lanes, of which so many may be inside.
    pub fn new(alloc: Global, lanes: usize, most: usize) -> Result<Door, AllocError> {
        let mut insides = Vec::with_capacity(alloc, lanes)?;
        let mut overtimes = Vec::with_capacity(alloc, lanes)?;
        for _ in 0..lanes {
            insides.push(AtomicU64::new(OUTSIDE))?;
            overtimes.push(AtomicU64::new(IN_TIME))?;
        }
        Ok(Door {
            most: most as u64,
            inside: AtomicU64::new(0),
            is_closed: AtomicBool::new(false),
            turn: AtomicU64::new(1),
            lanes: insides,
            overtimes,
            asked: AtomicU64::new(0),
            waiting: AtomicU64::new(0),
            sleepers: Mutex::new(()),
            left: Condvar::new(),
        })
    }

    /// Waits until there is room inside, and enters. False where the door is closed.
    pub fn enter<R: Wait + Clock>(&self, rt: &R, lane: usize) -> bool {
        self.waiting.fetch_add(1, Ordering::SeqCst);
        let is_inside = self.wait_to_enter(rt, lane);
        self.waiting.fetch_sub(1, Ordering::SeqCst);
        is_inside
    }

    /// Waits until the lane has entered. False where the door is closed.
    fn wait_to_enter<R: Wait + Clock>(&self, rt: &R, lane: usize) -> bool {
        for _ in rt.forever() {
            if self.is_closed() {
                return false;
            }
            if self.try_enter(lane) {
                return true;
            }
            self.sleep(rt);
        }
        unreachable!()
    }

    /// Enters, if there is room, and nobody is inside who entered before the door was renewed.
    pub fn try_enter(&self, lane: usize) -> bool {
        let Some(place) = self.lanes.get(lane) else {
            return false;
        };
        if self.inside.fetch_add(1, Ordering::SeqCst) < self.most {
            let turn = self.turn.load(Ordering::SeqCst);
            place.store(turn, Ordering::SeqCst);
            // Whoever renews the door in between, or was inside before, is seen by this look.
            if self.turn.load(Ordering::SeqCst) == turn && self.has_only(turn) {
                return true;
            }
            place.store(OUTSIDE, Ordering::SeqCst);
        }
        self.inside.fetch_sub(1, Ordering::SeqCst);
        false
    }

    /// Whether each lane that is inside entered in this turn.
    fn has_only(&self, turn: u64) -> bool {
        for place in &self.lanes {
            let entered = place.load(Ordering::SeqCst);
            if entered != OUTSIDE && entered != turn {
                return false;
            }
        }
        true
    }

    /// Leaves, also where the lane's generation has ended. A lane that isn't inside stays so.
    pub fn leave(&self, lane: usize) {
        if let Some(overtime) = self.overtimes.get(lane) {
            overtime.store(IN_TIME, Ordering::SeqCst);
        }
        let Some(place) = self.lanes.get(lane) else {
            return;
        };
        if place.swap(OUTSIDE, Ordering::SeqCst) != OUTSIDE {
            self.inside.fetch_sub(1, Ordering::SeqCst);
            self.wake();
        }
    }

    /// Whether the lane is inside.
    pub fn is_inside(&self, lane: usize) -> bool {
        match self.lanes.get(lane) {
            Some(place) => place.load(Ordering::SeqCst) != OUTSIDE,
            None => false,
        }
    }

    /// Tells all that are inside to leave, since what is served has changed. Whoever enters from
    /// now on sees what was written before this call.
    pub fn renew(&self) {
        self.turn.fetch_add(1, Ordering::SeqCst);
        self.wake();
    }

    /// Whether the lane is to leave: the door is closed, or was renewed since it entered.
    pub fn is_to_leave(&self, lane: usize) -> bool {
        let turn = self.turn.load(Ordering::SeqCst);
        let is_stale = match self.lanes.get(lane) {
            Some(place) => place.load(Ordering::SeqCst) != turn,
            None => true,
        };
        is_stale || self.is_closed()
    }

    /// Whether no lane is inside, nor waits to enter.
    pub fn is_unmanned(&self) -> bool {
        self.waiting.load(Ordering::SeqCst) == 0 && self.inside.load(Ordering::SeqCst) == 0
    }

    /// Whether the connections of the lane may go on beyond their grace. As many lanes may have such
    /// connections as there are beyond those that may be inside at a time; where one more asks, the
    /// one that asked first may no longer. Where the door is closed, none may.
    pub fn may_last(&self, lane: usize) -> bool {
        let Some(overtime) = self.overtimes.get(lane) else {
            return false;
        };
        if overtime.load(Ordering::SeqCst) == IN_TIME {
            let number = self.asked.fetch_add(1, Ordering::SeqCst).saturating_add(1);
            overtime.store(number, Ordering::SeqCst);
        }
        let room = (self.lanes.len() as u64).saturating_sub(self.most);
        !self.is_closed() && (self.count_overtimes() <= room || !self.asked_first(lane))
    }

    /// How many lanes have connections that go on beyond their grace.
    fn count_overtimes(&self) -> u64 {
        let mut count: u64 = 0;
        for overtime in &self.overtimes {
            if overtime.load(Ordering::SeqCst) != IN_TIME {
                count = count.saturating_add(1);
            }
        }
        count
    }

    /// Whether the lane is the first one of those whose connections go on beyond their grace.
    pub fn asked_first(&self, lane: usize) -> bool {
        let mut first = u64::MAX;
        let mut place = lane;
        for (number, overtime) in self.overtimes.iter().enumerate() {
            let asked = overtime.load(Ordering::SeqCst);
            if asked != IN_TIME && asked < first {
                first = asked;
                place = number;
            }
        }
        place == lane
    }

    /// Closes the door for good. The worlds behind it end the listener that they share, so that
    /// whoever comes from then on is refused.
    pub fn close(&self) {
        self.is_closed.store(true, Ordering::SeqCst);
        self.wake();
    }

    pub fn is_closed(&self) -> bool {
        self.is_closed.load(Ordering::SeqCst)
    }

    /// Sleeps until somebody leaves, or for a while.
    fn sleep<R: Wait + Clock>(&self, rt: &R) {
        let guard = self.sleepers.lock(rt);
        if !self.has_room() && !self.is_closed() {
            let _ = self
                .left
                .wait_timeout(rt, guard, Duration::from_millis(LONGEST));
        }
    }

    /// Whether a lane may enter.
    fn has_room(&self) -> bool {
        self.inside.load(Ordering::SeqCst) < self.most
            && self.has_only(self.turn.load(Ordering::SeqCst))
    }

    /// Wakes all that sleep before the door. Where one of them is just about to sleep, it is waited
    /// for a little, so that it doesn't miss this.
    fn wake(&self) {
        for _ in 0..TRIES {
            if let Some(_guard) = self.sleepers.try_lock() {
                break;
            }
        }
        self.left.notify_all();
    }
}
