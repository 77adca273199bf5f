//! Who keeps a lane of `swsd` going.
ghost use Rattle.std.specs.Arc.{arc_value};
ghost use Rattle.std.specs.Prelude.{◌≤◌, None};
ghost use Rattle.sws_daemon.specs.Causes.{status_by};

use crate::cause::{Cause, cause_of};
use crate::saying::{GenerationLine, Voice};
use std::alloc::AllocError;
use std::net::IpAddr;
use std::rt::Clock;
use std::sync::atomic::{AtomicBool, AtomicU64, Ordering};
use std::sync::{Arc, Wait};
use std::thread;
use std::time::{Duration, Instant};
use sws_engine::Verdict;
use sws_lane::{Keeper, Told};
use sws_link::Opened;
use sws_net::{Entrance, Guests, LaneWorld};
use sws_shelf::Shelf;
use sws_site::Site;

/// After how many generations in a row that failed a lane is counted as one that can't serve.
const MOST_FAILURES: u32 = 10;

/// For how many milliseconds a lane rests after a failure, and after many in a row.
const SHORTEST_REST: u64 = 100;

const LONGEST_REST: u64 = 3200;

/// In how many milliseconds a lane that rests looks again whether it is to stop.
const TICK: u64 = 100;

/// The status of a program that has no fault.
const NO_FAULT: u64 = 0;

/// That of one whose output can't be written: as of `sws`.
const UNWRITTEN: u64 = 5;

/// What all lanes share beside the door and the site.
#[derive(Drop)]
pub struct Common {
    /// How many generations there were.
    count: AtomicU64,

    /// How many lanes wait before the door.
    waiting: AtomicU64,

    /// How many lanes there are, and how many of them may be behind the door.
    lanes: u64,
    accepting: u64,

    /// How many lanes have failed too often in a row.
    failing: AtomicU64,

    /// Whether a generation has ever ended well.
    has_served: AtomicBool,

    /// The status of the program, once no lane was able to serve at all, or its log can't be
    /// written and it stops for that.
    fault: AtomicU64,

    /// Who counts the connections of each address, where one may have so many alone.
    guests: Option<Arc<Guests>>,

    /// From which addresses connections begin with a header of the PROXY protocol.
    proxies: Vec<IpAddr>,
}

impl Common {
    /// Of so many lanes, of which so many may be behind the door, before the first generation.
    pub fn new(
        lanes: u16,
        accepting: u16,
        guests: Option<Arc<Guests>>,
        proxies: Vec<IpAddr>,
    ) -> Common {
        Common {
            count: AtomicU64::new(0),
            waiting: AtomicU64::new(0),
            lanes: u64::from(lanes),
            accepting: u64::from(accepting),
            failing: AtomicU64::new(0),
            has_served: AtomicBool::new(false),
            fault: AtomicU64::new(NO_FAULT),
            guests,
            proxies,
        }
    }

    /// From which addresses connections begin with a header of the PROXY protocol.
    pub fn proxies(&self) -> &[IpAddr] {
        &self.proxies
    }

    /// Who counts the connections of each address, where one may have so many alone.
    pub fn guests(&self) -> Option<&Arc<Guests>> {
        self.guests.as_ref()
    }

    /// How many connections were closed as they came, where they are counted by their addresses.
    pub fn refused(&self) -> Option<u64> {
        match &self.guests {
            Some(guests) => Some(guests.refused()),
            None => None,
        }
    }

    /// Whether those behind the door may leave it for a new site: a lane waits to take their place,
    /// or there is none that could.
    pub fn can_renew(&self) -> bool {
        self.waiting.load(Ordering::SeqCst) > 0 || self.lanes <= self.accepting
    }

    /// The program ends since its log can't be written.
    pub fn end_unlogged(&self) {
        self.fault.store(UNWRITTEN, Ordering::SeqCst);
    }

    /// The status of the fault by which the program ends, where it does by one.
    pub fn fault(&self) -> Option<u8> {
        match u8::try_from(self.fault.load(Ordering::SeqCst)) {
            Ok(0) => None,
            Ok(status) => Some(status),
            Err(_) => None,
        }
    }

    /// One more lane has failed too often. True where all have, and nothing was ever served.
    fn note_failing(&self, cause: Cause) -> bool {
        let failing = self
            .failing
            .fetch_add(1, Ordering::SeqCst)
            .saturating_add(1);
        if failing < self.lanes || self.has_served.load(Ordering::SeqCst) {
            return false;
        }
        self.fault
            .store(u64::from(cause.status()), Ordering::SeqCst);
        true
    }
}

/// For how many milliseconds a lane rests after so many failures in a row: a tenth of a second
/// after the first, twice as long after each further one, and never longer than 3.2 seconds.
fn rest_after(failures: u32) -> u64
    ensures { result ≤ 3200 }
{
    let mut rest = 0;
    'failures: for _ in 0..failures.min(MOST_FAILURES) {
        rest = LONGEST_REST.min(SHORTEST_REST.max(rest * 2));
    }
    rest
}

/// Keeps a lane going behind a door: it waits before the door until it may enter, serves the newest
/// site, and says how each generation ended. After a failure it rests, and tries again.
#[derive(Drop)]
pub struct LaneKeeper<'d, T: Wait + Clock> {
    rt: &'d HostRuntime,
    threads: &'d T,
    entrance: Entrance<'d>,
    lane: usize,
    shelf: &'d Shelf,
    site: Arc<Site>,
    voice: Voice<'d, T>,
    common: &'d Common,

    /// The number of the generation of this lane, from 1, and when it began.
    number: u64,
    began: Option<Instant>,

    /// How many in a row have failed.
    failures: u32,
}

impl<'d, T: Wait + Clock> LaneKeeper<'d, T> {
    /// Of the lane of this number.
    ///
    /// # Errors
    ///
    /// There was no room for one more owner of the site.
    pub fn new(
        rt: &'d HostRuntime,
        threads: &'d T,
        entrance: Entrance<'d>,
        lane: usize,
        shelf: &'d Shelf,
        voice: Voice<'d, T>,
        common: &'d Common,
    ) -> Result<Self, AllocError> {
        let site = shelf.site(threads)?;
        Ok(LaneKeeper {
            rt,
            threads,
            entrance,
            lane,
            shelf,
            site,
            voice,
            common,
            number: 0,
            began: None,
            failures: 0,
        })
    }

    /// A world for the lane in place of one that was lost; nothing where it is told to stop. Where
    /// there is no memory for it, the lane rests and tries again.
    pub fn new_world(&mut self) -> Option<LaneWorld<'d>> {
        for _ in self.threads.forever() {
            if !self.rest() {
                return None;
            }
            let (guests, proxies) = (self.common.guests(), self.common.proxies());
            match LaneWorld::of_requests(self.rt, self.entrance, self.lane, guests, proxies) {
                Ok(world) => return Some(world),
                Err(_) => self.fail(Cause::Opening),
            }
        }
        unreachable!()
    }

    /// Closes the door where the stop file is there.
    fn look_for_stop(&self) {
        if let Some(stop) = self.entrance.stop {
            if stop.is_there(self.rt) {
                self.entrance.door.close();
            }
        }
    }

    /// Rests as long as it is to after the last failures. False where the lane is told to stop.
    fn rest(&self) -> bool {
        let mut left = rest_after(self.failures);
        for _ in self.threads.forever() {
            self.look_for_stop();
            if self.entrance.door.is_closed() {
                return false;
            }
            if left == 0 {
                return true;
            }
            let pause = left.min(TICK);
            thread::sleep(self.rt, Duration::from_millis(pause));
            left -= pause;
        }
        unreachable!()
    }

    /// Waits before the door until it may enter. False where the door is closed.
    fn enter(&self) -> bool {
        self.common.waiting.fetch_add(1, Ordering::SeqCst);
        let is_inside = self.entrance.door.enter(self.threads, self.lane);
        self.common.waiting.fetch_sub(1, Ordering::SeqCst);
        is_inside
    }

    /// How many seconds the generation has lasted.
    fn seconds(&self) -> u64 {
        let Some(began) = self.began else {
            return 0;
        };
        match began.elapsed(self.rt) {
            Ok(time) => time.as_secs(),
            Err(_) => 0,
        }
    }

    /// Notes a failure, for this cause. Where all lanes have failed too often in a row and nothing
    /// was ever served, the door is closed: the program ends with the status of this cause.
    fn fail(&mut self, cause: Cause) {
        self.voice.warn_of_lane(self.lane, cause);
        self.failures = self.failures.saturating_add(1);
        if self.failures == MOST_FAILURES && self.common.note_failing(cause) {
            self.entrance.door.close();
        }
    }

    /// Notes a generation that has served somebody or ended well: no failure before it counts any
    /// more.
    fn succeed(&mut self) {
        if self.failures >= MOST_FAILURES {
            self.common.failing.fetch_sub(1, Ordering::SeqCst);
        }
        self.failures = 0;
        self.common.has_served.store(true, Ordering::SeqCst);
    }
}

impl<'d, T: Wait + Clock> Keeper for LaneKeeper<'d, T> {
    ghost site_of = { λ keeper. arc_value keeper.site };

    ghost calls_of = { λ _. None };

    fn begin(&mut self) -> bool {
        for _ in self.threads.forever() {
            if !self.rest() || !self.enter() {
                return false;
            }
            // Behind the door, so that this is the site of all that are inside.
            if let Ok(site) = self.shelf.site(self.threads) {
                self.site = site;
                break;
            }
            self.entrance.door.leave(self.lane);
            self.fail(Cause::Opening);
        }
        self.number = self
            .common
            .count
            .fetch_add(1, Ordering::SeqCst)
            .saturating_add(1);
        self.began = Instant::now(self.rt).ok();
        true
    }

    fn site(&self) -> &Site {
        &*self.site
    }

    fn end(&mut self, told: Told) {
        let is_retired = told.verdict == Some(Verdict::World)
            && !self.entrance.door.is_inside(self.lane);
        self.entrance.door.leave(self.lane);
        let cause = if is_retired { None } else { cause_of(&told) };
        if cause.is_none() || told.totals.done > 0 {
            self.succeed();
        }
        if let Some(cause) = cause {
            self.fail(cause);
        }
        if told.opened == Opened::Ready {
            self.voice.tell(GenerationLine {
                number: self.number,
                lane: self.lane,
                totals: &told.totals,
                seconds: self.seconds(),
            });
        }
    }
}
