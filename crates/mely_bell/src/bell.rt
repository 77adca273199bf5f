//! Where workers that find nothing to do wait until somebody has news for them. `BELL.md` argues
//! that nobody is left asleep.
use crate::hint::Hint;
use mely_event::Memory;
use mely_worker::Made;
use std::alloc::Global;
use std::sync::atomic::{AtomicBool, AtomicU64, Ordering};
use std::sync::{Condvar, Mutex, Wait};
use std::{hint, thread};

/// How many looks in a row find nothing before a worker goes to sleep: some microseconds. Waking it
/// again costs ten; but who looks longer takes that much from others, where processors are few.
const LOOKS: u32 = 100;

/// After how many of them it is counted as one that searches: so a worker whose next mark comes at
/// once leaves the count alone, which all write.
const LOOKS_UNCOUNTED: u32 = 20;

/// How many looks at chains a worker makes before it gives up a fleet whose workers haven't all
/// begun, and after how many of them it lets another thread have the processor: a tenth of a second
/// in all on a machine at rest, whatever the number of cores, and some seconds on one where many
/// threads wait for a processor.
const PATIENCE: u32 = 2_000_000;

const LOOKS_A_YIELD: u32 = 2_000;

/// As how many looks a step counts that found or did something. So a worker that has always
/// something to do gives up too, after some hundred thousand events at the latest.
const LOOKS_A_STEP: u32 = 4;

/// A crew's word is how many workers began, times this, and how many of them are still at work.
const BEGUN: u64 = 1 << 32;

/// What a bed says of its worker: it is up, or was woken for what lies in its own chain.
const UP: u64 = 0;

/// It sleeps or is about to, and nobody has come to wake it.
const ASLEEP: u64 = 1;

/// It was woken to search, and who woke it has counted it as one that does.
const CALLED: u64 = 2;

/// What one worker writes, and whoever wakes it.
#[derive(Drop)]
struct Bed {
    /// How many colours this caller made ready, and how many it left idle.
    woken: AtomicU64,
    idled: AtomicU64,

    /// `UP`, `ASLEEP` or `CALLED`.
    worker: AtomicU64,

    /// How often it was woken. Whoever holds the lock may change `waits`: whether the worker waits
    /// to be woken, and is counted as one that does.
    rings: Mutex<u64>,
    rung: Condvar,
    waits: AtomicBool,

    /// Keeps what two workers count on different cache lines.
    apart: [u64; 16],
}

/// What a worker remembers of its hunts.
#[derive(Drop)]
pub struct Watch {
    /// How many looks at chains or at their words in a row found nothing, and whether the last step
    /// was a look at the worker's own chain that found nothing.
    misses: u32,
    is_home: bool,

    /// Where the next step looks: at the own chain, which is place 0, or at the victim of this
    /// number, counted from 1. A worker that begins goes on where its last hunt ended, which isn't
    /// known here before its first look at its own chain. How many places there are, once a whole
    /// hunt has shown it.
    place: Option<u32>,
    places: Option<u32>,

    /// Whether it is counted as one that searches.
    seeks: bool,

    /// Where it said that it is about to sleep: how often it had been woken before.
    rings: Option<u64>,

    /// Whether all workers of its crew have begun, as far as it has seen. How many looks it has made
    /// since it began, its other steps counted as some each, and how many it had made when it last
    /// let another thread have the processor.
    is_manned: bool,
    looks: u32,
    yielded: u32,
}

impl Watch {
    /// What a worker remembers that begins: it has looked nowhere.
    pub fn new() -> Watch {
        Watch {
            misses: 0,
            is_home: false,
            place: None,
            places: None,
            seeks: false,
            rings: None,
            is_manned: false,
            looks: 0,
            yielded: 0,
        }
    }

    /// Whether a worker that has looked for long has just found nothing in its own chain. Between
    /// two such ends it looks there and at each victim's chain, however many victims it has.
    pub fn is_hunted(&self) -> bool {
        self.is_home && self.misses >= LOOKS
    }

    /// A look at the own chain found nothing: the first victim comes next.
    fn miss_home(&mut self) {
        if self.place != Some(0) {
            self.places = self.place;
        }
        self.place = Some(0);
        self.miss(true);
    }

    /// A look found nothing; whether it was at the worker's own chain.
    fn miss(&mut self, is_home: bool) {
        self.misses = self.misses.wrapping_add(1);
        self.is_home = is_home;
        self.looks = self.looks.saturating_add(1);
        if let Some(place) = self.place {
            let next = Some(place.wrapping_add(1));
            self.place = if next == self.places { Some(0) } else { next };
        }
        hint::spin_loop();
    }

    /// A look found a mark, or a step did something with one: the next look is at the own chain, and
    /// the next hunt begins with it.
    fn find(&mut self) {
        self.misses = 0;
        self.is_home = false;
        self.place = Some(0);
        self.looks = self.looks.saturating_add(LOOKS_A_STEP);
    }
}

/// Where workers wait that find nothing to do, and what they go by: a flag that says stop, and how
/// many colours were made ready and left idle again.
///
/// No contract speaks of it. An event is counted only where it makes its colour ready, and a turn
/// where it leaves its colour idle, each on a line of the caller's own. Whoever pushes a mark reads
/// one word or two more, which are written only where a worker begins or ends to search, goes to
/// sleep or is woken.
#[derive(Drop)]
pub struct Bell {
    stopped: AtomicBool,

    /// How many workers began, from when nobody was at work, and how many of them still are.
    crew: AtomicU64,

    /// Whether one of them gave up.
    has_given_up: AtomicBool,

    /// How often a caller that isn't counted as at work began to tell news, and how often it ended.
    begun_news: AtomicU64,
    ended_news: AtomicU64,

    /// Keeps what is seldom written, and read before each step, on lines of its own.
    apart: [u64; 16],

    /// How many workers search, or have been woken to.
    searching: AtomicU64,

    /// At least as many as workers sleep or are about to, and nobody has come to wake them.
    sleepers: AtomicU64,

    /// How many workers wait to be woken, and nobody has.
    waiting: AtomicU64,
    apart_too: [u64; 16],

    /// One for each core, and one that all other callers share.
    beds: Vec<Bed>,

    /// One for the chain of each core, and one of no chain.
    hints: Vec<Hint>,
    nowhere: Hint,
}

impl Bell {
    /// A bell for so many cores.
    pub fn new(alloc: Global, cores: u16) -> Result<Bell, Memory> {
        let mut hints = Vec::new(alloc);
        for _core in 0..cores {
            hints.push(Hint::new())?;
        }
        let mut beds = Vec::new(alloc);
        for _caller in 0..u32::from(cores) + 1 {
            beds.push(Bed {
                woken: AtomicU64::new(0),
                idled: AtomicU64::new(0),
                worker: AtomicU64::new(UP),
                rings: Mutex::new(0),
                rung: Condvar::new(),
                waits: AtomicBool::new(false),
                apart: [0; 16],
            })?;
        }
        Ok(Bell {
            stopped: AtomicBool::new(false),
            crew: AtomicU64::new(0),
            has_given_up: AtomicBool::new(false),
            begun_news: AtomicU64::new(0),
            ended_news: AtomicU64::new(0),
            apart: [0; 16],
            searching: AtomicU64::new(0),
            sleepers: AtomicU64::new(0),
            waiting: AtomicU64::new(0),
            apart_too: [0; 16],
            beds,
            hints,
            nowhere: Hint::new(),
        })
    }

    /// The bed of a core, or the one that all other callers share.
    fn bed(&self, number: u16) -> Option<&Bed> {
        match self.beds.get(number as usize) {
            Some(bed) => Some(bed),
            None => self.beds.last(),
        }
    }

    /// What is known of the chain of a core.
    pub fn hint(&self, core: u16) -> &Hint {
        match self.hints.get(core as usize) {
            Some(hint) => hint,
            None => &self.nowhere,
        }
    }

    /// A caller registered an event; whether that made its colour ready. The mark isn't pushed yet,
    /// so nobody can have left the colour idle.
    pub fn registered(&self, number: u16, is_ready: bool) {
        if !is_ready {
            return;
        }
        if let Some(bed) = self.bed(number) {
            bed.woken.fetch_add(1, Ordering::SeqCst);
        }
    }

    /// A caller finished a turn; whether that left its colour idle. Where it was the last one,
    /// all that sleep are woken.
    pub fn finished<R: Wait>(&self, rt: &R, number: u16, is_idle: bool) {
        if !is_idle {
            return;
        }
        if let Some(bed) = self.bed(number) {
            bed.idled.fetch_add(1, Ordering::SeqCst);
        }
        if self.sleepers.load(Ordering::SeqCst) > 0 && self.is_idle() {
            self.ring_all(rt);
        }
    }

    /// Whether there was a moment in this call at which no colour was ready or ran, of those that
    /// were counted. The colours that were left idle are added up first: no count ever falls.
    pub fn is_idle(&self) -> bool {
        let mut idled = 0u64;
        for bed in &self.beds {
            idled = idled.wrapping_add(bed.idled.load(Ordering::SeqCst));
        }
        let mut woken = 0u64;
        for bed in &self.beds {
            woken = woken.wrapping_add(bed.woken.load(Ordering::SeqCst));
        }
        idled == woken
    }

    /// Counts a worker that begins, before its first step.
    pub fn begin(&self) {
        self.crew.fetch_add(BEGUN + 1, Ordering::SeqCst);
    }

    /// Whether so many workers began as there are cores: each of these has a bed, and the other
    /// callers share one more. While this worker is at work that stays so.
    fn is_manned(&self, watch: &mut Watch) -> bool {
        if !watch.is_manned {
            let cores = self.beds.len().saturating_sub(1);
            watch.is_manned = self.crew.load(Ordering::SeqCst) / BEGUN >= cores as u64;
        }
        watch.is_manned
    }

    /// How many workers are at work.
    fn at_work(&self) -> u64 {
        self.crew.load(Ordering::SeqCst) % BEGUN
    }

    /// Whether a free worker is to leave, whatever lies in its chain: another gave up, or not all
    /// have begun and this one has waited for long. What only who didn't begin may take would be
    /// left for as long as the others find something else.
    pub fn is_over(&self, watch: &mut Watch) -> bool {
        if self.has_given_up.load(Ordering::SeqCst) {
            return true;
        }
        if self.is_manned(watch) {
            return false;
        }
        if watch.looks.saturating_sub(watch.yielded) >= LOOKS_A_YIELD {
            watch.yielded = watch.looks;
            thread::yield_now();
        }
        watch.looks >= PATIENCE
    }

    /// A caller that isn't counted as at work is about to register an event, or to wake others.
    pub fn begin_news(&self) {
        self.begun_news.fetch_add(1, Ordering::SeqCst);
    }

    /// It has woken whoever is to know of that.
    pub fn end_news(&self) {
        self.ended_news.fetch_add(1, Ordering::SeqCst);
    }

    /// Whether a worker met want of memory.
    pub fn is_stopped(&self) -> bool {
        self.stopped.load(Ordering::SeqCst)
    }

    /// A worker leaves, and tells all others to stop.
    pub fn stop<R: Wait>(&self, rt: &R, number: u16, watch: &mut Watch) {
        self.stopped.store(true, Ordering::SeqCst);
        self.leave(rt, number, watch);
    }

    /// A worker gives up and leaves, and so do the others as soon as they are free.
    pub fn give_up<R: Wait>(&self, rt: &R, number: u16, watch: &mut Watch) {
        self.has_given_up.store(true, Ordering::SeqCst);
        self.leave(rt, number, watch);
    }

    /// A worker leaves, and wakes the others. With the last one the crew is gone: whoever begins
    /// after it is the first of another.
    pub fn leave<R: Wait>(&self, rt: &R, number: u16, watch: &mut Watch) {
        self.rise(number, watch);
        if watch.seeks {
            // Who relied on it needs no other: all are woken.
            watch.seeks = false;
            self.searching.fetch_sub(1, Ordering::SeqCst);
        }
        self.begin_news();
        let crew = self.crew.fetch_sub(1, Ordering::SeqCst).wrapping_sub(1);
        if crew % BEGUN == 0 {
            let is_gone = self
                .crew
                .compare_exchange(crew, 0, Ordering::SeqCst, Ordering::SeqCst)
                .is_ok();
            if is_gone {
                self.has_given_up.store(false, Ordering::SeqCst);
            }
        }
        self.ring_all(rt);
        self.end_news();
    }

    /// A mark was pushed on the chain of a core by the caller of this number; whether a thief may
    /// take it there. Then somebody is called to search; else the owner is woken, if it sleeps. An
    /// owner that pushes on its own chain is up.
    pub fn pushed<R: Wait>(&self, rt: &R, by: u16, core: u16, is_for_thieves: bool) {
        if is_for_thieves {
            self.call(rt);
        } else if by != core && self.sleepers.load(Ordering::SeqCst) > 0 {
            if let Some(bed) = self.beds.get(core as usize) {
                self.wake(rt, bed, UP);
            }
        }
    }

    /// Whether a mark in a chain has become one that a thief may take: then somebody is called.
    pub fn retold<R: Wait>(&self, rt: &R, is_for_thieves: bool) {
        if is_for_thieves {
            self.call(rt);
        }
    }

    /// Sees to it that somebody searches, if somebody sleeps: where nobody does, one is woken to.
    /// Where all are up after all, somebody may have relied on the count in the meantime, and so on
    /// what follows it.
    fn call<R: Wait>(&self, rt: &R) {
        'calls: for _ in rt.forever() {
            if self.searching.load(Ordering::SeqCst) > 0
                || self.sleepers.load(Ordering::SeqCst) == 0
                || !self.counts_the_first()
                || self.wakes_one(rt)
                || self.searching.fetch_sub(1, Ordering::SeqCst) > 1
                || !self.has_spoils()
            {
                return;
            }
            // Where a worker is counted as a sleeper, and its bed doesn't say so yet.
            thread::yield_now();
        }
    }

    /// Counts one as searching where nobody is. Whether nobody was.
    fn counts_the_first(&self) -> bool {
        self.searching
            .compare_exchange(0, 1, Ordering::SeqCst, Ordering::SeqCst)
            .is_ok()
    }

    /// Wakes one to search: the worker of a chain with marks for thieves, if it sleeps, or else the
    /// first that does. Whether one did.
    fn wakes_one<R: Wait>(&self, rt: &R) -> bool {
        for (bed, hint) in self.beds.iter().zip(&self.hints) {
            if hint.has_spoils() && self.wake(rt, bed, CALLED) {
                return true;
            }
        }
        for bed in &self.beds {
            if self.wake(rt, bed, CALLED) {
                return true;
            }
        }
        false
    }

    /// Whether the word of a chain says that it may have a mark for thieves.
    fn has_spoils(&self) -> bool {
        self.hints.iter().any(|hint| hint.has_spoils())
    }

    /// Counts a worker that has found nothing for a while as one that searches.
    fn search(&self, watch: &mut Watch) {
        if watch.misses >= LOOKS_UNCOUNTED && !watch.seeks {
            watch.seeks = true;
            self.searching.fetch_add(1, Ordering::SeqCst);
        }
    }

    /// A worker doesn't search any more, if it did: it found a mark, or has lain down. Where it was
    /// the last one that did, and there are marks for thieves, another is called.
    fn search_no_more<R: Wait>(&self, rt: &R, watch: &mut Watch) {
        if !watch.seeks {
            return;
        }
        watch.seeks = false;
        if self.searching.fetch_sub(1, Ordering::SeqCst) == 1 && self.has_spoils() {
            self.call(rt);
        }
    }

    /// Wakes the worker of a bed, if it sleeps or is about to: `UP` for what lies in its own chain,
    /// or `CALLED` to search, where it has been counted as one that does. Whether it slept.
    fn wake<R: Wait>(&self, rt: &R, bed: &Bed, as_what: u64) -> bool {
        let was = bed
            .worker
            .compare_exchange(ASLEEP, as_what, Ordering::SeqCst, Ordering::SeqCst);
        if was.is_err() {
            return false;
        }
        self.sleepers.fetch_sub(1, Ordering::SeqCst);
        let mut rings = bed.rings.lock(rt);
        if bed.waits.swap(false, Ordering::SeqCst) {
            self.waiting.fetch_sub(1, Ordering::SeqCst);
        }
        *rings = rings.wrapping_add(1);
        bed.rung.notify_one();
        true
    }

    /// Wakes all workers that sleep.
    fn ring_all<R: Wait>(&self, rt: &R) {
        for bed in &self.beds {
            self.wake(rt, bed, UP);
        }
    }

    /// A worker made this step.
    pub fn note<R: Wait>(&self, rt: &R, number: u16, watch: &mut Watch, made: Made) {
        match made {
            Made::NoneHere => watch.miss_home(),
            Made::NoneThere { victim: _ } => watch.miss(false),
            _ => {
                watch.find();
                self.rise(number, watch);
                self.search_no_more(rt, watch);
            }
        }
    }

    /// A free worker that is about to look at its own chain makes no step, for a while, as long as
    /// the words of all chains say that it would find nothing. It is not so of one that is about to
    /// sleep, which hunts.
    pub fn await_news(&self, number: u16, watch: &mut Watch) {
        if watch.place != Some(0) || watch.rings.is_some() {
            return;
        }
        let own = self.hint(number);
        'looks: for _look in watch.misses..LOOKS {
            if own.has_marks() || self.has_spoils() || self.is_stopped() {
                return;
            }
            watch.misses = watch.misses.wrapping_add(1);
            self.search(watch);
            hint::spin_loop();
        }
    }

    /// Takes back that a worker is about to sleep, if it said so and nobody has come to wake it. One
    /// that was woken to search is counted already.
    fn rise(&self, number: u16, watch: &mut Watch) {
        if watch.rings.take().is_none() {
            return;
        }
        if let Some(bed) = self.bed(number) {
            match bed.worker.swap(UP, Ordering::SeqCst) {
                ASLEEP => {
                    self.sleepers.fetch_sub(1, Ordering::SeqCst);
                }
                CALLED => watch.seeks = true,
                _ => {}
            }
        }
    }

    /// Counts a worker as one that waits, whose lock is held, where so many are at work; but not the
    /// last one. Whether it was counted.
    fn is_counted(&self, bed: &Bed, at_work: u64) -> bool {
        bed.waits.store(true, Ordering::SeqCst);
        let others = self.waiting.fetch_add(1, Ordering::SeqCst);
        if others.wrapping_add(1) < at_work {
            return true;
        }
        bed.waits.store(false, Ordering::SeqCst);
        self.waiting.fetch_sub(1, Ordering::SeqCst);
        false
    }

    /// A worker found nothing for a while, and now nothing in its own chain, while something is ready
    /// or runs. It says that it is about to sleep, searches no more, and hunts once more: whatever
    /// comes into its chain from then on wakes it. Where it finds nothing again it sleeps; but where
    /// not all workers have begun, one that never will can leave it asleep for good, so it hunts on
    /// until its patience ends. Nor does it sleep where all others at work do: unless somebody tells
    /// news, none can come any more. Whether it gives up.
    pub fn rest<R: Wait>(&self, rt: &R, number: u16, watch: &mut Watch) -> bool {
        let Some(bed) = self.bed(number) else {
            return false;
        };
        let is_manned = self.is_manned(watch);
        match watch.rings {
            None => {
                watch.rings = Some(*bed.rings.lock(rt));
                // Whoever wakes it takes 1 away, which has to be there by then.
                self.sleepers.fetch_add(1, Ordering::SeqCst);
                bed.worker.store(ASLEEP, Ordering::SeqCst);
                self.search_no_more(rt, watch);
                watch.misses = LOOKS;
            }
            Some(_) if !is_manned => watch.misses = LOOKS,
            Some(seen) => {
                let at_work = self.at_work();
                let news = self.ended_news.load(Ordering::SeqCst);
                let rings = bed.rings.lock(rt);
                if *rings == seen && !self.is_counted(bed, at_work) {
                    drop(rings);
                    return self.begun_news.load(Ordering::SeqCst) == news;
                }
                let rings = bed.rung.wait_while(rt, rings, |rings| *rings == seen);
                drop(rings);
                self.rise(number, watch);
                watch.misses = 0;
                watch.is_home = false;
            }
        }
        false
    }
}
