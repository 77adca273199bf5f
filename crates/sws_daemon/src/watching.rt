//! Who looks whether the folder has changed.

use crate::keeper::Common;
use crate::rounds::Rounds;
use crate::saying::Voice;
use std::mem;
use std::rt::Clock;
use std::sync::{Condvar, Mutex, Wait};
use std::time::Duration;
use sws_files::{FileMark, ReloadFile, is_asking};
use sws_net::{Door, StopFile};
use sws_shelf::{LoadFault, Notes, Shelf};

/// In how many milliseconds it is looked again for the stop file and the reload file.
const TICK: u64 = 250;

/// How many of these looks there are in a second.
const TICKS: u64 = 4;

/// How often in succession a changed folder waits for a lane that is free to serve it.
const PATIENCE: u32 = 30;

/// Tells the watch that all lanes have ended.
#[derive(Drop)]
pub struct Curfew {
    is_over: Mutex<bool>,
    changed: Condvar,
}

impl Curfew {
    /// The lanes are still to end.
    pub fn new() -> Curfew {
        Curfew {
            is_over: Mutex::new(false),
            changed: Condvar::new(),
        }
    }

    /// All lanes have ended.
    pub fn ring<R: Wait>(&self, rt: &R) {
        *self.is_over.lock(rt) = true;
        self.changed.notify_all();
    }

    /// Waits a little, and answers whether all lanes have ended.
    fn wait<R: Wait + Clock>(&self, rt: &R) -> bool {
        let guard = self.is_over.lock(rt);
        if *guard {
            return true;
        }
        let (guard, _) = self
            .changed
            .wait_timeout(rt, guard, Duration::from_millis(TICK));
        *guard
    }
}

/// When the folder is looked at where that is to be every so many seconds, or, where they are 0,
/// only where somebody asks.
fn rounds_of(seconds: u64) -> Rounds {
    let ticks = u32::try_from(seconds.saturating_mul(TICKS)).unwrap_or(u32::MAX);
    Rounds::new(if ticks == 0 { None } else { Some(ticks) })
}

/// What the watch looks at, and whom it tells.
#[derive(Drop)]
pub struct Watch<'d, T: Wait> {
    rt: &'d HostRuntime,
    threads: &'d T,
    shelf: &'d Shelf,
    door: &'d Door,
    stop: Option<&'d StopFile>,
    reload: Option<&'d ReloadFile>,
    common: &'d Common,
    voice: Voice<'d, T>,

    /// Whether all are to stop where the log can't be written.
    stops_unlogged: bool,

    /// What the reload file looked like when it was seen last.
    seen: Option<FileMark>,

    /// Whether somebody has asked by it for the folder to be loaded anew.
    is_asked: bool,

    /// When the folder is looked at.
    rounds: Rounds,

    /// Why the folder wasn't loaded at the last look, where it wasn't.
    told: Option<LoadFault>,

    /// How often in succession a changed folder has waited.
    waited: u32,
}

impl<'d, T: Wait + Clock> Watch<'d, T> {
    /// A watch that has seen nothing yet, and looks at the folder every so many seconds, or, where
    /// they are 0, only where the reload file asks for that.
    pub fn new(
        rt: &'d HostRuntime,
        threads: &'d T,
        shelf: &'d Shelf,
        door: &'d Door,
        stop: Option<&'d StopFile>,
        reload: Option<&'d ReloadFile>,
        seconds: u64,
        stops_unlogged: bool,
        common: &'d Common,
        voice: Voice<'d, T>,
    ) -> Watch<'d, T> {
        let seen = match reload {
            Some(file) => file.first(),
            None => None,
        };
        Watch {
            rt,
            threads,
            shelf,
            door,
            stop,
            reload,
            common,
            voice,
            stops_unlogged,
            seen,
            is_asked: false,
            rounds: rounds_of(seconds),
            told: None,
            waited: 0,
        }
    }

    /// Looks for the stop file and the reload file, and at the folder, until the curfew rings.
    pub fn keep(self, curfew: &Curfew) {
        let mut watch = self;
        for _ in watch.threads.forever() {
            if curfew.wait(watch.threads) {
                return;
            }
            watch.look_for_stop();
            watch.look_for_refusal();
            watch.look_for_reload();
            if watch.rounds.tick() {
                let is_open = watch.look();
                watch.rounds.begin(is_open);
            }
        }
    }

    /// Closes the door where the stop file is there.
    fn look_for_stop(&self) {
        if let Some(stop) = self.stop {
            if stop.is_there(self.rt) {
                self.door.close();
            }
        }
    }

    /// Closes the door where the log can't be written and all are to stop for that.
    fn look_for_refusal(&self) {
        if self.stops_unlogged && !self.door.is_closed() && self.voice.has_refused() {
            self.common.end_unlogged();
            self.door.close();
        }
    }

    /// Looks whether the reload file was made or written since it was seen last. Then the folder is
    /// to be looked at now, and loaded whatever it looks like.
    fn look_for_reload(&mut self) {
        let Some(reload) = self.reload else {
            return;
        };
        let now = reload.mark(self.rt);
        if is_asking(self.seen, now) {
            self.is_asked = true;
            self.rounds.hurry();
            // It is said again why the folder isn't loaded, where it isn't.
            self.told = None;
        }
        self.seen = now;
    }

    /// Looks whether the folder has changed, and whether a lane is free to serve it then. Those that
    /// serve the old files leave the door for it. True where something is still to be done.
    fn look(&mut self) -> bool {
        if self.door.is_closed() || (!self.is_asked && self.shelf.is_as_loaded(self.rt)) {
            self.told = None;
            self.waited = 0;
            return false;
        }
        if !self.common.can_renew() && self.waited < PATIENCE {
            self.waited += 1;
            return true;
        }
        self.waited = 0;
        let is_asked = mem::replace(&mut self.is_asked, false);
        let mut notes = Notes::new(self.rt.alloc());
        match self.shelf.look(self.rt, self.threads, is_asked, &mut notes) {
            Ok(true) => {
                self.door.renew();
                self.told = None;
                self.voice.tell_of_site(is_asked);
                self.voice.warn_of_notes(&notes);
                false
            }
            Ok(false) => {
                self.told = None;
                false
            }
            Err(fault) => {
                self.warn(fault, &notes);
                true
            }
        }
    }

    /// Says why the folder isn't loaded, unless that was said last.
    fn warn(&mut self, fault: LoadFault, notes: &Notes) {
        if self.told != Some(fault) {
            self.voice.warn_of_notes(notes);
            self.voice.warn_of_site(fault);
        }
        self.told = Some(fault);
    }
}
