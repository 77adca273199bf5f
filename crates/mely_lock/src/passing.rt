//! How a pass comes in and goes out, step by step.
ghost use Rattle.std.specs.Prelude.{◌≡◌, ◌<◌, ◌^◌, length, IfSome, IfNone};
ghost use Rattle.mely_lock.specs.Seen.{GrewIf};
ghost use Rattle.mely_lock.specs.Steps.{seat_outside, seat_inside, Enters, Leaves};
ghost use Rattle.mely_lock.specs.Words.{lock_id};

use crate::claim::Claim;
use crate::lock_rule::{INSIDE, NOTES, PassSeat};
use crate::steps::{AddNote, Leave, TryEnter};
use crate::ticketed::Ticketed;
use mely_event::Kept;
use std::hint::spin_loop;
use std::sync::Wait;
use std::sync::atomic::Ordering;

/// The greatest number that the word `INSIDE` can have.
const LAST_TICKET: u64 = 65_536;

/// How often a pass tries to come in, or looks whether it could, before it sleeps. So many looks
/// take about as long as falling asleep and being woken.
const SPINS: u32 = 100;

impl<V: Kept> Ticketed<V> {
    /// Goes in if nobody is inside, and takes the value out.
    fn try_enter(&self, place: &mut PassSeat<V>, number: u16) -> Option<V>
        requires table { place.old.table_id ≡ lock_id self.now }
        requires outside { (c : Claim V.Note V.Frame) × (place.old.me ≡ seat_outside c)
            × (c.number ≡ number) }
        ensures table { place.new.table_id ≡ place.old.table_id }
        ensures refused { IfNone result (place.new.me ≡ place.old.me) }
        ensures entered { IfSome result (λ x.
            Enters V.history_of V.pass_of V.frame_of place.old.me x place.new.me) }
    {
        let shared = &self.room.shared;
        let ticket = u64::from(number) + 1;
        let found = shared.compare_exchange::<TryEnter<V>>(place, INSIDE, 0, ticket);
        if found != 0 {
            return None;
        }
        shared.exchange(place, 0, None)
    }

    /// Tries a while without sleeping, since who is inside mostly leaves soon.
    fn spin_in(&self, place: &mut PassSeat<V>, number: u16) -> Option<V>
        requires table { place.old.table_id ≡ lock_id self.now }
        requires outside { (c : Claim V.Note V.Frame) × (place.old.me ≡ seat_outside c)
            × (c.number ≡ number) }
        ensures table { place.new.table_id ≡ place.old.table_id }
        ensures refused { IfNone result (place.new.me ≡ place.old.me) }
        ensures entered { IfSome result (λ x.
            Enters V.history_of V.pass_of V.frame_of place.old.me x place.new.me) }
    {
        for look in 0..SPINS {
            // Mostly nobody is inside, so the first try is made without a look. From then on a look
            // comes first: it is cheaper than a try that is refused, which takes the word's line of
            // memory from who is inside.
            if look == 0 || self.room.shared.peek(INSIDE) == 0 {
                if let Some(value) = self.try_enter(place, number) {
                    return Some(value);
                }
            }
            spin_loop();
        }
        None
    }

    /// Sleeps while the pass is inside that is found there, if one is.
    fn sleep<R: Wait>(&self, rt: &R) {
        let found = self.room.shared.peek(INSIDE);
        if 0 < found && found <= LAST_TICKET {
            self.room.shared.park(rt, INSIDE, found as u32);
        }
    }

    /// Tries until nobody else is inside, and sleeps between two tries.
    fn wait_in<R: Wait>(&self, rt: &R, place: &mut PassSeat<V>, number: u16) -> V
        requires table { place.old.table_id ≡ lock_id self.now }
        requires outside { (c : Claim V.Note V.Frame) × (place.old.me ≡ seat_outside c)
            × (c.number ≡ number) }
        ensures table { place.new.table_id ≡ place.old.table_id }
        ensures entered { Enters V.history_of V.pass_of V.frame_of
            place.old.me result place.new.me }
    {
        for _ in rt.forever() {
            // It is counted before it tries again: who leaves after the try finds
            // it counted, and wakes it.
            self.sleepers.fetch_add(1, Ordering::SeqCst);
            let entered = self.try_enter(place, number);
            if entered.is_none() {
                self.sleep(rt);
            }
            self.sleepers.fetch_sub(1, Ordering::SeqCst);
            if let Some(value) = entered {
                return value;
            }
        }
        unreachable!()
    }

    /// Tries until nobody else is inside.
    pub(crate) fn go_in<R: Wait>(&self, rt: &R, place: &mut PassSeat<V>, number: u16) -> V
        requires table { place.old.table_id ≡ lock_id self.now }
        requires outside { (c : Claim V.Note V.Frame) × (place.old.me ≡ seat_outside c)
            × (c.number ≡ number) }
        ensures table { place.new.table_id ≡ place.old.table_id }
        ensures entered { Enters V.history_of V.pass_of V.frame_of
            place.old.me result place.new.me }
    {
        match self.spin_in(place, number) {
            Some(value) => value,
            None => self.wait_in(rt, place, number),
        }
    }

    /// Wakes a sleeper, where there may be one.
    fn wake_one(&self) {
        if self.sleepers.load(Ordering::SeqCst) != 0 {
            self.room.shared.wake_one(INSIDE);
        }
    }

    /// Puts the value back, makes a note if its history has grown, and goes out.
    pub(crate) fn put_back(&self, place: &mut PassSeat<V>, value: V, grown: bool)
        requires table { place.old.table_id ≡ lock_id self.now }
        requires inside { (c : Claim V.Note V.Frame) × (place.old.me ≡ seat_inside c None)
            × (V.frame_of value ≡ c.frame)
            × GrewIf V.pass_of grown c.number c.front (V.history_of value) }
        requires fits { length (V.history_of value) < 2 ^ 64 }
        ensures table { place.new.table_id ≡ place.old.table_id }
        ensures left { Leaves V.history_of place.old.me value place.new.me }
    {
        let shared = &self.room.shared;
        let taken = shared.exchange(place, 0, Some(value));
        let None = taken else { unreachable!() };
        if grown {
            shared.fetch_add::<AddNote<V>>(place, NOTES, 1);
        }
        shared.store::<Leave>(place, INSIDE, 0);
        self.wake_one();
    }
}
