//! When a site was last modified, and when its folder is looked at.

use std::time::Duration;
use sws_daemon::Rounds;
use sws_shelf::{next_date, rest_of_second};

/// The last second of the year 9999, and one after it.
const LAST: u64 = 253_402_300_799;

const BEHIND: u64 = 253_402_300_806;

/// The date before, the newest change, the clock, and the date.
static DATES: [(Option<u64>, u64, u64, Option<u64>); 10] = [
    // The second of the newest change is over; it is not.
    (None, 100, 200, Some(101)),
    (None, 200, 200, Some(200)),
    // The newest change is to come.
    (None, 300, 200, Some(200)),
    // A page changed in the second of the site before.
    (Some(101), 100, 200, Some(102)),
    // A file has gone, so that the newest change is an older one.
    (Some(150), 100, 200, Some(151)),
    (Some(150), 180, 200, Some(181)),
    // The clock still shows the second of the site before, or was set back.
    (Some(200), 200, 200, None),
    (Some(201), 100, 200, None),
    (None, BEHIND, BEHIND, Some(LAST)),
    (Some(LAST), 100, BEHIND, None),
];

#[test]
fn a_site_is_dated_later_than_the_one_before(rt: HostRuntime) {
    for (row, &(before, newest, now, date)) in DATES.iter().enumerate() {
        assert!(rt; next_date(before, newest, now) == date, "row {row}");
    }
}

/// Dates of a site, and how many milliseconds are left of its second at 100.25 seconds.
static RESTS: [(Option<u64>, u64); 4] = [
    (None, 0),
    (Some(99), 0),
    (Some(100), 750),
    (Some(101), 0),
];

#[test]
fn the_second_of_a_date_is_waited_for(rt: HostRuntime) {
    for (row, &(date, rest)) in RESTS.iter().enumerate() {
        let left = rest_of_second(date, Duration::from_millis(100_250));
        assert!(rt; left == rest, "row {row}");
    }
}

/// After which of twelve ticks the folder is looked at, where after the first look something is
/// still to be done, and nothing after the others.
fn looks(usual: Option<u32>, hurries: bool) -> u32 {
    let mut rounds = Rounds::new(usual);
    let mut looks = 0u32;
    if hurries {
        rounds.hurry();
    }
    for _ in 0..12 {
        looks = looks.wrapping_mul(2);
        if rounds.tick() {
            rounds.begin(looks == 0);
            looks = looks.wrapping_add(1);
        }
    }
    looks
}

/// How often it is looked at, whether something is still to be done, and after which ticks it is.
static LOOKS: [(Option<u32>, bool, u32); 5] = [
    (Some(4), false, 0b0001_0001_0001),
    (Some(6), false, 0b0000_0100_0100),
    (None, false, 0),
    (None, true, 0b1000_1000_0000),
    (Some(6), true, 0b1000_1000_0010),
];

#[test]
fn a_folder_is_looked_at_by_its_rounds(rt: HostRuntime) {
    for (row, &(usual, hurries, looked)) in LOOKS.iter().enumerate() {
        assert!(rt; looks(usual, hurries) == looked, "row {row}");
    }
}
