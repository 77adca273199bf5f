//! When a site was last modified, as the server says it.
ghost use Rattle.std.specs.Prelude.{◌≡◌, ◌≤◌, ◌+◌, ◌↔◌, IsSome, IfSome, Some, min};
ghost use Rattle.sws_site.specs.Site.{last_second};
ghost use Rattle.sws_shelf.specs.Dates.{date_after, millis_of, secs_of, IsLater};

use std::time::{Duration, SystemTime, UNIX_EPOCH};

/// The last second of the year 9999, after the beginning of 1970: no date shows a later one.
const LAST_SECOND: u64 = 253_402_300_799;

/// The date of a site that is loaded now, where the newest change of its folder was then, in
/// seconds after the beginning of 1970: the first second in which no further change can fall, since
/// that of the newest change is over, and that is later than the date of the site before. No date
/// is later than the clock (RFC 9110, section 8.8.2.1).
///
/// Nothing where no date is later than the one before and none to come: the clock was set back, or
/// still shows the second of the site before. Such a site is served without a date.
pub fn next_date(before: Option<u64>, newest: u64, now: u64) -> Option<u64>
    ensures told { IsSome result ↔ IsLater before (min now last_second) }
    ensures later { IfSome result (IsLater before) }
    ensures clock { IfSome result (λ date. date ≤ now) }
    ensures shown { IfSome result (λ date. date ≤ last_second) }
    ensures exactly { IfSome result (λ date.
        date ≡ date_after before newest (min now last_second)) }
{
    let now = now.min(LAST_SECOND);
    let least = match before {
        Some(before) => before.saturating_add(1),
        None => 0,
    };
    if least > now {
        return None;
    }
    Some(least.max(newest.saturating_add(1)).min(now))
}

/// For how many milliseconds the clock still shows the second of this date, if it does.
pub fn rest_of_second(date: Option<u64>, now: Duration) -> u64
    ensures shown { date ≡ Some (secs_of now) → result + millis_of now ≡ 1000 }
    ensures over { (date ≡ Some (secs_of now) → ⊥) → result ≡ 0 }
{
    if date != Some(now.as_secs()) {
        return 0;
    }
    1000 - u64::from(now.subsec_millis()).min(999)
}

/// The time since the beginning of 1970, where the clock can be read.
pub fn time_of(rt: &HostRuntime) -> Option<Duration> {
    let now = SystemTime::now(rt).ok()?;
    now.duration_since(UNIX_EPOCH).ok()
}
