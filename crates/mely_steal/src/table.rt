//! Lists by links in one table.
ghost use Rattle.std.specs.Prelude.{◌≡◌, ◌==◌, ◌<◌, ◌≤◌, ◌++◌, ◌∷◌, ◌-◌, [], length, if◌then◌else◌};
ghost use Rattle.mely_steal.specs.declared.links.TheConstants.{MAX_PLACES};
ghost use Rattle.mely_steal.specs.Links.{places_of, list_at, before_at, after_at, without_place, IsStrung, MovesOnly, SparesOthers, SetsAfter, SetsBefore, SetsList, SetsLink, JoinsBehind, JoinsBefore};

use crate::links::{Ends, Link};

/// Adds a place, which is in no list, at the back of a list.
pub(crate) fn push_back(links: &mut [Link], ends: &mut Ends, list: u8, place: u16)
    requires number { 0 < list }
    requires strung { IsStrung list links.old ends.old }
    requires below { place < length links.old }
    requires free { list_at links.old place ≡ 0 }
    requires small { length links.old ≤ MAX_PLACES }
    ensures listed { places_of links.new ends.new ≡ places_of links.old ends.old ++ place ∷ [] }
    ensures strung { IsStrung list links.new ends.new }
    ensures spares { SparesOthers list links.old links.new }
    ensures moves { MovesOnly place list links.old links.new }
{
    let link = Link {
        list,
        before: ends.last,
        after: place,
    };
    if ends.len == 0 {
        set_link(links, place, link);
        *ends = Ends {
            first: place,
            last: place,
            len: 1,
        };
    } else {
        set_link(links, place, link);
        set_after(links, ends.last, place);
        ends.last = place;
        ends.len += 1;
    }
}

/// Takes a place out of the list that it is in, which has these ends.
pub(crate) fn unlink(links: &mut [Link], ends: &mut Ends, place: u16)
    requires below { place < length links.old }
    requires number { 0 < list_at links.old place }
    requires strung { IsStrung (list_at links.old place) links.old ends.old }
    ensures listed { places_of links.new ends.new
        ≡ without_place place (places_of links.old ends.old) }
    ensures strung { IsStrung (list_at links.old place) links.new ends.new }
    ensures spares { SparesOthers (list_at links.old place) links.old links.new }
    ensures moves { MovesOnly place 0 links.old links.new }
{
    let link = links[place as usize];
    join_behind(links, ends, place, link);
    join_before(links, ends, place, link);
    set_list(links, place, 0);
    ends.len -= 1;
}

/// Makes the place behind a place the one behind that before it; where the place is the
/// first, makes it the first.
fn join_behind(links: &mut [Link], ends: &mut Ends, place: u16, link: Link)
    requires { (ends.old.first ≡ place → ⊥) → link.before < length links.old }
    ensures links { JoinsBehind place link ends.old.first links.old links.new }
    ensures first { let first = if ends.old.first == place then link.after else ends.old.first in
        ends.new ≡ record ends.old { first = first } }
{
    if ends.first == place {
        ends.first = link.after;
    } else {
        set_after(links, link.before, link.after);
    }
}

/// Makes the place before a place the one before that behind it; where the place is the
/// last, makes it the last.
fn join_before(links: &mut [Link], ends: &mut Ends, place: u16, link: Link)
    requires { (ends.old.last ≡ place → ⊥) → link.after < length links.old }
    ensures links { JoinsBefore place link ends.old.last links.old links.new }
    ensures last { let last = if ends.old.last == place then link.before else ends.old.last in
        ends.new ≡ record ends.old { last = last } }
{
    if ends.last == place {
        ends.last = link.before;
    } else {
        set_before(links, link.after, link.before);
    }
}

/// Writes all links of a place.
fn set_link(links: &mut [Link], place: u16, link: Link)
    requires { place < length links.old }
    ensures { SetsLink place link links.old links.new }
{
    links[place as usize] = link;
}

/// Writes the link behind a place.
fn set_after(links: &mut [Link], place: u16, after: u16)
    requires { place < length links.old }
    ensures { SetsAfter place after links.old links.new }
{
    links[place as usize].after = after;
}

/// Writes the link before a place.
fn set_before(links: &mut [Link], place: u16, before: u16)
    requires { place < length links.old }
    ensures { SetsBefore place before links.old links.new }
{
    links[place as usize].before = before;
}

/// Writes the number of the list that a place is in.
fn set_list(links: &mut [Link], place: u16, list: u8)
    requires { place < length links.old }
    ensures { SetsList place list links.old links.new }
{
    links[place as usize].list = list;
}
