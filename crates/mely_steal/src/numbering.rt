//! The numbers by which colours of three classes are one list.
ghost use Rattle.std.specs.Prelude.{◌≡◌, ◌<◌, ◌↔◌, ◌^◌, All, IsTrue, length};
ghost use Rattle.mely_steal.specs.Entering.{StandInOrder, HasNumbers, IsOlder, KeepsEntries};

use crate::links::{Ends, Link};

/// The number of the next entering: it begins anew where no colour is in a class, and where it
/// stands at its last value the colours that are there are numbered anew, in order.
pub(crate) fn next_number(links: &[Link], ends: &[Ends], numbers: &mut [u64], next: u64) -> u64
    requires stand { StandInOrder links.now ends.now numbers.old next }
    ensures stand { StandInOrder links.now ends.now numbers.new result }
    ensures same { KeepsEntries links.now ends.now numbers.old numbers.new }
    ensures room { result < u64.MAX }
{
    if are_empty(ends) {
        return 0;
    }
    if next < u64::MAX {
        return next;
    }
    renumber(links, ends, numbers, next)
}

/// Whether no list has a place.
fn are_empty(ends: &[Ends]) -> bool
    ensures { IsTrue result ↔ All (λ list. list.len ≡ 0) ends.now }
{
    ends.iter().all(|list| list.len == 0)
}

/// Numbers the colours anew, from 0 on and in order, and answers how many there are.
fn renumber(links: &[Link], ends: &[Ends], numbers: &mut [u64], next: u64) -> u64
    requires stand { StandInOrder links.now ends.now numbers.old next }
    ensures stand { StandInOrder links.now ends.now numbers.new result }
    ensures same { KeepsEntries links.now ends.now numbers.old numbers.new }
    ensures room { result < u64.MAX }
{
    let mut left = [ends[0], ends[1], ends[2]];
    let mut number = 0u64;
    'colours: loop {
        let oldest = older(&left, numbers, older(&left, numbers, 0, 1), 2);
        let list = &mut left[oldest];
        if list.len == 0 {
            return number;
        }
        let colour = list.first as usize;
        numbers[colour] = number;
        list.first = links[colour].after;
        list.len -= 1;
        number += 1;
    }
}

/// The one of two lists whose first place has the smaller number; a list that is
/// empty only where both are.
fn older(left: &[Ends], numbers: &[u64], one: usize, other: usize) -> usize
    requires lists { (one < length left.now) × (other < length left.now) }
    requires numbered { HasNumbers left.now numbers.now }
    ensures { IsOlder left.now numbers.now one other result }
{
    let (first, second) = (left[one], left[other]);
    if second.len == 0 {
        return one;
    }
    if first.len == 0 || numbers[second.first as usize] < numbers[first.first as usize] {
        return other;
    }
    one
}
