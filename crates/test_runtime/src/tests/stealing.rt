ghost use Rattle.std.specs.Prelude.{◌≡◌, ◌<◌, ◌≤◌, IfOk};

use super::chains::mark;
use mely_event::{Colour, Mark, Memory};
use mely_steal::{ColourList, StealQueue, StealTable, class_of, victims};
use std::alloc::Global;

/// Whether a core asks the others in this order.
fn asks(alloc: Global, core: u16, cores: u16, group: u16, order: &[u16]) -> Result<bool, Memory>
    requires there { core < cores }
    requires some { 1 ≤ group }
{
    Ok(victims(alloc, core, cores, group)?.as_slice() == order)
}

#[test]
fn a_core_asks_its_group_first_and_goes_round(rt: HostRuntime) {
    let order = [6, 7, 4, 0, 1, 2, 3];
    assert!(rt; asks(rt.alloc(), 5, 8, 4, &order) == Ok(true));
    assert!(rt; asks(rt.alloc(), 0, 1, 4, &[]) == Ok(true), "alone");
}

/// Worths at a cost, and the class of each.
static CLASSES: [(u128, u32, u8); 8] = [
    (20, 20, 0),
    (21, 20, 1),
    (40, 20, 1),
    (41, 20, 2),
    (80, 20, 2),
    (81, 20, 3),
    (0, 0, 0),
    (1, 0, 3),
];

#[test]
fn the_classes_begin_over_the_cost_twice_and_four_times_the_cost(rt: HostRuntime) {
    for &(worth, cost, class) in &CLASSES {
        assert!(rt; class_of(worth, cost) == class, "worth {worth}");
    }
}

/// Whether a queue picks these marks, and then none.
fn picks(queue: &mut StealQueue, marks: &[Mark]) -> bool {
    for mark in marks {
        if queue.pick() != Some(*mark) {
            return false;
        }
    }
    queue.pick() == None
}

/// Whether the first of the highest class are picked.
fn picks_the_highest(alloc: Global) -> Result<bool, Memory> {
    let mut queue = StealQueue::new(alloc, 4, 20, 0)?;
    queue.enter(mark(0, 30));
    queue.enter(mark(1, 20));
    queue.enter(mark(2, 50));
    queue.enter(mark(3, 90));
    queue.change(mark(0, 45));
    Ok(picks(&mut queue, &[mark(3, 90), mark(2, 50), mark(0, 45)]))
}

#[test]
fn the_picks_are_the_first_of_the_highest_class(rt: HostRuntime) {
    assert!(rt; picks_the_highest(rt.alloc()) == Ok(true));
}

/// Whether colours 0 and 1, which are pinned, are not picked.
fn picks_none_pinned(alloc: Global) -> Result<bool, Memory> {
    let mut queue = StealQueue::new(alloc, 4, 20, 2)?;
    queue.enter(mark(0, 90));
    queue.enter(mark(2, 30));
    queue.change(mark(1, 90));
    queue.change(mark(3, 30));
    queue.remove(Colour(0));
    Ok(picks(&mut queue, &[mark(2, 30), mark(3, 30)]))
}

#[test]
fn a_pinned_colour_is_never_picked(rt: HostRuntime) {
    assert!(rt; picks_none_pinned(rt.alloc()) == Ok(true));
}

/// A list of colours 4, 0, 3 and 1 of five, or none where it isn't empty at first.
fn four_listed(alloc: Global) -> Result<ColourList, Memory>
    ensures { IfOk result (λ list. list.colours ≡ 5) }
{
    let mut list = ColourList::new(alloc, 5)?;
    list.push(Colour(4));
    list.push(Colour(0));
    list.push(Colour(3));
    list.push(Colour(1));
    Ok(list)
}

/// Whether colours leave a list at the front, in the middle and at the back.
fn leave(alloc: Global) -> Result<bool, Memory> {
    let mut list = four_listed(alloc)?;
    let has_three = list.contains(Colour(3));
    list.remove(Colour(0));
    list.remove(Colour(1));
    list.remove(Colour(2));
    let has_zero = list.contains(Colour(0));
    let is_left = list.first() == Some(Colour(4)) && list.at(1) == Some(Colour(3));
    let is_all = list.at(2) == None;
    list.remove(Colour(4));
    Ok(has_three && !has_zero && is_left && is_all && list.first() == Some(Colour(3)))
}

#[test]
fn colours_leave_a_list_at_the_front_in_the_middle_and_at_the_back(rt: HostRuntime) {
    assert!(rt; ColourList::new(rt.alloc(), 5).is_ok_and(|list| list.is_empty()));
    assert!(rt; leave(rt.alloc()) == Ok(true));
}

/// Whether a table keeps the marks of colours that left it.
fn keeps_marks(alloc: Global) -> Result<bool, Memory> {
    let mut table = StealTable::new(alloc, 2, 20, 0)?;
    table.enter(mark(1, 10));
    table.change(mark(0, 50));
    table.remove(Colour(0));
    let are_kept = table.mark(Colour(0)) == mark(0, 50) && table.mark(Colour(1)) == mark(1, 10);
    Ok(are_kept && table.pick() == None)
}

#[test]
fn a_table_keeps_the_marks_of_colours_that_left_it(rt: HostRuntime) {
    assert!(rt; keeps_marks(rt.alloc()) == Ok(true));
}
