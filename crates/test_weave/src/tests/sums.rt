//! Coins that go round are as many at the end as at the beginning.
ghost use Rattle.std.specs.Prelude.{◌≡◌, ◌<◌, ◌≤◌, ◌+◌, ◌^◌, ◌++◌, All, IfOk, map, flat_map, sum_by, unwrap_or, length};
ghost use Rattle.mely_weave.specs.Making.{AreInitialBelow};
ghost use Rattle.mely_event.specs.HandlerTable.{rows_of};
ghost use Rattle.mely_history.specs.Setup.{shape_of, colours_of, handlers_of};
ghost use Rattle.mely_tally.specs.Tallies.{carried_by};
ghost use Rattle.mely_tally.specs.Tells.{total_of};

mod paying;

use mely_event::{Colour, Event, Fits, Handlers, Memory, Trail};
use mely_history::{Setup, Shape};
use mely_tally::{the_parts_are_what_the_weave_had, what_each_handler_keeps_a_run_keeps};
use mely_weave::{Weave, WeaveParts};
use paying::{Paying, Purse, purse_of};
use std::alloc::Global;
use std::sync::Wait;

/// Runs a schedule and drains the weave. Its parts have as many coins as it had.
fn play<R: Wait>(
    rt: &R,
    mut weave: Weave<Purse, u64>,
    app: &Paying,
    schedule: &[(u16, u32)],
) -> WeaveParts<Purse, u64>
    requires cores { All (λ part. part.0 < (shape_of weave.setup).cores) schedule.now }
    requires count { sum_by (λ part. part.1) schedule.now < 2 ^ 64 }
    requires some { 0 < app.now.colours }
    requires colours { app.now.colours ≤ colours_of weave.setup }
    requires handlers { 1 ≤ length (rows_of (handlers_of weave.setup)) }
    ensures { sum_by (λ purse. purse.value) result.states.items
        + sum_by (λ way. unwrap_or way.1 0) (flat_map (λ events.
        events) (map (λ queue. queue.items) result.queued.items) ++ carried_by result.lost.items)
        ≡ total_of (λ purse. purse.value) (λ way. unwrap_or way.1 0) weave }
{
    what_each_handler_keeps_a_run_keeps::<Purse, u64, Paying>();
    the_parts_are_what_the_weave_had::<Purse, u64>();
    weave.stands_well();
    weave.run(schedule, app);
    weave.drain(rt, app);
    weave.stands_well();
    weave.into_parts()
}

/// Two cores, two shards, three colours and one handler.
fn small_setup() -> Result<Setup, Memory>
    ensures cores { IfOk result (λ setup. (shape_of setup).cores ≡ 2) }
    ensures colours { IfOk result (λ setup. colours_of setup ≡ 3) }
    ensures handlers { IfOk result (λ setup. length (rows_of (handlers_of setup)) ≡ 1) }
{
    let shape = Shape {
        cores: 2,
        shards: 2,
        batch: 2,
        steal_cost: 5,
        group: 2,
    };
    let Ok(handlers) = Handlers::new(&[(10, 1)]) else {
        return Err(Memory);
    };
    match Setup::new(&shape, 3, handlers, 0) {
        Ok(setup) => Ok(setup),
        Err(_) => Err(Memory),
    }
}

/// A purse with a hundred coins for each colour.
fn purses(alloc: Global, colours: u16) -> Result<Vec<Purse>, Memory>
    ensures { IfOk result (λ states. AreInitialBelow (λ state. state.log.colour) (λ state.
        state.log.events) colours states.items) }
{
    let mut states = Vec::new(alloc);
    'colours: for colour in 0..colours {
        states.push(purse_of(colour, 100))?;
    }
    Ok(states)
}

/// A weave of three purses with a hundred coins each.
fn weave_of(alloc: Global) -> Result<Weave<Purse, u64>, Memory>
    ensures cores { IfOk result (λ weave. (shape_of weave.setup).cores ≡ 2) }
    ensures colours { IfOk result (λ weave. colours_of weave.setup ≡ 3) }
    ensures handlers { IfOk result (λ weave. length (rows_of (handlers_of weave.setup)) ≡ 1) }
{
    let setup = small_setup()?;
    let states = purses(alloc, 3)?;
    match Weave::new(alloc, &setup, states) {
        Ok(weave) => Ok(weave),
        Err(_) => Err(Memory),
    }
}

/// Posts an event of handler 0, and answers whether it was registered.
fn post(weave: &mut Weave<Purse, u64>, colour: u16, arg: u16, coins: Option<u64>) -> bool
    requires colour { colour < colours_of weave.old.setup }
    requires handlers { length (rows_of (handlers_of weave.old.setup)) ≡ 1 }
    ensures { weave.new.setup ≡ weave.old.setup }
{
    let event = Event { handler: 0, arg };
    weave.post(Colour(colour), event, coins).is_ok()
}

/// Whether there are 1300 coins at the end where two events go round with a thousand, and no event was
/// lost.
fn are_kept<R: Wait>(rt: &R, alloc: Global) -> Result<bool, Memory> {
    let mut weave = weave_of(alloc)?;
    let is_posted = post(&mut weave, 0, 5, Some(1000)) && post(&mut weave, 2, 2, None);
    let parts = play(rt, weave, &Paying { colours: 3 }, &[(0, 7), (1, 9)]);
    let mut coins = 0u64;
    for purse in &parts.states {
        coins = coins.wrapping_add(purse.value);
    }
    Ok(is_posted && coins == 1300 && parts.lost.is_empty())
}

#[test]
fn coins_that_go_round_are_as_many_at_the_end(rt: HostRuntime) {
    assert!(rt; are_kept(&rt, rt.alloc()) == Ok(true));
}
