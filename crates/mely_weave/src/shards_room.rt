//! Room for the shards of a weave, before there are states for them.
ghost use Rattle.std.specs.Prelude.{◌≡◌, ◌≤◌, ℕ, IfOk, Some, [], length, slice_get, vec_capacity};
ghost use Rattle.mely_history.specs.Setup.{shape_of, colours_of};
ghost use Rattle.mely_shard.specs.Shard.{AreInitialStates, IsInitialShard, givens};
ghost use Rattle.mely_weave.specs.Dealing.{AreDealt, AtEach, HaveRoomFor, IsWithinShare};
ghost use Rattle.mely_weave.specs.Making.{AreInitial};

use mely_event::{Fits, Memory, Trail};
use mely_history::Setup;
use mely_shard::{Shard, ShardRoom};
use std::alloc::Global;

/// All the memory of the shards of a setup, made beforehand: to [`fill`](ShardsRoom::fill) it takes
/// none. So states need not be given away before it is known that there is memory for them.
#[derive(Drop)]
pub struct ShardsRoom<S: Fits<P>, P> {
    pub(crate) setup: Setup,

    /// For each shard an empty list with room for the states of its colours.
    pub(crate) piles: Vec<Vec<S>>,
    pub(crate) rooms: Vec<ShardRoom<S, P>>,

    /// An empty list with room for all shards.
    pub(crate) shards: Vec<Shard<S, P>>,
    ghost empty_piles: { AtEach (λ i pile. pile.items ≡ []) piles.items },
    ghost for_piles: { HaveRoomFor vec_capacity (colours_of setup) (shape_of setup).shards
        piles.items },
    ghost for_rooms: { HaveRoomFor (λ r. r.colours) (colours_of setup) (shape_of setup).shards
        rooms.items },
    ghost for_shards: { (shards.items ≡ []) × ((shape_of setup).shards ≤ vec_capacity shards) },
}

impl<S: Fits<P> + Drop, P: Drop> ShardsRoom<S, P> {
    /// Room for the shards of this setup.
    ///
    /// # Errors
    ///
    /// There was no memory.
    pub fn new(alloc: Global, setup: &Setup) -> Result<ShardsRoom<S, P>, Memory>
        ensures { IfOk result (λ room. room.setup ≡ setup.now) }
    {
        let shards = setup.shards();
        let most = setup.colours() as usize / shards as usize + 1;
        Ok(ShardsRoom {
            setup: *setup,
            piles: piles_of(alloc, shards, most)?,
            rooms: rooms_of(alloc, shards, most)?,
            shards: Vec::with_capacity(alloc, shards as usize)?,
        })
    }

    /// The shards of the setup at first, in order, each with the states of its own colours in
    /// ascending order. There is a state for each colour, as [`Weave::new`](crate::Weave::new)
    /// wants them. Nothing was registered. It takes no memory.
    pub fn fill(self, states: Vec<S>) -> Vec<Shard<S, P>>
        requires { AreInitial S.Trail self.setup states.items }
        ensures dealt { AreDealt givens (shape_of self.setup).shards states.items result.items }
        ensures first { AtEach (λ shard has. IsInitialShard self.setup shard (givens has) has)
            result.items }
    {
        let ShardsRoom {
            setup,
            piles,
            rooms,
            shards,
        } = self;
        let by_shard = deal_into(&setup, states, piles);
        fill_each(&setup, by_shard, rooms, shards)
    }
}

/// This many empty lists, each with room for so many.
fn piles_of<S: Drop>(alloc: Global, count: u16, most: usize) -> Result<Vec<Vec<S>>, Memory>
    ensures many { IfOk result (λ piles. length piles.items ≡ count) }
    ensures empty { IfOk result (λ piles. AtEach (λ i pile. pile.items ≡ []) piles.items) }
    ensures room { IfOk result (λ piles. AtEach (λ i pile. most ≤ vec_capacity pile) piles.items) }
{
    let mut piles = Vec::with_capacity(alloc, count as usize)?;
    for number in 0..count {
        piles.push_reserved(Vec::with_capacity(alloc, most)?);
    }
    Ok(piles)
}

/// Room for this many shards, each with so many colours.
fn rooms_of<S: Drop, P: Drop>(
    alloc: Global,
    count: u16,
    most: usize,
) -> Result<Vec<ShardRoom<S, P>>, Memory>
    ensures many { IfOk result (λ rooms. length rooms.items ≡ count) }
    ensures room { IfOk result (λ rooms. AtEach (λ i room. room.colours ≡ most) rooms.items) }
{
    let mut rooms = Vec::with_capacity(alloc, count as usize)?;
    for number in 0..count {
        rooms.push_reserved(ShardRoom::new(alloc, most)?);
    }
    Ok(rooms)
}

/// Deals states, one for each colour in ascending order, to the piles of a setup's shards: that of
/// colour `c` goes to pile `c % shards`, where it lies at place `c / shards`.
fn deal_into<S: Drop>(setup: &Setup, states: Vec<S>, piles: Vec<Vec<S>>) -> Vec<Vec<S>>
    requires few { length states.items ≡ colours_of setup.now }
    requires empty { AtEach (λ i pile. pile.items ≡ []) piles.items }
    requires room { HaveRoomFor vec_capacity (colours_of setup.now) (shape_of setup.now).shards
        piles.items }
    ensures { AreDealt (λ pile. pile.items) (shape_of setup.now).shards states.items result.items }
{
    let mut by_shard = piles;
    let mut number = 0;
    for state in states {
        let place = number % setup.shards() as usize;
        by_shard[place].push_reserved(state);
        number += 1;
    }
    by_shard
}

/// A shard of each pile, in order.
fn fill_each<S: Fits<P> + Drop, P: Drop>(
    setup: &Setup,
    by_shard: Vec<Vec<S>>,
    rooms: Vec<ShardRoom<S, P>>,
    emptied: Vec<Shard<S, P>>,
) -> Vec<Shard<S, P>>
    requires many { length by_shard.items ≡ (shape_of setup.now).shards }
    requires first { AtEach (λ shard pile.
        AreInitialStates S.Trail setup.now shard pile.items) by_shard.items }
    requires few { AtEach (λ i pile. IsWithinShare (colours_of setup.now)
        (shape_of setup.now).shards (length pile.items)) by_shard.items }
    requires rooms { HaveRoomFor (λ r. r.colours) (colours_of setup.now) (shape_of setup.now).shards
        rooms.items }
    requires emptied { emptied.items ≡ [] }
    requires reserved { (shape_of setup.now).shards ≤ vec_capacity emptied }
    ensures many { length result.items ≡ (shape_of setup.now).shards }
    ensures first { (shard : ℕ) (pile : _) (has : _)
        → slice_get by_shard.items shard ≡ Some pile
        → slice_get result.items shard ≡ Some has → IsInitialShard setup.now shard pile.items has }
{
    let mut shards = emptied;
    let mut rooms = rooms;
    let mut number = 0;
    for states in by_shard {
        let Some(room) = rooms.pop() else {
            unreachable!()
        };
        shards.push_reserved(Shard::in_room(room, setup, number, states));
        number += 1;
    }
    shards
}
