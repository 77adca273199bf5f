//! What a run is made with.
ghost use Rattle.std.specs.Prelude.{◌≡◌, ◌≤◌, ◌+◌, ◌/◌, IfOk, IfErr};
ghost use Rattle.mely_history.specs.Ranges.{core_limit, shard_limit, colour_limit, batch_limit, group_limit};

use crate::setup_fault::SetupFault;
use crate::shape::Shape;
use mely_event::{Colour, Handlers};

/// The most cores.
pub const MAX_CORES: u16 = 64;

/// The most shards.
pub const MAX_SHARDS: u16 = 64;

/// The most colours: a colour is a number of 16 bits.
pub const MAX_COLOURS: u32 = 65_536;

/// The most events of one turn.
pub const MAX_BATCH: u16 = 1_000;

/// The most cores of one group.
pub const MAX_GROUP: u16 = 64;

/// What a reciprocal is a part of. It is a power of 2 above the product of the greatest colour and
/// the greatest number of shards, so that no quotient is rounded up.
const WHOLE: u64 = 4_194_304;

/// What a run is made with: its shape, how many colours there are, the table of its handlers, how
/// many of the colours are pinned, from colour 0 on, and whether its histories are listed.
#[derive(Clone, Copy, Debug)]
pub struct Setup {
    shape: Shape,
    colours: u32,
    handlers: Handlers,
    pinned: u32,
    listed: bool,

    /// By it a colour is multiplied rather than divided by the number of shards, which
    /// takes several times as long.
    reciprocal: u64,
    pub ghost cores_in: { (1 ≤ shape.cores) × (shape.cores ≤ core_limit) },
    pub ghost shards_in: { (1 ≤ shape.shards) × (shape.shards ≤ shard_limit) },
    pub ghost colours_in: { (1 ≤ colours) × (colours ≤ colour_limit) },
    pub ghost batch_in: { (1 ≤ shape.batch) × (shape.batch ≤ batch_limit) },
    pub ghost group_in: { (1 ≤ shape.group) × (shape.group ≤ group_limit) },
    pub ghost pinned_in: { pinned ≤ colours },
    pub ghost reciprocal_in: { reciprocal ≡ 4194304 / shape.shards + 1 },
}

impl Setup {
    ghost use Rattle.std.specs.Prelude.{None, Some, false};
    ghost use Rattle.mely_history.specs.Setup.{first_out_of_range, shape_of, colours_of, handlers_of, pinned_of, shard_of, place, is_listed, with_lists};

    /// A setup of these numbers. The colours below `pinned` stay on the core that they begin on:
    /// they are never stolen. No history is listed. It takes no memory.
    ///
    /// # Errors
    ///
    /// `OutOfRange` exactly where a number is out of its range, with the first such field: 1 for
    /// the cores (1 to 64), 2 for the shards (1 to 64), 3 for the colours (1 to 65,536), 4 for the
    /// batch (1 to 1,000), 5 for the group (1 to 64), 6 for the pinned colours (0 to `colours`).
    pub fn new(
        shape: &Shape,
        colours: u32,
        handlers: Handlers,
        pinned: u32,
    ) -> Result<Setup, SetupFault>
        ensures made { IfOk result (λ _. first_out_of_range shape.now colours pinned ≡ None) }
        ensures shape { IfOk result (λ setup. shape_of setup ≡ shape.now) }
        ensures colours { IfOk result (λ setup. colours_of setup ≡ colours) }
        ensures handlers { IfOk result (λ setup. handlers_of setup ≡ handlers) }
        ensures pinned { IfOk result (λ setup. pinned_of setup ≡ pinned) }
        ensures listed { IfOk result (λ setup. is_listed setup ≡ false) }
        ensures refused { IfErr result (λ fault. first_out_of_range shape.now colours pinned
            ≡ Some fault) }
    {
        if shape.cores < 1 || shape.cores > MAX_CORES {
            return Err(SetupFault::OutOfRange { field: 1 });
        }
        if shape.shards < 1 || shape.shards > MAX_SHARDS {
            return Err(SetupFault::OutOfRange { field: 2 });
        }
        if colours < 1 || colours > MAX_COLOURS {
            return Err(SetupFault::OutOfRange { field: 3 });
        }
        if shape.batch < 1 || shape.batch > MAX_BATCH {
            return Err(SetupFault::OutOfRange { field: 4 });
        }
        if shape.group < 1 || shape.group > MAX_GROUP {
            return Err(SetupFault::OutOfRange { field: 5 });
        }
        if pinned > colours {
            return Err(SetupFault::OutOfRange { field: 6 });
        }
        Ok(Setup {
            shape: *shape,
            colours,
            handlers,
            pinned,
            listed: false,
            reciprocal: WHOLE / u64::from(shape.shards) + 1,
        })
    }

    /// The same, but that each shard's history is kept as a list that can be read: 12 bytes an
    /// entry. Else a history is for contracts alone, and takes no memory.
    pub fn listed(self) -> Setup
        ensures { result ≡ with_lists self }
    {
        let mut setup = self;
        setup.listed = true;
        setup
    }

    /// Whether the histories are listed.
    pub fn is_listed(&self) -> bool
        ensures { result ≡ is_listed self.now }
    {
        self.listed
    }

    /// How many cores there are.
    pub fn cores(&self) -> u16
        ensures value { result ≡ (shape_of self.now).cores }
        ensures range { (1 ≤ result) × (result ≤ core_limit) }
    {
        self.shape.cores
    }

    /// How many shards there are.
    pub fn shards(&self) -> u16
        ensures value { result ≡ (shape_of self.now).shards }
        ensures range { (1 ≤ result) × (result ≤ shard_limit) }
    {
        self.shape.shards
    }

    /// The number of the shard that a colour is in: `colour.0 % shards`.
    #[inline(always)]
    pub fn shard_of(&self, colour: Colour) -> usize
        ensures { result ≡ shard_of self.now colour }
    {
        let place = self.place_of(colour);
        usize::from(colour.0) - place * usize::from(self.shape.shards)
    }

    /// The place of a colour among the colours of its shard in ascending
    /// order: `colour.0 / shards`.
    #[inline(always)]
    pub fn place_of(&self, colour: Colour) -> usize
        ensures { result ≡ place self.now colour }
    {
        (u64::from(colour.0) * self.reciprocal / WHOLE) as usize
    }

    /// How many events a turn runs at most.
    pub fn batch(&self) -> u16
        ensures value { result ≡ (shape_of self.now).batch }
        ensures range { (1 ≤ result) × (result ≤ batch_limit) }
    {
        self.shape.batch
    }

    /// The time left that a colour must exceed to be stolen.
    pub fn steal_cost(&self) -> u32
        ensures { result ≡ (shape_of self.now).steal_cost }
    {
        self.shape.steal_cost
    }

    /// How many cores stand in one group.
    pub fn group(&self) -> u16
        ensures value { result ≡ (shape_of self.now).group }
        ensures range { (1 ≤ result) × (result ≤ group_limit) }
    {
        self.shape.group
    }

    /// How many colours there are, from colour 0 on.
    pub fn colours(&self) -> u32
        ensures value { result ≡ colours_of self.now }
        ensures range { (1 ≤ result) × (result ≤ colour_limit) }
    {
        self.colours
    }

    /// How many colours are pinned, from colour 0 on: they are never stolen.
    pub fn pinned(&self) -> u32
        ensures value { result ≡ pinned_of self.now }
        ensures range { result ≤ colours_of self.now }
    {
        self.pinned
    }

    /// The table of handlers.
    pub fn handlers(&self) -> &Handlers
        ensures { result.now ≡ handlers_of self.now }
    {
        &self.handlers
    }
}
