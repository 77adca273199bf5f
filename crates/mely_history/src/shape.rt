//! The numbers that a run is shaped by.

/// The numbers that a run is shaped by.
#[derive(Clone, Copy, Debug, PartialEq, Eq)]
pub struct Shape {
    /// How many cores there are, 1 to 64.
    pub cores: u16,

    /// How many shards hold the colours, 1 to 64. Colour `c` stands in shard `c % shards`.
    pub shards: u16,

    /// How many events of one colour a turn runs at most, 1 to 1,000 (Mely's batch threshold).
    pub batch: u16,

    /// The time left that a colour must exceed to be stolen.
    pub steal_cost: u32,

    /// How many cores stand in one group, 1 to 64: a thief looks in its own group first (Mely's
    /// locality).
    pub group: u16,
}
