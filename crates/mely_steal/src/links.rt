//! What a table of lists by links is made of.

/// What a table of lists keeps of one place.
#[derive(Clone, Copy)]
pub(crate) struct Link {
    /// The number of the list that the place is in, from 1 on; 0 where it is in none.
    pub(crate) list: u8,
    /// The place before it in its list. The first place's is any.
    pub(crate) before: u16,
    /// The place behind it in its list. The last place's is any.
    pub(crate) after: u16,
}

/// The ends of a list and its length. Where it is empty the ends are any.
#[derive(Clone, Copy)]
pub(crate) struct Ends {
    pub(crate) first: u16,
    pub(crate) last: u16,
    pub(crate) len: u32,
}

/// The most places of a table, one for each number that a colour may have.
pub(crate) const MAX_PLACES: u32 = 65_536;

/// A place that is in no list.
pub(crate) const UNLINKED: Link = Link {
    list: 0,
    before: 0,
    after: 0,
};

/// The ends of an empty list.
pub(crate) const NO_ENDS: Ends = Ends {
    first: 0,
    last: 0,
    len: 0,
};
