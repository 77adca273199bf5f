//! What a frame asks.

/// What a frame asks, and of whom.
#[derive(Drop)]
pub enum Asked<Q, P> {
    /// A cell, by its number, is to answer this request.
    At(u16, Q),

    /// These cells, each by its number, are to answer these requests, one after another, a request
    /// once the one before it was answered; each is a step of its own, between which other requests
    /// come. The reply is this one, whose parts are what the cells reply, in order. Where no cell is
    /// asked it is replied at once.
    Each(Vec<(u16, Q)>, P),

    /// This is answered, without a cell.
    Here(P),

    /// This is answered, and then the connection ends.
    Last(P),
}
