//! Events, which name a handler and its argument.

/// What is to be run: the number of a handler in the [`Handlers`](crate::Handlers) table and the
/// argument that it is called with. A load, which is a value that moves with an event, stands
/// beside it.
#[derive(Clone, Copy, Debug, PartialEq, Eq, PartialOrd, Ord)]
pub struct Event {
    pub handler: u8,
    pub arg: u16,
}
