//! Colours, which keep events apart in time.

/// What keeps events apart in time: events of one colour run one after another, in the order in
/// which they were registered, and events of different colours may run on different cores at once.
///
/// Colour 0 is the colour of events to which a program gives none, so a program without colours
/// runs as on one core (the default colour of libasync-smp).
#[derive(Clone, Copy, Debug, PartialEq, Eq, PartialOrd, Ord)]
pub struct Colour(pub u16);
