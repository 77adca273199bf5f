//! Which colour is whose.
ghost use Rattle.std.specs.Prelude.{◌≡◌, ◌<◌, ◌+◌};

use mely_event::Colour;

/// The colour of the desk.
pub(crate) const DESK: Colour = Colour(0);

/// Which colour is whose: the desk has colour 0, behind it come the cells, and then the
/// connections.
#[derive(Clone, Copy)]
pub(crate) struct Layout {
    pub(crate) cells: u16,
    pub(crate) clients: u16,
    ghost fits: { cells + clients < 65536 },
}

impl Layout {
    /// The colour of a cell.
    pub(crate) fn cell(&self, cell: u16) -> Colour
        requires { cell < self.now.cells }
        ensures { result ≡ record { 0 = cell + 1 } }
    {
        Colour(cell + 1)
    }

    /// The colour of a connection.
    pub(crate) fn client(&self, client: u16) -> Colour
        requires { client < self.now.clients }
        ensures { result ≡ record { 0 = client + self.now.cells + 1 } }
    {
        Colour(client + self.cells + 1)
    }
}
