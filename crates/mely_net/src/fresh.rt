//! What a run begins with.
ghost use Rattle.std.specs.Prelude.{◌≡◌, ◌<◌, ◌+◌, ℕ, IfOk, List, OnOk, Some, length, slice_get};
ghost use Rattle.mely_net.specs.Parts.{AreFresh};

use crate::client::Client;
use crate::desk::Desk;
use crate::layout::Layout;
use crate::part::Part;
use crate::service::Service;
use mely_event::Memory;
use std::alloc::Global;
use sws_link::Link;

/// What the cells of a service begin with, in order.
///
/// # Errors
///
/// There was no memory.
pub(crate) fn begin_cells<S: Service>(alloc: Global, service: &S) -> Result<Vec<S::Cell>, Memory>
    ensures many { IfOk result (λ cells. length cells.items ≡ (S.rules_of service.now).cells) }
    ensures begin { IfOk result (λ cells. (cell : ℕ) (value : S.Cell)
        → slice_get cells.items cell ≡ Some value
        → (S.rules_of service.now).Begins cell value) }
{
    let mut cells = Vec::new(alloc);
    'cells: for cell in 0..service.cells() {
        cells.push(service.begin(alloc, cell)?)?;
    }
    Ok(cells)
}

/// Connections that are still to come are put behind what there is, so many.
///
/// # Errors
///
/// There was no memory.
fn add_clients<C: Drop, W: Drop, L: Link + Drop, Q: Drop, P: Drop>(
    alloc: Global,
    parts: &mut Vec<Part<C, W, L, Q, P>>,
    count: u16,
) -> Result<(), Memory>
    ensures many { OnOk result (length parts.new.items ≡ length parts.old.items + count) }
    ensures fresh { OnOk result ((cells : List C) → length cells < length parts.old.items
        → AreFresh cells parts.old.items → AreFresh cells parts.new.items) }
{
    'clients: for _ in 0..count {
        parts.push(Part::Client(Client::new(alloc)))?;
    }
    Ok(())
}

/// The parts that a run begins with, whose cells have these values.
///
/// # Errors
///
/// There was no memory: the cells are dropped.
pub(crate) fn make_parts<C: Drop, W: Drop, L: Link + Drop, Q: Drop, P: Drop>(
    alloc: Global,
    layout: &Layout,
    cells: Vec<C>,
) -> Result<Vec<Part<C, W, L, Q, P>>, Memory>
    requires { length cells.items ≡ layout.now.cells }
    ensures many { IfOk result (λ parts. length parts.items
        ≡ layout.now.cells + layout.now.clients + 1) }
    ensures fresh { IfOk result (λ parts. AreFresh cells.items parts.items) }
{
    let mut parts = Vec::new(alloc);
    parts.push(Part::Desk(Desk::new(alloc, layout.clients)?))?;
    'cells: for cell in cells {
        parts.push(Part::Cell(cell))?;
    }
    add_clients(alloc, &mut parts, layout.clients)?;
    Ok(parts)
}
