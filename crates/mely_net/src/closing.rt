//! What one run leaves to the next.
ghost use Rattle.std.specs.Prelude.{◌≡◌, ◌<◌, ◌≤◌, ◌+◌, ◌++◌, ◌∷◌, [], IfErr, IfOk, vec_capacity, vec_len};
ghost use Rattle.mely_net.specs.Runs.{cells_in};

use crate::part::Part;
use std::alloc::Global;
use sws_link::Link;

/// What a part has goes behind others, which have room for it, where it is a cell.
fn add_cell<C: Drop, W: Drop, L: Link + Drop, Q: Drop, P: Drop>(
    cells: &mut Vec<C>,
    part: Part<C, W, L, Q, P>,
)
    requires { vec_len cells.old < vec_capacity cells.old }
    ensures items { cells.new.items ≡ cells.old.items ++ cells_in (part ∷ []) }
    ensures capacity { vec_capacity cells.new ≡ vec_capacity cells.old }
    ensures len { vec_len cells.new ≤ vec_len cells.old + 1 }
{
    if let Part::Cell(value) = part {
        cells.push_reserved(value);
    }
}

/// The values of the cells that a run left, in order, with which another one may begin.
///
/// # Errors
///
/// There was no memory: the parts are handed back.
pub fn take_cells<C: Drop, W: Drop, L: Link + Drop, Q: Drop, P: Drop>(
    alloc: Global,
    parts: Vec<Part<C, W, L, Q, P>>,
) -> Result<Vec<C>, Vec<Part<C, W, L, Q, P>>>
    ensures cells { IfOk result (λ cells. cells.items ≡ cells_in parts.items) }
    ensures back { IfErr result (λ back. back ≡ parts) }
{
    let Ok(mut cells) = Vec::with_capacity(alloc, parts.len()) else {
        return Err(parts);
    };
    'parts: for part in parts {
        add_cell(&mut cells, part);
    }
    Ok(cells)
}
