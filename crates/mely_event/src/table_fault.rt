//! Why rows make no table of handlers, and the search for it.
ghost use Rattle.std.specs.Prelude.{◌≡◌, ◌<◌, ◌≤◌, ◌==◌, ℕ, length, position, IfNone};
ghost use Rattle.mely_event.specs.HandlerTable.{row_at, fault_in};
ghost use Rattle.mely_event.specs.TableLimit.{handler_limit};

use crate::handlers::MAX_HANDLERS;
use std::error::Error;
use std::fmt;

/// Why rows make no table of handlers.
#[derive(Clone, Copy, Debug, PartialEq, Eq)]
pub enum TableFault {
    /// There are more than [`MAX_HANDLERS`] rows.
    TooMany { count: usize },

    /// This row is the first with penalty 0.
    ZeroPenalty { handler: u8 },
}

impl fmt::Display for TableFault {
    fn fmt<W: fmt::Write>(&self, f: &mut fmt::Formatter<W>) -> fmt::Result {
        match self {
            TableFault::TooMany { count } => {
                write!(f, "a table of {count} handlers is too long")
            }
            TableFault::ZeroPenalty { handler } => {
                write!(f, "the penalty of handler {handler} is 0")
            }
        }
    }
}

impl Error for TableFault {}

/// The first handler whose penalty is 0.
fn first_without_penalty(rows: &[(u32, u32)]) -> Option<usize>
    ensures { result ≡ position (λ row. row.1 == 0) rows.now }
{
    rows.iter().position(|row| row.1 == 0)
}

/// Why the rows make no table, and nothing where they do.
pub(crate) fn find_fault(rows: &[(u32, u32)]) -> Option<TableFault>
    ensures fault { result ≡ fault_in rows.now }
    ensures few { IfNone result (length rows.now ≤ handler_limit) }
    ensures divisors { IfNone result ((h : ℕ) → h < length rows.now → 0 < (row_at rows.now h).1) }
{
    if rows.len() > MAX_HANDLERS {
        return Some(TableFault::TooMany { count: rows.len() });
    }
    match first_without_penalty(rows) {
        Some(handler) => Some(TableFault::ZeroPenalty {
            handler: handler as u8,
        }),
        None => None,
    }
}
