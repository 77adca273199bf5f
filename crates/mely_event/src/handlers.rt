//! The table of handlers: what each of them weighs.
ghost use Rattle.std.specs.Prelude.{◌≡◌, ◌<◌, ◌≤◌, ℕ, length, take, slice_index_or, IfOk, IfErr};
ghost use Rattle.mely_event.specs.TableLimit.{handler_limit};

use crate::table_fault::{TableFault, find_fault};

/// The most rows of a table.
pub const MAX_HANDLERS: usize = 32;

/// The processing time and the penalty of each handler, which make up its weight.
///
/// The penalty is that of the Mely runtime: a handler that should seldom be stolen, since it works
/// on much data, is declared with a high one, and its events then weigh less when a thief looks for
/// a worthy colour. Times are declared and not measured, in a unit of the program's own.
#[derive(Clone, Copy, Debug)]
pub struct Handlers {
    rows: [(u32, u32); MAX_HANDLERS],
    count: usize,
    pub ghost few: { count ≤ handler_limit },
    pub ghost divisors: { (h : ℕ) → h < count → 0 < (slice_index_or rows h (0, 1)).1 },
}

/// The rows in a table of the full size, whose places behind them are never read.
fn padded(given: &[(u32, u32)]) -> [(u32, u32); MAX_HANDLERS]
    requires { length given.now ≤ handler_limit }
    ensures { take (length given.now) result ≡ given.now }
{
    let mut rows = [(0, 1); MAX_HANDLERS];
    rows[..given.len()].copy_from_slice(given);
    rows
}

impl Handlers {
    ghost use Rattle.std.specs.Prelude.{None, Some};
    ghost use Rattle.mely_event.specs.HandlerTable.{rows_of, row_at, weight_of, fault_in};

    /// A table of rows, each a time and a penalty; the place of a row is the handler's number.
    ///
    /// # Errors
    ///
    /// `TooMany` exactly where there are more than [`MAX_HANDLERS`] rows, else
    /// `ZeroPenalty` exactly where a row has penalty 0, with the number of the first such
    /// row. It takes no memory.
    pub fn new(rows: &[(u32, u32)]) -> Result<Handlers, TableFault>
        ensures made { IfOk result (λ table. (fault_in rows.now ≡ None)
            × (rows_of table ≡ rows.now)) }
        ensures refused { IfErr result (λ fault. fault_in rows.now ≡ Some fault) }
    {
        if let Some(fault) = find_fault(rows) {
            return Err(fault);
        }
        Ok(Handlers {
            rows: padded(rows),
            count: rows.len(),
        })
    }

    /// How many handlers there are.
    pub fn len(&self) -> usize
        ensures value { result ≡ length (rows_of self.now) }
        ensures few { result ≤ handler_limit }
    {
        self.count
    }

    /// The processing time that is declared for a handler.
    pub fn time(&self, handler: u8) -> u32
        requires { handler < length (rows_of self.now) }
        ensures { result ≡ (row_at (rows_of self.now) handler).0 }
    {
        self.rows[handler as usize].0
    }

    /// What the time of a handler is divided by. It is never 0.
    pub fn penalty(&self, handler: u8) -> u32
        requires { handler < length (rows_of self.now) }
        ensures value { result ≡ (row_at (rows_of self.now) handler).1 }
        ensures divisor { 0 < result }
    {
        self.rows[handler as usize].1
    }

    /// The weight of an event of a handler: its time over its penalty, rounded down.
    pub fn weight(&self, handler: u8) -> u32
        requires { handler < length (rows_of self.now) }
        ensures { result ≡ weight_of (rows_of self.now) handler }
    {
        self.time(handler) / self.penalty(handler)
    }
}
