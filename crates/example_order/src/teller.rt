//! The state of a colour.
ghost use Rattle.std.specs.Prelude.{◌≡◌, ◌<◌, ◌-◌, ◌∷◌, [], IfOk};

use mely_event::{Colour, Logged, Memory, TrailLog};
use std::alloc::Global;

/// A state that keeps its trail, and the last number that it told.
pub type Teller = Logged<u16>;

/// Two states on which nothing was run.
pub fn initial_tellers(alloc: Global) -> Result<Vec<Teller>, Memory>
    ensures { IfOk result (λ states. states.items
        ≡ (record { log = record { colour = record { 0 = 0 }; events = [] }; value = 0 })
        ∷ (record { log = record { colour = record { 0 = 1 }; events = [] }; value = 0 })
        ∷ []) }
{
    let mut states = Vec::new(alloc);
    states.push(Logged {
        log: TrailLog::new(Colour(0)),
        value: 0,
    })?;
    states.push(Logged {
        log: TrailLog::new(Colour(1)),
        value: 0,
    })?;
    Ok(states)
}
