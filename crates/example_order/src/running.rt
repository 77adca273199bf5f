//! A run of the app.
ghost use Rattle.std.specs.Prelude.{◌≡◌, ◌≤◌, IfSome, length};
ghost use Rattle.mely_event.specs.HandlerTable.{rows_of};
ghost use Rattle.mely_history.specs.Setup.{colours_of, handlers_of};
ghost use Rattle.example_order.specs.Telling.{HeardAll};

use crate::teller::{Teller, initial_tellers};
use crate::telling::{TELL, Telling};
use mely_event::{Colour, Event};
use mely_history::Setup;
use mely_order::{
    a_post_keeps_a_stream_in_order, an_initial_stream_is_in_order,
    what_is_left_of_a_stream_is_in_order, what_is_sent_in_order_is_received_in_order,
};
use mely_weave::Weave;
use std::alloc::Global;
use std::sync::Wait;

/// Lets colour 1 tell colour 0 numbers, `more` and one more, over a weave of this setup, and
/// answers both states; nothing where there was no memory. Whatever workers run the two colours,
/// all numbers were heard in the order in which they were told.
pub fn tell<R: Wait>(rt: &R, alloc: Global, setup: &Setup, more: u16) -> Option<Vec<Teller>>
    requires colours { colours_of setup.now ≡ 2 }
    requires handlers { 2 ≤ length (rows_of (handlers_of setup.now)) }
    ensures { IfSome result (λ states. HeardAll states.items) }
{
    let Ok(states) = initial_tellers(alloc) else {
        return None;
    };
    let Ok(mut weave) = Weave::new(alloc, setup, states) else {
        return None;
    };
    an_initial_stream_is_in_order::<Teller, ()>();
    a_post_keeps_a_stream_in_order::<Teller, ()>();
    what_is_sent_in_order_is_received_in_order::<Teller, (), Telling>();
    what_is_left_of_a_stream_is_in_order::<Teller, ()>();
    let first = Event {
        handler: TELL,
        arg: more,
    };
    let is_posted = weave.post(Colour(1), first, None).is_ok();
    let _drained = weave.drain(rt, &Telling);
    let parts = weave.into_parts();
    if is_posted && parts.lost.is_empty() && parts.queued[0].is_empty() {
        Some(parts.states)
    } else {
        None
    }
}
