//! Which line may follow which.
ghost use Rattle.std.specs.Prelude.{◌≡◌};
ghost use Rattle.sws_script.specs.declared.line.Line.TheVariants as line;
ghost use Rattle.sws_script.specs.Order.{place_after, in_script, takes_items, takes_pause, is_before_cut};

use crate::Item;
use crate::line::Line;

/// Where a text stands between two lines.
#[derive(Clone, Copy, Debug, PartialEq, Eq)]
pub enum Place {
    /// Before the head of the schedule.
    ScheduleHead,
    /// In the schedule, behind its head or some steps.
    Steps,
    /// Before the head of the script.
    ScriptHead,
    /// Behind the head of the script.
    Top,
    /// Behind `conn`.
    Conn,
    /// Behind `step N`.
    Step,
    /// Behind `cut N`.
    Cut,
    /// Behind a piece.
    Piece,
    /// Behind a pause.
    Pause,
    /// Behind a fault, where a connection ends.
    Fault,
}

impl Place {
    /// The place behind a line, if that may follow.
    pub fn after(self, line: &Line) -> Option<Place>
        ensures { result ≡ place_after self line.now }
    {
        match line {
            Line::ScheduleHead => (self == Place::ScheduleHead).then_some(Place::Steps),
            Line::Run { .. } => (self == Place::Steps).then_some(Place::Steps),
            Line::End => (self == Place::Steps).then_some(Place::ScriptHead),
            Line::ScriptHead => (self == Place::ScriptHead).then_some(Place::Top),
            Line::Conn => self.is_in_script().then_some(Place::Conn),
            Line::Step(_) => (self == Place::Conn).then_some(Place::Step),
            Line::Cut(_) => self.is_before_cut().then_some(Place::Cut),
            Line::Item(item) => self.after_item(item),
        }
    }

    /// The place behind an item, if that may follow.
    fn after_item(self, item: &Item) -> Option<Place>
        ensures { result ≡ place_after self (line.Item item.now) }
    {
        match item {
            Item::Send(_) => self.takes_items().then_some(Place::Piece),
            Item::Fill(_) => self.takes_items().then_some(Place::Piece),
            Item::Pause(_) => self.takes_pause().then_some(Place::Pause),
            Item::Fault => self.takes_items().then_some(Place::Fault),
        }
    }

    /// Whether the script has begun, so that a connection may begin or the text end here.
    pub fn is_in_script(self) -> bool
        ensures { result ≡ in_script self }
    {
        !matches!(self, Place::ScheduleHead | Place::Steps | Place::ScriptHead)
    }

    /// Whether `cut` may follow.
    fn is_before_cut(self) -> bool
        ensures { result ≡ is_before_cut self }
    {
        matches!(self, Place::Conn | Place::Step)
    }

    /// Whether a piece or a fault may follow.
    fn takes_items(self) -> bool
        ensures { result ≡ takes_items self }
    {
        matches!(
            self,
            Place::Conn | Place::Step | Place::Cut | Place::Piece | Place::Pause
        )
    }

    /// Whether a pause may follow.
    fn takes_pause(self) -> bool
        ensures { result ≡ takes_pause self }
    {
        matches!(self, Place::Conn | Place::Step | Place::Cut | Place::Piece)
    }
}
