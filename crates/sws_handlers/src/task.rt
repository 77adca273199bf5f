//! What the events of the server ask for.
ghost use Rattle.std.specs.Prelude.{◌≡◌, IfSome, Some};
ghost use Rattle.sws_handlers.specs.Tasks.{task_of, number_of_task, event_of};

use mely_event::Event;
use sws_conn::Handler;

/// What an event asks for. Each task has a handler, which an event names by its number.
#[derive(Clone, Copy, Debug, PartialEq, Eq)]
pub enum Task {
    /// Ask the world which waiting connection is ready.
    Poll,
    /// Remember that a connection waits.
    Wait,
    /// Ask the world for the next link.
    Accept,
    /// Do a connection's step.
    Step(Handler),
    /// Keep a line of the access log.
    Log,
}

impl Task {
    /// The number of the task's handler.
    pub fn number(self) -> u8
        ensures number { result ≡ number_of_task self }
        ensures inverse { task_of result ≡ Some self }
    {
        match self {
            Task::Poll => 0,
            Task::Wait => 1,
            Task::Accept => 2,
            Task::Step(Handler::Open) => 3,
            Task::Step(Handler::Read) => 4,
            Task::Step(Handler::Parse) => 5,
            Task::Step(Handler::Look) => 6,
            Task::Step(Handler::Write) => 7,
            Task::Step(Handler::Close) => 8,
            Task::Step(Handler::Resume) => 9,
            Task::Log => 10,
        }
    }

    /// The task of the handler with this number, if there is one.
    pub fn of_number(number: u8) -> Option<Task>
        ensures task { result ≡ task_of number }
        ensures inverse { IfSome result (λ task. number_of_task task ≡ number) }
    {
        match number {
            0 => Some(Task::Poll),
            1 => Some(Task::Wait),
            2 => Some(Task::Accept),
            3 => Some(Task::Step(Handler::Open)),
            4 => Some(Task::Step(Handler::Read)),
            5 => Some(Task::Step(Handler::Parse)),
            6 => Some(Task::Step(Handler::Look)),
            7 => Some(Task::Step(Handler::Write)),
            8 => Some(Task::Step(Handler::Close)),
            9 => Some(Task::Step(Handler::Resume)),
            10 => Some(Task::Log),
            _ => None,
        }
    }

    /// The event that asks for the task, with this argument.
    pub(crate) fn event(self, arg: u16) -> Event
        ensures { result ≡ event_of self arg }
    {
        Event {
            handler: self.number(),
            arg,
        }
    }
}
