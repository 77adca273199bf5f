//! The steps of a connection, whatever it talks about.
//!
//! A connection reads pieces from its link, finds the requests in them, answers these from given
//! resources (its *hall*) and writes what the peer takes; it makes at most one call of the link in
//! a step. A [`SpeechConn`] is such a connection, and a [`ConnCore`] is all of it but its link,
//! with one method a step. Where requests end, how they are answered and how many count is a
//! [`Speech`], which also keeps the bytes that were taken and the answer that is written; contracts
//! see it as a protocol. What each step does and what all of them come to is defined, and proved,
//! over any protocol whose answers come in order. A server that runs many connections knows them by
//! the trait [`Talk`], in which nothing is said of what they talk about.
#![tactic(auto)]

ghost use Rattle.std.specs.Prelude.{◌≡◌};
ghost use Rattle.sws_steps.specs.Path.{due_after};

mod conn;
mod conn_core;
mod conn_talk;
mod note;
mod speech;
mod talk;

pub use conn::SpeechConn;
pub use conn_core::ConnCore;
pub use note::Note;
pub use speech::Speech;
pub use talk::Talk;

/// How a connection ended.
#[derive(Clone, Copy, Debug, PartialEq, Eq)]
pub enum End {
    /// All responses were written, or a closing one was.
    Done,
    /// The link was not ready 30 times in succession.
    Idle,
    /// The link failed.
    Fault,
    /// A write of the link found no memory.
    Memory,
}

/// The step that comes next.
#[derive(Clone, Copy, Debug, PartialEq, Eq)]
pub enum Next {
    /// The link is to be given.
    Open,
    /// The link is read.
    Read,
    /// The bytes that were taken are searched for a request.
    Parse,
    /// The request is answered.
    Look,
    /// The answer is written.
    Write,
    /// The same step again, since the link was not ready.
    Wait,
    /// The link is shut.
    Close,
    /// Nothing more.
    Nothing,
}

/// What does a step of a connection: the event that a server runs for it.
#[derive(Clone, Copy, Debug, PartialEq, Eq)]
pub enum Handler {
    /// The connection is given its link.
    Open,
    /// The link is read.
    Read,
    /// The bytes that were taken are searched for a request.
    Parse,
    /// The request is answered.
    Look,
    /// The answer is written.
    Write,
    /// The link is shut.
    Close,
    /// The same step is done again that found the link not ready.
    Resume,
}

impl Next {
    /// What does the step that is due after one that answered this; nothing where none is.
    pub fn handler(self) -> Option<Handler>
        ensures { result ≡ due_after self }
    {
        match self {
            Next::Open => Some(Handler::Open),
            Next::Read => Some(Handler::Read),
            Next::Parse => Some(Handler::Parse),
            Next::Look => Some(Handler::Look),
            Next::Write => Some(Handler::Write),
            Next::Wait => Some(Handler::Resume),
            Next::Close => Some(Handler::Close),
            Next::Nothing => None,
        }
    }
}
