//! The machine's files and streams as the outside of the server.
//!
//! Each of these types implements a trait of `sws_link` by an object of the machine. It has no
//! ghost model of contents, and counts the machine's errors. What a file or a terminal carries is
//! trusted, and no contract speaks of it.
//!
//! | Type | Is | Over |
//! |---|---|---|
//! | [`FileFolder`] | a folder | the regular files below a folder of the machine, by descriptors |
//! | [`StdSource`] | a source | a reader, such as standard input |
//! | [`StdSink`] | a sink | a writer, such as standard output, by an [`Output`] |
//!
//! Beside these a [`FolderMark`] says whether a folder has changed, and a [`ReloadFile`] whether
//! somebody asks for a folder to be loaded anew.
#![tactic(auto)]

mod errors;
mod file_folder;
mod file_walk;
mod folder_mark;
mod hidden;
mod output;
mod reload_file;
mod std_sink;
mod std_source;
mod unread;

pub use errors::is_want_of_memory;
pub use file_folder::FileFolder;
pub use folder_mark::FolderMark;
pub use hidden::is_hidden;
pub use output::Output;
pub use reload_file::{FileMark, ReloadFile, is_asking};
pub use std_sink::StdSink;
pub use std_source::StdSource;
pub use unread::{Cause, Unread};
