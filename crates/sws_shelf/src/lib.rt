//! A site that is loaded anew where its folder has changed.
//!
//! | Part | What it does |
//! |---|---|
//! | [`Origin`] | the folder of a site, and what is added to its responses |
//! | [`Shelf`] | the site that generations begin with, and its folder, which is looked at again |
//! | [`next_date`] | when a site was last modified, as it is said to clients: later than the one before |
//! | [`Notes`] | what of a folder couldn't be read, to be said |
//!
//! A folder that can't be loaded leaves the site before it in its place; a [`LoadFault`] says why.
#![tactic(auto)]

mod dating;
mod notes;
mod shelf;

pub use dating::{next_date, rest_of_second, time_of};
pub use notes::Notes;
pub use shelf::{LoadFault, Origin, Shelf};
