//! What the adapters give over what the machine may do, and what the server makes of that, a module
//! for each.

mod clients;
mod dates;
mod files;
mod heads;
mod lanes;
mod lines;
mod orders;
mod reloads;
mod shelves;
mod slow;
mod streams;
mod tcp;
mod visits;
mod words;
