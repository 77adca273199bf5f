//! What these crates give for worked rows, a module for each.

mod additions;
mod answers;
mod connections;
mod files;
mod links;
mod logs;
mod parts;
mod reports;
mod requests;
mod scripts;
mod site_options;
mod sites;
mod texts;
mod words;
