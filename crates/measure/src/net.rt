//! `measure net FOLDER PORT CONNECTIONS`: serves a folder to so many connections on one
//! thread, without the runtime.
//!
//! It shows the world and the links of TCP at work, and is what they are measured by.

mod rounds;

use rounds::Counts;
use std::io;
use std::process::ExitCode;
use std::sync::Wait;
use sws_files::FileFolder;
use sws_link::{Folder, Opened, World};
use sws_net::TcpWorld;
use sws_site::Site;

/// The folder, the port and the number of connections.
fn order(words: &[String]) -> Option<(&str, u16, u16)> {
    let mut words = words.iter();
    let folder = words.next()?.as_str();
    let port = words.next()?.as_str().parse::<u16>().ok()?;
    let connections = words.next()?.as_str().parse::<u16>().ok()?;
    Some((folder, port, connections))
}

/// The files below the folder.
fn site_of(rt: &HostRuntime, path: &str) -> Option<Site> {
    let mut folder = FileFolder::new(rt);
    match folder.open(path) {
        Opened::Ready => Site::load(rt.alloc(), &mut folder, None).ok(),
        _ => None,
    }
}

/// Runs the part by its words, with the right to wait of the second handle.
pub fn run<T: Wait>(rt: &HostRuntime, waits: &T, words: &[String]) -> io::Result<ExitCode> {
    let Some((folder, port, connections)) = order(words) else {
        eprintln!(rt; "usage: measure net FOLDER PORT CONNECTIONS")?;
        return Ok(ExitCode::from(2));
    };
    match site_of(rt, folder) {
        Some(site) => serve(rt, waits, &site, port, connections),
        None => {
            eprintln!(rt; "measure net: no site")?;
            Ok(ExitCode::from(4))
        }
    }
}

/// Serves the site to so many connections, and prints how they ended.
fn serve<T: Wait>(
    rt: &HostRuntime,
    waits: &T,
    site: &Site,
    port: u16,
    connections: u16,
) -> io::Result<ExitCode> {
    let mut world = TcpWorld::new(rt)?;
    if !matches!(world.open(port, connections), Opened::Ready) {
        eprintln!(rt; "measure net: the port can't be opened")?;
        return Ok(ExitCode::from(6));
    }
    match rounds::serve(waits, rt.alloc(), site, world) {
        Some(counts) => print(rt, &counts),
        None => {
            eprintln!(rt; "measure net: it failed")?;
            Ok(ExitCode::from(7))
        }
    }
}

/// Prints how the connections ended, and what they read and wrote.
fn print(rt: &HostRuntime, counts: &Counts) -> io::Result<ExitCode> {
    println!(rt;
        "done {} idle {} fault {} read {} written {}",
        counts.done, counts.idle, counts.fault, counts.read, counts.written
    )?;
    Ok(ExitCode::SUCCESS)
}
