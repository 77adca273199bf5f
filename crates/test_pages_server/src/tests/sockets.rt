//! The page of `sws_net`. It isn't run, since its port may be in use.
use std::io;
use sws_link::{Accepted, Opened, World};
use sws_net::{TcpLink, TcpWorld};

/// Listens at a port for two connections, and takes the first one that has come.
fn listen_once(rt: HostRuntime, links: &mut Vec<TcpLink>) -> io::Result<()> {
    let mut world = TcpWorld::new(&rt)?;
    if world.open(8080, 2) == Opened::Ready {
        match world.accept() {
            Accepted::Link(link) => links.push(link)?,
            Accepted::NotYet => (),
            Accepted::Failed => println!(rt; "the network failed")?,
        }
    }
    world.poll(&[0]);
    Ok(())
}
