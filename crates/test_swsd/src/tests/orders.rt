//! Folders of an index alone, and the orders that serve them.

use std::net::SocketAddr;
use std::process::Abort;
use std::{fs, io};
use sws_site::Additions;
use swsd_words::{LogFault, LogFormat, Order};

/// What an order says where that isn't the same in all of these tests.
#[derive(Clone, Copy)]
pub(super) struct Plan {
    pub(super) folder: &'static str,
    pub(super) stop: &'static str,
    pub(super) reload: Option<&'static str>,
    pub(super) workers: u16,
    pub(super) lanes: u16,
    pub(super) accepting: u16,
    pub(super) connections: u16,
    pub(super) grace: u64,
    pub(super) look: u64,
    pub(super) log: Option<LogFormat>,
    pub(super) quiet: bool,
}

/// Makes the folder of an index alone; there is no stop file and no reload file yet.
pub(super) fn make_folder(rt: &HostRuntime, plan: &Plan) -> io::Result<()> {
    fs::create_dir_all(rt, plan.folder)?;
    write_index(rt, plan.folder, b"hi\n")?;
    let _ = fs::remove_file(rt, plan.stop);
    if let Some(reload) = plan.reload {
        let _ = fs::remove_file(rt, reload);
    }
    Ok(())
}

/// Writes the index of a folder.
pub(super) fn write_index(rt: &HostRuntime, folder: &str, bytes: &[u8]) -> io::Result<()> {
    let index = format!(in rt.alloc(); "{folder}/index.html")?;
    fs::write(rt, index.as_str(), bytes)
}

/// A copy of this text.
pub(super) fn owned(rt: &(impl AllocGlobal + Abort), text: &str) -> String {
    String::from_str(rt.alloc(), text).expect(rt, "memory")
}

/// The name of a file, where there is one.
fn name_of(rt: &(impl AllocGlobal + Abort), name: Option<&str>) -> Option<String> {
    match name {
        Some(name) => Some(owned(rt, name)),
        None => None,
    }
}

/// The order of this plan.
pub(super) fn order_of(rt: &(impl AllocGlobal + Abort), plan: &Plan) -> Order {
    Order {
        folder: owned(rt, plan.folder),
        listen: SocketAddr::from(([127, 0, 0, 1], 0)),
        listen_too: Vec::new(rt.alloc()),
        workers: plan.workers,
        lanes: plan.lanes,
        accepting: plan.accepting,
        connections: plan.connections,
        per_address: None,
        fronts: Vec::new(rt.alloc()),
        proxies: Vec::new(rt.alloc()),
        answers: 1000,
        input: 4_194_304,
        max_files: 65_536,
        max_bytes: 1_073_741_824,
        age: 600,
        grace: plan.grace,
        look: plan.look,
        stop_file: Some(owned(rt, plan.stop)),
        reload_file: name_of(rt, plan.reload),
        log: plan.log,
        log_fault: LogFault::Go,
        quiet: plan.quiet,
        hidden: false,
        added: Additions::none(rt.alloc()),
    }
}
