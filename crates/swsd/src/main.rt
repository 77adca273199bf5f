//! The server `swsd`: a folder by HTTP, until it is told to stop. See [`sws_daemon`].
#![tactic(auto)]

use std::process::ExitCode;
use sws_daemon::command;

fn main(rt: HostRuntime) -> ExitCode {
    command(&rt, &rt)
}
