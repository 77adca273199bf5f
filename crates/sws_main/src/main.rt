//! The command `sws`: `answer`, `replay`, `serve`, `bench`, `check` and `gopher`, as
//! [`sws_command`] lists them.
//!
//! The program is [`sws_command::command`]: the top call on the machine's folder, standard input,
//! standard output and sockets.
#![tactic(auto)]

use std::process::ExitCode;
use sws_command::command;

fn main(rt: HostRuntime) -> ExitCode {
    command(&rt, &rt)
}
