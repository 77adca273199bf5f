//! The words that say how many connections an address may have, and who names addresses.

use crate::order::WordsFault;
use clap::{Arg, ArgAction, ArgMatches, Command, value_parser};
use std::alloc::{AllocError, Global};
use std::net::IpAddr;

/// The options that say how many connections an address may have, of which addresses they aren't
/// counted, and which proxies say whose connections are theirs.
pub(crate) fn with_guests<'a>(
    alloc: Global,
    command: Command<'a>,
) -> Result<Command<'a>, AllocError> {
    let per_address = Arg::new(alloc, "per-address")
        .long("per-address")
        .value_name("N")
        .help(
            "How many connections an address may have at a time, 1 to 1048576 [default: any number]",
        )
        .value_parser(value_parser!(u32).range(1..=1_048_576))
        .action(ArgAction::Set);
    let front = Arg::new(alloc, "front")
        .long("front")
        .value_name("ADDRESS")
        .help("Those from this address aren't counted so; may stand several times")
        .action(ArgAction::Append);
    let proxy = Arg::new(alloc, "proxy")
        .long("proxy")
        .value_name("ADDRESS")
        .help(
            "Those from this address begin with a PROXY header, which says who the client is; may stand several times",
        )
        .action(ArgAction::Append);
    command.arg(per_address)?.arg(front)?.arg(proxy)
}

/// The address that a word says, where it is one.
fn ip_of(word: &str) -> Option<IpAddr> {
    match word.parse::<IpAddr>() {
        Ok(address) => Some(address),
        Err(_) => None,
    }
}

/// The addresses of which connections aren't counted.
pub(crate) fn fronts_of(
    alloc: Global,
    matches: &ArgMatches<'_>,
) -> Result<Vec<IpAddr>, WordsFault> {
    let mut fronts = Vec::new(alloc);
    if let Some(words) = matches.get_strs("front") {
        for word in words {
            let Some(front) = ip_of(word) else {
                return Err(WordsFault::Front(String::from_str(alloc, word)?));
            };
            if fronts.push(front).is_err() {
                return Err(WordsFault::Memory);
            }
        }
    }
    Ok(fronts)
}

/// The addresses of which connections begin with a header of the PROXY protocol.
pub(crate) fn proxies_of(
    alloc: Global,
    matches: &ArgMatches<'_>,
) -> Result<Vec<IpAddr>, WordsFault> {
    let mut proxies = Vec::new(alloc);
    if let Some(words) = matches.get_strs("proxy") {
        for word in words {
            let Some(proxy) = ip_of(word) else {
                return Err(WordsFault::Proxy(String::from_str(alloc, word)?));
            };
            if proxies.push(proxy).is_err() {
                return Err(WordsFault::Memory);
            }
        }
    }
    Ok(proxies)
}
