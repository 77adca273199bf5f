//! The words of `swsd`.

use super::orders::owned;
use std::net::SocketAddr;
use std::process::Abort;
use swsd_words::{LogFault, LogFormat, Order, WordsFault, read_order};

/// What is read of these words, on a machine with four processors.
fn read(rt: &(impl AllocGlobal + Abort), words: &[&str]) -> Result<Order, WordsFault> {
    let mut all = Vec::new(rt.alloc());
    for word in words {
        all.push(owned(rt, word)).expect(rt, "memory");
    }
    read_order(rt.alloc(), &all, 4)
}

/// The order of these words.
fn order(rt: &(impl AllocGlobal + Abort), words: &[&str]) -> Order {
    match read(rt, words) {
        Ok(order) => order,
        Err(_) => panic!(rt; "the words are no order"),
    }
}

/// What is said of words that are no order.
fn fault(rt: &(impl AllocGlobal + Abort), words: &[&str]) -> Option<String> {
    match read(rt, words) {
        Ok(_) => None,
        Err(fault) => format!(in rt.alloc(); "{fault}").ok(),
    }
}

/// Whether an order has so many workers, lanes, and lanes that accept.
fn are_lanes(order: &Order, workers: u16, lanes: u16, accepting: u16) -> bool {
    order.workers == workers && order.lanes == lanes && order.accepting == accepting
}

/// Whether the site of an order has so many files and bytes at most.
fn are_limits(order: &Order, files: u32, bytes: u64) -> bool {
    order.max_files == files && order.max_bytes == bytes
}

/// Whether the order of a folder alone is that of a machine with four processors.
fn is_plain(order: &Order) -> bool {
    order.folder.as_str() == "/var/www"
        && order.listen.port() == 8080
        && order.listen.is_ipv6()
        && order.listen_too.is_empty()
        && are_lanes(order, 1, 8, 4)
        && are_limits(order, 65_536, 1_073_741_824)
        && order.connections == 1024
        && order.age == 600
        && order.grace == 30
        && order.answers == 1000
        && order.input == 4_194_304
        && order.look == 1
        && order.stop_file.is_none()
        && order.reload_file.is_none()
        && order.log == None
        && order.log_fault == LogFault::Go
        && !(order.quiet || order.hidden)
        && order.added.headers.text().is_empty()
        && order.added.max_age.is_none()
        && order.added.ages.longest(b"site.css").is_none()
}

#[test]
fn a_folder_alone_is_served_by_the_machines_processors(rt: HostRuntime) {
    let order = order(&rt, &["swsd", "/var/www"]);
    assert!(rt; is_plain(&order));
}

/// Words in any order.
static WORDS: [&str; 34] = [
    "swsd",
    "--listen=127.0.0.1:80",
    "--lanes",
    "2",
    "--log",
    "--age",
    "10",
    "site",
    "--stop-file",
    "stop",
    "--look",
    "0",
    "--reload-file=again",
    "--hidden",
    "--quiet",
    "--grace=0",
    "--workers",
    "64",
    "--header",
    "X: y",
    "--type=txt=text/plain; charset=utf-8",
    "--cache",
    "0",
    "--header=Vary: Accept: q",
    "--cache=.css=86400",
    "--cache=a=b=2147483647",
    "--type=md=text/x",
    "--input=1",
    "--answers",
    "65535",
    "--listen=[::1]:81",
    "--files=1048576",
    "--bytes",
    "8589934592",
];

/// Whether there is an address of IPv6, with the port 81.
fn is_ipv6_at_81(address: Option<&SocketAddr>) -> bool {
    match address {
        Some(address) => address.is_ipv6() && address.port() == 81,
        None => false,
    }
}

/// Whether an order is that of these words.
fn is_of_words(order: &Order) -> bool {
    order.listen == SocketAddr::from(([127, 0, 0, 1], 80))
        && order.listen_too.len() == 1
        && is_ipv6_at_81(order.listen_too.first())
        && are_lanes(order, 64, 2, 2)
        && are_limits(order, 1_048_576, 8_589_934_592)
        && order.age == 10
        && order.grace == 0
        && order.answers == 65_535
        && order.input == 1
        && order.stop_file.as_deref() == Some("stop")
        && order.reload_file.as_deref() == Some("again")
        && order.look == 0
        && order.log == Some(LogFormat::Combined)
        && order.quiet
        && order.hidden
        && order.added.headers.text() == b"X: y\r\nVary: Accept: q\r\n".as_slice()
        && order.added.max_age == Some(0)
        && order.added.ages.longest(b"site.css") == Some(86_400)
        && order.added.ages.longest(b"a=b") == Some(2_147_483_647)
        && order.added.ages.longest(b"a=b.html").is_none()
}

#[test]
fn words_stand_in_any_order(rt: HostRuntime) {
    let order = order(&rt, &WORDS);
    assert!(rt; is_of_words(&order));
}

/// Words that are refused, and how what is said of them begins.
static REFUSED: [(&[&str], &str); 23] = [
    (
        &["swsd", "site", "--listen", "8080"],
        "error: invalid value '8080' for '--listen <ADDRESS:PORT>': expected an address with a port, as 127.0.0.1:8080 or [::]:8080\n",
    ),
    (
        &["swsd", "site", "--workers", "65"],
        "error: invalid value '65' for '--workers <N>': 65 is not in 1..=64",
    ),
    (
        &["swsd", "site", "--look", "86401"],
        "error: invalid value '86401' for '--look <SECONDS>': 86401 is not in 0..=86400",
    ),
    (
        &["swsd", "site", "--header", "X"],
        "error: invalid value 'X' for '--header <NAME: VALUE>': expected a name, a colon, a space and a value\n",
    ),
    (
        &["swsd", "site", "--header", "X: y", "--header", "Server: z"],
        "error: invalid value 'Server: z' for '--header <NAME: VALUE>': the server itself sends or leaves out this field\n",
    ),
    (
        &["swsd", "site", "--type", "text/plain"],
        "error: invalid value 'text/plain' for '--type <EXT=TYPE>': expected an extension, '=' and a media type\n",
    ),
    (
        &["swsd", "site", "--type", "txt=text"],
        "error: invalid value 'txt=text' for '--type <EXT=TYPE>': it is no media type of at most 80 bytes, with one parameter at most\n",
    ),
    (
        &["swsd", "site", "--cache", "2147483648"],
        "error: invalid value '2147483648' for '--cache <[END=]SECONDS>': expected seconds, 0 to 2147483647, alone or behind an end of names and '='\n",
    ),
    (
        &["swsd", "site", "--cache", ".css=-1"],
        "error: invalid value '.css=-1' for '--cache <[END=]SECONDS>': expected seconds, 0 to 2147483647, alone or behind an end of names and '='\n",
    ),
    (
        &["swsd", "site", "--cache=.css"],
        "error: invalid value '.css' for '--cache <[END=]SECONDS>': expected seconds, 0 to 2147483647, alone or behind an end of names and '='\n",
    ),
    (
        &["swsd", "site", "--cache", "=5"],
        "error: invalid value '=5' for '--cache <[END=]SECONDS>': no name of a file has this end\n",
    ),
    (
        &["swsd", "site", "--cache", "a/b.css=5"],
        "error: invalid value 'a/b.css=5' for '--cache <[END=]SECONDS>': no name of a file has this end\n",
    ),
    (
        &["swsd", "site", "--cache", ".css=5", "--cache", ".css=6"],
        "error: invalid value '.css=6' for '--cache <[END=]SECONDS>': these files have an age already\n",
    ),
    (
        &["swsd", "site", "--cache", "5", "--cache", "6"],
        "error: invalid value '6' for '--cache <[END=]SECONDS>': these files have an age already\n",
    ),
    (
        &["swsd", "site", "--answers", "0"],
        "error: invalid value '0' for '--answers <N>': 0 is not in 1..=65535",
    ),
    (
        &["swsd", "site", "--answers", "65536"],
        "error: invalid value '65536' for '--answers <N>': 65536 is not in 1..=65535",
    ),
    (
        &["swsd", "site", "--input", "0"],
        "error: invalid value '0' for '--input <BYTES>': 0 is not in 1..=4294967295",
    ),
    (
        &["swsd", "site", "--input", "4294967296"],
        "error: invalid value '4294967296' for '--input <BYTES>': 4294967296 is not in 1..=4294967295",
    ),
    (
        &["swsd", "site", "--files", "0"],
        "error: invalid value '0' for '--files <N>': 0 is not in 1..=1048576",
    ),
    (
        &["swsd", "site", "--bytes", "8589934593"],
        "error: invalid value '8589934593' for '--bytes <BYTES>': 8589934593 is not in 1..=8589934592",
    ),
    (
        &["swsd", "site", "--log-format", "json"],
        "error: invalid value 'json' for '--log-format <FORMAT>'\n  [possible values: combined, short]",
    ),
    (&["swsd"], ""),
    (&["swsd", "site", "--frob"], ""),
];

/// Whether these words are refused, and what is said of them begins and ends so.
fn is_refused(rt: &(impl AllocGlobal + Abort), words: &[&str], begins: &str, ends: &str) -> bool {
    match fault(rt, words) {
        Some(said) => said.as_str().starts_with(begins) && said.as_str().ends_with(ends),
        None => false,
    }
}

/// An address more than an order has.
static ADDRESSES: [&str; 19] = [
    "swsd",
    "site",
    "--listen=[::]:0",
    "--listen=[::]:0",
    "--listen=[::]:0",
    "--listen=[::]:0",
    "--listen=[::]:0",
    "--listen=[::]:0",
    "--listen=[::]:0",
    "--listen=[::]:0",
    "--listen=[::]:0",
    "--listen=[::]:0",
    "--listen=[::]:0",
    "--listen=[::]:0",
    "--listen=[::]:0",
    "--listen=[::]:0",
    "--listen=[::]:0",
    "--listen=[::]:0",
    "--listen=[::]:0",
];

/// How many bytes are said of these words, which is none where they are an order.
fn length_of_fault(rt: &(impl AllocGlobal + Abort), words: &[&str]) -> usize {
    match fault(rt, words) {
        Some(said) => said.len(),
        None => 0,
    }
}

#[test]
fn sixteen_addresses_are_enough(rt: HostRuntime) {
    assert!(rt; length_of_fault(&rt, &ADDRESSES[..18]) == 0);
    assert!(rt; is_refused(&rt, &ADDRESSES, "", "it may stand 16 times at most\n"));
}

#[test]
fn a_fault_names_the_word_and_what_was_expected(rt: HostRuntime) {
    for (row, &(words, begins)) in REFUSED.iter().enumerate() {
        assert!(rt; is_refused(&rt, words, begins, ""), "row {row}");
    }
    let (words, all) = REFUSED[0];
    assert!(rt; length_of_fault(&rt, words) == all.len(), "nothing else");
}

/// The words that ask for a log, and the format of its lines.
static FORMATS: [(&[&str], Option<LogFormat>); 4] = [
    (&["swsd", "site", "--log"], Some(LogFormat::Combined)),
    (
        &["swsd", "--log", "site", "--log-format", "short"],
        Some(LogFormat::Short),
    ),
    (
        &["swsd", "site", "--log-format=combined"],
        Some(LogFormat::Combined),
    ),
    (&["swsd", "site"], None),
];

/// The format of the log for which these words ask, if they do.
fn log_of(rt: &(impl AllocGlobal + Abort), words: &[&str]) -> Option<LogFormat> {
    let order = order(rt, words);
    order.log
}

#[test]
fn a_log_is_combined_unless_another_format_is_asked_for(rt: HostRuntime) {
    for (row, &(words, format)) in FORMATS.iter().enumerate() {
        assert!(rt; log_of(&rt, words) == format, "row {row}");
    }
}

/// Whether these words ask for what is told and ends well.
fn is_told(rt: &(impl AllocGlobal + Abort), words: &[&str]) -> bool {
    match read(rt, words) {
        Err(WordsFault::Told(error)) => error.exit_code() == 0,
        _ => false,
    }
}

#[test]
fn help_and_version_are_no_faults(rt: HostRuntime) {
    assert!(rt; is_told(&rt, &["swsd", "--help"]));
    assert!(rt; is_told(&rt, &["swsd", "--version"]));
}
