//! The words of `swsd`.
use crate::additions::{additions_of, with_additions};
use crate::guests::{fronts_of, proxies_of, with_guests};
use clap::{Arg, ArgAction, ArgMatches, Command, Error, value_parser};
use std::alloc::{AllocError, Global};
use std::fmt;
use std::net::{IpAddr, SocketAddr};
use sws_site::{Additions, AgeFault, HeaderFault, TypeFault};

/// What `--version` says.
const VERSION: &str = "1.0";

/// What is said of the program above its options.
const ABOUT: &str = "Serves the files below a folder by HTTP until it is told to stop.";

/// How many seconds an age, a grace or the time between two looks may have, a day.
const LONGEST: i64 = 86_400;

/// At how many addresses connections may come in.
const MOST_ADDRESSES: usize = 16;

/// How the lines of the access log are written.
#[derive(Clone, Copy, Debug, PartialEq, Eq)]
pub enum LogFormat {
    /// In the combined format of nginx and Apache.
    Combined,

    /// As `sws serve` writes them: the connection, the number of its answer, the status code, the
    /// length of the response and the beginning of the target.
    Short,
}

/// The names of these formats, as words have them.
const FORMATS: [&str; 2] = ["combined", "short"];

/// What is done where standard output, and so the log, can't be written.
#[derive(Clone, Copy, Debug, PartialEq, Eq)]
pub enum LogFault {
    /// Lines are dropped, and serving goes on.
    Go,

    /// The server stops.
    Stop,
}

/// Their names.
const FAULTS: [&str; 2] = ["go", "stop"];

/// What the words order.
#[derive(Drop)]
pub struct Order {
    pub folder: String,

    /// Where connections come in.
    pub listen: SocketAddr,

    /// Where they come in too, at most 15 addresses.
    pub listen_too: Vec<SocketAddr>,

    /// How many threads serve a generation, 1 to 64.
    pub workers: u16,

    /// How many lanes there are, 1 to 256, and how many take connections at a time, as many at
    /// most.
    pub lanes: u16,
    pub accepting: u16,

    /// How many connections a generation has at most, 1 to 1,024.
    pub connections: u16,

    /// How many connections an address may have at a time, 1 to 1,048,576, where that is counted, and
    /// of which addresses it isn't.
    pub per_address: Option<u32>,
    pub fronts: Vec<IpAddr>,

    /// From which addresses connections begin with a header of the PROXY protocol.
    pub proxies: Vec<IpAddr>,

    /// How many requests of a connection are answered, 1 to 65,535.
    pub answers: u16,

    /// How many bytes of a connection count, 1 to 4,294,967,295.
    pub input: u32,

    /// How many files the site holds at most, 1 to 1,048,576.
    pub max_files: u32,

    /// How many bytes they have together at most, 1 to 8,589,934,592.
    pub max_bytes: u64,

    /// After how many seconds a generation takes no further connection.
    pub age: u64,

    /// How many seconds later the connections that it still has are cut.
    pub grace: u64,

    /// After how many seconds it is looked again whether the folder has changed; 0 where only the
    /// reload file lets it be looked at.
    pub look: u64,

    /// The file that tells all to stop, once it is there.
    pub stop_file: Option<String>,

    /// The file that lets the folder be loaded anew, each time that it is made or written.
    pub reload_file: Option<String>,

    /// How a line is written of each answer, where one is.
    pub log: Option<LogFormat>,

    /// What is done where it can't be written.
    pub log_fault: LogFault,

    /// Whether only faults are said.
    pub quiet: bool,

    /// Whether names that begin with a dot are served too, beside `.well-known`.
    pub hidden: bool,

    /// What is added to responses: header lines, media types, and how long files may be kept.
    pub added: Additions,
}

/// Why the words are no order.
#[derive(Drop)]
pub enum WordsFault {
    /// Help or version was asked for, or a word isn't as it should be. This has the text, and the
    /// status.
    Told(Error),

    /// The word of `--listen` is no address with a port.
    Listen(String),

    /// There are more addresses than this one and those before it may be.
    ManyAddresses(String),

    /// The word of `--front` is no address.
    Front(String),

    /// The word of `--proxy` is no address.
    Proxy(String),

    /// The word of `--header` is no name with a value behind a colon and a space.
    HeaderParts(String),

    /// The line of `--header` can't be sent.
    Header(String, HeaderFault),

    /// The word of `--cache` is no number of seconds, alone or behind an end of names and `=`.
    AgeParts(String),

    /// The age of `--cache` can't be given.
    Age(String, AgeFault),

    /// The word of `--type` is no extension with a type behind `=`.
    TypeParts(String),

    /// The type of `--type` can't be sent, or its extension is none.
    Type(String, TypeFault),

    /// A word isn't UTF-8.
    NotText,

    /// There was no memory.
    Memory,
}

impl From<AllocError> for WordsFault {
    fn from(_error: AllocError) -> WordsFault {
        WordsFault::Memory
    }
}

impl From<Error> for WordsFault {
    fn from(error: Error) -> WordsFault {
        WordsFault::Told(error)
    }
}

impl fmt::Display for WordsFault {
    fn fmt<W: fmt::Write>(&self, f: &mut fmt::Formatter<W>) -> fmt::Result {
        match self {
            WordsFault::Told(error) => write!(f, "{error}"),
            WordsFault::Listen(word) => write!(
                f,
                "error: invalid value '{word}' for '--listen <ADDRESS:PORT>': expected an address with a port, as 127.0.0.1:8080 or [::]:8080\n"
            ),
            WordsFault::ManyAddresses(word) => write!(
                f,
                "error: invalid value '{word}' for '--listen <ADDRESS:PORT>': it may stand 16 times at most\n"
            ),
            WordsFault::Front(word) => write!(
                f,
                "error: invalid value '{word}' for '--front <ADDRESS>': expected an address, as 127.0.0.1 or ::1\n"
            ),
            WordsFault::Proxy(word) => write!(
                f,
                "error: invalid value '{word}' for '--proxy <ADDRESS>': expected an address, as 127.0.0.1 or ::1\n"
            ),
            WordsFault::HeaderParts(word) => write!(
                f,
                "error: invalid value '{word}' for '--header <NAME: VALUE>': expected a name, a colon, a space and a value\n"
            ),
            WordsFault::Header(word, fault) => write!(
                f,
                "error: invalid value '{word}' for '--header <NAME: VALUE>': {fault}\n"
            ),
            WordsFault::AgeParts(word) => write!(
                f,
                "error: invalid value '{word}' for '--cache <[END=]SECONDS>': expected seconds, 0 to 2147483647, alone or behind an end of names and '='\n"
            ),
            WordsFault::Age(word, fault) => write!(
                f,
                "error: invalid value '{word}' for '--cache <[END=]SECONDS>': {fault}\n"
            ),
            WordsFault::TypeParts(word) => write!(
                f,
                "error: invalid value '{word}' for '--type <EXT=TYPE>': expected an extension, '=' and a media type\n"
            ),
            WordsFault::Type(word, fault) => write!(
                f,
                "error: invalid value '{word}' for '--type <EXT=TYPE>': {fault}\n"
            ),
            WordsFault::NotText => write!(f, "error: expected words in UTF-8\n"),
            WordsFault::Memory => write!(f, "error: out of memory\n"),
        }
    }
}

/// An option with a value, which may be left out.
fn option<'a>(alloc: Global, name: &'a str, value: &'a str, help: &'a str) -> Arg<'a> {
    Arg::new(alloc, name)
        .long(name)
        .value_name(value)
        .help(help)
        .action(ArgAction::Set)
}

/// A flag, which is there or not.
fn flag<'a>(alloc: Global, name: &'a str, help: &'a str) -> Arg<'a> {
    Arg::new(alloc, name)
        .long(name)
        .help(help)
        .action(ArgAction::SetTrue)
}

/// The options that say what is served and where.
fn places<'a>(alloc: Global) -> Result<Command<'a>, AllocError> {
    // Each option is made where it is added: none waits while another is refused.
    Command::new(alloc, "swsd")
        .version(VERSION)
        .about(ABOUT)
        .arg(
            Arg::new(alloc, "folder")
                .value_name("FOLDER")
                .help("The folder whose files are served")
                .required(true)
                .action(ArgAction::Set),
        )?
        .arg(
            option(
                alloc,
                "listen",
                "ADDRESS:PORT",
                "Where connections come in; [::] takes IPv6 and IPv4; may stand several times",
            )
            .action(ArgAction::Append)
            .default_value("[::]:8080"),
        )?
        .arg(flag(
            alloc,
            "hidden",
            "Serve all names that begin with a dot, not .well-known alone",
        ))
}

/// The options that say by how many threads connections are served, and how many.
fn with_numbers<'a>(alloc: Global, command: Command<'a>) -> Result<Command<'a>, AllocError> {
    command
        .arg(
            option(
                alloc,
                "workers",
                "N",
                "How many threads serve a generation, 1 to 64",
            )
            .value_parser(value_parser!(u16).range(1..=64))
            .default_value("1"),
        )?
        .arg(option(
            alloc,
            "lanes",
            "N",
            "How many generations there are at a time, 1 to 256 [default: twice the processors, 4 at least]",
        )
        .value_parser(value_parser!(u16).range(1..=256)))?
        .arg(option(
            alloc,
            "accepting",
            "N",
            "How many of them take connections at a time, 1 to 256 [default: the processors]",
        )
        .value_parser(value_parser!(u16).range(1..=256)))?
        .arg(
            option(
                alloc,
                "connections",
                "N",
                "How many connections a generation has at most, 1 to 1024",
            )
            .value_parser(value_parser!(u16).range(1..=1024))
            .default_value("1024"),
        )
}

/// The options that say for how long a generation takes connections, and has them.
fn with_times<'a>(alloc: Global, command: Command<'a>) -> Result<Command<'a>, AllocError> {
    command
        .arg(
            option(
                alloc,
                "age",
                "SECONDS",
                "How long a generation takes connections",
            )
            .value_parser(value_parser!(u64).range(1..=LONGEST))
            .default_value("600"),
        )?
        .arg(
            option(
                alloc,
                "grace",
                "SECONDS",
                "How much longer the connections that it has may last",
            )
            .value_parser(value_parser!(u64).range(0..=LONGEST))
            .default_value("30"),
        )
}

/// The options that say how much of a connection is served.
fn with_limits<'a>(alloc: Global, command: Command<'a>) -> Result<Command<'a>, AllocError> {
    command
        .arg(
            option(
                alloc,
                "answers",
                "N",
                "How many requests of a connection are answered, 1 to 65535",
            )
            .value_parser(value_parser!(u16).range(1..=65_535))
            .default_value("1000"),
        )?
        .arg(
            option(
                alloc,
                "input",
                "BYTES",
                "How many bytes of a connection are read, 1 to 4294967295",
            )
            .value_parser(value_parser!(u32).range(1..=4_294_967_295))
            .default_value("4194304"),
        )
}

/// The options that say how much the site holds.
fn with_sizes<'a>(alloc: Global, command: Command<'a>) -> Result<Command<'a>, AllocError> {
    command
        .arg(
            option(
                alloc,
                "files",
                "N",
                "How many files the site holds at most, 1 to 1048576",
            )
            .value_parser(value_parser!(u32).range(1..=1_048_576))
            .default_value("65536"),
        )?
        .arg(
            option(
                alloc,
                "bytes",
                "BYTES",
                "How many bytes they have together at most, 1 to 8589934592",
            )
            .value_parser(value_parser!(u64).range(1..=8_589_934_592))
            .default_value("1073741824"),
        )
}

/// The options that say when the folder is looked at, and by which files the server is told to load
/// it anew and to stop.
fn with_files<'a>(alloc: Global, command: Command<'a>) -> Result<Command<'a>, AllocError> {
    command
        .arg(
            option(
                alloc,
                "look",
                "SECONDS",
                "How often it is looked whether the folder has changed; 0: only where the reload file asks",
            )
            .value_parser(value_parser!(u64).range(0..=LONGEST))
            .default_value("1"),
        )?
        .arg(option(
            alloc,
            "reload-file",
            "PATH",
            "Load the folder anew each time that this file is made or written",
        ))?
        .arg(option(alloc, "stop-file", "PATH", "Stop once this file is there"))
}

/// All words.
fn whole<'a>(alloc: Global) -> Result<Command<'a>, AllocError> {
    with_additions(
        alloc,
        with_files(
            alloc,
            with_sizes(
                alloc,
                with_limits(
                    alloc,
                    with_times(
                        alloc,
                        with_guests(alloc, with_numbers(alloc, places(alloc)?)?)?,
                    )?,
                )?,
            )?,
        )?,
    )?
    .arg(flag(
        alloc,
        "log",
        "Write a line of each answer to standard output",
    ))?
    .arg(option(
        alloc,
        "log-format",
        "FORMAT",
        "Write these lines so; asks for them too",
    )
    .value_parser(FORMATS.as_slice()))?
    .arg(
        option(
            alloc,
            "log-fault",
            "WHAT",
            "Go on or stop where standard output can't be written",
        )
        .value_parser(FAULTS.as_slice())
        .default_value("go"),
    )?
    .arg(flag(alloc, "quiet", "Say nothing but faults"))
}

/// Reads the words, of which the first is the program's name, on a machine with so many processors.
pub fn read_order(alloc: Global, words: &[String], processors: usize) -> Result<Order, WordsFault> {
    let command = whole(alloc)?;
    let matches = command.try_get_matches_from(words)?;
    order_of(alloc, &matches, processors)
}

/// A text of its own.
fn text(alloc: Global, word: Option<&str>) -> Result<Option<String>, AllocError> {
    match word {
        Some(word) => Ok(Some(String::from_str(alloc, word)?)),
        None => Ok(None),
    }
}

/// The address that a word says.
fn address_of(alloc: Global, word: &str) -> Result<SocketAddr, WordsFault> {
    match word.parse::<SocketAddr>() {
        Ok(address) => Ok(address),
        Err(_) => Err(WordsFault::Listen(String::from_str(alloc, word)?)),
    }
}

/// The addresses that the words say, in their order.
fn addresses_of(alloc: Global, matches: &ArgMatches<'_>) -> Result<Vec<SocketAddr>, WordsFault> {
    let mut addresses = Vec::new(alloc);
    if let Some(words) = matches.get_strs("listen") {
        for word in words {
            let address = address_of(alloc, word)?;
            if addresses.len() >= MOST_ADDRESSES {
                return Err(WordsFault::ManyAddresses(String::from_str(alloc, word)?));
            }
            if addresses.push(address).is_err() {
                return Err(WordsFault::Memory);
            }
        }
    }
    Ok(addresses)
}

/// How the lines of the log are to be written, where they are asked for.
fn log_of(matches: &ArgMatches<'_>) -> Option<LogFormat> {
    match matches.get_str("log-format") {
        Some("short") => Some(LogFormat::Short),
        Some(_) => Some(LogFormat::Combined),
        None if matches.get_flag("log") => Some(LogFormat::Combined),
        None => None,
    }
}

/// How many processors there are, as a number of lanes.
fn few(processors: usize) -> u16 {
    let count = processors.max(1).min(128);
    count as u16
}

/// The order of words that are as they should be.
fn order_of(
    alloc: Global,
    matches: &ArgMatches<'_>,
    processors: usize,
) -> Result<Order, WordsFault> {
    let processors = few(processors);
    let mut listen_too = addresses_of(alloc, matches)?;
    if listen_too.is_empty() {
        return Err(WordsFault::Listen(String::new(alloc)));
    }
    let listen = listen_too.remove(0);
    let lanes = matches
        .get_one::<u16>("lanes")
        .unwrap_or(processors.saturating_mul(2).max(4));
    let accepting = matches.get_one::<u16>("accepting").unwrap_or(processors);
    Ok(Order {
        folder: text(alloc, matches.get_str("folder"))?.unwrap_or(String::new(alloc)),
        listen,
        listen_too,
        workers: matches.get_one::<u16>("workers").unwrap_or(1),
        lanes,
        accepting: accepting.min(lanes),
        connections: matches.get_one::<u16>("connections").unwrap_or(1024),
        per_address: matches.get_one::<u32>("per-address"),
        fronts: fronts_of(alloc, matches)?,
        proxies: proxies_of(alloc, matches)?,
        answers: matches.get_one::<u16>("answers").unwrap_or(1000),
        input: matches.get_one::<u32>("input").unwrap_or(4_194_304),
        max_files: matches.get_one::<u32>("files").unwrap_or(65_536),
        max_bytes: matches.get_one::<u64>("bytes").unwrap_or(1_073_741_824),
        age: matches.get_one::<u64>("age").unwrap_or(600),
        grace: matches.get_one::<u64>("grace").unwrap_or(30),
        look: matches.get_one::<u64>("look").unwrap_or(1),
        stop_file: text(alloc, matches.get_str("stop-file"))?,
        reload_file: text(alloc, matches.get_str("reload-file"))?,
        log: log_of(matches),
        log_fault: match matches.get_str("log-fault") {
            Some("stop") => LogFault::Stop,
            _ => LogFault::Go,
        },
        quiet: matches.get_flag("quiet"),
        hidden: matches.get_flag("hidden"),
        added: additions_of(alloc, matches)?,
    })
}
