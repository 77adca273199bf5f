//! The words behind each command.
ghost use Rattle.std.specs.Prelude.{◌≡◌, ◌≤◌, ◌<◌, ◌&&◌, ℕ, IfOk, IfErr, Some, None, map, string_bytes, codes, true, false};
ghost use Rattle.std.specs.Prelude.{option_and_then, is_some};
ghost use Rattle.std.specs.List.{list_all};
ghost use Rattle.clap.specs.Words.{found_of, first_of, first_value, one_of, rows_of};
ghost use Rattle.sws_words.specs.Grammar.{given_of, has_bundle as have_bundle};
ghost use Rattle.sws_words.specs.Orders.{within, or_default, shape_in, date_in, order_of, answer_by, answer_known, replay_by, replay_known};
ghost use Rattle.sws_words.specs.Orders.{serve_by, serve_known, bench_by, bench_known, check_by, check_known};
ghost use Rattle.sws_words.specs.Orders.{begins_host as begins_host_word, is_host as is_host_word, is_host_byte as is_byte_of_host, host_in, some_in, gopher_by, gopher_known};
ghost use Rattle.sws_words.specs.Told.{order_view, told_shape};

use crate::commands::{
    answer_command, bench_command, check_command, gopher_command, replay_command, serve_command,
};
use crate::numbers::number_within;
use crate::parsing::{has_bundle, parsed};
use crate::{Order, WordFault};
use clap::ArgMatches;
use mely_history::{MAX_BATCH, MAX_CORES, MAX_GROUP, MAX_SHARDS, Shape};
use std::alloc::Global;

/// The last second of the year 9999, the last that a date shows: it has four digits for the year.
const LAST_SECOND: u64 = 253_402_300_799;

/// The highest cost of a steal, which is what the time left of a colour has to exceed for it.
const MAX_COST: u64 = 1_000_000;

/// The most connections of a run.
const MAX_CONNECTIONS: u64 = 1_024;

/// The most bytes of a host's name.
const MAX_HOST: usize = 255;

/// The number that an option gives, or one that stands for it.
fn number_or(
    matches: &ArgMatches<'_>,
    name: &str,
    least: u64,
    most: u64,
    default: u64,
) -> Result<u64, WordFault>
    requires { default ≤ most }
    ensures read { IfOk result (λ number.
        or_default (within least most) default (first_value (found_of matches.now) name.now)
        ≡ Some number) }
    ensures range { IfOk result (λ number. number ≤ most) }
    ensures refused { IfErr result (λ _.
        or_default (within least most) default (first_value (found_of matches.now) name.now)
        ≡ None) }
    ensures usage { IfErr result (λ fault. fault ≡ WordFault.Usage) }
{
    let Some(word) = matches.get_str(name) else {
        return Ok(default);
    };
    match number_within(word, least, most) {
        Some(number) => Ok(number),
        None => Err(WordFault::Usage),
    }
}

/// The number that an argument gives, which must be there.
fn number_of(matches: &ArgMatches<'_>, name: &str, least: u64, most: u64) -> Result<u64, WordFault>
    ensures read { IfOk result (λ number.
        option_and_then (within least most) (first_value (found_of matches.now) name.now)
        ≡ Some number) }
    ensures range { IfOk result (λ number. number ≤ most) }
    ensures refused { IfErr result (λ _.
        option_and_then (within least most) (first_value (found_of matches.now) name.now)
        ≡ None) }
{
    let Some(word) = matches.get_str(name) else {
        return Err(WordFault::Usage);
    };
    match number_within(word, least, most) {
        Some(number) => Ok(number),
        None => Err(WordFault::Usage),
    }
}

/// The number that an argument gives, which must be there, of a range that 16 bits hold.
fn small_of(matches: &ArgMatches<'_>, name: &str, least: u64, most: u64) -> Result<u16, WordFault>
    requires { most < 65536 }
    ensures read { IfOk result (λ number.
        option_and_then (within least most) (first_value (found_of matches.now) name.now)
        ≡ Some number) }
    ensures refused { IfErr result (λ _.
        option_and_then (within least most) (first_value (found_of matches.now) name.now)
        ≡ None) }
{
    let number = number_of(matches, name, least, most)?;
    Ok(number as u16)
}

/// The number of a generated site and script.
fn seed_of(matches: &ArgMatches<'_>) -> Result<u32, WordFault>
    ensures read { IfOk result (λ number.
        option_and_then (within 0 4294967295) (first_value (found_of matches.now) (codes "number"))
        ≡ Some number) }
    ensures refused { IfErr result (λ _.
        option_and_then (within 0 4294967295) (first_value (found_of matches.now) (codes "number"))
        ≡ None) }
{
    let number = number_of(matches, "number", 0, 4_294_967_295)?;
    Ok(number as u32)
}

/// The date, where it is given.
fn date_of(matches: &ArgMatches<'_>) -> Result<Option<u64>, WordFault>
    ensures read { IfOk result (λ date. date_in (first_value (found_of matches.now) (codes "date"))
        ≡ Some date) }
    ensures refused { IfErr result (λ _.
        date_in (first_value (found_of matches.now) (codes "date")) ≡ None) }
{
    let Some(word) = matches.get_str("date") else {
        return Ok(None);
    };
    match number_within(word, 0, LAST_SECOND) {
        Some(secs) => Ok(Some(secs)),
        None => Err(WordFault::Usage),
    }
}

/// The shape of a run, whose options have defaults.
fn shape_of(matches: &ArgMatches<'_>) -> Result<Shape, WordFault>
    ensures read { IfOk result (λ shape.
        shape_in (first_value (found_of matches.now) (codes "workers"))
        (first_value (found_of matches.now) (codes "shards"))
        (first_value (found_of matches.now) (codes "batch"))
        (first_value (found_of matches.now) (codes "group"))
        (first_value (found_of matches.now) (codes "cost"))
        ≡ Some (told_shape shape)) }
    ensures refused { IfErr result (λ _.
        shape_in (first_value (found_of matches.now) (codes "workers"))
        (first_value (found_of matches.now) (codes "shards"))
        (first_value (found_of matches.now) (codes "batch"))
        (first_value (found_of matches.now) (codes "group"))
        (first_value (found_of matches.now) (codes "cost"))
        ≡ None) }
{
    let cores = number_or(matches, "workers", 1, MAX_CORES as u64, 1)?;
    let shards = number_or(matches, "shards", 1, MAX_SHARDS as u64, 1)?;
    let batch = number_or(matches, "batch", 1, MAX_BATCH as u64, 10)?;
    let group = number_or(matches, "group", 1, MAX_GROUP as u64, 4)?;
    let steal_cost = number_or(matches, "cost", 0, MAX_COST, 20)?;
    Ok(Shape {
        cores: cores as u16,
        shards: shards as u16,
        batch: batch as u16,
        group: group as u16,
        steal_cost: steal_cost as u32,
    })
}

/// The folder's name.
fn folder_of(alloc: Global, matches: &ArgMatches<'_>) -> Result<String, WordFault>
    ensures read { IfOk result (λ folder. first_value (found_of matches.now) (codes "folder")
        ≡ Some (string_bytes folder)) }
    ensures refused { IfErr result (λ fault. fault ≡ WordFault.Usage
        → first_value (found_of matches.now) (codes "folder") ≡ None) }
{
    match matches.get_str("folder") {
        Some(folder) => Ok(String::from_str(alloc, folder)?),
        None => Err(WordFault::Usage),
    }
}

/// Whether there is a first byte, which is no minus sign.
fn begins_host(word: &[u8]) -> bool
    ensures { result ≡ begins_host_word word.now }
{
    match word {
        [first, ..] => *first != b'-',
        [] => false,
    }
}

/// Whether the byte may stand in a host's name: a letter, a digit, a full stop or a minus sign.
fn is_host_byte(byte: u8) -> bool
    ensures { result ≡ is_byte_of_host byte }
{
    byte.is_ascii_alphanumeric() || byte == b'.' || byte == b'-'
}

/// Whether all bytes may stand in a host's name.
fn are_host_bytes(word: &[u8]) -> bool
    ensures { result ≡ list_all is_byte_of_host word.now }
{
    word.iter().all(|byte| is_host_byte(*byte))
}

/// Whether the word is a host's name: 1 to 255 letters, digits, full stops and minus signs, of which
/// the first is no minus sign.
fn is_host(word: &[u8]) -> bool
    ensures { result ≡ is_host_word word.now }
{
    begins_host(word) && word.len() <= MAX_HOST && are_host_bytes(word)
}

/// The host's name.
fn host_of(alloc: Global, matches: &ArgMatches<'_>) -> Result<String, WordFault>
    ensures read { IfOk result (λ host.
        option_and_then host_in (first_value (found_of matches.now) (codes "host"))
        ≡ Some (string_bytes host)) }
    ensures refused { IfErr result (λ fault. fault ≡ WordFault.Usage
        → option_and_then host_in (first_value (found_of matches.now) (codes "host")) ≡ None) }
{
    let Some(word) = matches.get_str("host") else {
        return Err(WordFault::Usage);
    };
    if !is_host(word.as_bytes()) {
        return Err(WordFault::Usage);
    }
    Ok(String::from_str(alloc, word)?)
}

/// How many connections from outside are served, where that is given.
fn connections_of(matches: &ArgMatches<'_>) -> Result<Option<u16>, WordFault>
    ensures read { IfOk result (λ connections.
        some_in (first_value (found_of matches.now) (codes "connections")) ≡ Some connections) }
    ensures refused { IfErr result (λ _.
        some_in (first_value (found_of matches.now) (codes "connections")) ≡ None) }
{
    let Some(word) = matches.get_str("connections") else {
        return Ok(None);
    };
    match number_within(word, 1, MAX_CONNECTIONS) {
        Some(number) => Ok(Some(number as u16)),
        None => Err(WordFault::Usage),
    }
}

/// The order of the words behind `answer`.
fn read_answer(alloc: Global, words: &[String]) -> Result<Order, WordFault>
    requires { have_bundle (map string_bytes words.now) ≡ false }
    ensures read { IfOk result (λ order.
        option_and_then answer_by (given_of answer_known (map string_bytes words.now))
        ≡ Some (order_view order)) }
    ensures refused { IfErr result (λ fault. fault ≡ WordFault.Usage
        → option_and_then answer_by (given_of answer_known (map string_bytes words.now)) ≡ None) }
{
    let command = answer_command(alloc)?;
    let matches = parsed(command, words)?;
    let date = date_of(&matches)?;
    let folder = folder_of(alloc, &matches)?;
    Ok(Order::Answer { folder, date })
}

/// The order of the words behind `replay`.
fn read_replay(alloc: Global, words: &[String]) -> Result<Order, WordFault>
    requires { have_bundle (map string_bytes words.now) ≡ false }
    ensures read { IfOk result (λ order.
        option_and_then replay_by (given_of replay_known (map string_bytes words.now))
        ≡ Some (order_view order)) }
    ensures refused { IfErr result (λ fault. fault ≡ WordFault.Usage
        → option_and_then replay_by (given_of replay_known (map string_bytes words.now)) ≡ None) }
{
    let command = replay_command(alloc)?;
    let matches = parsed(command, words)?;
    let shape = shape_of(&matches)?;
    let date = date_of(&matches)?;
    let folder = folder_of(alloc, &matches)?;
    let journal = matches.get_flag("journal");
    let schedule = matches.get_flag("schedule");
    let log = matches.get_flag("log");
    Ok(Order::Replay {
        folder,
        shape,
        date,
        journal,
        schedule,
        log,
    })
}

/// The order of the words behind `serve`.
fn read_serve(alloc: Global, words: &[String]) -> Result<Order, WordFault>
    requires { have_bundle (map string_bytes words.now) ≡ false }
    ensures read { IfOk result (λ order.
        option_and_then serve_by (given_of serve_known (map string_bytes words.now))
        ≡ Some (order_view order)) }
    ensures refused { IfErr result (λ fault. fault ≡ WordFault.Usage
        → option_and_then serve_by (given_of serve_known (map string_bytes words.now)) ≡ None) }
{
    let command = serve_command(alloc)?;
    let matches = parsed(command, words)?;
    let port = small_of(&matches, "port", 1, 65_535)?;
    let connections = small_of(&matches, "connections", 1, MAX_CONNECTIONS)?;
    let shape = shape_of(&matches)?;
    let date = date_of(&matches)?;
    let folder = folder_of(alloc, &matches)?;
    let log = matches.get_flag("log");
    Ok(Order::Serve {
        folder,
        port,
        connections,
        shape,
        date,
        log,
    })
}

/// The order of the words behind `bench`.
fn read_bench(alloc: Global, words: &[String]) -> Result<Order, WordFault>
    requires { have_bundle (map string_bytes words.now) ≡ false }
    ensures read { IfOk result (λ order.
        option_and_then bench_by (given_of bench_known (map string_bytes words.now))
        ≡ Some (order_view order)) }
    ensures refused { IfErr result (λ fault. fault ≡ WordFault.Usage
        → option_and_then bench_by (given_of bench_known (map string_bytes words.now)) ≡ None) }
{
    let command = bench_command(alloc)?;
    let matches = parsed(command, words)?;
    let connections = small_of(&matches, "connections", 1, MAX_CONNECTIONS)?;
    let number = seed_of(&matches)?;
    let shape = shape_of(&matches)?;
    Ok(Order::Bench {
        connections,
        number,
        shape,
    })
}

/// The order of the words behind `check`.
fn read_check(alloc: Global, words: &[String]) -> Result<Order, WordFault>
    requires { have_bundle (map string_bytes words.now) ≡ false }
    ensures read { IfOk result (λ order.
        option_and_then check_by (given_of check_known (map string_bytes words.now))
        ≡ Some (order_view order)) }
    ensures refused { IfErr result (λ fault. fault ≡ WordFault.Usage
        → option_and_then check_by (given_of check_known (map string_bytes words.now)) ≡ None) }
{
    let command = check_command(alloc)?;
    let matches = parsed(command, words)?;
    let connections = small_of(&matches, "connections", 0, MAX_CONNECTIONS)?;
    let shape = shape_of(&matches)?;
    let log = matches.get_flag("log");
    Ok(Order::Check {
        connections,
        shape,
        log,
    })
}

/// Whether a journal is asked for beside connections from outside.
fn asks_for_both(connections: Option<u16>, journal: bool) -> bool
    ensures { result ≡ (is_some connections && journal) }
{
    connections.is_some() && journal
}

/// The order of the words behind `gopher`.
fn read_gopher(alloc: Global, words: &[String]) -> Result<Order, WordFault>
    requires { have_bundle (map string_bytes words.now) ≡ false }
    ensures read { IfOk result (λ order.
        option_and_then gopher_by (given_of gopher_known (map string_bytes words.now))
        ≡ Some (order_view order)) }
    ensures refused { IfErr result (λ fault. fault ≡ WordFault.Usage
        → option_and_then gopher_by (given_of gopher_known (map string_bytes words.now)) ≡ None) }
{
    let command = gopher_command(alloc)?;
    let matches = parsed(command, words)?;
    let port = small_of(&matches, "port", 1, 65_535)?;
    let connections = connections_of(&matches)?;
    let shape = shape_of(&matches)?;
    let host = host_of(alloc, &matches)?;
    let folder = folder_of(alloc, &matches)?;
    let journal = matches.get_flag("journal");
    if asks_for_both(connections, journal) {
        return Err(WordFault::Usage);
    }
    Ok(Order::Gopher {
        folder,
        host,
        port,
        connections,
        shape,
        journal,
    })
}

/// The order that the words behind the program's name give.
///
/// `Err(WordFault::Usage)` comes exactly where the words are no command line, but that
/// `Err(WordFault::Memory)` may come in place of any answer where there was no memory.
pub fn read_words(alloc: Global, words: &[String]) -> Result<Order, WordFault>
    ensures read { IfOk result (λ order. order_of (map string_bytes words.now)
        ≡ Some (order_view order)) }
    ensures refused { IfErr result (λ fault. fault ≡ WordFault.Usage
        → order_of (map string_bytes words.now) ≡ None) }
{
    let [command, rest @ ..] = words else {
        return Err(WordFault::Usage);
    };
    if has_bundle(rest) {
        return Err(WordFault::Usage);
    }
    match command.as_str() {
        "answer" => read_answer(alloc, rest),
        "replay" => read_replay(alloc, rest),
        "serve" => read_serve(alloc, rest),
        "bench" => read_bench(alloc, rest),
        "check" => read_check(alloc, rest),
        "gopher" => read_gopher(alloc, rest),
        _ => Err(WordFault::Usage),
    }
}
