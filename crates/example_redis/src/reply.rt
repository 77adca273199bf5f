//! What is replied.
ghost use Rattle.std.specs.Fmt.{decimal};
ghost use Rattle.std.specs.Prelude.{◌≡◌, ◌++◌, OnOk, codes, flat_map, length, map, pos};
ghost use Rattle.example_redis.specs.Replies.{bulk, bulks, count_in, error, info, integer, keys_in, list_of, names_of, shown_byte, shown_reply, shown_with, text_of, text_of_fault, total_of};
ghost use Rattle.example_redis.specs.Verbs.{name_of};
ghost use Rattle.example_redis.specs.declared.frame.Fault.TheVariants.{NoWord};

use crate::frame::Fault;
use crate::verb::Verb;
use itoa::Buffer;
use mely_event::Memory;

/// Why a request isn't done.
#[derive(Drop)]
pub enum Refusal {
    /// There is no such command; this says which one it was, and its words.
    Unknown(Vec<u8>),

    /// The command has another number of words.
    Arguments(Verb),

    /// A word of it is unknown there.
    Syntax,

    /// The value is no number, or out of range.
    NoNumber,

    /// The sum would be out of range.
    Overflow,

    /// What is to be subtracted has no negative.
    Decrement,

    /// The key has too many bytes.
    LongKey,

    /// The value would have too many.
    LongValue,

    /// The command names a time at which no value can go.
    Time(Verb),

    /// It is no request.
    Protocol(Fault),

    /// It has too many bytes in all.
    LongRequest,
}

/// What is replied.
#[derive(Drop)]
pub enum Reply {
    /// Nothing at all, to a request without words.
    Silence,

    /// Nothing at all, as the store is to stop.
    Gone,
    Okay,
    Pong,

    /// That there is no value.
    Nil,

    /// A list without items.
    NoItems,

    /// What the store is, in lines of a name and what it is.
    Info,

    /// The list of its parts, which are what several cells reply.
    Items,

    /// The sum of its parts.
    Total,

    /// The list of the keys that its parts list.
    Names,

    /// How many there are.
    Count(usize),
    Number(i64),
    Value(Vec<u8>),

    /// These keys.
    Keys(Vec<Vec<u8>>),
    Refused(Refusal),
}

/// Puts bytes behind others.
pub fn put(out: &mut Vec<u8>, bytes: &[u8]) -> Result<(), Memory>
    ensures { OnOk result (out.new.items ≡ out.old.items ++ bytes.now) }
{
    out.extend_from_slice(bytes)?;
    Ok(())
}

/// A byte as it is shown within a line.
pub fn shown(byte: u8) -> u8
    ensures { result ≡ shown_byte byte }
{
    if byte == b'\r' || byte == b'\n' {
        b' '
    } else {
        byte
    }
}

/// Puts the words of a word that begins with this behind others.
fn write_no_word(byte: u8, out: &mut Vec<u8>) -> Result<(), Memory>
    ensures { OnOk result (out.new.items ≡ out.old.items ++ text_of_fault (NoWord byte)) }
{
    put(out, b"expected '$', got '")?;
    out.push(shown(byte))?;
    put(out, b"'")
}

/// Puts the words of a fault behind others.
fn write_fault(fault: Fault, out: &mut Vec<u8>) -> Result<(), Memory>
    ensures { OnOk result (out.new.items ≡ out.old.items ++ text_of_fault fault) }
{
    match fault {
        Fault::Count => put(out, b"invalid multibulk length"),
        Fault::Size => put(out, b"invalid bulk length"),
        Fault::NoWord(byte) => write_no_word(byte, out),
        Fault::NoEnd => put(out, b"a word without its line end"),
        Fault::LongLine => put(out, b"too big inline request"),
    }
}

/// Puts words about a command, and its name, behind others.
fn write_about(text: &[u8], verb: Verb, out: &mut Vec<u8>) -> Result<(), Memory>
    ensures { OnOk result (out.new.items
        ≡ out.old.items ++ (text.now ++ name_of verb ++ codes "' command")) }
{
    put(out, text)?;
    put(out, verb.name())?;
    put(out, b"' command")
}

/// Puts the words of a refusal behind others.
fn write_refusal(refusal: &Refusal, out: &mut Vec<u8>) -> Result<(), Memory>
    ensures { OnOk result (out.new.items ≡ out.old.items ++ text_of refusal.now) }
{
    match refusal {
        Refusal::Unknown(words) => {
            put(out, b"unknown command ")?;
            put(out, words.as_slice())
        }
        Refusal::Arguments(verb) => write_about(b"wrong number of arguments for '", *verb, out),
        Refusal::Syntax => put(out, b"syntax error"),
        Refusal::NoNumber => put(out, b"value is not an integer or out of range"),
        Refusal::Overflow => put(out, b"increment or decrement would overflow"),
        Refusal::Decrement => put(out, b"decrement would overflow"),
        Refusal::LongKey => put(out, b"key exceeds maximum allowed size"),
        Refusal::LongValue => {
            put(
                out,
                b"string exceeds maximum allowed size (proto-max-bulk-len)",
            )
        }
        Refusal::Time(verb) => write_about(b"invalid expire time in '", *verb, out),
        Refusal::Protocol(fault) => {
            put(out, b"Protocol error: ")?;
            write_fault(*fault, out)
        }
        Refusal::LongRequest => put(out, b"Protocol error: too big request"),
    }
}

/// Puts a value, with its size in front, behind others.
pub fn write_value(value: &[u8], out: &mut Vec<u8>) -> Result<(), Memory>
    ensures { OnOk result (out.new.items ≡ out.old.items ++ bulk value.now) }
{
    let mut digits = Buffer::new();
    put(out, b"$")?;
    put(out, digits.format(value.len()).as_bytes())?;
    put(out, b"\r\n")?;
    put(out, value)?;
    put(out, b"\r\n")
}

/// Puts what the store is behind others.
fn write_info(out: &mut Vec<u8>) -> Result<(), Memory>
    ensures { OnOk result (out.new.items ≡ out.old.items ++ bulk info) }
{
    write_value(
        b"# Server\r\nredis_mode:standalone\r\n# Persistence\r\nloading:0\r\n# Replication\r\nrole:master\r\n# Cluster\r\ncluster_enabled:0\r\n",
        out,
    )
}

/// Puts a number behind others.
fn write_number(number: i64, out: &mut Vec<u8>) -> Result<(), Memory>
    ensures { OnOk result (out.new.items ≡ out.old.items ++ integer number) }
{
    let mut digits = Buffer::new();
    put(out, b":")?;
    put(out, digits.format(number).as_bytes())?;
    put(out, b"\r\n")
}

/// Puts a count behind others.
fn write_count(count: usize, out: &mut Vec<u8>) -> Result<(), Memory>
    ensures { OnOk result (out.new.items ≡ out.old.items ++ integer (pos count)) }
{
    let mut digits = Buffer::new();
    put(out, b":")?;
    put(out, digits.format(count).as_bytes())?;
    put(out, b"\r\n")
}

/// Puts a refusal behind others.
fn write_error(refusal: &Refusal, out: &mut Vec<u8>) -> Result<(), Memory>
    ensures { OnOk result (out.new.items ≡ out.old.items ++ error (text_of refusal.now)) }
{
    put(out, b"-ERR ")?;
    write_refusal(refusal, out)?;
    put(out, b"\r\n")
}

/// Puts keys behind others, each as a value.
fn write_each(keys: &[Vec<u8>], out: &mut Vec<u8>) -> Result<(), Memory>
    ensures { OnOk result (out.new.items
        ≡ out.old.items ++ flat_map bulk (map (λ key. key.items) keys.now)) }
{
    'each: for key in keys {
        write_value(key.as_slice(), out)?;
    }
    Ok(())
}

/// Puts a list of keys behind others.
fn write_keys(keys: &[Vec<u8>], out: &mut Vec<u8>) -> Result<(), Memory>
    ensures { OnOk result (out.new.items
        ≡ out.old.items ++ bulks (map (λ key. key.items) keys.now)) }
{
    begin_list(keys.len(), out)?;
    write_each(keys, out)
}

/// Puts a reply behind others, which has no parts.
fn write_one(reply: &Reply, out: &mut Vec<u8>) -> Result<(), Memory>
    ensures { OnOk result (out.new.items ≡ out.old.items ++ shown_reply reply.now) }
{
    match reply {
        Reply::Silence | Reply::Gone => Ok(()),
        Reply::Okay => put(out, b"+OK\r\n"),
        Reply::Pong => put(out, b"+PONG\r\n"),
        Reply::Nil => put(out, b"$-1\r\n"),
        Reply::NoItems | Reply::Items | Reply::Names => put(out, b"*0\r\n"),
        Reply::Total => put(out, b":0\r\n"),
        Reply::Info => write_info(out),
        Reply::Count(count) => write_count(*count, out),
        Reply::Number(number) => write_number(*number, out),
        Reply::Value(value) => write_value(value.as_slice(), out),
        Reply::Keys(keys) => write_keys(keys.as_slice(), out),
        Reply::Refused(refusal) => write_error(refusal, out),
    }
}

/// Puts what a list of so many items begins with behind others.
pub fn begin_list(count: usize, out: &mut Vec<u8>) -> Result<(), Memory>
    ensures { OnOk result (out.new.items
        ≡ out.old.items ++ codes "*" ++ decimal count ++ codes "\r\n") }
{
    let mut digits = Buffer::new();
    put(out, b"*")?;
    put(out, digits.format(count).as_bytes())?;
    put(out, b"\r\n")
}

/// Puts a list of replies behind others.
fn write_list(parts: &[Reply], out: &mut Vec<u8>) -> Result<(), Memory>
    ensures { OnOk result (out.new.items ≡ out.old.items ++ list_of parts.now) }
{
    begin_list(parts.len(), out)?;
    'parts: for part in parts {
        write_one(part, out)?;
    }
    Ok(())
}

/// What a reply counts, where it is a count.
fn counted(reply: &Reply) -> usize
    ensures { result ≡ count_in reply.now }
{
    match reply {
        Reply::Count(count) => *count,
        _ => 0,
    }
}

/// Puts the sum of what replies count behind others.
fn write_total(parts: &[Reply], out: &mut Vec<u8>) -> Result<(), Memory>
    ensures { OnOk result (out.new.items ≡ out.old.items ++ total_of parts.now) }
{
    let mut total: u128 = 0;
    'parts: for part in parts {
        total += counted(part) as u128;
    }
    let mut digits = Buffer::new();
    put(out, b":")?;
    put(out, digits.format(total).as_bytes())?;
    put(out, b"\r\n")
}

/// How many keys a reply lists.
fn listed(reply: &Reply) -> usize
    ensures { result ≡ length (keys_in reply.now) }
{
    match reply {
        Reply::Keys(keys) => keys.len(),
        _ => 0,
    }
}

/// How many keys replies list.
fn count_keys(parts: &[Reply]) -> u128
    ensures { result ≡ length (flat_map keys_in parts.now) }
{
    let mut total: u128 = 0;
    'each: for part in parts {
        total += listed(part) as u128;
    }
    total
}

/// Puts the keys that a reply lists behind others, each as a value.
fn write_listed(reply: &Reply, out: &mut Vec<u8>) -> Result<(), Memory>
    ensures { OnOk result (out.new.items ≡ out.old.items ++ flat_map bulk (keys_in reply.now)) }
{
    match reply {
        Reply::Keys(keys) => write_each(keys.as_slice(), out),
        _ => Ok(()),
    }
}

/// Puts the keys that replies list behind others, each as a value.
fn write_all_listed(parts: &[Reply], out: &mut Vec<u8>) -> Result<(), Memory>
    ensures { OnOk result (out.new.items
        ≡ out.old.items ++ flat_map bulk (flat_map keys_in parts.now)) }
{
    'each: for part in parts {
        write_listed(part, out)?;
    }
    Ok(())
}

/// Puts the list of the keys that replies list behind others.
fn write_names(parts: &[Reply], out: &mut Vec<u8>) -> Result<(), Memory>
    ensures { OnOk result (out.new.items ≡ out.old.items ++ names_of parts.now) }
{
    let mut digits = Buffer::new();
    put(out, b"*")?;
    put(out, digits.format(count_keys(parts)).as_bytes())?;
    put(out, b"\r\n")?;
    write_all_listed(parts, out)
}

/// Puts a reply behind others, with its parts where it has any.
///
/// # Errors
///
/// There was no memory.
pub fn write(reply: &Reply, parts: &[Reply], out: &mut Vec<u8>) -> Result<(), Memory>
    ensures { OnOk result (out.new.items ≡ out.old.items ++ shown_with reply.now parts.now) }
{
    match reply {
        Reply::Items => write_list(parts, out),
        Reply::Total => write_total(parts, out),
        Reply::Names => write_names(parts, out),
        _ => write_one(reply, out),
    }
}
