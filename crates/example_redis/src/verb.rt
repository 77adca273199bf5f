//! The names of commands.
ghost use Rattle.std.specs.Prelude.{◌≡◌};
ghost use Rattle.std.specs.Str.{str_eq_ignore_ascii_case};
ghost use Rattle.example_redis.specs.Verbs.{name_of, verb_of};

/// A command.
#[derive(Clone, Copy)]
pub enum Verb {
    Ping,
    Echo,
    Get,
    Set,
    SetNx,
    GetSet,
    SetEx,
    PSetEx,
    Del,
    Exists,
    Incr,
    Decr,
    IncrBy,
    DecrBy,
    Append,
    StrLen,
    Expire,
    PExpire,
    ExpireAt,
    PExpireAt,
    Ttl,
    PTtl,
    Persist,
    MGet,
    MSet,
    DbSize,
    Keys,
    FlushAll,
    Info,
    ShutDown,
    Command,
    Quit,
}

/// All commands.
const VERBS: [Verb; 32] = [
    Verb::Ping,
    Verb::Echo,
    Verb::Get,
    Verb::Set,
    Verb::SetNx,
    Verb::GetSet,
    Verb::SetEx,
    Verb::PSetEx,
    Verb::Del,
    Verb::Exists,
    Verb::Incr,
    Verb::Decr,
    Verb::IncrBy,
    Verb::DecrBy,
    Verb::Append,
    Verb::StrLen,
    Verb::Expire,
    Verb::PExpire,
    Verb::ExpireAt,
    Verb::PExpireAt,
    Verb::Ttl,
    Verb::PTtl,
    Verb::Persist,
    Verb::MGet,
    Verb::MSet,
    Verb::DbSize,
    Verb::Keys,
    Verb::FlushAll,
    Verb::Info,
    Verb::ShutDown,
    Verb::Command,
    Verb::Quit,
];

/// Whether two words are the same but for the case of letters.
pub fn is_same_word(word: &[u8], other: &[u8]) -> bool
    ensures { result ≡ str_eq_ignore_ascii_case word.now other.now }
{
    word.eq_ignore_ascii_case(other)
}

impl Verb {
    /// Its name, in small letters.
    pub fn name(self) -> &'static [u8]
        ensures { result.now ≡ name_of self }
    {
        match self {
            Verb::Ping => b"ping",
            Verb::Echo => b"echo",
            Verb::Get => b"get",
            Verb::Set => b"set",
            Verb::SetNx => b"setnx",
            Verb::GetSet => b"getset",
            Verb::SetEx => b"setex",
            Verb::PSetEx => b"psetex",
            Verb::Del => b"del",
            Verb::Exists => b"exists",
            Verb::Incr => b"incr",
            Verb::Decr => b"decr",
            Verb::IncrBy => b"incrby",
            Verb::DecrBy => b"decrby",
            Verb::Append => b"append",
            Verb::StrLen => b"strlen",
            Verb::Expire => b"expire",
            Verb::PExpire => b"pexpire",
            Verb::ExpireAt => b"expireat",
            Verb::PExpireAt => b"pexpireat",
            Verb::Ttl => b"ttl",
            Verb::PTtl => b"pttl",
            Verb::Persist => b"persist",
            Verb::MGet => b"mget",
            Verb::MSet => b"mset",
            Verb::DbSize => b"dbsize",
            Verb::Keys => b"keys",
            Verb::FlushAll => b"flushall",
            Verb::Info => b"info",
            Verb::ShutDown => b"shutdown",
            Verb::Command => b"command",
            Verb::Quit => b"quit",
        }
    }

    /// The command of a name, in letters of any case.
    pub fn named(name: &[u8]) -> Option<Verb>
        ensures { result ≡ verb_of name.now }
    {
        for verb in VERBS.iter() {
            if is_same_word(name, verb.name()) {
                return Some(*verb);
            }
        }
        None
    }
}
