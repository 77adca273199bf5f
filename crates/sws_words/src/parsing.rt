//! A command line of one command, read by `clap`.
ghost use Rattle.std.specs.Prelude.{◌≡◌, ◌≢◌, IfOk, IfErr, true, [], map, string_bytes};
ghost use Rattle.clap.specs.Words.{app_of, matches_of, fault_of, is_simple_and_free, rows_of, found_of};
ghost use Rattle.sws_words.specs.Grammar.{is_bundle as is_bundle_word, has_bundle as have_bundle};

use crate::WordFault;
use clap::error::ErrorKind;
use clap::{ArgMatches, Command};

/// What the words give the command's arguments.
pub fn parsed<'a>(command: Command<'a>, words: &'a [String]) -> Result<ArgMatches<'a>, WordFault>
    requires { is_simple_and_free (app_of command) ≡ true }
    ensures taken { IfOk result (λ _.
        fault_of (app_of command.entry) (map string_bytes words.now) ≡ []) }
    ensures rows { IfOk result (λ matches. rows_of (found_of matches)
        ≡ matches_of (app_of command.entry) (map string_bytes words.now)) }
    ensures refused { IfErr result (λ fault. fault ≡ WordFault.Usage
        → fault_of (app_of command.entry) (map string_bytes words.now) ≢ []) }
{
    match command.try_get_matches_from(words) {
        Ok(matches) => Ok(matches),
        Err(error) => {
            if error.kind() == ErrorKind::OutOfMemory {
                return Err(WordFault::Memory);
            }
            Err(WordFault::Usage)
        }
    }
}

/// Whether the word is a minus sign and other characters of which the first is no minus sign.
fn is_bundle(word: &[u8]) -> bool
    ensures { result ≡ is_bundle_word word.now }
{
    match word {
        [first, second, ..] => *first == b'-' && *second != b'-',
        _ => false,
    }
}

/// Whether one of the words, up to a word `--`, is a bundle of short flags, which no command has.
pub fn has_bundle(words: &[String]) -> bool
    ensures { result ≡ have_bundle (map string_bytes words.now) }
{
    for word in words {
        let word = word.as_bytes();
        if word == b"--".as_slice() {
            return false;
        }
        if is_bundle(word) {
            return true;
        }
    }
    false
}
