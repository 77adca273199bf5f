//! What the lines begin with.
use memchr::memchr;

/// What a line does.
#[derive(Clone, Copy)]
pub enum Verb {
    /// It changes what the next run is given.
    Gives(Gift),

    /// It runs the command of its words, and shows how that ended, or its status alone.
    Sws,
    Ends,

    /// It takes the journal off what the last run has written, as the input.
    Journal,

    /// It shows something of the last run.
    Shows(View),
}

/// What is given.
#[derive(Clone, Copy)]
pub enum Gift {
    Folder,
    File,
    Files,
    Input,
    More,
    Text,
    Clients,
    Fail,
}

/// What is shown of a run.
#[derive(Clone, Copy)]
pub enum View {
    Written,
    Shown,
    Lines,
    Has,
    Behind,
    Served,
}

static VERBS: [(&[u8], Verb); 17] = [
    (b"folder", Verb::Gives(Gift::Folder)),
    (b"file", Verb::Gives(Gift::File)),
    (b"files", Verb::Gives(Gift::Files)),
    (b"input", Verb::Gives(Gift::Input)),
    (b"more", Verb::Gives(Gift::More)),
    (b"text", Verb::Gives(Gift::Text)),
    (b"clients", Verb::Gives(Gift::Clients)),
    (b"fail", Verb::Gives(Gift::Fail)),
    (b"sws", Verb::Sws),
    (b"ends", Verb::Ends),
    (b"journal", Verb::Journal),
    (b"written", Verb::Shows(View::Written)),
    (b"shown", Verb::Shows(View::Shown)),
    (b"lines", Verb::Shows(View::Lines)),
    (b"has", Verb::Shows(View::Has)),
    (b"behind", Verb::Shows(View::Behind)),
    (b"served", Verb::Shows(View::Served)),
];

/// Whether nothing may stand behind a verb.
pub fn is_bare(verb: Verb) -> bool {
    match verb {
        Verb::Gives(gift) => matches!(gift, Gift::Folder | Gift::Text),
        Verb::Sws | Verb::Ends => false,
        Verb::Journal => true,
        Verb::Shows(view) => !matches!(view, View::Lines | View::Has),
    }
}

/// The verb of this word.
pub fn verb_of(word: &[u8]) -> Option<Verb> {
    for &(name, verb) in &VERBS {
        if name == word {
            return Some(verb);
        }
    }
    None
}

/// The first word of a line, and what stands behind the space that ends it.
pub fn first_word(line: &[u8]) -> (&[u8], &[u8]) {
    match memchr(b' ', line) {
        Some(at) => (&line[..at], &line[at + 1..]),
        None => (line, b""),
    }
}
