//! What a line begins with.
ghost use Rattle.std.specs.Prelude.{◌≡◌, option_map};
ghost use Rattle.sws_script.specs.Words.{word_text, first_word, word_in};

/// The word, or words, with which a line begins, up to its first free part.
#[derive(Clone, Copy, Debug, PartialEq, Eq)]
pub enum Word {
    ScheduleHead,
    End,
    ScriptHead,
    Conn,
    Step,
    Cut,
    Send,
    Fill,
    Pause,
    Fault,
}

const WORDS: [Word; 10] = [
    Word::ScheduleHead,
    Word::End,
    Word::ScriptHead,
    Word::Conn,
    Word::Step,
    Word::Cut,
    Word::Send,
    Word::Fill,
    Word::Pause,
    Word::Fault,
];

impl Word {
    /// The text of the word, with the space behind it where more follows.
    fn text(self) -> &'static [u8]
        ensures { result.now ≡ word_text self }
    {
        match self {
            Word::ScheduleHead => b"sws-schedule 1",
            Word::End => b"end",
            Word::ScriptHead => b"sws-script 1",
            Word::Conn => b"conn",
            Word::Step => b"step ",
            Word::Cut => b"cut ",
            Word::Send => b"send ",
            Word::Fill => b"fill ",
            Word::Pause => b"pause ",
            Word::Fault => b"fault",
        }
    }
}

/// The word with which the line begins, and what stands behind it.
pub fn split_word(line: &[u8]) -> Option<(Word, &[u8])>
    ensures { option_map (λ found. (found.0, found.1.now)) result ≡ word_in line.now }
{
    first_of(&WORDS, line)
}

/// The first of the words with which the line begins, and what stands behind it.
fn first_of<'l>(words: &[Word], line: &'l [u8]) -> Option<(Word, &'l [u8])>
    ensures { option_map (λ found. (found.0, found.1.now)) result ≡ first_word words.now line.now }
{
    for word in words {
        if let Some(rest) = line.strip_prefix(word.text()) {
            return Some((*word, rest));
        }
    }
    None
}
