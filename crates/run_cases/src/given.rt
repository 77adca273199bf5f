//! What a run is given.
use crate::cause::Cause;
use crate::verbs::{Gift, first_word};
use std::alloc::{AllocError, Global};
use sws_link::{MemFolder, MemSource};
use sws_text::{read_decimal, read_text};

/// The most of anything that a line may ask for.
const MOST: u64 = 1_000_000;

/// The line behind those of an input.
const FULL_STOP: &[u8] = b".";

/// Names with their contents, as a folder takes them.
type Files = Vec<(Vec<u8>, Vec<u8>)>;

/// The numbers of the calls that fail in the next run, counted from 1, or 0 where none does.
#[derive(Clone, Copy)]
pub struct Failing {
    pub folder: u32,
    pub source: u32,
    pub sink: u32,
    pub world: u32,
}

/// A run in which no call fails.
pub const NO_CALL: Failing = Failing {
    folder: 0,
    source: 0,
    sink: 0,
    world: 0,
};

/// What the next run is given.
#[derive(Drop)]
pub struct Given {
    files: Files,
    input: Vec<u8>,

    /// What each of two clients sends.
    pub client: Vec<u8>,
    pub failing: Failing,

    /// Whether the lines that come are those of an input.
    pub is_text: bool,
}

/// The bytes of a text.
pub fn bytes_of(alloc: Global, text: &[u8]) -> Result<Vec<u8>, Cause> {
    match read_text(alloc, text) {
        Ok(Some(bytes)) => Ok(bytes),
        Ok(None) => Err(Cause::NoText),
        Err(_) => Err(Cause::Memory),
    }
}

/// The number of a word.
fn number_of(word: &[u8]) -> Result<u32, Cause> {
    match read_decimal(word, MOST) {
        Some(number) => Ok(number as u32),
        None => Err(Cause::NoNumber),
    }
}

/// A file, as a folder takes it.
fn file_of(alloc: Global, name: &[u8], bytes: &[u8]) -> Result<(Vec<u8>, Vec<u8>), AllocError> {
    let name = name.to_vec(alloc)?;
    Ok((name, bytes.to_vec(alloc)?))
}

/// The call of this number alone, or none.
pub fn calls_of(alloc: Global, number: u32) -> Result<Vec<u32>, AllocError> {
    let mut calls = Vec::new(alloc);
    if number > 0 {
        calls.push(number)?;
    }
    Ok(calls)
}

/// A copy of the files.
fn copied(alloc: Global, files: &[(Vec<u8>, Vec<u8>)]) -> Result<Files, AllocError> {
    let mut copies = Vec::new(alloc);
    for (name, bytes) in files {
        copies.push(file_of(alloc, name, bytes)?)?;
    }
    Ok(copies)
}

impl Given {
    /// A folder without files, no input, and two clients that send nothing.
    pub fn new(alloc: Global) -> Given {
        Given {
            files: Vec::new(alloc),
            input: Vec::new(alloc),
            client: Vec::new(alloc),
            failing: NO_CALL,
            is_text: false,
        }
    }

    /// Does what a line with this verb says by the rest of it.
    pub fn change(&mut self, alloc: Global, gift: Gift, rest: &[u8]) -> Result<(), Cause> {
        match gift {
            Gift::Folder => {
                self.files.clear();
                Ok(())
            }
            Gift::File => self.add_file(alloc, rest),
            Gift::Files => self.add_files(alloc, rest),
            Gift::Input => {
                self.input.clear();
                self.add_input(alloc, 1, rest)
            }
            Gift::More => self.add_more(alloc, rest),
            Gift::Text => {
                self.input.clear();
                self.is_text = true;
                Ok(())
            }
            Gift::Clients => self.set_client(alloc, rest),
            Gift::Fail => self.set_failing(rest),
        }
    }

    /// A line of an input, or the full stop behind the last one.
    pub fn take_line(&mut self, line: &[u8]) -> Result<(), Cause> {
        if line == FULL_STOP {
            self.is_text = false;
            return Ok(());
        }
        self.input.extend_from_slice(line)?;
        self.input.push(b'\n')?;
        Ok(())
    }

    /// These bytes as the input.
    pub fn set_input(&mut self, bytes: &[u8]) -> Result<(), Cause> {
        self.input.clear();
        self.input.extend_from_slice(bytes)?;
        Ok(())
    }

    /// `NAME TEXT`: a file more.
    fn add_file(&mut self, alloc: Global, rest: &[u8]) -> Result<(), Cause> {
        let (name, text) = first_word(rest);
        let name = bytes_of(alloc, name)?;
        self.add_named(name, bytes_of(alloc, text)?)
    }

    /// A file more of this name.
    fn add_named(&mut self, name: Vec<u8>, bytes: Vec<u8>) -> Result<(), Cause> {
        match self.files.push((name, bytes)) {
            Ok(()) => Ok(()),
            Err(_) => Err(Cause::Memory),
        }
    }

    /// `N NAME`: so many empty files more.
    fn add_files(&mut self, alloc: Global, rest: &[u8]) -> Result<(), Cause> {
        let (count, name) = first_word(rest);
        let count = number_of(count)?;
        let name = bytes_of(alloc, name)?;
        for _ in 0..count {
            self.files.push(file_of(alloc, &name, b"")?)?;
        }
        Ok(())
    }

    /// `N TEXT`: these bytes so many times more.
    fn add_more(&mut self, alloc: Global, rest: &[u8]) -> Result<(), Cause> {
        let (count, text) = first_word(rest);
        self.add_input(alloc, number_of(count)?, text)
    }

    /// The bytes of this text so many times more.
    fn add_input(&mut self, alloc: Global, count: u32, text: &[u8]) -> Result<(), Cause> {
        let bytes = bytes_of(alloc, text)?;
        for _ in 0..count {
            self.input.extend_from_slice(&bytes)?;
        }
        Ok(())
    }

    /// `TEXT`: what each client sends.
    fn set_client(&mut self, alloc: Global, text: &[u8]) -> Result<(), Cause> {
        self.client = bytes_of(alloc, text)?;
        Ok(())
    }

    /// `PLACE N`: a call that fails.
    fn set_failing(&mut self, rest: &[u8]) -> Result<(), Cause> {
        let (place, number) = first_word(rest);
        let number = number_of(number)?;
        if number == 0 {
            return Err(Cause::NoNumber);
        }
        match place {
            b"folder" => self.failing.folder = number,
            b"source" => self.failing.source = number,
            b"sink" => self.failing.sink = number,
            b"world" => self.failing.world = number,
            _ => return Err(Cause::NoPlace),
        }
        Ok(())
    }

    /// The folder of the files.
    pub fn folder(&self, alloc: Global) -> Result<MemFolder, AllocError> {
        let calls = calls_of(alloc, self.failing.folder)?;
        Ok(MemFolder::new(alloc, copied(alloc, &self.files)?, calls))
    }

    /// The source of the input.
    pub fn source(&self, alloc: Global) -> Result<MemSource, AllocError> {
        let calls = calls_of(alloc, self.failing.source)?;
        Ok(MemSource::new(self.input.clone()?, calls))
    }
}
