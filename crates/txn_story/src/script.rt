//! A run as a story asks for it.
use crate::text::{number, pair_of, put_ended, put_numbers, put_text, words_of};
use crate::wrong::Wrong;
use std::alloc::Global;
use txn_base::Text;

/// A run as a story asks for it.
#[derive(Drop)]
pub struct Script {
    alloc: Global,
    pub words: Vec<Text>,
    pub moments: Vec<u64>,
    /// How many bytes the source gives at most at once, and which of its calls fail.
    pub pieces: usize,
    pub failed_takes: Vec<u64>,
    /// How many bytes the sink takes at most at once, and which of its calls fail.
    pub takes: usize,
    pub failed_puts: Vec<u64>,
    pub lines: Vec<Vec<u8>>,
}

impl Script {
    pub fn new(alloc: Global) -> Script {
        Script {
            alloc,
            words: Vec::new(alloc),
            moments: Vec::new(alloc),
            pieces: 4096,
            failed_takes: Vec::new(alloc),
            takes: 4096,
            failed_puts: Vec::new(alloc),
            lines: Vec::new(alloc),
        }
    }

    /// Its words are these.
    pub fn set_words(&mut self, rest: &str) -> Result<(), Wrong> {
        for word in words_of(self.alloc, rest)? {
            self.words.push(told_word(self.alloc, word.as_str())?)?;
        }
        Ok(())
    }

    /// Its words are those of another.
    pub fn copy_words(&mut self, words: &[Text]) -> Result<(), Wrong> {
        for word in words {
            self.words.push(word.clone()?)?;
        }
        Ok(())
    }

    /// The moments that its clock tells.
    pub fn set_clock(&mut self, rest: &str) -> Result<(), Wrong> {
        self.moments.clear();
        put_numbers(rest, &mut self.moments)
    }

    /// What its source does, as `pieces=45 fails=2`.
    pub fn set_source(&mut self, rest: &str) -> Result<(), Wrong> {
        for part in rest.split_whitespace() {
            match pair_of(part)? {
                ("pieces", count) => self.pieces = number(count)? as usize,
                ("fails", nth) => self.failed_takes.push(number(nth)?)?,
                _ => return Err(Wrong::Line("a source has pieces= and fails=")),
            }
        }
        Ok(())
    }

    /// What its sink does, as `takes=20 fails=4`.
    pub fn set_sink(&mut self, rest: &str) -> Result<(), Wrong> {
        for part in rest.split_whitespace() {
            match pair_of(part)? {
                ("takes", count) => self.takes = number(count)? as usize,
                ("fails", nth) => self.failed_puts.push(number(nth)?)?,
                _ => return Err(Wrong::Line("a sink has takes= and fails=")),
            }
        }
        Ok(())
    }

    /// One more line is sent.
    pub fn ask(&mut self, text: &str, end: &str) -> Result<(), Wrong> {
        let mut line = Vec::new(self.alloc);
        put_ended(self.alloc, text, end, &mut line)?;
        self.lines.push(line)?;
        Ok(())
    }
}

/// The text that a word stands for.
fn told_word(alloc: Global, word: &str) -> Result<Text, Wrong> {
    let mut bytes = Vec::new(alloc);
    put_text(alloc, word, &mut bytes)?;
    match str::from_utf8(&bytes) {
        Ok(text) => Ok(Text::from_str(alloc, text)?),
        Err(_) => Err(Wrong::Line("a word is no text")),
    }
}
