//! A story as it is shown: with what came in the place of what it says.
use crate::text::{first_word, lines_in, put_text, told};
use crate::wrong::Wrong;
use std::alloc::{AllocError, Global};

/// The lines of a story that are shown so far, and those that belong to the run that is asked for.
#[derive(Drop)]
pub struct Page {
    alloc: Global,
    pub text: String,
    held: Vec<String>,
    /// The replies of the run, as the story says them.
    said: Vec<String>,
}

impl Page {
    pub fn new(alloc: Global) -> Page {
        Page {
            alloc,
            text: String::new(alloc),
            held: Vec::new(alloc),
            said: Vec::new(alloc),
        }
    }

    /// A line that is shown as it stands.
    pub fn add(&mut self, line: &str) -> Result<(), AllocError> {
        self.held.push(String::from_str(self.alloc, line)?)?;
        Ok(())
    }

    /// A reply as the story says it.
    pub fn say(&mut self, line: &str) -> Result<(), AllocError> {
        self.said.push(String::from_str(self.alloc, line)?)?;
        Ok(())
    }

    /// Another line in the place of the last one.
    pub fn replace(&mut self, line: String) -> Result<(), AllocError> {
        let _ = self.held.pop();
        self.held.push(line)?;
        Ok(())
    }

    /// The lines so far belong to no run.
    pub fn flush(&mut self) -> Result<(), AllocError> {
        for line in &self.held {
            put_line(&mut self.text, line.as_str())?;
        }
        self.held.clear();
        Ok(())
    }

    /// The lines so far belong to a run that put this and ended so.
    pub fn fill(&mut self, put: &[u8], ending: &str, why: &str) -> Result<(), Wrong> {
        let replies = self.shown_replies(put)?;
        self.put_held(&replies, ending, why)?;
        self.held.clear();
        self.said.clear();
        Ok(())
    }

    /// The replies that were put, as the page shows them.
    fn shown_replies(&self, put: &[u8]) -> Result<Vec<String>, Wrong> {
        let mut replies = Vec::new(self.alloc);
        for (i, reply) in lines_in(self.alloc, put)?.iter().enumerate() {
            replies.push(shown(self.alloc, self.said.get(i), reply)?)?;
        }
        Ok(replies)
    }

    /// Puts the lines of the run, each reply behind the line that asks for it, and the others and the end behind the last.
    fn put_held(&mut self, replies: &[String], ending: &str, why: &str) -> Result<(), AllocError> {
        let last = last_asked(&self.held);
        let mut told = 0usize;
        for (i, line) in self.held.iter().enumerate() {
            put_line(&mut self.text, line.as_str())?;
            if i == last {
                for reply in replies.iter().skip(told) {
                    put_line(&mut self.text, reply.as_str())?;
                }
                put_ending(&mut self.text, ending, why)?;
            } else if is_asked(line.as_str()) {
                if let Some(reply) = replies.get(told) {
                    put_line(&mut self.text, reply.as_str())?;
                }
                told = told.saturating_add(1);
            }
        }
        Ok(())
    }
}

/// The place of the last line that is asked, or of the first line where none is.
fn last_asked(lines: &[String]) -> usize {
    lines
        .iter()
        .rposition(|line| is_asked(line.as_str()))
        .unwrap_or(0)
}

/// A line that is asked, and has a reply.
fn is_asked(line: &str) -> bool {
    line.starts_with("> ") || line.starts_with(">- ")
}

fn put_line(text: &mut String, line: &str) -> Result<(), AllocError> {
    text.push_str(line)?;
    text.push('\n')?;
    Ok(())
}

fn put_ending(text: &mut String, ending: &str, why: &str) -> Result<(), AllocError> {
    if ending != "0" {
        text.push_str("status ")?;
        put_line(text, ending)?;
    }
    if !why.is_empty() {
        text.push_str("why ")?;
        put_line(text, why)?;
    }
    Ok(())
}

/// A reply as a story tells it: as it says it already, where that is the same.
fn shown(alloc: Global, said: Option<&String>, reply: &[u8]) -> Result<String, Wrong> {
    if let Some(line) = said {
        if says(alloc, line.as_str(), reply)? {
            return Ok(line.clone()?);
        }
    }
    let (sign, line) = match reply.strip_suffix(b"\n") {
        Some(line) => ("< ", line),
        None => ("<- ", reply),
    };
    let mut text = String::from_str(alloc, sign)?;
    text.push_str(told(alloc, line)?.as_str())?;
    Ok(text)
}

/// The line of a story says this reply.
fn says(alloc: Global, line: &str, reply: &[u8]) -> Result<bool, Wrong> {
    let (sign, rest) = first_word(line);
    let mut bytes = Vec::new(alloc);
    put_text(alloc, rest, &mut bytes)?;
    if sign == "<" {
        bytes.push(b'\n')?;
    }
    Ok(bytes.as_slice() == reply)
}
