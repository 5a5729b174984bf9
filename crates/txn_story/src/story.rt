//! A story as its file has it: its name, its lines, and the cases for which it is told.
use std::alloc::{AllocError, Global};

/// A story as its file has it.
#[derive(Drop)]
pub struct Story {
    alloc: Global,
    /// Its first line.
    pub head: String,
    /// It says something wrong, and has to be found wrong.
    pub is_wrong: bool,
    /// The number of its first line in the file, from 1.
    pub first: usize,
    pub lines: Vec<String>,
    /// What `$1`, `$2` and so on stand for, with ` ; ` between, each time that it is told.
    cases: Vec<String>,
}

/// A line that begins a story.
pub fn is_head(line: &str) -> bool {
    line.starts_with("story ") || line.starts_with("wrong story ")
}

/// The name in the first line of a story.
pub fn name_of(head: &str) -> &str {
    match head.split_once("story ") {
        Some((_, name)) => name,
        None => head,
    }
}

impl Story {
    /// A story that begins with this line.
    pub fn new(alloc: Global, head: &str, first: usize) -> Result<Story, AllocError> {
        Ok(Story {
            alloc,
            head: String::from_str(alloc, head)?,
            is_wrong: head.starts_with("wrong "),
            first,
            lines: Vec::new(alloc),
            cases: Vec::new(alloc),
        })
    }

    /// Goes on with a line of its file.
    pub fn add(&mut self, line: &str) -> Result<(), AllocError> {
        match line.strip_prefix("case ") {
            Some(case) => self.cases.push(String::from_str(self.alloc, case)?)?,
            None => self.lines.push(String::from_str(self.alloc, line)?)?,
        }
        Ok(())
    }

    /// How many times it is told.
    pub fn times(&self) -> usize {
        self.cases.len().max(1)
    }

    /// What stands in one of its cases.
    pub fn case(&self, i: usize) -> &str {
        self.cases.get(i).map_or("", |case| case.as_str())
    }
}

/// A line with what stands in a case in the places of `$1`, `$2` and so on.
pub fn filled(alloc: Global, line: &str, case: &str) -> Result<String, AllocError> {
    let mut text = String::from_str(alloc, line)?;
    for (i, cell) in case.split(" ; ").enumerate() {
        text = with_cell(alloc, text.as_str(), i.saturating_add(1), cell)?;
    }
    Ok(text)
}

/// A line with this text in the places of the sign of this number.
fn with_cell(alloc: Global, line: &str, n: usize, cell: &str) -> Result<String, AllocError> {
    let sign = format!(in alloc; "${n}")?;
    line.replace(alloc, sign.as_str(), cell)
}
