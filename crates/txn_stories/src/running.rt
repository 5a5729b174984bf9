//! A run that a story asks for, over memory.
use std::alloc::{AllocError, Global};
use txn_base::{Bytes, Limits, Usage};
use txn_memdisk::{ListClock, MemDisk, MemSink, MemSource};
use txn_run::{RunStatus, run};
use txn_story::{Script, Wrong, checked};

/// What came of a run.
#[derive(Drop)]
pub struct Came {
    /// The status, and the line on standard error.
    pub ending: String,
    /// Why the words are no command line, where they aren't.
    pub why: String,
    pub put: Vec<u8>,
}

/// Runs these lines as a script has it.
pub fn run_lines(
    alloc: Global,
    script: &Script,
    limits: &Limits,
    lines: &[Vec<u8>],
    disk: &mut MemDisk,
) -> Result<Came, Wrong> {
    let Some(limits) = checked(limits) else {
        return Err(Wrong::Line("a limit is out of its range"));
    };
    if script.pieces == 0 {
        return Err(Wrong::Line("a source gives a byte at least"));
    }
    let bytes = Bytes::from_vec(joined(alloc, lines)?);
    let mut source = MemSource::new(alloc, bytes, script.pieces, &script.failed_takes)?;
    let mut sink = MemSink::new(alloc, script.takes, &script.failed_puts)?;
    let mut clock = ListClock::new(&script.moments);
    let status = run(
        alloc,
        &script.words,
        &limits,
        disk,
        &mut source,
        &mut sink,
        &mut clock,
    );
    came_of(alloc, &status, sink.bytes())
}

/// What came of a run that ended so, and put these bytes.
fn came_of(alloc: Global, status: &RunStatus, put: &[u8]) -> Result<Came, Wrong> {
    Ok(Came {
        ending: ending_of(alloc, status)?,
        why: why_of(alloc, status)?,
        put: put.to_vec(alloc)?,
    })
}

/// These lines, one behind the other.
fn joined(alloc: Global, lines: &[Vec<u8>]) -> Result<Vec<u8>, AllocError> {
    let mut bytes = Vec::new(alloc);
    for line in lines {
        bytes.extend_from_slice(line)?;
    }
    Ok(bytes)
}

/// The status, and what is said of it.
fn ending_of(alloc: Global, status: &RunStatus) -> Result<String, AllocError> {
    let number = status.number();
    let text = format!(in alloc; "{status}")?;
    match text.as_str().strip_suffix("\n") {
        Some(line) => format!(in alloc; "{number} {line}"),
        None => format!(in alloc; "{number}{text}"),
    }
}

/// Why the words are no command line, where they aren't.
fn why_of(alloc: Global, status: &RunStatus) -> Result<String, AllocError> {
    let RunStatus::Usage(usage) = status else {
        return Ok(String::new(alloc));
    };
    match usage {
        Usage::Words => format!(in alloc; "words"),
        Usage::BadName { word } => {
            let word = word.as_str();
            format!(in alloc; "bad name {word}")
        }
        Usage::OrphanSub { word } => {
            let word = word.as_str();
            format!(in alloc; "orphan {word}")
        }
        Usage::TooMany { count } => format!(in alloc; "too many {count}"),
    }
}
