//! Each call of a run fails in turn, and then the machine stops.
use crate::compare::first_other;
use crate::running::{Came, run_lines};
use std::alloc::{AllocError, Global};
use txn_base::{FileId, Limits};
use txn_memdisk::{Choice, FaultAt, MemDisk, Op};
use txn_story::{CHOICES, LOG, Script, TOPIC, Wrong, lines_in, told};

/// A run that was told, and the disk on which it began.
#[derive(Drop)]
pub struct Past {
    pub script: Script,
    pub limits: Limits,
    pub before: MemDisk,
}

/// What a look at the disk may put where the run was at a line, besides what it puts after whole lines.
#[derive(Drop)]
pub struct Also {
    pub line: usize,
    pub put: Vec<u8>,
}

/// What a look at the disk may see after a run in which this call failed: where the lines that were answered have been done, or
/// also the line at which it failed, of this number.
#[derive(Drop)]
struct Allowed {
    fault: FaultAt,
    line: usize,
    without: Came,
    with: Came,
}

/// The line of a run at which a call failed, counted from 0: whether the run goes on behind it, and whether it put a reply.
#[derive(Clone, Copy)]
struct Failure {
    at: usize,
    goes_on: bool,
    has_replies: bool,
}

const OPS: [Op; 5] = [Op::Size, Op::Read, Op::WriteAt, Op::Resize, Op::Sync];

/// Each call of the run fails once, and the machine stops behind it: what was answered stands. How many calls there were.
pub fn sweep(alloc: Global, past: &Past, look: &Script, also: &[Also]) -> Result<u64, Wrong> {
    let mut disk = past.before.crash(Choice::New)?;
    let whole = past.run(alloc, &past.script.lines, &mut disk)?;
    sweep_over(alloc, past, &whole, look, also, &disk)
}

/// Each call fails of a run that came out so, and left this disk.
fn sweep_over(
    alloc: Global,
    past: &Past,
    whole: &Came,
    look: &Script,
    also: &[Also],
    disk: &MemDisk,
) -> Result<u64, Wrong> {
    each_is_answered(alloc, &past.script.lines, whole)?;
    let files = files_of(disk)?;
    fail_each(alloc, past, whole, look, also, &files)
}

/// Each line had a reply.
fn each_is_answered(alloc: Global, lines: &[Vec<u8>], whole: &Came) -> Result<(), Wrong> {
    let lines = lines.len();
    let replies = lines_in(alloc, &whole.put)?.len();
    if replies == lines {
        return Ok(());
    }
    Err(Wrong::Came {
        what: String::from_str(alloc, "the replies of a run whose calls fail")?,
        want: format!(in alloc; "{lines}")?,
        came: format!(in alloc; "{replies}")?,
    })
}

/// Each call on these files fails. How many there were.
fn fail_each(
    alloc: Global,
    past: &Past,
    whole: &Came,
    look: &Script,
    also: &[Also],
    files: &[FileId],
) -> Result<u64, Wrong> {
    let mut count = 0u64;
    for file in files {
        for op in &OPS {
            for nth in 1..u64::MAX {
                let fault = FaultAt {
                    file: *file,
                    op: *op,
                    nth,
                };
                if !fails_once(alloc, past, whole, look, also, fault)? {
                    break;
                }
                count = count.saturating_add(1);
            }
        }
    }
    Ok(count)
}

/// The files of a disk, the log and the first topic's ledger among them though nothing was ever written there.
fn files_of(disk: &MemDisk) -> Result<Vec<FileId>, AllocError> {
    let mut files = disk.files()?;
    for file in [LOG, TOPIC] {
        if !files.contains(&file) {
            files.push(file)?;
        }
    }
    Ok(files)
}

impl Past {
    /// Runs it once more, with these lines on this disk.
    pub fn run(&self, alloc: Global, lines: &[Vec<u8>], disk: &mut MemDisk) -> Result<Came, Wrong> {
        run_lines(alloc, &self.script, &self.limits, lines, disk)
    }
}

/// What a look sees behind these lines, where no call fails.
pub fn seen_after(
    alloc: Global,
    past: &Past,
    look: &Script,
    lines: &[Vec<u8>],
) -> Result<Came, Wrong> {
    let mut disk = past.before.crash(Choice::New)?;
    seen_on(alloc, past, look, lines, &mut disk)
}

/// What a look sees behind these lines on this disk.
fn seen_on(
    alloc: Global,
    past: &Past,
    look: &Script,
    lines: &[Vec<u8>],
    disk: &mut MemDisk,
) -> Result<Came, Wrong> {
    let _ = past.run(alloc, lines, disk)?;
    run_lines(alloc, look, &past.limits, &look.lines, disk)
}

/// One call fails. Whether the run came to it.
fn fails_once(
    alloc: Global,
    past: &Past,
    whole: &Came,
    look: &Script,
    also: &[Also],
    fault: FaultAt,
) -> Result<bool, Wrong> {
    let mut disk = past.before.crash(Choice::New)?;
    disk.fail(&[fault])?;
    let came = past.run(alloc, &past.script.lines, &mut disk)?;
    if disk.failed_calls() == 0 {
        return Ok(false);
    }
    let allowed = allowed_after(alloc, past, whole, look, &came, fault)?;
    crash_each(alloc, past, look, also, &disk, &allowed)?;
    Ok(true)
}

/// The machine stops behind a run, and a look sees what it may.
fn crash_each(
    alloc: Global,
    past: &Past,
    look: &Script,
    also: &[Also],
    disk: &MemDisk,
    allowed: &Allowed,
) -> Result<(), Wrong> {
    for choice in &CHOICES {
        let seen = seen_behind(alloc, past, look, disk, *choice)?;
        compare_look(alloc, allowed, also, *choice, &seen)?;
    }
    Ok(())
}

/// A look saw what it may.
fn compare_look(
    alloc: Global,
    allowed: &Allowed,
    also: &[Also],
    choice: Choice,
    seen: &Came,
) -> Result<(), Wrong> {
    if seen.ending.as_str() == "0" && allows(allowed, also, &seen.put) {
        return Ok(());
    }
    Err(seen_otherwise(alloc, choice, allowed, seen)?)
}

/// What a look sees behind a crash.
fn seen_behind(
    alloc: Global,
    past: &Past,
    look: &Script,
    disk: &MemDisk,
    choice: Choice,
) -> Result<Came, Wrong> {
    let mut left = disk.crash(choice)?;
    run_lines(alloc, look, &past.limits, &look.lines, &mut left)
}

/// A look saw what it may not.
fn seen_otherwise(
    alloc: Global,
    choice: Choice,
    allowed: &Allowed,
    seen: &Came,
) -> Result<Wrong, AllocError> {
    let file = allowed.fault.file.part;
    let op = allowed.fault.op;
    let nth = allowed.fault.nth;
    let ending = seen.ending.as_str();
    Ok(Wrong::Came {
        what: format!(in alloc;
            "fault part {file} {op:?} {nth}, crash {choice:?}, status {ending}"
        )?,
        want: told(alloc, &allowed.without.put)?,
        came: told(alloc, &seen.put)?,
    })
}

fn allows(allowed: &Allowed, also: &[Also], put: &Vec<u8>) -> bool {
    *put == allowed.without.put
        || *put == allowed.with.put
        || also
            .iter()
            .any(|one| one.line == allowed.line && *put == one.put)
}

/// What may be seen behind a run in which a call failed.
fn allowed_after(
    alloc: Global,
    past: &Past,
    whole: &Came,
    look: &Script,
    came: &Came,
    fault: FaultAt,
) -> Result<Allowed, Wrong> {
    let Some(failure) = failure_in(alloc, whole, came)? else {
        return Err(told_otherwise(alloc, whole, came)?);
    };
    Ok(Allowed {
        fault,
        line: failure.at.saturating_add(1),
        without: seen_with(alloc, past, look, failure, false)?,
        with: seen_with(alloc, past, look, failure, failure.has_replies)?,
    })
}

/// The line at which a call failed, where the run tells of it as it has to.
fn failure_in(alloc: Global, whole: &Came, came: &Came) -> Result<Option<Failure>, AllocError> {
    let replies = lines_in(alloc, &came.put)?;
    let wholes = lines_in(alloc, &whole.put)?;
    let at = first_other(&replies, &wholes);
    let goes_on = came.ending.as_str() == "0";
    let behind = at.saturating_add(1);
    let is_told = if goes_on {
        is_fault(replies.get(at)) && replies.get(behind..) == wholes.get(behind..)
    } else {
        came.ending.as_str() == "5 disk fault"
            && (replies.is_empty() || (replies.len() == behind && is_fault(replies.get(at))))
    };
    let has_replies = !replies.is_empty();
    Ok(is_told.then_some(Failure {
        at,
        goes_on,
        has_replies,
    }))
}

/// A run in which a call failed put what it may not put.
fn told_otherwise(alloc: Global, whole: &Came, came: &Came) -> Result<Wrong, AllocError> {
    Ok(Wrong::Came {
        what: String::from_str(alloc, "a call failed")?,
        want: told(alloc, &whole.put)?,
        came: told(alloc, &came.put)?,
    })
}

/// What a look sees behind the lines that were done, where the failed one was done or wasn't.
fn seen_with(
    alloc: Global,
    past: &Past,
    look: &Script,
    failure: Failure,
    has_it: bool,
) -> Result<Came, Wrong> {
    let lines = picked(
        alloc,
        &past.script.lines,
        failure.at,
        failure.goes_on,
        has_it,
    )?;
    seen_after(alloc, past, look, &lines)
}

/// A reply that tells of a fault.
fn is_fault(reply: Option<&&[u8]>) -> bool {
    match reply {
        Some(reply) => match str::from_utf8(reply) {
            Ok(text) => text.contains("\"fault\""),
            Err(_) => false,
        },
        None => false,
    }
}

/// The lines before a place, that there where it is to be had, and those behind it where the run goes on.
fn picked(
    alloc: Global,
    lines: &[Vec<u8>],
    at: usize,
    goes_on: bool,
    has_it: bool,
) -> Result<Vec<Vec<u8>>, AllocError> {
    let mut all = Vec::new(alloc);
    for (i, line) in lines.iter().enumerate() {
        if i < at || (i == at && has_it) || (i > at && goes_on) {
            all.push(line.clone()?)?;
        }
    }
    Ok(all)
}
