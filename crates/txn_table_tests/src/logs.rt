//! Every list of entries of one length.
ghost use Rattle.std.specs.Prelude.{◌++◌};
ghost use Rattle.txn_base.specs.Records.{IsCoordEntry};
ghost use Rattle.txn_table.specs.Table.{AreEntries};

use crate::digest::{Counts, mixed};
use crate::entries::{CHOICES, entry_beside, entry_of, numbered};
use std::alloc::{AllocError, Global};
use txn_base::{CoordEntry, Decision, Status, TxnId};
use txn_table::Table;

/// Tries each list of so many entries. The last ones, `staged` of them, aren't added to the table.
pub fn count_logs(alloc: Global, length: u64, staged: u64) -> Result<Counts, AllocError> {
    let mut counts = Counts {
        tried: 0,
        taken: 0,
        answers: 0,
    };
    let mut lists = 1_u64;
    for _ in 0..length {
        lists = lists.saturating_mul(CHOICES);
    }
    for list in 0..lists {
        try_log(alloc, list, length, staged, &mut counts)?;
    }
    Ok(counts)
}

/// Plays one list, without the entries that aren't allowed.
fn try_log(
    alloc: Global,
    list: u64,
    length: u64,
    staged: u64,
    counts: &mut Counts,
) -> Result<(), AllocError> {
    let mut table = Table::new(alloc);
    let mut digits = list;
    let added = length.saturating_sub(staged);
    for _ in 0..added {
        if add(&mut table, entry_of(digits % CHOICES))? {
            counts.taken = counts.taken.saturating_add(1);
        }
        digits /= CHOICES;
    }
    let _count = table.count();
    let mut ahead = Vec::new(alloc);
    let taken = stage_all(&table, &mut ahead, digits, length.min(staged))?;
    counts.taken = counts.taken.saturating_add(taken);
    counts.tried = counts.tried.saturating_add(1);
    let answers = ask(&table);
    let answers = ask_after(&table, ahead.as_slice(), answers);
    counts.answers = mixed(counts.answers, answers);
    Ok(())
}

/// Adds an entry to the table, if it is allowed there.
fn add(table: &mut Table, entry: CoordEntry) -> Result<bool, AllocError>
    requires { IsCoordEntry entry }
{
    if !table.allows(&entry) {
        return Ok(false);
    }
    table.reserve(1)?;
    table.apply(entry);
    Ok(true)
}

/// Stages so many entries behind those of the table, without those that aren't allowed there.
fn stage_all(
    table: &Table,
    ahead: &mut Vec<CoordEntry>,
    list: u64,
    count: u64,
) -> Result<u64, AllocError>
    requires { AreEntries (table.now.front ++ ahead.old.items) }
    ensures { AreEntries (table.now.front ++ ahead.new.items) }
{
    let mut taken = 0_u64;
    let mut digits = list;
    for _ in 0..count {
        if stage(table, ahead, entry_of(digits % CHOICES))? {
            taken = taken.saturating_add(1);
        }
        digits /= CHOICES;
    }
    Ok(taken)
}

fn stage(table: &Table, ahead: &mut Vec<CoordEntry>, entry: CoordEntry) -> Result<bool, AllocError>
    requires fits { IsCoordEntry entry }
    requires entries { AreEntries (table.now.front ++ ahead.old.items) }
    ensures { AreEntries (table.now.front ++ ahead.new.items) }
{
    if !table.allows_after(ahead.as_slice(), 62, &entry) {
        return Ok(false);
    }
    ahead.push(entry)?;
    Ok(true)
}

/// What a table answers of itself and of four transactions, two of which there can't be.
fn ask(table: &Table) -> u64 {
    let elsewhere = TxnId { most: 1, least: 0 };
    let mut answers = mixed(table.count(), table.low());
    answers = mixed(answers, table.undriven_count());
    answers = mixed(
        answers,
        match table.first_undriven() {
            Some(txn) => txn.least.wrapping_add(1),
            None => 0,
        },
    );
    for txn in [numbered(0), numbered(1), numbered(2), elsewhere] {
        answers = mixed(answers, number_of_status(table.status(txn)));
        answers = mixed(answers, number_of_decision(table.decision(txn)));
        answers = mixed(answers, table.parts(txn));
        answers = mixed(answers, if table.has_part(txn, 1) { 1 } else { 0 });
    }
    answers
}

/// Which entries may follow, where 62 parts are named and where one is.
fn ask_after(table: &Table, ahead: &[CoordEntry], before: u64) -> u64
    requires { AreEntries (table.now.front ++ ahead.now) }
{
    let mut answers = before;
    for choice in 0..CHOICES {
        let entry = entry_of(choice);
        answers = mixed(answers, may(table.allows_after(ahead, 62, &entry)));
        answers = mixed(answers, may(table.allows_after(ahead, 0, &entry)));
    }
    for choice in 0..7_u64 {
        let entry = entry_beside(choice);
        answers = mixed(answers, may(table.allows_after(ahead, 62, &entry)));
        answers = mixed(answers, may(table.allows_after(ahead, 61, &entry)));
    }
    answers
}

fn may(allowed: bool) -> u64 {
    if allowed { 1 } else { 0 }
}

fn number_of_status(status: Option<Status>) -> u64 {
    match status {
        None => 0,
        Some(Status::Open) => 1,
        Some(Status::Committing) => 2,
        Some(Status::Committed) => 3,
        Some(Status::Aborting) => 4,
        Some(Status::Aborted) => 5,
    }
}

fn number_of_decision(decision: Option<Decision>) -> u64 {
    match decision {
        None => 0,
        Some(Decision::Commit) => 1,
        Some(Decision::Abort) => 2,
    }
}
