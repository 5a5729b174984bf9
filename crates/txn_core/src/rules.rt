//! Which entries may be started.
ghost use Rattle.std.specs.Prelude.{◌≡◌, ◌++◌, [], length};
ghost use Rattle.txn_model.specs.Words.{all_follow};
ghost use Rattle.txn_model.specs.Coord.{coord_allows, is_open, is_deciding};
ghost use Rattle.txn_model.specs.Topic.{part_allows};
ghost use Rattle.txn_core.specs.Together.{is_alone};
ghost use Rattle.txn_core.specs.Steps.{is_decision};

use crate::lists::{count_new, has_part, marker_of, status_of};
use txn_base::{CoreEntry, Decision, Status, TxnId};

/// There is this decision.
pub fn is_decision(found: Option<Decision>, decision: Decision) -> bool
    ensures { result ≡ is_decision found decision }
{
    match (found, decision) {
        (Some(Decision::Commit), Decision::Commit) => true,
        (Some(Decision::Abort), Decision::Abort) => true,
        (_, _) => false,
    }
}

fn is_open(status: Option<Status>) -> bool
    ensures { result ≡ is_open status }
{
    matches!(status, Some(Status::Open))
}

fn is_deciding(decision: Decision, status: Option<Status>) -> bool
    ensures { result ≡ is_deciding decision status }
{
    match (decision, status) {
        (Decision::Commit, Some(Status::Committing)) => true,
        (Decision::Abort, Some(Status::Aborting)) => true,
        (_, _) => false,
    }
}

/// It is the transaction that is begun next.
fn is_next(list: &[CoreEntry], txn: TxnId) -> bool
    ensures { result ≡ coord_allows 62 list.now (CoreEntry.New txn) }
{
    txn.most == 0 && txn.least == count_new(list)
}

/// In the coordinator's log, the entry may follow these.
fn coord_allows(list: &[CoreEntry], entry: CoreEntry) -> bool
    ensures { result ≡ coord_allows 62 list.now entry }
{
    match entry {
        CoreEntry::New { txn } => is_next(list, txn),
        CoreEntry::AddPart { txn, part } => {
            is_open(status_of(list, txn)) && 1 <= part && part <= 62 && !has_part(list, txn, part)
        }
        CoreEntry::Committing { txn } => is_open(status_of(list, txn)),
        CoreEntry::Aborting { txn } => is_open(status_of(list, txn)),
        CoreEntry::Committed { txn } => is_deciding(Decision::Commit, status_of(list, txn)),
        CoreEntry::Aborted { txn } => is_deciding(Decision::Abort, status_of(list, txn)),
        CoreEntry::Plain => false,
        CoreEntry::Inside { .. } => false,
        CoreEntry::Marker { .. } => false,
    }
}

/// The transaction has no marker in either list.
fn is_unmarked(settled: &[CoreEntry], before: &[CoreEntry], txn: TxnId) -> bool
    ensures { result ≡ part_allows (settled.now ++ before.now) (CoreEntry.Inside txn) }
{
    marker_of(settled, txn).is_none() && marker_of(before, txn).is_none()
}

/// In the list of another part, the entry may follow both of these.
fn part_allows(settled: &[CoreEntry], before: &[CoreEntry], entry: CoreEntry) -> bool
    ensures { result ≡ part_allows (settled.now ++ before.now) entry }
{
    match entry {
        CoreEntry::Plain => true,
        CoreEntry::Inside { txn } => is_unmarked(settled, before, txn),
        CoreEntry::Marker { txn, .. } => is_unmarked(settled, before, txn),
        CoreEntry::New { .. } => false,
        CoreEntry::AddPart { .. } => false,
        CoreEntry::Committing { .. } => false,
        CoreEntry::Committed { .. } => false,
        CoreEntry::Aborting { .. } => false,
        CoreEntry::Aborted { .. } => false,
    }
}

/// Each of the entries of another part may follow the list and those before it.
fn all_follow(settled: &[CoreEntry], entries: &[CoreEntry]) -> bool
    ensures { result ≡ all_follow part_allows settled.now entries.now }
{
    let mut at = 0;
    while at < entries.len() {
        if !part_allows(settled, &entries[..at], entries[at]) {
            return false;
        }
        at += 1;
    }
    true
}

/// Each entry of the coordinator's log may follow those before it.
fn is_log(log: &[CoreEntry]) -> bool
    ensures { result ≡ all_follow (coord_allows 62) [] log.now }
{
    let mut at = 0;
    while at < log.len() {
        if !coord_allows(&log[..at], log[at]) {
            return false;
        }
        at += 1;
    }
    true
}

/// Behind the settled list of the part, the entries make a list that is lawful by itself.
#[tactic(auto, using(crate::proofs::Alone::log_split, crate::proofs::Alone::part_split))]
pub fn is_alone(part: u32, settled: &[CoreEntry], entries: &[CoreEntry]) -> bool
    requires one { part ≡ 0 → length entries.now ≡ 1 }
    ensures { result ≡ is_alone 62 part (settled.now ++ entries.now) }
{
    if part == 0 {
        return is_log(settled) && coord_allows(settled, entries[0]);
    }
    all_follow(&[], settled) && all_follow(settled, entries)
}
