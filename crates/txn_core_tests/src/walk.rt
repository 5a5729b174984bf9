//! Random walks: steps of four parts, many of them near what is allowed, for the core and the plain reading side by side.
ghost use Rattle.std.specs.Prelude.{◌<◌};

use crate::random::Random;
use crate::reading::Reading;
use crate::rules::count_begun;
use crate::start::numbered;
use std::alloc::{AllocError, Global};
use txn_base::{CoreEntry, Decision, TxnId};
use txn_core::{Core, CoreStep, Skeleton};

/// How many steps of a walk were made, how many entries are settled at its end and how many tellings there were, and how
/// often the core and the reading differ.
#[derive(Drop)]
pub struct Counts {
    pub made: u64,
    pub entries: usize,
    pub told: usize,
    pub different: u64,
}

/// Takes 1,000 steps. All is compared at the end, and the steps are made once more, in one go.
pub fn walk(alloc: Global, seed: u64) -> Result<Counts, AllocError> {
    let mut random = Random::new(seed);
    let mut core = Core::new(alloc)?;
    let mut reading = Reading::new(alloc)?;
    let mut steps = Vec::new(alloc);
    let mut made = 0_u64;
    let mut different = 0_u64;
    for place in 0..1000_u64 {
        let step = next_step(alloc, &mut random, &reading)?;
        let allowed = reading.allows(&step)?;
        if allowed {
            reading.make(&step)?;
            made = made.saturating_add(1);
        }
        if core.can(&step) != allowed {
            different = different.saturating_add(1);
        }
        if core.can(&step) {
            core.step(&step)?;
        }
        if place % 100 == 99 && !reading.is_lawful_whatever_stays(&core, 4)? {
            different = different.saturating_add(1);
        }
        steps.push(step)?;
    }
    let again = Core::run_steps(alloc, steps.as_slice())?;
    if !reading.is_same(&core) || !reading.is_same(&again) || !reading.still_tells()? {
        different = different.saturating_add(1);
    }
    Ok(Counts {
        made,
        entries: reading.count_entries(),
        told: reading.count_told(),
        different,
    })
}

/// A step of one of four parts, the coordinator more often than another.
fn next_step(
    alloc: Global,
    random: &mut Random,
    reading: &Reading,
) -> Result<CoreStep, AllocError> {
    let part = below(random, 6).saturating_sub(2);
    let is_flying = reading.flight(part).len() > 0;
    let begun = count_begun(reading.settled(0));
    match random.below(16) {
        0 | 1 => Ok(CoreStep::Stop {
            part,
            kept: random.below(2) == 0,
        }),
        2 => Ok(CoreStep::Tell {
            topic: part,
            first: random.below(6),
            count: random.below(3),
        }),
        3..=14 if is_flying => Ok(CoreStep::Settle { part }),
        _ => {
            let entries = next_batch(alloc, random, part, begun)?;
            Ok(CoreStep::Start { part, entries })
        }
    }
}

/// A number below the bound.
fn below(random: &mut Random, bound: u32) -> u32
    requires { 0 < bound }
{
    (random.below(u64::from(bound)) & 0xff) as u32
}

/// Mostly one entry, sometimes none or a few, of one of the last transactions; or as many plain ones as a batch may have, or
/// one more.
fn next_batch(
    alloc: Global,
    random: &mut Random,
    part: u32,
    begun: u64,
) -> Result<Skeleton, AllocError> {
    let mut count = match random.below(16) {
        0 => 64_u64,
        1 => 65,
        2 => 0,
        3 | 4 => 3,
        5 => 2,
        _ => 1,
    };
    if part == 0 && count != 0 && random.below(8) != 0 {
        count = 1;
    }
    let txn = numbered(begun.saturating_sub(random.below(5)));
    let mut entries = Skeleton::new(alloc);
    for _ in 0..count {
        let entry = if part != 0 && count > 3 {
            CoreEntry::Plain
        } else {
            next_entry(random, part, txn, begun)
        };
        entries.push(entry)?;
    }
    Ok(entries)
}

/// An entry of the transaction for the part, mostly of its kind, or the New of the next transaction.
fn next_entry(random: &mut Random, part: u32, txn: TxnId, begun: u64) -> CoreEntry {
    let is_log = (part == 0) != (random.below(32) == 0);
    let choice = random.below(8);
    if is_log {
        return next_log_entry(random, choice, txn, begun);
    }
    match choice {
        0 => CoreEntry::Plain,
        1..=3 => CoreEntry::Inside { txn },
        4 | 5 => CoreEntry::Marker {
            txn,
            decision: Decision::Commit,
        },
        _ => CoreEntry::Marker {
            txn,
            decision: Decision::Abort,
        },
    }
}

fn next_log_entry(random: &mut Random, choice: u64, txn: TxnId, begun: u64) -> CoreEntry {
    match choice {
        0 => CoreEntry::New {
            txn: numbered(begun),
        },
        1..=3 => CoreEntry::AddPart {
            txn,
            part: below(random, 4),
        },
        4 => CoreEntry::Committing { txn },
        5 => CoreEntry::Aborting { txn },
        6 => CoreEntry::Committed { txn },
        _ => CoreEntry::Aborted { txn },
    }
}
