//! Every list of up to four steps of the coordinator and one part more, over two transactions, and of up to three where two
//! parts have the markers of one.
ghost use Rattle.std.specs.Prelude.{◌<◌};

use crate::reading::Reading;
use crate::start::{numbered, start};
use std::alloc::{AllocError, Global};
use txn_base::{CoreEntry, Decision};
use txn_core::{Core, CoreStep};

/// What was done before a list begins.
#[derive(Clone, Copy)]
pub enum Front {
    Nothing,
    /// Two transactions are begun, and the first has the part and a message in it.
    Registered,
    /// Besides, the first is to be committed, and its marker is in flight.
    Decided,
    /// The first has two parts and is to be committed, and its marker is settled at one of them, which has written one of
    /// three entries since.
    Marked,
}

/// How many steps there are to choose from.
fn count_choices(front: Front) -> u64
    ensures { 0 < result }
{
    match front {
        Front::Marked => 32,
        _ => 27,
    }
}

/// The most steps that a list has, and the parts that its steps are of.
fn bounds(front: Front) -> (u64, u32)
    ensures { result.1 < 32 }
{
    match front {
        Front::Marked => (3, 3),
        _ => (4, 2),
    }
}

/// How many lists were tried, how many of their steps were made, and how many lists the core and the reading see otherwise,
/// or violate a rule.
#[derive(Drop)]
pub struct Counts {
    pub lists: u64,
    pub made: u64,
    pub different: u64,
}

/// Tries every list of up to so many steps.
pub fn count_lists(alloc: Global, front: Front) -> Result<Counts, AllocError> {
    let mut counts = Counts {
        lists: 0,
        made: 0,
        different: 0,
    };
    let choices = count_choices(front);
    let (most, parts) = bounds(front);
    let mut lists = 1_u64;
    for length in 0..most.saturating_add(1) {
        for list in 0..lists {
            let mut steps = front_steps(alloc, front)?;
            let mut digits = list;
            for _ in 0..length {
                steps.push(step_of(alloc, digits % choices)?)?;
                digits /= choices;
            }
            try_list(alloc, steps.as_slice(), parts, &mut counts)?;
        }
        lists = lists.saturating_mul(choices);
    }
    Ok(counts)
}

/// Makes the steps in one go but the last, and that one by itself: whether it is allowed is compared too.
fn try_list(
    alloc: Global,
    steps: &[CoreStep],
    parts: u32,
    counts: &mut Counts,
) -> Result<(), AllocError>
    requires { parts < 32 }
{
    let mut reading = Reading::new(alloc)?;
    let mut allowed = false;
    for step in steps {
        allowed = reading.allows(step)?;
        if allowed {
            reading.make(step)?;
            counts.made = counts.made.saturating_add(1);
        }
    }
    counts.lists = counts.lists.saturating_add(1);
    let (core, could) = core_after(alloc, steps)?;
    let holds = could == allowed
        && reading.is_same(&core)
        && reading.still_tells()?
        && reading.is_lawful_whatever_stays(&core, parts)?;
    if !holds {
        counts.different = counts.different.saturating_add(1);
    }
    Ok(())
}

/// The core after the steps, and whether it allowed the last.
fn core_after(alloc: Global, steps: &[CoreStep]) -> Result<(Core, bool), AllocError> {
    let Some((last, front)) = steps.split_last() else {
        return Ok((Core::new(alloc)?, false));
    };
    let mut core = Core::run_steps(alloc, front)?;
    let could = core.can(last);
    if could {
        core.step(last)?;
    }
    Ok((core, could))
}

/// Starts one entry and settles it.
fn settle_all(
    alloc: Global,
    part: u32,
    entries: &[CoreEntry],
    steps: &mut Vec<CoreStep>,
) -> Result<(), AllocError> {
    for entry in entries {
        steps.push(start(alloc, part, &[*entry])?)?;
        steps.push(CoreStep::Settle { part })?;
    }
    Ok(())
}

fn front_steps(alloc: Global, front: Front) -> Result<Vec<CoreStep>, AllocError> {
    let mut steps = Vec::new(alloc);
    if matches!(front, Front::Nothing) {
        return Ok(steps);
    }
    let first = numbered(0);
    let begun = [
        CoreEntry::New { txn: first },
        CoreEntry::New { txn: numbered(1) },
        CoreEntry::AddPart {
            txn: first,
            part: 1,
        },
    ];
    settle_all(alloc, 0, begun.as_slice(), &mut steps)?;
    settle_all(alloc, 1, &[CoreEntry::Inside { txn: first }], &mut steps)?;
    match front {
        Front::Decided => decide(alloc, &mut steps)?,
        Front::Marked => mark_one(alloc, &mut steps)?,
        _ => {}
    }
    Ok(steps)
}

fn marker() -> CoreEntry {
    CoreEntry::Marker {
        txn: numbered(0),
        decision: Decision::Commit,
    }
}

/// The first transaction is to be committed, and its marker is in flight.
fn decide(alloc: Global, steps: &mut Vec<CoreStep>) -> Result<(), AllocError> {
    let decided = CoreEntry::Committing { txn: numbered(0) };
    settle_all(alloc, 0, &[decided], steps)?;
    steps.push(start(alloc, 1, &[marker()])?)?;
    Ok(())
}

/// The first transaction has a second part and is to be committed, and its marker is settled at the first part, which has
/// settled one of three entries since.
fn mark_one(alloc: Global, steps: &mut Vec<CoreStep>) -> Result<(), AllocError> {
    let more = [
        CoreEntry::AddPart {
            txn: numbered(0),
            part: 2,
        },
        CoreEntry::AddPart {
            txn: numbered(1),
            part: 1,
        },
        CoreEntry::Committing { txn: numbered(0) },
    ];
    settle_all(alloc, 0, more.as_slice(), steps)?;
    settle_all(alloc, 1, &[marker()], steps)?;
    let three = [
        CoreEntry::Plain,
        CoreEntry::Inside { txn: numbered(1) },
        CoreEntry::Plain,
    ];
    steps.push(start(alloc, 1, three.as_slice())?)?;
    steps.push(CoreStep::Settle { part: 1 })?;
    Ok(())
}

/// The step of this number.
fn step_of(alloc: Global, number: u64) -> Result<CoreStep, AllocError> {
    match number {
        0..=11 => start(alloc, 0, &[log_entry(number)]),
        12..=18 => start(alloc, 1, &[part_entry(number)]),
        19 => Ok(CoreStep::Settle { part: 0 }),
        20 => Ok(CoreStep::Settle { part: 1 }),
        21..=24 => Ok(CoreStep::Stop {
            part: if number < 23 { 0 } else { 1 },
            kept: number % 2 == 1,
        }),
        25 | 26 => Ok(CoreStep::Tell {
            topic: 1,
            first: number % 2,
            count: 1,
        }),
        27 => start(alloc, 1, &[]),
        28 => start(alloc, 1, &[CoreEntry::Plain, part_entry(13)]),
        29 => start(alloc, 2, &[marker()]),
        30 => Ok(CoreStep::Settle { part: 2 }),
        _ => start(alloc, 0, two_begun().as_slice()),
    }
}

/// Each would be allowed, one after the other.
fn two_begun() -> [CoreEntry; 2] {
    [
        CoreEntry::New { txn: numbered(2) },
        CoreEntry::New { txn: numbered(3) },
    ]
}

/// An entry of the coordinator, of the transaction 0 where the number is even, and of 1 where it is odd.
fn log_entry(number: u64) -> CoreEntry {
    let txn = numbered(number % 2);
    match number / 2 {
        0 => CoreEntry::New { txn },
        1 => CoreEntry::AddPart { txn, part: 1 },
        2 => CoreEntry::Committing { txn },
        3 => CoreEntry::Aborting { txn },
        4 => CoreEntry::Committed { txn },
        _ => CoreEntry::Aborted { txn },
    }
}

/// An entry of the other part.
fn part_entry(number: u64) -> CoreEntry {
    let txn = numbered(number % 2);
    match number / 2 {
        6 => CoreEntry::Inside { txn },
        7 => CoreEntry::Marker {
            txn,
            decision: Decision::Commit,
        },
        8 => CoreEntry::Marker {
            txn,
            decision: Decision::Abort,
        },
        _ => CoreEntry::Plain,
    }
}
