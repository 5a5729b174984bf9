//! A marker that comes before its decision has settled is skipped.
use crate::start::{numbered, start};
use std::alloc::{AllocError, Global};
use txn_base::{CoreEntry, Decision};
use txn_core::{Core, CoreStep};

/// How many entries are settled, and how many the part has in flight.
#[derive(Drop)]
pub struct Lengths {
    pub log: usize,
    pub part: usize,
    pub flight: usize,
}

fn marker() -> CoreEntry {
    CoreEntry::Marker {
        txn: numbered(0),
        decision: Decision::Commit,
    }
}

/// A transaction is begun, and has the part 1.
fn begin(alloc: Global) -> Result<Vec<CoreStep>, AllocError> {
    let added = CoreEntry::AddPart {
        txn: numbered(0),
        part: 1,
    };
    let steps = vec![in alloc;
        start(alloc, 0, &[CoreEntry::New { txn: numbered(0) }])?,
        CoreStep::Settle { part: 0 },
        start(alloc, 0, &[added])?,
        CoreStep::Settle { part: 0 },
    ]?;
    Ok(steps)
}

fn count_entries(alloc: Global, steps: &[CoreStep]) -> Result<Lengths, AllocError> {
    let core = Core::run_steps(alloc, steps)?;
    Ok(Lengths {
        log: core.settled(0).len(),
        part: core.settled(1).len(),
        flight: core.flight(1).len(),
    })
}

/// A part gets the commit marker of a transaction twice: before the decision starts, and after a stop lost it in flight.
pub fn core_skips_marker_without_decision(alloc: Global) -> Result<Lengths, AllocError> {
    let mut steps = begin(alloc)?;
    steps.push(start(alloc, 1, &[marker()])?)?;
    steps.push(start(alloc, 0, &[CoreEntry::Committing { txn: numbered(0) }])?)?;
    steps.push(CoreStep::Stop {
        part: 0,
        kept: false,
    })?;
    steps.push(start(alloc, 1, &[marker()])?)?;
    count_entries(alloc, steps.as_slice())
}

/// A part gets the commit marker of a transaction whose decision is in flight.
pub fn core_skips_marker_of_a_decision_in_flight(alloc: Global) -> Result<Lengths, AllocError> {
    let mut steps = begin(alloc)?;
    steps.push(start(alloc, 0, &[CoreEntry::Committing { txn: numbered(0) }])?)?;
    steps.push(start(alloc, 1, &[marker()])?)?;
    count_entries(alloc, steps.as_slice())
}
