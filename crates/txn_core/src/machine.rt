//! The core as a value.
ghost use Rattle.std.specs.Prelude.{◌≡◌, ◌≤◌, ◌<◌, ℕ, Bool, true, false, List, [], length, take, IfOk, OnOk, OnErr, Contains};
ghost use mathlib.Core.List.{IsPrefix};
ghost use Rattle.txn_model.specs.VisiblePlaces.{visible_places};
ghost use Rattle.std.specs.List.{list_all};
ghost use Rattle.txn_base.specs.declared.core_entry.CoreEntry.{CoreEntry};
ghost use Rattle.txn_core.specs.declared.step.Told.{Told};
ghost use Rattle.txn_core.specs.Together.{AreLawful};
ghost use Rattle.txn_core.specs.Steps.{started, no_row, settled_of, flight_of, kept_of, from_place, can, core_after, run, is_batch, may_start, may_cross, is_marked, start_row, settle_row, stop_row};

use crate::lists::{decision_of, has_part, marker_of};
use crate::rules::{is_alone, is_decision};
use crate::skeleton::Skeleton;
use crate::step::{CoreRow, CoreStep, Told};
use crate::visible::{count_visible, told_places};
use std::alloc::{AllocError, Global};
use std::marker::Model;
use txn_base::{CoreEntry, Decision, TxnId};

/// How many parts there are beside the coordinator.
const PARTS: u32 = 62;

/// With the coordinator.
const ROWS: usize = 63;

fn empty_row(alloc: Global) -> CoreRow
    ensures { result ≡ no_row }
{
    CoreRow {
        settled: Skeleton::new(alloc),
        flight: Skeleton::new(alloc),
        sure: false,
    }
}

/// What each part has settled and has in flight, and what was told.
#[derive(Drop)]
pub struct Core {
    alloc: Global,
    rows: Vec<CoreRow>,
    told: Vec<Told>,
}

impl Model for Core {
    ghost use Rattle.txn_core.specs.Steps.{CoreState};

    ghost Value = { CoreState };

    ghost view = { λ c. record { rows = c.rows.items; told = c.told.items } };
}

impl Core {
    /// The coordinator and 62 parts, of which none has any entry.
    pub fn new(alloc: Global) -> Result<Core, AllocError>
        ensures { IfOk result (λ c. c ≡ started 62) }
    {
        let mut rows = Vec::new(alloc);
        while rows.len() < ROWS {
            rows.push(empty_row(alloc))?;
        }
        Ok(Core {
            alloc,
            rows,
            told: Vec::new(alloc),
        })
    }

    /// Whether the step is allowed.
    pub fn can(&self, step: &CoreStep) -> bool
        ensures { result ≡ can 62 self.now step.now }
    {
        match step {
            CoreStep::Start { part, entries } => self.can_start(*part, entries.as_slice()),
            CoreStep::Settle { part } => match self.rows.get(*part as usize) {
                Some(row) => row.flight.len() > 0,
                None => false,
            },
            CoreStep::Stop { part, kept } => match self.rows.get(*part as usize) {
                Some(row) => row.flight.len() > 0 && (*kept || !row.sure),
                None => false,
            },
            CoreStep::Tell {
                topic,
                first,
                count,
            } => *count <= count_visible(self.settled(*topic), *first),
        }
    }

    /// The settled list of a part.
    pub fn settled(&self, part: u32) -> &[CoreEntry]
        ensures { result.now ≡ settled_of self.now part }
    {
        match self.rows.get(part as usize) {
            Some(row) => row.settled.as_slice(),
            None => &[],
        }
    }

    /// What a part has in flight.
    pub fn flight(&self, part: u32) -> &[CoreEntry]
        ensures { result.now ≡ flight_of self.now part }
    {
        match self.rows.get(part as usize) {
            Some(row) => row.flight.as_slice(),
            None => &[],
        }
    }

    /// What was told, from first to last.
    pub fn told(&self) -> &[Told]
        ensures { result.now ≡ self.now.told }
    {
        self.told.as_slice()
    }

    fn can_start(&self, part: u32, entries: &[CoreEntry]) -> bool
        ensures { result ≡ may_start 62 self.now part entries.now }
    {
        let Some(row) = self.rows.get(part as usize) else {
            return false;
        };
        row.flight.len() == 0
            && is_batch(part, entries.len())
            && is_alone(part, row.settled.as_slice(), entries)
            && self.all_cross(part, entries)
    }

    /// What each of the entries asks of the other lists.
    fn all_cross(&self, part: u32, entries: &[CoreEntry]) -> bool
        ensures { result ≡ list_all (may_cross (settled_of self.now) part) entries.now }
    {
        let mut rest = entries;
        while let Some((entry, tail)) = rest.split_first() {
            if !self.may_cross(part, *entry) {
                return false;
            }
            rest = tail;
        }
        true
    }

    /// What an entry asks of the other lists.
    fn may_cross(&self, part: u32, entry: CoreEntry) -> bool
        ensures { result ≡ may_cross (settled_of self.now) part entry }
    {
        match entry {
            CoreEntry::Inside { txn } => has_part(self.settled(0), txn, part),
            CoreEntry::Marker { txn, decision } => {
                is_decision(decision_of(self.settled(0), txn), decision)
            }
            CoreEntry::Committed { txn } => self.is_marked(txn, Decision::Commit),
            CoreEntry::Aborted { txn } => self.is_marked(txn, Decision::Abort),
            CoreEntry::Plain => true,
            CoreEntry::New { .. } => true,
            CoreEntry::AddPart { .. } => true,
            CoreEntry::Committing { .. } => true,
            CoreEntry::Aborting { .. } => true,
        }
    }

    /// Each part of the transaction has the marker of this decision.
    fn is_marked(&self, txn: TxnId, decision: Decision) -> bool
        ensures { result ≡ is_marked (settled_of self.now) txn decision }
    {
        let log = self.settled(0);
        let mut part = 1;
        while part <= PARTS {
            if has_part(log, txn, part)
                && !is_decision(marker_of(self.settled(part), txn), decision)
            {
                return false;
            }
            part += 1;
        }
        true
    }

    /// Makes a step. An `Err` changes nothing.
    pub fn step(&mut self, step: &CoreStep) -> Result<(), AllocError>
        requires { can 62 self.old step.now ≡ true }
        ensures ok { OnOk result (self.new ≡ core_after self.old step.now) }
        ensures err { OnErr result (self.new ≡ self.old) }
    {
        match step {
            CoreStep::Start { part, entries } => {
                start(&mut self.rows[*part as usize], entries.as_slice())
            }
            CoreStep::Settle { part } => settle(&mut self.rows[*part as usize]),
            CoreStep::Stop { part, kept } => stop(&mut self.rows[*part as usize], *kept),
            CoreStep::Tell {
                topic,
                first,
                count,
            } => {
                let places = told_places(self.alloc, self.settled(*topic), *first, *count)?;
                self.told.push(Told {
                    topic: *topic,
                    first: *first,
                    places,
                })?;
                Ok(())
            }
        }
    }

    /// Makes the steps one after another, without those that aren't allowed.
    pub fn run_steps(alloc: Global, steps: &[CoreStep]) -> Result<Core, AllocError>
        ensures fold { IfOk result (λ c. c ≡ run 62 steps.now (started 62)) }

        // Whatever is in flight, and whichever parts keep it, the lists are lawful together.
        ensures lawful { IfOk result (λ c. (stays : ℕ → Bool) → AreLawful 62 (kept_of c stays)) }

        // No list ever got shorter.
        ensures longer { IfOk result (λ c. (count p : ℕ) → IsPrefix (settled_of (run 62 (take count steps.now) (started 62)) p) (settled_of c p)) }

        // What was told are the first visible places of the lists as they are now.
        ensures told { IfOk result (λ c. (t : Told) → Contains c.told t → IsPrefix t.places (from_place t.first (visible_places (settled_of c t.topic)))) }
    {
        let mut core = Core::new(alloc)?;
        for step in steps {
            if core.can(step) {
                core.step(step)?;
            }
        }
        Ok(core)
    }
}

/// The coordinator starts one entry, and another part 1 to 64.
fn is_batch(part: u32, count: usize) -> bool
    ensures { (es : List CoreEntry) → length es ≡ count → result ≡ is_batch part es }
{
    let most = if part == 0 { 1 } else { 64 };
    1 <= count && count <= most
}

/// A part without a flight starts these entries.
fn start(row: &mut CoreRow, entries: &[CoreEntry]) -> Result<(), AllocError>
    requires { row.old.flight ≡ [] }
    ensures ok { OnOk result (row.new ≡ start_row entries.now row.old) }
    ensures err { OnErr result (row.new ≡ row.old) }
{
    row.flight.extend(entries)?;
    row.sure = false;
    Ok(())
}

/// The first entry in flight settles.
fn settle(row: &mut CoreRow) -> Result<(), AllocError>
    requires { 0 < length row.old.flight }
    ensures ok { OnOk result (row.new ≡ settle_row row.old) }
    ensures err { OnErr result (row.new ≡ row.old) }
{
    let first = row.flight.as_slice()[0];
    row.settled.push(first)?;
    row.flight.drop_first();
    row.sure = row.flight.len() > 0;
    Ok(())
}

/// The flight is kept or lost.
fn stop(row: &mut CoreRow, kept: bool) -> Result<(), AllocError>
    ensures ok { OnOk result (row.new ≡ stop_row kept row.old) }
    ensures err { OnErr result (row.new ≡ row.old) }
{
    if kept {
        row.settled.extend(row.flight.as_slice())?;
    }
    row.flight.clear();
    row.sure = false;
    Ok(())
}
