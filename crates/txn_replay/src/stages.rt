//! A state to which the records of a step are added together, after each of them was tested.
ghost use Rattle.std.specs.Prelude.{◌≡◌, ◌≤◌, ◌<◌, ◌+◌, ◌-◌, ◌^◌, ◌++◌, [], ◌∷◌, ℕ, Ok, Err, length, take, min, IfOk, IfErr, IfSome, IfNone, OnOk, OnErr};
ghost use Rattle.txn_base.specs.Frames.{records};
ghost use Rattle.txn_ledger.specs.Reading.{ReadsOn};
ghost use Rattle.txn_replay.specs.Fronts.{Takes, IsDamage};
ghost use Rattle.txn_replay.specs.Reading.{IsReadTo, OnlyReads};

use crate::grammar::Grammar;
use crate::replays::{Replays, replay_to};
use std::alloc::{AllocError, Global};
use std::marker::Model;
use std::sync::ledger;
use txn_base::{Bytes, Disk, MendError, Steps};
use txn_ledger::RecordLog;

/// A state that tests an entry behind its own and some that it has not taken yet, and takes them together.
pub trait Stages: Grammar {
    ghost use Rattle.std.specs.Prelude.{◌≡◌, ℕ, List};

    /// The entries that it was rebuilt from.
    ghost front: { Self → List Self.Entry };

    /// The rule by which they may follow each other.
    ghost rule: { Self → ℕ };

    /// Reads a record. None exactly where it is outside the grammar.
    fn read(&self, bytes: &Bytes) -> Option<Self::Entry>
        ensures some { IfSome result (λ e. e ≡ Self.entry_of bytes.now.bytes) }
        ensures grammar { IfSome result
            (λ _. Self.is_record bytes.now.bytes (Self.entry_of bytes.now.bytes)) }
        ensures none { IfNone result ((e : Self.Entry) → Self.is_record bytes.now.bytes e → ⊥) };

    /// Whether an entry is allowed after its own and the staged ones.
    fn allows(&self, staged: &[Self::Entry], entry: &Self::Entry) -> bool
        requires { Self.lawful (rule self.now) (front self.now ++ staged.now) }
        ensures { result ≡ Self.allows (rule self.now) (front self.now ++ staged.now) entry.now };

    /// Takes all of these, or none.
    fn add_all(&mut self, staged: &[Self::Entry]) -> Result<(), AllocError>
        requires lawful { Self.lawful (rule self.old) (front self.old ++ staged.now) }
        requires few { length (front self.old) + length staged.now < 2 ^ 64 }
        ensures ok { OnOk result (front self.new ≡ front self.old ++ staged.now) }
        ensures err { OnErr result (front self.new ≡ front self.old) }
        ensures rule { rule self.new ≡ rule self.old };
}

/// A state, and the entries that a step has read behind its own.
#[derive(Drop)]
struct Step<'a, S: Stages> {
    state: &'a S,
    /// How many they are, its own and these.
    count: u64,
    staged: Vec<S::Entry>,
}

impl<'a, S: Stages> Grammar for Step<'a, S> {
    type Entry = S::Entry;

    ghost entry_of = { S.entry_of };

    ghost is_record = { S.is_record };

    ghost allows = { S.allows };

    ghost lawful = { S.lawful };

    ghost goes_on = { S.goes_on };

    ghost ends_in = { S.ends_in };
}

impl<'a, S: Stages> Model for Step<'a, S> {
    ghost use Rattle.std.specs.Prelude.{◌≡◌, ◌++◌, length};
    ghost use Rattle.txn_replay.specs.Staged.{StepView};

    ghost Value = { StepView S.Entry };

    ghost view = { λ s. record { own = S.front s.state.now; staged = s.staged.items; rule = S.rule s.state.now } };

    ghost invariant = { λ s. s.count ≡ length (S.front s.state.now ++ s.staged.items) };
}

impl<'a, S: Stages> Replays for Step<'a, S> {
    ghost use Rattle.std.specs.Prelude.{◌++◌};
    ghost use Rattle.std.proofs.Common.{sym};
    ghost use Rattle.std.proofs.Math.Seq.{take-append_seam};

    ghost front = { λ s. s.own ++ s.staged };

    ghost rule = { λ s. s.rule };

    ghost own = { λ s. s.own };

    ghost own_first = { λ s. sym (take-append_seam s.own s.staged) };

    fn len(&self) -> u64 {
        self.count
    }

    fn take(&mut self, bytes: &Bytes) -> Result<bool, AllocError> {
        let Some(entry) = self.state.read(bytes) else {
            return Ok(false);
        };
        if !self.state.allows(&self.staged, &entry) {
            return Ok(false);
        }
        if self.staged.push(entry).is_err() {
            return Err(AllocError);
        }
        self.count += 1;
        Ok(true)
    }
}

/// Reads the next records of a log, `step` of them or all that are left, and adds their entries to those of a state. Each is
/// read once. A step that is refused leaves the position and the state as they were.
pub fn replay_step<R: RecordLog, S: Stages, D: Disk, L: ledger::Ledger>(
    alloc: Global,
    log: &R,
    state: &mut S,
    disk: &mut D,
    at: &mut u64,
    step: u64,
    steps: &mut Steps<L>,
) -> Result<(), MendError>
    requires ready { IsReadTo S.Grammar (S.rule state.old) (S.front state.old) at.old
        R.RecordLog D.Disk disk.old (R.content log.now) }
    ensures at { at.new ≡ length (S.front state.new) }
    ensures grown { OnOk result
        (at.new ≡ min (length (records (R.content log.now).batches)) (at.old + step)) }
    ensures same { OnErr result ((at.new ≡ at.old) × (S.front state.new ≡ S.front state.old)) }
    ensures taken { Takes S.Grammar (S.rule state.old) D.tells (R.content log.now).batches
        (S.front state.old) (S.front state.new) }
    ensures damaged { (place : ℕ) → result ≡ Err (MendError.Damaged place) →
        IsDamage S.Grammar (S.rule state.old) D.tells (R.content log.now).batches
        (S.front state.old) at.old (min (length (records (R.content log.now).batches)) (at.old + step)) place }
    ensures rule { S.rule state.new ≡ S.rule state.old }
    ensures counted { OnOk result (steps.new + at.old ≡ steps.old + at.new) }
    ensures few { steps.new + at.old ≤ steps.old +
        min (length (records (R.content log.now).batches)) (at.old + step) }
    ensures reads { OnlyReads D.Disk (R.content log.now).key.part
        (result ≡ Err MendError.Fault) disk.old disk.new }
{
    let end = log.len().min(at.saturating_add(step));
    let staged = stage(alloc, log, state, disk, *at, end, steps)?;
    if state.add_all(&staged).is_err() {
        return Err(MendError::NoMemory);
    }
    *at = end;
    Ok(())
}

/// Reads the records of a log to its end in such steps. Where one is refused, those before it stand.
pub fn replay_whole<R: RecordLog, S: Stages, D: Disk, L: ledger::Ledger>(
    alloc: Global,
    log: &R,
    state: &mut S,
    disk: &mut D,
    at: &mut u64,
    step: u64,
    steps: &mut Steps<L>,
) -> Result<(), MendError>
    requires ready { IsReadTo S.Grammar (S.rule state.old) (S.front state.old) at.old
        R.RecordLog D.Disk disk.old (R.content log.now) }
    requires step { 1 ≤ step }
    ensures at { at.new ≡ length (S.front state.new) }
    ensures whole { OnOk result ((at.new ≡ length (records (R.content log.now).batches)) ×
        (steps.new + at.old ≡ steps.old + at.new)) }
    ensures within { (at.old ≤ at.new) × (at.new ≤ length (records (R.content log.now).batches)) }
    ensures taken { Takes S.Grammar (S.rule state.old) D.tells (R.content log.now).batches
        (S.front state.old) (S.front state.new) }
    ensures damaged { (place : ℕ) → result ≡ Err (MendError.Damaged place) →
        IsDamage S.Grammar (S.rule state.old) D.tells (R.content log.now).batches
        (S.front state.old) at.new (min (length (records (R.content log.now).batches)) (at.new + step)) place }
    ensures rule { S.rule state.new ≡ S.rule state.old }
    ensures few { steps.new + at.old ≤ steps.old +
        min (length (records (R.content log.now).batches)) (at.new + step) }
    ensures reads { OnlyReads D.Disk (R.content log.now).key.part
        (result ≡ Err MendError.Fault) disk.old disk.new }
{
    let total = log.len();
    while *at < total {
        replay_step(alloc, log, state, disk, at, step, steps)?;
    }
    Ok(())
}

/// Reads the records from the end of a state to before `end`, and tests each.
fn stage<R: RecordLog, S: Stages, D: Disk, L: ledger::Ledger>(
    alloc: Global,
    log: &R,
    state: &S,
    disk: &mut D,
    at: u64,
    end: u64,
    steps: &mut Steps<L>,
) -> Result<Vec<S::Entry>, MendError>
    requires at { at ≡ length (S.front state.now) }
    requires range { (at ≤ end) × (end ≤ length (records (R.content log.now).batches)) }
    requires lawful { S.lawful (S.rule state.now) (S.front state.now) }
    requires reads { ReadsOn R.RecordLog D.Disk disk.old (R.content log.now) }
    ensures count { IfOk result (λ staged. at + length staged.items ≡ end) }
    ensures taken { IfOk result (λ staged.
        Takes S.Grammar (S.rule state.now) D.tells (R.content log.now).batches
        (S.front state.now) (S.front state.now ++ staged.items)) }
    ensures damaged { (place : ℕ) → result ≡ Err (MendError.Damaged place) →
        IsDamage S.Grammar (S.rule state.now) D.tells (R.content log.now).batches
        (S.front state.now) at end place }
    ensures counted { OnOk result (steps.new + at ≡ steps.old + end) }
    ensures few { steps.new + at ≤ steps.old + end }
    ensures reads { OnlyReads D.Disk (R.content log.now).key.part
        (result ≡ Err MendError.Fault) disk.old disk.new }
{
    let mut step = Step {
        state,
        count: at,
        staged: Vec::new(alloc),
    };
    replay_to(log, &mut step, disk, at, end, steps)?;
    let Step { staged, .. } = step;
    Ok(staged)
}
