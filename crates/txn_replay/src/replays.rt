//! A state that takes the records of a log, one after another.
ghost use Rattle.std.specs.Prelude.{◌≡◌, ◌≤◌, ◌<◌, ◌+◌, ◌^◌, ◌++◌, [], ◌∷◌, ℕ, true, false, Ok, Err, length, take, max, IfOk, OnOk, OnErr};
ghost use Rattle.txn_base.specs.Frames.{records};
ghost use Rattle.txn_ledger.specs.Reading.{ReadsOn};
ghost use Rattle.txn_replay.specs.Fronts.{Takes, IsDamage};
ghost use Rattle.txn_replay.specs.Reading.{OnlyReads};

use crate::grammar::Grammar;
use std::alloc::AllocError;
use std::sync::ledger;
use txn_base::{Bytes, Disk, MendError, Steps};
use txn_ledger::{GetError, RecordLog};

/// What is rebuilt from records.
pub trait Replays: Grammar {
    ghost use Rattle.std.specs.Prelude.{◌≡◌, ◌⊎◌, ℕ, List, false, length, take};

    /// The entries that it was rebuilt from.
    ghost front: { Self → List Self.Entry };

    /// The rule by which they may follow each other.
    ghost rule: { Self → ℕ };

    /// Those of them that it keeps apart from what it takes, if it does: the first ones.
    ghost own: { Self → List Self.Entry };

    ghost own_first: { (s : Self) → own s ≡ take (length (own s)) (front s) };

    /// How many they are.
    fn len(&self) -> u64
        ensures { result ≡ length (front self.now) };

    /// Takes a record more. False exactly where it is outside the grammar, or not allowed after the others. False and an Err
    /// change nothing.
    fn take(&mut self, bytes: &Bytes) -> Result<bool, AllocError>
        requires few { length (front self.old) + 1 < 2 ^ 64 }
        requires lawful { Self.lawful (rule self.old) (front self.old) }
        ensures taken { result ≡ Ok true →
            front self.new ≡ front self.old ++ Self.entry_of bytes.now.bytes ∷ [] }
        ensures grammar { result ≡ Ok true →
            Self.is_record bytes.now.bytes (Self.entry_of bytes.now.bytes) }
        ensures allowed { result ≡ Ok true →
            Self.allows (rule self.old) (front self.old) (Self.entry_of bytes.now.bytes) ≡ true }
        ensures bad { result ≡ Ok false →
            ((e : Self.Entry) → Self.is_record bytes.now.bytes e → ⊥) ⊎
            (Self.allows (rule self.old) (front self.old) (Self.entry_of bytes.now.bytes) ≡ false) }
        ensures same { result ≡ Ok false → front self.new ≡ front self.old }
        ensures err { OnErr result (front self.new ≡ front self.old) }
        ensures rule { rule self.new ≡ rule self.old }
        ensures own { own self.new ≡ own self.old };
}

/// Reads the records from a place to before `end`, each once, and takes those that were not taken yet.
pub fn replay_to<R: RecordLog, S: Replays, D: Disk, L: ledger::Ledger>(
    log: &R,
    state: &mut S,
    disk: &mut D,
    from: u64,
    end: u64,
    steps: &mut Steps<L>,
) -> Result<(), MendError>
    requires range { (from ≤ end) × (end ≤ length (records (R.content log.now).batches)) }
    requires behind { from ≤ length (S.front state.old) }
    requires lawful { S.lawful (S.rule state.old) (S.front state.old) }
    requires reads { ReadsOn R.RecordLog D.Disk disk.old (R.content log.now) }
    ensures grown { OnOk result
        (length (S.front state.new) ≡ max (length (S.front state.old)) end) }
    ensures most { length (S.front state.new) ≤ max (length (S.front state.old)) end }
    ensures taken { Takes S.Grammar (S.rule state.old) D.tells (R.content log.now).batches
        (S.front state.old) (S.front state.new) }
    ensures damaged { (place : ℕ) → result ≡ Err (MendError.Damaged place) →
        IsDamage S.Grammar (S.rule state.old) D.tells (R.content log.now).batches
        (S.front state.old) from end place }
    ensures same { (S.rule state.new ≡ S.rule state.old) × (S.own state.new ≡ S.own state.old) }
    ensures counted { OnOk result (steps.new + from ≡ steps.old + end) }
    ensures few { steps.new + from ≤ steps.old + end }
    ensures reads { OnlyReads D.Disk (R.content log.now).key.part
        (result ≡ Err MendError.Fault) disk.old disk.new }
{
    for place in from..end {
        let bytes = match log.get(disk, place, steps) {
            Ok(bytes) => bytes,
            Err(GetError::Fault) => return Err(MendError::Fault),
            Err(GetError::NoMemory) => return Err(MendError::NoMemory),
        };
        if place < state.len() {
            continue;
        }
        match state.take(&bytes) {
            Ok(true) => {}
            Ok(false) => return Err(MendError::Damaged { place }),
            Err(_) => return Err(MendError::NoMemory),
        }
    }
    Ok(())
}
