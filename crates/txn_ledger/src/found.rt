//! The frames of a file that were read so far.
ghost use Rattle.std.specs.Prelude.{◌≡◌, ◌+◌, ◌^◌, ◌≤◌, ℕ, [], Err, length, OnOk};
ghost use Rattle.txn_base.specs.Content.{settled, landed};
ghost use Rattle.txn_base.specs.Frames.{Batch, IsBatch, body_of, records};
ghost use Rattle.txn_ledger.specs.Bodies.{batch_in};
ghost use Rattle.txn_ledger.specs.Tied.{IsScanned};

use crate::OpenError;
use crate::parse::{HEAD, add_records};
use crate::position::Position;
use std::alloc::Global;
use txn_base::{ContentCarrier, FileId, ReadsContent};

/// Where the frames end, and where each record stands.
#[derive(Drop)]
pub struct Found {
    pub carrier: ContentCarrier,
    pub end: u64,
    pub positions: Vec<Position>,
}

impl Found {
    pub fn new(alloc: Global, file: FileId) -> Found
        ensures content { result.carrier.content ≡ record { key = file; batches = []; standing = settled } }
        ensures end { result.end ≡ 0 }
        ensures scanned { IsScanned result.carrier.content result.end result.positions.items }
    {
        Found {
            carrier: ContentCarrier::empty(file),
            end: 0,
            positions: Vec::new(alloc),
        }
    }

    /// Adds the frame with this body. It is damage where the body isn't that of a batch.
    pub fn add_frame(&mut self, body: &[u8]) -> Result<(), OpenError>
        requires scanned { IsScanned self.old.carrier.content self.old.end self.old.positions.items }
        requires bound { self.old.end + 5 + length body.now ≤ 2 ^ 50 }
        ensures batch { OnOk result (IsBatch (batch_in body.now)) }
        ensures filled { OnOk result (body.now ≡ body_of (batch_in body.now)) }
        ensures content { OnOk result (self.new.carrier.content ≡ landed self.old.carrier.content (batch_in body.now)) }
        ensures end { OnOk result (self.new.end ≡ self.old.end + 5 + length body.now) }
        ensures scanned { OnOk result (IsScanned self.new.carrier.content self.new.end self.new.positions.items) }
        ensures before { (entry : ℕ) → result ≡ Err (OpenError.Damaged entry) → entry ≡ length (records self.old.carrier.content.batches) }
        ensures no_batch { (entry : ℕ) → result ≡ Err (OpenError.Damaged entry) → (batch : Batch) → IsBatch batch → body.now ≡ body_of batch → ⊥ }
        ensures no_fault { result ≡ Err OpenError.Fault → ⊥ }
    {
        let entry = self.positions.len() as u64;
        if !add_records(&mut self.positions, self.end + HEAD as u64, body)? {
            return Err(OpenError::Damaged { entry });
        }
        self.carrier = ContentCarrier::of::<(&ContentCarrier, &[u8]), WithBody>(&(
            &self.carrier,
            body,
        ));
        self.end += HEAD as u64 + body.len() as u64;
        Ok(())
    }
}

/// A content, and behind it the batch of a body.
struct WithBody;

impl<'a, 'b> ReadsContent<(&'a ContentCarrier, &'b [u8])> for WithBody {
    ghost use Rattle.txn_base.specs.Content.{landed};
    ghost use Rattle.txn_ledger.specs.Bodies.{batch_in};

    ghost content = { λ x. landed x.0.now.content (batch_in x.1.now) };
}
