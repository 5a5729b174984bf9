//! Which calls of a disk fail.
ghost use Rattle.std.specs.Prelude.{◌≡◌};
ghost use Rattle.txn_memdisk.specs.Faults.{is_of, fault_counted, is_listed_at, counted_at};

use txn_base::FileId;

/// A kind of call.
#[derive(Clone, Copy, Debug, PartialEq, Eq)]
pub enum Op {
    Size,
    Read,
    WriteAt,
    Resize,
    Sync,
}

/// The nth call of this kind on this file fails, counted from 1.
#[derive(Clone, Copy, PartialEq, Eq)]
pub struct FaultAt {
    pub file: FileId,
    pub op: Op,
    pub nth: u64,
}

fn is_of(fault: &FaultAt, file: FileId, op: Op) -> bool
    ensures { result ≡ is_of file op fault.now }
{
    fault.file == file && fault.op == op
}

fn counted(fault: &FaultAt, file: FileId, op: Op) -> FaultAt
    ensures { result ≡ fault_counted file op fault.now }
{
    if is_of(fault, file, op) {
        FaultAt {
            file: fault.file,
            op: fault.op,
            nth: fault.nth.saturating_sub(1),
        }
    } else {
        *fault
    }
}

/// Counts a call, and answers whether it is one of those that fail. `nth` of a fault says how many calls of its kind on
/// its file it takes to come to it.
pub fn fires_at(faults: &mut [FaultAt], file: FileId, op: Op) -> bool
    ensures listed { result ≡ is_listed_at file op faults.old }
    ensures counted { faults.new ≡ counted_at file op faults.old }
{
    let listed = faults
        .iter()
        .any(|fault| is_of(fault, file, op) && fault.nth == 1);
    for fault in faults.iter_mut() {
        *fault = counted(fault, file, op);
    }
    listed
}
