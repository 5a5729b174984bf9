//! Bytes that go out.
ghost use Rattle.std.specs.Prelude.{◌≡◌, ◌≤◌, ◌<◌, List, ℕ, Option, length, IfOk};
ghost use Rattle.std.specs.Io.KnownBytes.{WriteAppends};
ghost use Rattle.txn_base.specs.Outside.{HasCause, PutsAll, Rose};

use crate::failed::Failed;

/// Where the output goes.
pub trait Sink {
    /// What was put, where it is told.
    ghost held: { Self → Option (List ℕ) };

    /// How many calls have failed, or took no byte of a piece that has one.
    ghost faults: { Self → ℕ };

    /// What the object holds beside what was put: of a link, what is left to take, and the count of its failed takes.
    ghost rest: { Self → Option (List ℕ) × ℕ };

    /// Takes the first bytes of the piece, as many as it answers. The answer 0 for a piece that isn't empty is a fault.
    /// A failed call takes nothing.
    fn put(&mut self, bytes: &[u8]) -> Result<usize, Failed>
        ensures bound { IfOk result (λ n. n ≤ length bytes.now) }
        ensures bytes { WriteAppends (held self.old) (held self.new) result bytes.now }
        ensures none { IfOk result (λ n. n ≡ 0 → 0 < length bytes.now → Rose (faults self.old) (faults self.new)) }
        ensures beside { rest self.new ≡ rest self.old }
        ensures cause { HasCause (faults self.old) (faults self.new) result };
}

/// Puts all the bytes, or says that a call failed. Then a front of them was put.
pub fn put_all<O: Sink>(sink: &mut O, bytes: &[u8]) -> Result<(), Failed>
    ensures bytes { PutsAll (O.held sink.old) (O.held sink.new) result bytes.now }
    ensures beside { O.rest sink.new ≡ O.rest sink.old }
    ensures cause { HasCause (O.faults sink.old) (O.faults sink.new) result }
{
    let mut done = 0;
    while done < bytes.len() {
        let count = sink.put(&bytes[done..])?;
        if count == 0 {
            return Err(Failed);
        }
        done += count;
    }
    Ok(())
}
