//! Bytes that come in.
ghost use Rattle.std.specs.Prelude.{◌≡◌, ◌≤◌, List, ℕ, Option, length, IfOk};
ghost use Rattle.std.specs.Io.KnownBytes.{ReadConsumes};
ghost use Rattle.txn_base.specs.Outside.{HasCause};

use crate::failed::Failed;

/// Where the input comes from.
pub trait Source {
    /// What is left, where it is told.
    ghost left: { Self → Option (List ℕ) };

    /// How many calls have failed.
    ghost faults: { Self → ℕ };

    /// What the object holds beside what is left: of a link, what was put into it, and the count of its failed puts.
    ghost rest: { Self → Option (List ℕ) × ℕ };

    /// Gives the next bytes, as many as it answers, and leaves the others. The answer 0 for a piece that isn't empty is
    /// the end of the input, and comes only where nothing is left. A failed call leaves what is left as it was.
    fn take(&mut self, into: &mut [u8]) -> Result<usize, Failed>
        ensures bound { IfOk result (λ n. n ≤ length into.new) }
        ensures bytes { ReadConsumes (left self.old) (left self.new) result into.new }
        ensures beside { rest self.new ≡ rest self.old }
        ensures cause { HasCause (faults self.old) (faults self.new) result };
}
