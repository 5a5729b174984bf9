//! The piece of a line that has come so far.
ghost use Rattle.std.specs.Prelude.{◌≡◌, ◌≤◌, ◌==◌, ℕ, length, List, [], ◌∷◌, ◌++◌};
ghost use Rattle.txn_base.specs.Room.{capacity};

use txn_base::Bytes;

/// The piece of a line that has come so far, in room that was taken before. Of a line that is too long its first bytes are
/// kept until it ends, as many as a line may have, and nothing of what comes behind them.
#[derive(Drop)]
pub struct PartialLine {
    pub line: Bytes,
    pub long: bool,
}

impl PartialLine {
    ghost use Rattle.txn_run.specs.Going.{IsLineSoFar};

    /// Adds a byte of the line, which may have so many.
    pub fn add(&mut self, limit: u64, byte: u8)
        requires { limit ≤ capacity self.old.line }
        ensures room { limit ≤ capacity self.new.line }
        ensures stands { (piece : List ℕ) → IsLineSoFar limit self.old piece
            → IsLineSoFar limit self.new (piece ++ byte ∷ []) }
    {
        if self.long {
            return;
        }
        if self.line.len() as u64 >= limit {
            self.long = true;
        } else {
            self.line.put_byte(byte);
        }
    }

    /// Begins the next line.
    pub fn clear(&mut self, limit: u64)
        requires { limit ≤ capacity self.old.line }
        ensures room { limit ≤ capacity self.new.line }
        ensures stands { IsLineSoFar limit self.new [] }
    {
        self.line.clear();
        self.long = false;
    }

    /// Nothing of the line has come.
    pub fn is_empty(&self) -> bool
        ensures { (limit : ℕ) (piece : List ℕ) → IsLineSoFar limit self.now piece
            → result ≡ (length piece == 0) }
    {
        if self.long {
            return false;
        }
        self.line.len() == 0
    }
}
