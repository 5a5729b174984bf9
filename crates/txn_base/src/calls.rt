//! How many calls a disk has had.
ghost use Rattle.std.specs.Prelude.{◌≡◌};
ghost use Rattle.txn_base.specs.Outside.{counted};

/// The calls: all of them, and those that were to write or to sync.
#[derive(Clone, Copy)]
pub struct Calls {
    pub all: u64,
    pub writes: u64,
}

impl Calls {
    /// One call more, which only reads.
    pub fn look(&mut self)
        ensures all { self.new.all ≡ counted 1 self.old.all }
        ensures writes { self.new.writes ≡ self.old.writes }
    {
        self.all = self.all.saturating_add(1);
    }

    /// One call more, which is to write or to sync.
    pub fn write(&mut self)
        ensures all { self.new.all ≡ counted 1 self.old.all }
        ensures writes { self.new.writes ≡ counted 1 self.old.writes }
    {
        self.all = self.all.saturating_add(1);
        self.writes = self.writes.saturating_add(1);
    }
}
