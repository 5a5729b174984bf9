//! Moments.
ghost use Rattle.std.specs.Prelude.{◌≡◌, List, ℕ, Option};
ghost use Rattle.txn_base.specs.Outside.{TellsMoment};

/// A clock. A moment is a number of milliseconds. It never fails and takes no memory.
pub trait Clock {
    /// The moments to come, where they are told: a list whose last one repeats, or 0 where it is empty.
    ghost moments: { Self → Option (List ℕ) };

    /// The next moment.
    fn now(&mut self) -> u64
        ensures { TellsMoment (moments self.old) result (moments self.new) };

    /// A clock with the same moments to come.
    fn fork(&self) -> Self
        ensures { moments result ≡ moments self.now };
}
