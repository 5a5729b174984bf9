//! A clock that tells a list of moments.
ghost use Rattle.std.specs.Prelude.{◌≡◌, Some};

use std::marker::Model;
use txn_base::Clock;

/// A clock that tells these moments, and then the last of them again, or 0 where there is none. It takes no memory.
#[derive(Drop)]
pub struct ListClock<'a> {
    moments: &'a [u64],
}

impl<'a> Model for ListClock<'a> {
    ghost use Rattle.std.specs.Prelude.{List, ℕ};

    ghost Value = { List ℕ };

    ghost view = { λ c. c.moments.now };
}

impl<'a> ListClock<'a> {
    /// A clock with these moments to come.
    pub fn new(moments: &'a [u64]) -> ListClock<'a>
        ensures { result ≡ moments.now }
    {
        ListClock { moments }
    }
}

impl<'a> Clock for ListClock<'a> {
    ghost moments = { λ c. Some c };

    fn now(&mut self) -> u64 {
        let moments = self.moments;
        match moments {
            [] => 0,
            [last] => *last,
            [first, rest @ ..] => {
                self.moments = rest;
                *first
            }
        }
    }

    fn fork(&self) -> Self {
        ListClock {
            moments: self.moments,
        }
    }
}
