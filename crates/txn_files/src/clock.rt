//! The system's clock.
ghost use Rattle.std.specs.Prelude.{None};

use std::rt;
use std::time::{SystemTime, UNIX_EPOCH};
use txn_base::Clock;

/// Milliseconds since 1970, or 0 where the system's clock can't be read. The moments to come aren't told.
#[derive(Clone, Copy)]
pub struct SystemClock<R: rt::Clock + Copy> {
    rt: R,
}

impl<R: rt::Clock + Copy> SystemClock<R> {
    pub fn new(rt: R) -> Self {
        SystemClock { rt }
    }
}

impl<R: rt::Clock + Copy> Clock for SystemClock<R> {
    ghost moments = { λ clock. None };

    fn now(&mut self) -> u64 {
        match SystemTime::now(&self.rt) {
            Ok(now) => match now.duration_since(UNIX_EPOCH) {
                Ok(since) => since
                    .as_secs()
                    .saturating_mul(1_000)
                    .saturating_add(since.subsec_millis() as u64),
                Err(_) => 0,
            },
            Err(_) => 0,
        }
    }

    fn fork(&self) -> Self {
        SystemClock { rt: self.rt }
    }
}
