//! A slice of messages as it grows, cut by the bounds on a read.
ghost use Rattle.std.specs.Prelude.{◌≡◌, ◌≤◌, [], true, false, min, IfOk};
ghost use Rattle.txn_buffer.specs.Reading.{ReadGoesOn, IsCut, IsSpentWith};

use std::alloc::{AllocError, Global};
use txn_base::{Limits, Message, Messages};

/// The messages given so far, and what may be given yet.
#[derive(Drop)]
pub struct Slice {
    pub(crate) messages: Messages,
    /// The bytes of their bodies.
    spent: u64,
    /// How many messages more.
    left: u64,
    /// How many bytes in all. The first message is given whatever its size.
    bytes: u64,
}

impl Slice {
    pub fn new(alloc: Global, limits: &Limits, max: u64) -> Slice
        ensures { result ≡ record {
          messages = [];
          spent = 0;
          left = min max
              limits.now.read_messages;
          bytes = limits.now.read_bytes;
        } }
    {
        Slice {
            messages: Messages::new(alloc),
            spent: 0,
            left: max.min(limits.read_messages),
            bytes: limits.read_bytes,
        }
    }

    /// Gives a message, if there is one and it fits. False where no more is given.
    pub fn give(&mut self, message: Option<Message>) -> Result<bool, AllocError>
        requires { 1 ≤ self.old.left }
        ensures bytes { self.new.bytes ≡ self.old.bytes }
        ensures goes_on { IfOk result (λ more. more ≡ true →
            ReadGoesOn message self.old.messages self.new.messages self.old.bytes self.old.spent
            self.old.left self.new.spent self.new.left) }
        ensures cut { IfOk result (λ more. more ≡ false →
            IsCut message self.old.messages self.new.messages self.old.bytes self.old.spent
            self.old.left) }
    {
        let Some(message) = message else {
            return Ok(true);
        };
        let Some(spent) = self.spent_with(message.body.len()) else {
            return Ok(false);
        };
        self.messages.push(message)?;
        self.spent = spent;
        self.left -= 1;
        Ok(self.left > 0)
    }

    pub fn into_messages(self) -> Messages
        ensures { result ≡ self.messages }
    {
        let Slice { messages, .. } = self;
        messages
    }

    /// The bytes with a body more, where it fits.
    fn spent_with(&self, size: usize) -> Option<u64>
        ensures { IsSpentWith self.now.messages self.now.bytes self.now.spent size result }
    {
        let bytes = self.bytes;
        if self.messages.len() == 0 {
            return Some(size as u64);
        }
        let spent = self.spent.checked_add(size as u64)?;
        if spent > bytes { None } else { Some(spent) }
    }
}
