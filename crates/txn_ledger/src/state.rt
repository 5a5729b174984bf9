//! How a ledger stands.

/// Settled, with a batch in flight, or only looked at.
#[derive(Clone, Copy, PartialEq, Eq)]
pub enum State {
    Settled,
    InFlight,
    LookedAt,
}
