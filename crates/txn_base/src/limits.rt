//! How much there may be.

/// How much there may be. A caller may lower a field; each lies between 1 and its default.
#[derive(Clone, Copy, PartialEq, Eq)]
pub struct Limits {
    /// Bytes of a line without its newline.
    pub line: u64,
    /// Bytes of one message.
    pub message: u64,
    /// Messages per publish.
    pub batch: u64,
    /// Places per acknowledgement, as written in the line.
    pub places: u64,
    /// Places held individually per subscription.
    pub held: u64,
    /// Records per ledger for what clients add; markers and statuses aren't bound.
    pub log: u64,
    /// Sequence numbers from the low watermark of the opening on.
    pub window: u64,
    /// Messages per read and receive.
    pub read_messages: u64,
    /// Bytes of the messages per read and receive; the first message is given whatever its size.
    pub read_bytes: u64,
    /// Input bytes per run and per session.
    pub input: u64,
    /// Ready messages per subscription.
    pub ring: u64,
    /// Records per recovery step.
    pub step: u64,
    /// Markers between snapshots.
    pub snapshot: u64,
    /// Records from which a segment takes no further batch.
    pub segment: u64,
    /// Kept bytes per session.
    pub told: u64,
    /// Connections per server.
    pub sessions: u64,
}

impl Limits {
    ghost use Rattle.std.specs.Prelude.{◌≡◌};
    ghost use Rattle.txn_base.specs.Limits.{standard, InRange};

    /// The defaults.
    pub fn standard() -> Limits
        ensures value { result ≡ standard }
        ensures in_range { InRange result }
    {
        Limits {
            line: 65_536,
            message: 32_768,
            batch: 64,
            places: 256,
            held: 65_536,
            log: 4_294_967_296,
            window: 65_536,
            read_messages: 100,
            read_bytes: 262_144,
            input: 4_294_967_296,
            ring: 64,
            step: 64,
            snapshot: 256,
            segment: 65_536,
            told: 1_048_576,
            sessions: 1_024,
        }
    }
}
