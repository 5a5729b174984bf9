//! What the words say, and which bit of them an entry sets.
ghost use Rattle.std.specs.Prelude.{◌≡◌, ◌<◌, ◌^◌, true, IfSome};
ghost use Rattle.txn_board.specs.Words.{mark_of, mark_where, offset, is_bit_set};

use txn_base::{CoreEntry, Decision, TxnId};

/// A word of a transaction: its registered parts, its decision, or which parts are done.
#[derive(Clone, Copy, Debug, PartialEq, Eq)]
pub enum Word {
    Registered,
    Decided,
    Done,
}

/// The bit that an entry sets, of a word of the transaction of this number.
#[derive(Clone, Copy, Debug, PartialEq, Eq)]
pub struct Mark {
    pub txn: u64,
    pub word: Word,
    pub bit: u32,
}

/// What a part starts of its own: plain messages or acknowledgements, so many; or what the coordinator logs.
#[derive(Clone, Copy, Debug, PartialEq, Eq)]
pub enum OwnStart {
    Plain { count: u64 },
    New { txn: u64 },
    AddPart { txn: u64, part: u32 },
    Decide { txn: u64, decision: Decision },
}

/// What a load makes of a seat's row. Entries start: of its own; messages or a hold of a transaction, by the part's number; a
/// marker; a closing, by the word of registered parts. Or the first in flight settles, or the flight is lost.
#[derive(Clone, Copy, Debug, PartialEq, Eq)]
pub(crate) enum RowStep {
    Own {
        own: OwnStart,
    },
    Inside {
        txn: u64,
        count: u64,
        part: Option<u32>,
    },
    Marker {
        txn: u64,
    },
    Close {
        txn: u64,
        reg: u64,
    },
    Settle,
    Lose,
}

/// Where a word stands among the three of its transaction.
pub(crate) fn offset_of(word: Word) -> u64
    ensures { result ≡ offset word }
{
    match word {
        Word::Registered => 0,
        Word::Decided => 1,
        Word::Done => 2,
    }
}

fn when(holds: bool, txn: TxnId, word: Word, bit: u32) -> Option<Mark>
    ensures exact { result ≡ mark_where holds txn word bit }
    ensures bit { IfSome result (λ m. (m.bit ≡ bit) × (holds ≡ true)) }
{
    if holds && txn.most == 0 {
        return Some(Mark {
            txn: txn.least,
            word,
            bit,
        });
    }
    None
}

/// The bit that an entry of a part's list sets, if it sets one.
pub(crate) fn mark_of(part: u32, entry: CoreEntry) -> Option<Mark>
    ensures exact { result ≡ mark_of part entry }
    ensures bit { IfSome result (λ m. m.bit < 64) }
{
    match entry {
        CoreEntry::Plain => None,
        CoreEntry::Inside { .. } => None,
        CoreEntry::Marker { txn, .. } => when(part >= 1 && part < 64, txn, Word::Done, part),
        CoreEntry::New { txn } => when(part == 0, txn, Word::Registered, 0),
        CoreEntry::AddPart { txn, part: added } => {
            when(
                part == 0 && added >= 1 && added < 64,
                txn,
                Word::Registered,
                added,
            )
        }
        CoreEntry::Committing { txn } => when(part == 0, txn, Word::Decided, 0),
        CoreEntry::Aborting { txn } => when(part == 0, txn, Word::Decided, 1),
        CoreEntry::Committed { txn } => when(part == 0, txn, Word::Done, 0),
        CoreEntry::Aborted { txn } => when(part == 0, txn, Word::Done, 0),
    }
}

/// The word with this bit alone.
pub(crate) fn mask_of(bit: u32) -> u64
    requires { bit < 64 }
    ensures { result ≡ 2 ^ bit }
{
    1 << bit
}

/// Whether a word has this bit.
pub(crate) fn is_bit_set(word: u64, bit: u32) -> bool
    requires { bit < 64 }
    ensures { result ≡ is_bit_set word bit }
{
    (word >> bit) & 1 == 1
}
