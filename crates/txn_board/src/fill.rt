//! Words made of lists.
ghost use Rattle.std.specs.Prelude.{◌≡◌, ◌≤◌, ◌<◌, ◌*◌, ◌+◌, ◌^◌, ◌-◌, ℕ, List, [], ◌∷◌, length, map, slice_index_or, IfOk, drop, take};
ghost use Rattle.txn_base.specs.declared.core_entry.CoreEntry.{CoreEntry};
ghost use Rattle.txn_model.specs.Coord.{count_new};
ghost use Rattle.txn_board.specs.Words.{window, WordsSay, mark_of, with_mark, with_more, low_of_log};
ghost use Rattle.txn_board.specs.Rows.{list_in};

use crate::words::{Word, is_bit_set, mark_of, mask_of, offset_of};
use std::alloc::{AllocError, Global};
use txn_core::{CoreEntry, Skeleton};

/// How many transactions have words, from the low watermark on.
pub const WINDOW: u64 = 65_536;

/// Sets the bit of an entry, in the words of the first so many transactions.
fn note(words: &mut [u64], count: u64, part: u32, entry: CoreEntry)
    requires { length words.old ≡ 3 * count }
    ensures { words.new ≡ with_mark 0 count (mark_of part entry) words.old }
{
    let Some(mark) = mark_of(part, entry) else {
        return;
    };
    if mark.txn < count {
        let at = (3 * mark.txn + offset_of(mark.word)) as usize;
        words[at] |= mask_of(mark.bit);
    }
}

/// Sets the bits of all entries of a part's list.
fn note_list(words: &mut [u64], count: u64, part: u32, entries: &[CoreEntry])
    requires { length words.old ≡ 3 * count }
    ensures size { length words.new ≡ 3 * count }
    ensures says { (lists : ℕ → List CoreEntry) → WordsSay 0 count words.old lists →
        WordsSay 0 count words.new (with_more lists part entries.now) }
{
    let mut at = 0;
    while at < entries.len() {
        note(words, count, part, entries[at]);
        at += 1;
    }
}

/// Sets the bits of all lists, that of part p at position p.
pub(crate) fn note_lists(words: &mut [u64], count: u64, lists: &[Skeleton])
    requires size { length words.old ≡ 3 * count }
    requires few { length lists.now ≤ 63 }
    requires blank { WordsSay 0 count words.old (λ p. []) }
    ensures { WordsSay 0 count words.new (list_in lists.now) }
{
    let mut part = 0;
    while part < lists.len() {
        note_list(words, count, part as u32, lists[part].as_slice());
        part += 1;
    }
}

/// How many transactions a log begins.
pub(crate) fn count_begun(log: &[CoreEntry]) -> u64
    ensures { result ≡ count_new log.now }
{
    let mut count = 0;
    let mut rest = log;
    while let Some((entry, tail)) = rest.split_first() {
        if matches!(entry, CoreEntry::New { .. }) {
            count += 1;
        }
        rest = tail;
    }
    count
}

/// The least number of a transaction that isn't closed, of those that a log begins, or their count.
pub(crate) fn low_watermark(words: &[u64], begun: u64) -> u64
    requires size { 3 * begun ≤ length words.now }
    ensures least { (lists : ℕ → List CoreEntry) (count : ℕ) → begun ≤ count →
        WordsSay 0 count words.now lists → begun ≡ count_new (lists 0) →
        result ≡ low_of_log (lists 0) }
    ensures most { result ≤ begun }
{
    let mut low = 0;
    while low < begun && is_bit_set(words[(3 * low + offset_of(Word::Done)) as usize], 0) {
        low += 1;
    }
    low
}

/// The words once the bits of all lists are set.
fn noted(mut words: Vec<u64>, count: u64, lists: &[Skeleton]) -> Vec<u64>
    requires size { length words.items ≡ 3 * count }
    requires few { length lists.now ≤ 63 }
    requires blank { WordsSay 0 count words.items (λ p. []) }
    ensures { WordsSay 0 count result.items (list_in lists.now) }
{
    note_lists(words.as_mut_slice(), count, lists);
    words
}

/// The words of all transactions that the log begins and of the window behind them, and the low watermark.
pub(crate) fn words_of_lists(
    alloc: Global,
    lists: &[Skeleton],
) -> Result<(Vec<u64>, u64), AllocError>
    requires log { 1 ≤ length lists.now }
    requires few { length lists.now ≤ 63 }
    ensures low { IfOk result (λ r. r.1 ≡ low_of_log (list_in lists.now 0)) }
    ensures says { IfOk result
        (λ r. ((count : ℕ) × (r.1 + window ≤ count) × WordsSay 0 count r.0.items
        (list_in lists.now))) }
{
    let begun = count_begun(lists[0].as_slice());
    let Some(count) = begun.checked_add(WINDOW) else {
        return Err(AllocError);
    };
    let Some(size) = count.checked_mul(3) else {
        return Err(AllocError);
    };
    let words = noted(vec![in alloc; 0; size as usize]?, count, lists);
    let low = low_watermark(words.as_slice(), begun);
    Ok((words, low))
}
