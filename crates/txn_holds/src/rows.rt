//! The places that each transaction holds one by one.
ghost use Rattle.std.specs.Prelude.{◌≡◌, ◌++◌, [], ℕ, length, OnOk, OnErr, Some, None, true, false, is_some, unwrap_or};
ghost use Rattle.indexmap.specs.IndexMap.{get};
ghost use Rattle.txn_holds.specs.Rows.{AddsTo, IsEnded, Longer, SameOf, SameOthers, SameRows, same_key, row_of};

use indexmap::IndexMap;
use std::alloc::{AllocError, Global};
use std::marker::Model;
use txn_base::TxnId;

/// The places that one transaction holds one by one.
#[derive(Drop)]
pub struct Row {
    places: Vec<u64>,
}

impl Model for Row {
    ghost use Rattle.std.specs.Prelude.{ℕ, List};

    ghost Value = { List ℕ };

    ghost view = { λ r. r.places.items };
}

impl Row {
    fn new(alloc: Global) -> Row
        ensures { result ≡ [] }
    {
        Row {
            places: Vec::new(alloc),
        }
    }

    pub fn places(&self) -> &[u64]
        ensures { result.now ≡ self.now }
    {
        self.places.as_slice()
    }

    /// Adds places at the end. An `Err` changes nothing.
    fn add(&mut self, places: &[u64]) -> Result<(), AllocError>
        ensures ok { OnOk result (self.new ≡ self.old ++ places.now) }
        ensures err { OnErr result (self.new ≡ self.old) }
    {
        self.places.extend_from_slice(places)
    }
}

/// Lets there be a row of this key, empty if there is none.
fn begin_row(
    alloc: Global,
    rows: &mut IndexMap<(u64, u64), Row>,
    key: (u64, u64),
) -> Result<(), AllocError>
    ensures rows { SameRows (get same_key rows.old) (get same_key rows.new) }
    ensures there { OnOk result (is_some (get same_key rows.new key) ≡ true) }
{
    if rows.get(&key).is_some() {
        return Ok(());
    }
    match rows.insert(key, Row::new(alloc)) {
        Ok(_) => Ok(()),
        Err(_) => Err(AllocError),
    }
}

/// Adds places to the row of this key. An `Err` changes nothing.
fn grow_row(
    rows: &mut IndexMap<(u64, u64), Row>,
    key: (u64, u64),
    more: &[u64],
) -> Result<(), AllocError>
    requires { is_some (get same_key rows.old key) ≡ true }
    ensures at { OnOk result (Longer key more.now (get same_key rows.old) (get same_key rows.new)) }
    ensures others { SameOthers key (get same_key rows.old) (get same_key rows.new) }
    ensures err { OnErr result (get same_key rows.new key ≡ get same_key rows.old key) }
{
    match rows.get_mut(&key) {
        Some(row) => row.add(more),
        None => Ok(()),
    }
}

/// A transaction holds places more. An `Err` changes nothing.
pub fn add_places(
    alloc: Global,
    rows: &mut IndexMap<(u64, u64), Row>,
    txn: TxnId,
    more: &[u64],
) -> Result<(), AllocError>
    ensures ok { OnOk result (AddsTo txn more.now (get same_key rows.old) (get same_key rows.new)) }
    ensures err { OnErr result (SameOf (get same_key rows.old) (get same_key rows.new)) }
{
    let key = (txn.most, txn.least);
    if let Err(failed) = begin_row(alloc, rows, key) {
        return Err(failed);
    }
    if let Err(failed) = grow_row(rows, key, more) {
        return Err(failed);
    }
    Ok(())
}

/// Takes out the row of a transaction.
pub fn take_row(rows: &mut IndexMap<(u64, u64), Row>, txn: TxnId) -> Option<Row>
    ensures row { unwrap_or result [] ≡ row_of (get same_key rows.old) txn }
    ensures rows { IsEnded txn (get same_key rows.old) (get same_key rows.new) }
{
    rows.swap_remove(&(txn.most, txn.least))
}
