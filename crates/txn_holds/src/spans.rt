//! Spans of places that are acknowledged or held, by the first place of each.
ghost use Rattle.std.specs.Prelude.{◌≡◌, ◌≤◌, ◌<◌, ◌^◌, ℕ, Option, Some, None, IsSome, IfSome, IfNone, OnErr, OnOk, is_some, true};
ghost use Rattle.std.specs.Ordering.{nat_cmp};
ghost use Rattle.std.specs.BTreeMap.{get};
ghost use Rattle.txn_model.specs.Words.{has};
ghost use Rattle.txn_holds.specs.Spans.{single, with_last, acked_span, span_taken, in_front, place_past};
ghost use Rattle.txn_holds.specs.Spans.{AreSpans, AreTaken, AcksAll, AcksOne, AcksUpTo, AreSet, Begins, GoesOn};
ghost use Rattle.txn_holds.specs.Spans.{IsChanged, IsFirst, IsLast, IsPast, IsReach, Puts, Rises, Same, SameBut, SamePast, TakesSame};

use std::alloc::AllocError;
use std::collections::BTreeMap;
use txn_base::TxnId;

/// The places from a first one to this last one: acknowledged, or held by a transaction. A held span has one place.
#[derive(Clone, Copy, Debug, PartialEq, Eq)]
pub struct Span {
    pub last: u64,
    pub owner: Option<TxnId>,
}

/// The last span that begins at or before a place.
pub fn span_before(spans: &BTreeMap<u64, Span>, place: u64) -> Option<(u64, Span)>
    ensures some { IfSome result (λ p. (p.0 ≤ place) × Begins (get nat_cmp spans.now) p) }
    ensures last { IfSome result (λ p. IsLast (get nat_cmp spans.now) place p.0) }
    ensures none { IfNone result ((q : ℕ) → q ≤ place → get nat_cmp spans.now q ≡ None) }
{
    match spans.range(..=place).next_back() {
        Some((first, span)) => Some((*first, *span)),
        None => None,
    }
}

/// How a place is taken: acknowledged, or held by a transaction.
pub fn taken_at(spans: &BTreeMap<u64, Span>, place: u64) -> Option<Option<TxnId>>
    requires { AreSpans (get nat_cmp spans.now) }
    ensures { result ≡ span_taken (get nat_cmp spans.now) place }
{
    match span_before(spans, place) {
        Some((_, span)) => {
            if span.last < place {
                return None;
            }
            Some(span.owner)
        }
        None => None,
    }
}

/// Lets the span that begins at a place end at this one.
fn extend(spans: &mut BTreeMap<u64, Span>, first: u64, last: u64)
    ensures at { IsChanged (with_last last) first (get nat_cmp spans.old) (get nat_cmp spans.new) }
    ensures others { SameBut first (get nat_cmp spans.old) (get nat_cmp spans.new) }
{
    if let Some(span) = spans.get_mut(&first) {
        span.last = last;
    }
}

/// Takes out the span that begins at a place.
fn take_out(spans: &mut BTreeMap<u64, Span>, first: u64)
    ensures at { get nat_cmp spans.new first ≡ None }
    ensures others { SameBut first (get nat_cmp spans.old) (get nat_cmp spans.new) }
{
    let _ = spans.remove(&first);
}

/// Lets the span that begins at a place be acknowledged.
fn ack_span(spans: &mut BTreeMap<u64, Span>, first: u64)
    ensures at { IsChanged acked_span first (get nat_cmp spans.old) (get nat_cmp spans.new) }
    ensures others { SameBut first (get nat_cmp spans.old) (get nat_cmp spans.new) }
{
    if let Some(span) = spans.get_mut(&first) {
        span.owner = None;
    }
}

/// Puts a span of one place. An `Err` changes nothing.
fn put(spans: &mut BTreeMap<u64, Span>, place: u64, owner: Option<TxnId>) -> Result<(), AllocError>
    ensures at { OnOk result (get nat_cmp spans.new place ≡ Some (single owner place)) }
    ensures others { SameBut place (get nat_cmp spans.old) (get nat_cmp spans.new) }
    ensures err { OnErr result (Same (get nat_cmp spans.old) (get nat_cmp spans.new)) }
{
    match spans.insert(place, Span { last: place, owner }) {
        Ok(_) => Ok(()),
        Err(_) => Err(AllocError),
    }
}

/// Puts spans of one place each, where none begin. An `Err` changes nothing.
pub fn put_all(
    spans: &mut BTreeMap<u64, Span>,
    places: &[u64],
    who: Option<TxnId>,
) -> Result<(), AllocError>
    requires order { Rises places.now }
    requires absent { (q : ℕ) → has places.now q ≡ true → get nat_cmp spans.old q ≡ None }
    ensures ok { OnOk result (Puts who places.now (get nat_cmp spans.old) (get nat_cmp spans.new)) }
    ensures err { OnErr result (Same (get nat_cmp spans.old) (get nat_cmp spans.new)) }
{
    let Some((place, rest)) = places.split_first() else {
        return Ok(());
    };
    put(spans, *place, who)?;
    let rest = put_all(spans, rest, who);
    if rest.is_err() {
        take_out(spans, *place);
    }
    rest
}

/// Takes out the spans that begin at these places.
pub fn take_all(spans: &mut BTreeMap<u64, Span>, places: &[u64])
    ensures { AreSet places.now None (get nat_cmp spans.old) (get nat_cmp spans.new) }
{
    if let Some((place, rest)) = places.split_first() {
        take_out(spans, *place);
        take_all(spans, rest);
    }
}

/// Joins an acknowledged span with the acknowledged one right behind it.
fn join(spans: &mut BTreeMap<u64, Span>, first: u64)
    requires { AreSpans (get nat_cmp spans.old) }
    ensures spans { AreSpans (get nat_cmp spans.new) }
    ensures taken { TakesSame (get nat_cmp spans.old) (get nat_cmp spans.new) }
{
    let Some(span) = spans.get(&first).copied() else {
        return;
    };
    let Some(next) = span.last.checked_add(1) else {
        return;
    };
    let Some(after) = spans.get(&next).copied() else {
        return;
    };
    if span.owner.is_some() || after.owner.is_some() {
        return;
    }
    take_out(spans, next);
    extend(spans, first, after.last);
}

/// Acknowledges a place that is taken, and joins it with the acknowledged ones beside it.
fn ack_one(spans: &mut BTreeMap<u64, Span>, place: u64)
    requires spans { AreSpans (get nat_cmp spans.old) }
    requires there { is_some (span_taken (get nat_cmp spans.old) place) ≡ true }
    ensures spans { AreSpans (get nat_cmp spans.new) }
    ensures taken { AcksOne place (get nat_cmp spans.old) (get nat_cmp spans.new) }
{
    ack_span(spans, place);
    join(spans, place);
    if place > 0 {
        if let Some((first, _)) = span_before(spans, place - 1) {
            join(spans, first);
        }
    }
}

/// Acknowledges places that are taken, each joined with those beside it.
pub fn ack_all(spans: &mut BTreeMap<u64, Span>, places: &[u64])
    requires spans { AreSpans (get nat_cmp spans.old) }
    requires there { AreTaken places.now (get nat_cmp spans.old) }
    ensures spans { AreSpans (get nat_cmp spans.new) }
    ensures taken { AcksAll places.now (get nat_cmp spans.old) (get nat_cmp spans.new) }
{
    if let Some((place, rest)) = places.split_first() {
        ack_one(spans, *place);
        ack_all(spans, rest);
    }
}

/// Takes out the spans that begin at or before a place.
fn drop_to(spans: &mut BTreeMap<u64, Span>, place: u64)
    ensures gone { (q : ℕ) → q ≤ place → get nat_cmp spans.new q ≡ None }
    ensures others { SamePast place (get nat_cmp spans.old) (get nat_cmp spans.new) }
{
    while let Some((first, _)) = spans.first_key_value() {
        if *first > place {
            return;
        }
        let _ = spans.pop_first();
    }
}

/// The last place up to which all are acknowledged once all up to a place are. Spans may reach past that.
fn reach(spans: &BTreeMap<u64, Span>, place: u64) -> u64
    requires { AreSpans (get nat_cmp spans.now) }
    ensures { IsReach (get nat_cmp spans.now) place result }
{
    match span_before(spans, place) {
        Some((_, span)) => span.last.max(place),
        None => place,
    }
}

/// Acknowledges all places up to one: their spans go, and the front is at its answer.
pub fn ack_up_to(spans: &mut BTreeMap<u64, Span>, place: u64) -> u64
    requires { AreSpans (get nat_cmp spans.old) }
    ensures spans { AreSpans (get nat_cmp spans.new) }
    ensures past { IsPast (Some result) (get nat_cmp spans.new) }
    ensures taken { AcksUpTo place result (get nat_cmp spans.old) (get nat_cmp spans.new) }
{
    let last = reach(spans, place);
    drop_to(spans, place);
    last
}

/// A place lies at or before the front.
pub fn is_in_front(front: Option<u64>, place: u64) -> bool
    ensures { result ≡ in_front front place }
{
    match front {
        Some(last) => place <= last,
        None => false,
    }
}

/// The first place past a front, if there is one.
pub fn next_place(front: Option<u64>) -> Option<u64>
    ensures some { IfSome result (λ q. q ≡ place_past front) }
    ensures none { IfNone result (place_past front ≡ 2 ^ 64) }
{
    match front {
        Some(last) => last.checked_add(1),
        None => Some(0),
    }
}

/// Lets the front go on over the acknowledged spans right behind it.
pub fn go_on(front: &mut Option<u64>, spans: &mut BTreeMap<u64, Span>)
    requires spans { AreSpans (get nat_cmp spans.old) }
    requires past { IsPast front.old (get nat_cmp spans.old) }
    ensures spans { AreSpans (get nat_cmp spans.new) }
    ensures past { IsPast front.new (get nat_cmp spans.new) }
    ensures first { IsFirst front.new (get nat_cmp spans.new) }
    ensures taken { GoesOn front.old front.new (get nat_cmp spans.old) (get nat_cmp spans.new) }
{
    while let Some(next) = next_place(*front) {
        let Some(span) = spans.get(&next).copied() else {
            return;
        };
        if span.owner.is_some() {
            return;
        }
        take_out(spans, next);
        *front = Some(span.last);
    }
}
