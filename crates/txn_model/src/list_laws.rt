//! Laws of single lists. Each function does nothing, and its contract is the law.
ghost use Rattle.std.specs.Prelude.{◌≡◌, ◌≤◌, ◌++◌, ◌∷◌, ℕ, List, Some, None};
ghost use mathlib.Core.List.{IsPrefix};
ghost use Rattle.txn_base.specs.declared.txn.TxnId.{TxnId};
ghost use Rattle.txn_base.specs.declared.txn.Decision.{Decision};
ghost use Rattle.txn_base.specs.declared.core_entry.CoreEntry.{CoreEntry};
ghost use Rattle.txn_base.specs.declared.entry.TopicEntry.{TopicEntry};
ghost use Rattle.txn_base.specs.declared.entry.AckEntry.{AckEntry};
ghost use Rattle.txn_model.specs.Words.{first_bad, IsFirstBad};
ghost use Rattle.txn_model.specs.Names.{name_allows};
ghost use Rattle.txn_model.specs.Coord.{CoordLawful, coord_allows, decision_skeleton, decision_of};
ghost use Rattle.txn_model.specs.Topic.{part_allows, visible_of, limit_of};
ghost use Rattle.txn_model.specs.Ack.{ack_allows, IsAcked};

/// What a reader was given never lapses, whatever entries follow.
pub fn never_lapses()
    // What is visible begins what is visible later.
    ensures visible { (es more : List TopicEntry) → IsPrefix (visible_of es) (visible_of (es ++ more)) }
    // The limit never falls.
    ensures limit { (es more : List TopicEntry) → limit_of es ≤ limit_of (es ++ more) }
    // What is acknowledged stays so.
    ensures acked { (a more : List AckEntry) (q : ℕ) → IsAcked a q → IsAcked (a ++ more) q }
{}

/// In a lawful log no transaction is decided twice, and its status is what its decision and its closing make it.
pub fn one_decision()
    ensures first { (n : ℕ) (c : List CoreEntry) (x : TxnId) (d : Decision) (more : List CoreEntry) → CoordLawful n (c ++ decision_skeleton x d ∷ more) → decision_of c x ≡ None }
    ensures stays { (c more : List CoreEntry) (x : TxnId) (d : Decision) → decision_of c x ≡ Some d → decision_of (c ++ more) x ≡ Some d }
{}

/// The first entry that isn't allowed after those before it is found, and where none is found the list is lawful.
pub fn first_bad_is_first()
    ensures names { (names : List (List ℕ)) → IsFirstBad name_allows names (first_bad name_allows names) }
    ensures coord { (n : ℕ) (c : List CoreEntry) → IsFirstBad (coord_allows n) c (first_bad (coord_allows n) c) }
    ensures part { (es : List CoreEntry) → IsFirstBad part_allows es (first_bad part_allows es) }
    ensures sub { (a : List AckEntry) → IsFirstBad ack_allows a (first_bad ack_allows a) }
{}
