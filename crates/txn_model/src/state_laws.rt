//! Laws of the states of the table. Each function does nothing, and its contract is the law.
ghost use Rattle.std.specs.Prelude.{◌≡◌, ◌≤◌, ℕ, Bool, true, List, length, Some, None};
ghost use Rattle.txn_base.specs.declared.limits.Limits.{Limits};
ghost use Rattle.txn_base.specs.declared.txn.TxnId.{TxnId};
ghost use Rattle.txn_base.specs.declared.txn.Decision.{Decision};
ghost use Rattle.txn_base.specs.declared.request.Request.{Request};
ghost use Rattle.txn_base.specs.declared.reply.Reply.{Reply};
ghost use Rattle.txn_model.specs.declared.world.World.{World};
ghost use Rattle.txn_model.specs.Names.{NamesLawful};
ghost use Rattle.txn_model.specs.Coord.{decision_of, closing_of, in_parts};
ghost use Rattle.txn_model.specs.Topic.{marker_of};
ghost use Rattle.txn_model.specs.World.{log_of, part_skeletons, Lawful, with_kept};
ghost use Rattle.txn_model.specs.Table.{TableState, EntryBatch, batch_part, with_batch, with_failed_batch, resolved, rebuilt, decision_batch, marker_batch, closing_batch};
ghost use Rattle.txn_model.specs.Shape.{Shaped, IsFor};
ghost use Rattle.txn_model.specs.EarlyRows.{early_refusal};
ghost use Rattle.txn_model.specs.LateRows.{late_refusal};
ghost use Rattle.txn_model.specs.Successes.{success_of};
ghost use Rattle.txn_model.specs.Replies.{RunState, LineKind, AnswersFrom, Replies};
ghost use Rattle.txn_model.specs.Opening.{names_with, first_state};
ghost use Rattle.txn_model.specs.Allowed.{IsAllowed, IsPartRebuilt, LawfulState};

/// Whatever lines are told, and whatever of the flights a stop keeps, the world stays lawful and keeps its shape.
pub fn states_stay_lawful()
    // The state from which the lines begin.
    ensures first { (w : World) (words : List (List ℕ)) → NamesLawful (names_with w.names words) → Shaped w → Lawful w → LawfulState (first_state w words) }

    // One request, and lines one after another.
    ensures request { (limits : Limits) (s : RunState) (r : Request) (told : Reply) (s' : RunState) → LawfulState s.table → AnswersFrom limits s r told s' → LawfulState s'.table }
    ensures lines { (limits : Limits) (s : RunState) (kinds : List LineKind) (told : List Reply) (s' : RunState) → LawfulState s.table → Replies limits s kinds told s' → LawfulState s'.table }

    // What a stop keeps.
    ensures kept { (t : TableState) (stays : ℕ → Bool) → LawfulState t → Lawful (with_kept t.world t.flights stays) }
{}

/// What the table adds is allowed over a lawful world, and is for a part of its kind.
pub fn granted_batches_are_allowed()
    // The row of a request that isn't refused.
    ensures row { (limits : Limits) (t : TableState) (r : Request) → Lawful t.world → early_refusal limits t.world r ≡ None → late_refusal limits t r ≡ None → IsAllowed (success_of limits t r).adds t.world }
    ensures row_part { (limits : Limits) (t : TableState) (r : Request) → Lawful t.world → early_refusal limits t.world r ≡ None → late_refusal limits t r ≡ None → IsFor (success_of limits t r).adds t.world.names }

    // A decision; the marker of a logged decision at a named part; the closing once each part has its marker.
    ensures decision { (t : TableState) (x : TxnId) (d : Decision) → Lawful t.world → IsAllowed (decision_batch t x d) t.world }
    ensures marker { (t : TableState) (x : TxnId) (d : Decision) (p : ℕ) → Lawful t.world → 1 ≤ p → p ≤ length t.world.names → decision_of (log_of t.world) x ≡ Some d → IsAllowed (marker_batch t x d p) t.world }
    ensures marker_part { (t : TableState) (x : TxnId) (d : Decision) (p : ℕ) → Lawful t.world → 1 ≤ p → p ≤ length t.world.names → decision_of (log_of t.world) x ≡ Some d → IsFor (marker_batch t x d p) t.world.names }
    ensures closing { (w : World) (x : TxnId) (d : Decision) → Lawful w → closing_of (log_of w) x ≡ None → decision_of (log_of w) x ≡ Some d
        → ((p : ℕ) → in_parts (log_of w) x p ≡ true → marker_of (part_skeletons w p) x ≡ Some d) → IsAllowed (closing_batch x d) w }

    // The parts of a transaction are named.
    ensures parts { (w : World) (x : TxnId) (p : ℕ) → Lawful w → in_parts (log_of w) x p ≡ true → (1 ≤ p) × (p ≤ length w.names) }
{}

/// The table's changes keep its state lawful, one by one.
pub fn changes_keep_states_lawful()
    // An allowed batch is settled, or its append failed.
    ensures settled { (b : EntryBatch) (t : TableState) → LawfulState t → IsFor b t.world.names → IsPartRebuilt b t → IsAllowed b t.world → LawfulState (with_batch b t) }
    ensures failed { (b : EntryBatch) (p : ℕ) (t : TableState) → batch_part b ≡ Some p → LawfulState t → IsAllowed b t.world → LawfulState (with_failed_batch b p t) }

    // The flight of a part is kept or dropped, and the part is rebuilt.
    ensures resolved { (p : ℕ) (stays : Bool) (t : TableState) → LawfulState t → LawfulState (resolved p stays t) }
    ensures rebuilt { (p : ℕ) (stays : Bool) (t : TableState) → LawfulState t → LawfulState (rebuilt p stays t) }

    // Moments, delivered places and the opening low watermark are no matter.
    ensures same { (t t' : TableState) → t'.world ≡ t.world → t'.flights ≡ t.flights → t'.unrebuilt ≡ t.unrebuilt → LawfulState t → LawfulState t' }
{}
