//! Laws of the core, for any number of parts. Each function does nothing, and its contract is the law.
ghost use Rattle.std.specs.Prelude.{◌≡◌, ◌≤◌, ◌++◌, ℕ, Bool, true, if◌then◌else◌, List, length, Some, Contains, [], map, ◌+◌};
ghost use mathlib.Core.List.{IsPrefix};
ghost use Rattle.txn_base.specs.declared.core_entry.CoreEntry.{CoreEntry};
ghost use Rattle.txn_model.specs.Words.{all_follow, numbers_from};
ghost use Rattle.txn_model.specs.Skeletons.{topic_skeletons};
ghost use Rattle.txn_model.specs.Topic.{visible_of, read_slice};
ghost use Rattle.txn_model.specs.VisiblePlaces.{visible_places};
ghost use Rattle.txn_base.specs.declared.entry.TopicEntry.{TopicEntry};
ghost use Rattle.txn_base.specs.declared.limits.Limits.{Limits};
ghost use Rattle.txn_base.specs.Limits.{InRange};
ghost use Rattle.txn_base.specs.declared.request.Request.{Request};
ghost use Rattle.txn_base.specs.declared.reply.Reply.{Reply};
ghost use Rattle.txn_model.specs.declared.world.World.{World};
ghost use Rattle.txn_model.specs.World.{Lawful, Flights, with_kept};
ghost use Rattle.txn_model.specs.Allowed.{AllowedFlights, IsAllowed, IsPartRebuilt, LawfulState};
ghost use Rattle.txn_model.specs.Replies.{RunState, LineKind, AnswersFrom, Replies};
ghost use Rattle.txn_model.specs.Shape.{Shaped, IsFor};
ghost use Rattle.txn_model.specs.Table.{TableState, EntryBatch, batch_part, with_batch, with_failed_batch, resolved, rebuilt};
ghost use Rattle.txn_core.specs.declared.step.CoreStep.{CoreStep};
ghost use Rattle.txn_core.specs.declared.step.Told.{Told};
ghost use Rattle.txn_core.specs.Together.{core_allows, is_alone, AreLawful};
ghost use Rattle.txn_core.specs.Steps.{CoreState, can, core_after, run, settled_of, kept_of, from_place, told_places};
ghost use Rattle.txn_core.specs.Kept.{StandTogether, CoreInvariant, resting_core};
ghost use Rattle.txn_core.specs.Worlds.{skeletons_of, flights_of};
ghost use Rattle.txn_core.specs.Tables.{Mirrors, AreSteps, FitsOneBatch};
ghost use Rattle.txn_core.specs.Reads.{message_places, read_step};

/// Whatever steps come, and whichever flights a stop keeps, the lists are lawful together; none gets shorter; and what was
/// told stays the first visible places.
pub fn steps_keep_the_lists()
    // One step, and steps one after another.
    ensures step { (n : ℕ) (s : CoreState) (step : CoreStep) → n ≤ 62 → CoreInvariant n s → can n s step ≡ true → CoreInvariant n (core_after s step) }
    ensures steps { (n : ℕ) (s : CoreState) (steps : List CoreStep) → n ≤ 62 → CoreInvariant n s → CoreInvariant n (run n steps s) }

    // What a stop leaves.
    ensures lawful { (n : ℕ) (s : CoreState) (stays : ℕ → Bool) → CoreInvariant n s → AreLawful n (kept_of s stays) }
    ensures longer { (n : ℕ) (s : CoreState) (steps : List CoreStep) (p : ℕ) → IsPrefix (settled_of s p) (settled_of (run n steps s) p) }
    ensures told { (s : CoreState) (t : Told) (n : ℕ) → CoreInvariant n s → Contains s.told t → IsPrefix t.places (from_place t.first (visible_places (settled_of s t.topic))) }
{}

/// Lists that are lawful together are a start.
pub fn a_lawful_start_is_kept()
    ensures { (n : ℕ) (lists : List (List CoreEntry)) → AreLawful n (settled_of (resting_core lists)) → CoreInvariant n (resting_core lists) }
{}

/// Behind a list that is lawful by itself, it is enough to test the entries that start.
pub fn a_start_follows()
    ensures { (n : ℕ) (s : CoreState) (p : ℕ) (es : List CoreEntry) → CoreInvariant n s → is_alone n p (settled_of s p ++ es) ≡ all_follow (core_allows n p) (settled_of s p) es }
{}

/// The skeletons of a lawful world are lawful together, also with flights that are allowed over it; and a stop keeps of
/// them what it keeps of the world.
pub fn lawful_worlds_are_lawful_together()
    ensures lawful { (w : World) → Lawful w → AreLawful (length w.names) (skeletons_of w) }
    ensures flights { (w : World) (f : Flights) → Lawful w → AllowedFlights w f → length f.coord ≤ 1 → StandTogether (length w.names) (skeletons_of w) (flights_of w f) }
    ensures kept { (w : World) (f : Flights) (stays : ℕ → Bool) (p : ℕ) → Shaped w → p ≤ length w.names
        → skeletons_of (with_kept w f stays) p ≡ (if stays p then skeletons_of w p ++ flights_of w f p else skeletons_of w p) }

    // A world has no more parts than a core.
    ensures few { (w : World) → Lawful w → length w.names ≤ 62 }
{}

/// Each change of the state of the table of replies is a list of core steps: a batch that is settled, a batch whose append
/// failed, and a part whose flight is kept or dropped. Changes one after another are one list.
pub fn changes_of_the_table_are_steps()
    ensures settled { (b : EntryBatch) (t : TableState) → LawfulState t → IsFor b t.world.names → IsPartRebuilt b t → IsAllowed b t.world → FitsOneBatch b → AreSteps (length t.world.names) t (with_batch b t) }
    ensures failed { (b : EntryBatch) (p : ℕ) (t : TableState) → batch_part b ≡ Some p → LawfulState t → IsFor b t.world.names → IsPartRebuilt b t → IsAllowed b t.world → FitsOneBatch b → AreSteps (length t.world.names) t (with_failed_batch b p t) }
    ensures resolved { (p : ℕ) (stays : Bool) (t : TableState) → LawfulState t → AreSteps (length t.world.names) t (resolved p stays t) }
    ensures rebuilt { (p : ℕ) (stays : Bool) (t : TableState) → LawfulState t → AreSteps (length t.world.names) t (rebuilt p stays t) }

    // What isn't in the lists or in flight is no matter.
    ensures same { (n : ℕ) (t t' : TableState) → t'.world ≡ t.world → t'.flights ≡ t.flights → AreSteps n t t' }
    ensures both { (n : ℕ) (a b c : TableState) → AreSteps n a b → AreSteps n b c → AreSteps n a c }
{}

/// Whatever lines are told, faults and want of memory included, what changes is a list of core steps.
pub fn lines_are_steps()
    ensures request { (limits : Limits) (s : RunState) (r : Request) (told : Reply) (s' : RunState) → InRange limits → LawfulState s.table → AnswersFrom limits s r told s' → AreSteps (length s.table.world.names) s.table s'.table }
    ensures lines { (limits : Limits) (s : RunState) (kinds : List LineKind) (told : List Reply) (s' : RunState) → InRange limits → LawfulState s.table → Replies limits s kinds told s' → AreSteps (length s.table.world.names) s.table s'.table }

    // Where nothing is in flight there is a core to begin with.
    ensures start { (n : ℕ) (t : TableState) → ((p : ℕ) → p ≤ n → flights_of t.world t.flights p ≡ []) → Mirrors n t (resting_core (map (skeletons_of t.world) (numbers_from 0 (n + 1)))) }
{}

/// The visible places of a topic's skeletons are those of its visible messages, in order, and what a read gives may be told.
pub fn visible_places_are_those_of_the_messages()
    ensures visible { (es : List TopicEntry) → message_places (visible_of es) ≡ visible_places (topic_skeletons es) }

    // The places that a read gives are those that its step tells, and the step is allowed.
    ensures read { (limits : Limits) (es : List TopicEntry) (first max : ℕ) → message_places (read_slice limits es first max) ≡ told_places (topic_skeletons es) first (length (read_slice limits es first max)) }
    ensures allowed { (n : ℕ) (s : CoreState) (limits : Limits) (es : List TopicEntry) (topic first max : ℕ) → settled_of s topic ≡ topic_skeletons es → can n s (read_step limits es topic first max) ≡ true }
{}
