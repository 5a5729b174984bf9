//! Laws of worlds. Each function does nothing, and its contract is the law.
ghost use Rattle.std.specs.Prelude.{◌≡◌, ◌==◌, true, if◌then◌else◌, ◌++◌, ℕ, Bool, List};
ghost use Rattle.txn_base.specs.declared.entry.TopicEntry.{TopicEntry};
ghost use Rattle.txn_base.specs.declared.entry.AckEntry.{AckEntry};
ghost use Rattle.txn_model.specs.declared.world.World.{World};
ghost use Rattle.txn_model.specs.Words.{has, list_at, append_at};
ghost use Rattle.txn_model.specs.World.{Lawful, Extends, Flights, with_kept};
ghost use Rattle.txn_model.specs.Table.{EntryBatch, world_with};
ghost use Rattle.txn_model.specs.Shape.{Shaped, topic_parts, sub_parts};
ghost use Rattle.txn_model.specs.Allowed.{AllowedFlights, IsAllowed};
ghost use Rattle.txn_model.specs.Opening.{names_with, world_named};

/// What is added for one part follows that part's list, and each other list is as it was.
pub fn lists_stand_apart()
    ensures topics { (ls : List (ℕ × List TopicEntry)) (p : ℕ) (more : List TopicEntry) (q : ℕ) → list_at (append_at ls p more) q ≡ (if p == q then list_at ls p ++ more else list_at ls q) }
    ensures subs { (ls : List (ℕ × List AckEntry)) (p : ℕ) (more : List AckEntry) (q : ℕ) → list_at (append_at ls p more) q ≡ (if p == q then list_at ls p ++ more else list_at ls q) }

    // What a stop keeps, part by part.
    ensures kept_topics { (w : World) (f : Flights) (stays : ℕ → Bool) (q : ℕ) → Shaped w → has (topic_parts w.names) q ≡ true
        → list_at (with_kept w f stays).topics q ≡ (if stays q then list_at w.topics q ++ f.topics q else list_at w.topics q) }
    ensures kept_subs { (w : World) (f : Flights) (stays : ℕ → Bool) (q : ℕ) → Shaped w → has (sub_parts w.names) q ≡ true
        → list_at (with_kept w f stays).subs q ≡ (if stays q then list_at w.subs q ++ f.subs q else list_at w.subs q) }
{}

/// What is added to a world leaves each list a front of what it is then.
pub fn worlds_grow()
    ensures same { (w : World) → Extends w w }
    ensures both { (a b c : World) → Extends a b → Extends b c → Extends a c }
    ensures batch { (b : EntryBatch) (w : World) → Extends w (world_with b w) }
    ensures kept { (w : World) (f : Flights) (stays : ℕ → Bool) → Extends w (with_kept w f stays) }
    ensures named { (w : World) (words : List (List ℕ)) → Extends w (world_named w (names_with w.names words)) }
{}

/// A lawful world stays lawful under a batch that is allowed over it, and whatever a stop keeps of allowed flights.
pub fn allowed_batches_are_lawful()
    ensures batch { (b : EntryBatch) (w : World) → Lawful w → IsAllowed b w → Lawful (world_with b w) }
    ensures kept { (w : World) (f : Flights) (stays : ℕ → Bool) → Lawful w → AllowedFlights w f → Lawful (with_kept w f stays) }
{}
