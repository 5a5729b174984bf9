//! Laws of files and the worlds for which they stand. Each function does nothing, and its contract is the law.
ghost use Rattle.std.specs.Prelude.{◌≡◌, ◌++◌, [], ◌∷◌, ℕ, List, true, All};
ghost use Rattle.txn_base.specs.declared.entry.CoordEntry.{CoordEntry};
ghost use Rattle.txn_base.specs.declared.entry.TopicEntry.{TopicEntry};
ghost use Rattle.txn_base.specs.declared.entry.AckEntry.{AckEntry};
ghost use Rattle.txn_base.specs.Disk.{Files, Elsewhere};
ghost use Rattle.txn_base.specs.Frames.{Batch, Stands, records};
ghost use Rattle.txn_base.specs.Records.{IsCoordRecord, IsAckRecord};
ghost use Rattle.txn_base.specs.Decoded.{coord_entry_of, topic_entry_of, ack_entry_of, coord_entries, topic_entries, ack_entries};
ghost use Rattle.txn_model.specs.declared.world.World.{World};
ghost use Rattle.txn_model.specs.Words.{has, list_at};
ghost use Rattle.txn_model.specs.Table.{TableState, in_coord, in_topic, in_sub, world_with};
ghost use Rattle.txn_model.specs.Shape.{topic_parts, sub_parts};
ghost use Rattle.txn_model.specs.Sound.{ledger_file, StandsForEntries, IsBareRecord, StandsFor, Sound, StandsForKept, LedgersStand};
ghost use Rattle.txn_model.specs.World.{Flights};
ghost use Rattle.txn_model.specs.Allowed.{LawfulState};

/// Files stand for one world.
pub fn one_world()
    ensures { (names : List (List ℕ)) (files : Files) (a b : World) → StandsFor names files a → StandsFor names files b → a ≡ b }
{}

/// The entries for which a file stands are read off its records, one by one.
pub fn entries_are_read_off()
    ensures coord { (bytes : List ℕ) (batches : List Batch) (es : List CoordEntry) → StandsForEntries IsCoordRecord bytes es → Stands bytes batches → coord_entries batches ≡ es }
    ensures topic { (bytes : List ℕ) (batches : List Batch) (es : List TopicEntry) → StandsForEntries IsBareRecord bytes es → Stands bytes batches → topic_entries batches ≡ es }
    ensures sub { (bytes : List ℕ) (batches : List Batch) (es : List AckEntry) → StandsForEntries IsAckRecord bytes es → Stands bytes batches → ack_entries batches ≡ es }

    // And where each record is one, the file stands for the entries.
    ensures all_coord { (bytes : List ℕ) (batches : List Batch) → Stands bytes batches → All (λ r. IsCoordRecord r (coord_entry_of r)) (records batches) → StandsForEntries IsCoordRecord bytes (coord_entries batches) }
    ensures all_topic { (bytes : List ℕ) (batches : List Batch) → Stands bytes batches → All (λ r. IsBareRecord r (topic_entry_of r)) (records batches) → StandsForEntries IsBareRecord bytes (topic_entries batches) }
    ensures all_sub { (bytes : List ℕ) (batches : List Batch) → Stands bytes batches → All (λ r. IsAckRecord r (ack_entry_of r)) (records batches) → StandsForEntries IsAckRecord bytes (ack_entries batches) }
{}

/// Where the file of one ledger alone has changed, and stands for its list with more behind it, the files stand for the
/// world with that behind the list.
pub fn appends_stand()
    ensures coord { (names : List (List ℕ)) (files files' : Files) (w : World) → StandsFor names files w → (e : CoordEntry) → Elsewhere (ledger_file 0) files files'
        → StandsForEntries IsCoordRecord (files' (ledger_file 0)) (w.coord ++ e ∷ []) → StandsFor names files' (world_with (in_coord e) w) }
    ensures topic { (names : List (List ℕ)) (files files' : Files) (w : World) → StandsFor names files w → (p : ℕ) (es : List TopicEntry) → has (topic_parts names) p ≡ true → Elsewhere (ledger_file p) files files'
        → StandsForEntries IsBareRecord (files' (ledger_file p)) (list_at w.topics p ++ es) → StandsFor names files' (world_with (in_topic p es) w) }
    ensures sub { (names : List (List ℕ)) (files files' : Files) (w : World) → StandsFor names files w → (p : ℕ) (e : AckEntry) → has (sub_parts names) p ≡ true → Elsewhere (ledger_file p) files files'
        → StandsForEntries IsAckRecord (files' (ledger_file p)) (list_at w.subs p ++ e ∷ []) → StandsFor names files' (world_with (in_sub p e) w) }
{}

/// Where the file of one ledger alone has changed, and stands for the same list, the files stand for the same world.
pub fn changes_behind_the_list_stand()
    ensures coord { (names : List (List ℕ)) (files files' : Files) (w : World) → StandsFor names files w → Elsewhere (ledger_file 0) files files'
        → StandsForEntries IsCoordRecord (files' (ledger_file 0)) w.coord → StandsFor names files' w }
    ensures topic { (names : List (List ℕ)) (files files' : Files) (w : World) → StandsFor names files w → (p : ℕ) → has (topic_parts names) p ≡ true → Elsewhere (ledger_file p) files files'
        → StandsForEntries IsBareRecord (files' (ledger_file p)) (list_at w.topics p) → StandsFor names files' w }
    ensures sub { (names : List (List ℕ)) (files files' : Files) (w : World) → StandsFor names files w → (p : ℕ) → has (sub_parts names) p ≡ true → Elsewhere (ledger_file p) files files'
        → StandsForEntries IsAckRecord (files' (ledger_file p)) (list_at w.subs p) → StandsFor names files' w }
{}

/// Where each ledger's file stands for its list with its flight or without, part by part, the files stand for what a stop
/// keeps; and they are sound where the table's state is lawful.
pub fn kept_ledgers_stand()
    ensures ledgers { (names : List (List ℕ)) (files : Files) (w : World) (f : Flights) → LedgersStand names files w f → StandsForKept names files w f }
    ensures sound { (names : List (List ℕ)) (files : Files) (t : TableState) → LawfulState t → StandsForKept names files t.world t.flights → Sound names files }
{}
