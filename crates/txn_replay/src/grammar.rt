//! How records are read as entries, and which entries may follow others.

/// The entries of one kind of log.
pub trait Grammar {
    ghost use Rattle.std.specs.Prelude.{◌≡◌, ℕ, Bool, true, List, [], ◌∷◌, ◌++◌};
    ghost use Rattle.txn_base.specs.Frames.{Record};

    /// An entry.
    type Entry: Drop;

    /// What a record is read as, also outside the grammar.
    ghost entry_of: { Record → Self.Entry };

    /// The record is in the grammar, and stands for this entry.
    ghost is_record: { Record → Self.Entry → Type 0 };

    /// By a rule, this entry is allowed after those.
    ghost allows: { ℕ → List Self.Entry → Self.Entry → Bool };

    /// By a rule, each of these is allowed after those before it.
    ghost lawful: { ℕ → List Self.Entry → Type 0 };

    /// A lawful list goes on with an entry of a record that is allowed after it.
    ghost goes_on: { (n : ℕ) (xs : List Self.Entry) (r : Record) (e : Self.Entry) → lawful n xs → is_record r e → allows n xs e ≡ true → lawful n (xs ++ e ∷ []) };

    /// The last of a lawful list is allowed after those before it, which are lawful.
    ghost ends_in: { (n : ℕ) (xs : List Self.Entry) (e : Self.Entry) → lawful n (xs ++ e ∷ []) → lawful n xs × (allows n xs e ≡ true) };
}
