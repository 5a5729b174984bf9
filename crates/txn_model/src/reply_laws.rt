//! Laws of the table of replies. Each function does nothing, and its contract is the law.
ghost use Rattle.std.specs.Prelude.{◌≡◌, ◌⊎◌, ◌≤◌, ◌+◌, ◌-◌, ◌^◌, min, ℕ, List};
ghost use Rattle.txn_base.specs.declared.limits.Limits.{Limits};
ghost use Rattle.txn_base.specs.declared.request.Request.{Request};
ghost use Rattle.txn_base.specs.declared.reply.Reply.{Reply};
ghost use Rattle.txn_base.specs.declared.reply.Reply.TheVariants as reply;
ghost use Rattle.txn_base.specs.declared.reply.Refusal.TheVariants as no;
ghost use Rattle.txn_model.specs.Words.{nowhere};
ghost use Rattle.txn_model.specs.Coord.{CoordLawful};
ghost use Rattle.txn_model.specs.World.{Extends, log_of};
ghost use Rattle.txn_model.specs.Table.{TableState};
ghost use Rattle.txn_model.specs.Answers.{Answers};
ghost use Rattle.txn_model.specs.Replies.{RunState, LineKind, Replies, count_faults};
ghost use Rattle.txn_model.specs.Plain.{plain_answer};

/// Whatever lines are told, each list afterwards begins with what it was.
pub fn lists_only_grow()
    ensures { (limits : Limits) (s : RunState) (kinds : List LineKind) (told : List Reply) (s' : RunState) → Replies limits s kinds told s' → Extends s.table.world s'.table.world }
{}

/// With every part whole and no fault, the answer is the plain one, or want of memory.
pub fn only_the_plain_answer()
    ensures { (limits : Limits) (t : TableState) (r : Request) (told : Reply) (t' : TableState) → t.unrebuilt ≡ nowhere → Answers limits (λ p. ⊥) t r told t'
        → ((told ≡ reply.No no.NoMemory) ⊎ ((told ≡ (plain_answer limits t r).0) × (t' ≡ (plain_answer limits t r).1))) }
{}

/// The replies that tell of a fault are at most as many as the disk's count of faults rose by.
pub fn faults_are_counted()
    ensures { (limits : Limits) (s : RunState) (kinds : List LineKind) (told : List Reply) (s' : RunState) → Replies limits s kinds told s' → min (s.faults + count_faults told) (2 ^ 64 - 1) ≤ s'.faults }
{}

/// Over a lawful log, with every part whole, the plain answer is one that the table has.
pub fn there_is_an_answer()
    ensures { (n : ℕ) (limits : Limits) (t : TableState) (r : Request) → t.unrebuilt ≡ nowhere → CoordLawful n (log_of t.world) → Answers limits (λ p. ⊥) t r (plain_answer limits t r).0 (plain_answer limits t r).1 }
{}
