//! Opening all ledgers of a disk.
ghost use Rattle.std.specs.Prelude.{◌≡◌, ℕ, List, Err, All, length, true, IfOk};
ghost use Rattle.txn_base.specs.Limits.{InRange};
ghost use Rattle.txn_base.specs.Names.{is_topic_name};
ghost use Rattle.txn_base.specs.Moves.{After};
ghost use Rattle.txn_base.specs.declared.file_id.FileId.{FileId};
ghost use Rattle.txn_model.specs.declared.world.World.{World};
ghost use Rattle.txn_model.specs.Names.{NamesLawful};
ghost use Rattle.txn_model.specs.Opening.{table_over};
ghost use Rattle.txn_model.specs.Sound.{StandsFor};
ghost use Rattle.txn_engine.specs.Files.{OnlyLedgers};
ghost use Rattle.txn_engine.specs.Kept.{IsEngine};
ghost use Rattle.txn_engine.specs.Opening.{AreParts, IsFirstDamage, IsPartFile, KeepsFiles, KeepsAllDamaged, KeepsWorld};
ghost use Rattle.txn_engine.specs.Table.{table_of};
ghost use Rattle.txn_engine.specs.Told.{FaultsWithin};
ghost use Rattle.txn_engine.specs.View.{IsWhole, IsTied, IsBacked};

use crate::engine::Engine;
use crate::opening::log::open_coordinator;
use crate::opening::topics::open_topics;
use std::alloc::Global;
use std::sync::ledger;
use txn_base::{Disk, FileId, Limits, Steps, Text};

mod log;
mod topics;
mod unopened;

/// Why the parts of a disk couldn't be opened.
#[derive(Drop)]
pub enum EngineError {
    /// A frame or a record of this file is outside its grammar, or its list isn't lawful by itself. A frame is told before
    /// any record.
    Damaged { file: FileId, entry: u64 },
    /// The disk failed.
    Fault,
    /// Memory ran out.
    NoMemory,
}

impl Engine {
    /// Opens the ledger of the coordinator and that of each topic, in the order of their names, which number them from 1,
    /// and replays all of each before the next is opened. The engine that comes of it has told no moment.
    pub fn open_disk<D: Disk, L: ledger::Ledger>(
        alloc: Global,
        names: Vec<Text>,
        limits: &Limits,
        disk: &mut D,
        steps: &mut Steps<L>,
    ) -> Result<Engine, EngineError>
        requires limits { InRange limits.now }
        requires names { NamesLawful names.items }
        requires topics { All (λ name. is_topic_name name ≡ true) names.items }
        ensures opened { IfOk result (λ e. (e.names ≡ names.items) × (e.limits ≡ limits.now)
            × (e.latest ≡ 0) × IsWhole e) }
        ensures kept { IfOk result IsEngine }
        ensures backed { IfOk result (IsBacked (D.image disk.new)) }
        ensures tied { D.tells → IfOk result IsTied }

        // The files were as they have to be, and the engine is the table over the world for which they stood.
        ensures undamaged { D.tells →
            IfOk result (λ e. AreParts (length names.items) (D.seen disk.old)) }
        ensures table { D.tells →
            IfOk result (λ e. (w : World) → StandsFor names.items (D.seen disk.old) w →
            table_of e ≡ table_over w) }

        // Damage is told of the first file in order of its part, and of its first entry that is damaged.
        ensures damaged { (file : FileId) (entry : ℕ) →
            result ≡ Err (EngineError.Damaged file entry) →
            IsPartFile (length names.items) file
            × (D.tells → IsFirstDamage (length names.items) (D.seen disk.old) file entry) }

        // A file in which an open gate begins no frame stays as it was.
        ensures uncut { D.tells → KeepsAllDamaged (D.seen disk.old) (D.seen disk.new) }

        // What each file stood for, it stands for in each image at any moment since, whether another is damaged or not.
        ensures lists { After D.Disk KeepsFiles disk.old disk.new }
        ensures images { After D.Disk (KeepsWorld names.items) disk.old disk.new }

        // No file but the ledgers of these parts changes, in each image at any moment since and as it reads.
        ensures elsewhere { After D.Disk (OnlyLedgers (length names.items)) disk.old disk.new }
        ensures others { OnlyLedgers (length names.items) (D.seen disk.old) (D.seen disk.new) }
        ensures cause { FaultsWithin D.Disk (length names.items) disk.old disk.new
            (result ≡ Err EngineError.Fault) }
    {
        let named = names.len() as u32;
        let coordinator = open_coordinator(alloc, named, limits, disk, steps)?;
        let topics = open_topics(alloc, named, limits, disk, steps)?;
        Ok(Engine::over(alloc, names, coordinator, topics, limits))
    }
}
