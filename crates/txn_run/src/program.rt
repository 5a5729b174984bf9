//! A run: opens the parts, and answers each line of the source.
ghost use Rattle.std.specs.Prelude.{◌≡◌, ◌≤◌, ◌∷◌, [], ◌⊎◌, ℕ, List, All, Ok, Err, length, true};
ghost use Rattle.std.specs.Io.KnownBytes.{Consumes};
ghost use Rattle.txn_base.specs.Limits.{InRange};
ghost use Rattle.txn_base.specs.Names.{is_topic_name};
ghost use Rattle.txn_base.specs.Outside.{Rose};
ghost use Rattle.txn_base.specs.Room.{capacity};
ghost use Rattle.txn_base.specs.Moves.{After, AtEachMoment};
ghost use Rattle.txn_base.specs.declared.file_id.FileId.{FileId};
ghost use Rattle.txn_base.specs.declared.usage.Usage.{Usage};
ghost use Rattle.txn_base.specs.Disk.{Files};
ghost use Rattle.txn_engine.specs.Above.{StandsAbove, KeepsAbove};
ghost use Rattle.txn_engine.specs.Files.{AreJustFrames};
ghost use Rattle.txn_engine.specs.Growing.{Grows, GrowsWorld};
ghost use Rattle.txn_engine.specs.Opening.{AreParts, IsPartFile, IsFirstDamage, KeepsFiles, KeepsAllDamaged};
ghost use Rattle.txn_engine.specs.Told.{FaultsWithin};
ghost use Rattle.txn_engine.specs.View.{IsTied, IsWhole};
ghost use Rattle.txn_model.specs.declared.world.World.{World};
ghost use Rattle.txn_model.specs.Names.{NamesLawful};
ghost use Rattle.txn_run.specs.Files.{LeavesOthers};
ghost use Rattle.txn_run.specs.Going.{run_state_at, IsLineSoFar};
ghost use Rattle.txn_run.specs.Promises.{KeepsPromises};
ghost use Rattle.txn_run.specs.Run.{Ended, FaultIsLast, CameToLines, IsOpened, IsUnstarted, IsQuiet, IsAnswered, IsAtRest, Asks, DiskStopped, RunsOn, Took};
ghost use Rattle.txn_run.specs.Serving.{CanServe, Serves};
ghost use Rattle.txn_run.specs.Words.{command_of};
ghost use Rattle.txn_run.specs.declared.status.RunStatus.TheVariants as status;

use crate::lines::{Stop, feed, finish, take_into};
use crate::partial_line::PartialLine;
use crate::room::{CHUNK, Room, room_for};
use crate::status::{RunStatus, unopened};
use crate::words::names_of;
use std::alloc::Global;
use std::marker::Brand;
use std::sync::ledger;
use std::sync::ledger::Blank;
use txn_base::{Bytes, Clock, Disk, Limits, Sink, Source, Steps, Text};
use txn_engine::Engine;

/// Does what the words ask for: answers each line of the source over the one topic of their name, whose ledger is row 2 of
/// part 1 of the disk, and the coordinator, whose ledger is row 2 of part 0. At most `input` bytes are taken, in pieces; a
/// reply is put before the next line is answered. The clock tells one moment for each `new`, when its form was read.
///
/// Where the disk tells what it holds, and that stands for a world, lawful or not: the texts of the replies of the table, as
/// the status says, were put, each image that is left is one that the last table keeps, and in it the ledger of a part that is
/// rebuilt is its frames and no more (`answers`). On every disk: whatever world each image at the call extends soundly, each
/// image at any moment since does (`always`). On every disk, whatever its files hold: the list for which a file stands only
/// grows (`grows`).
pub fn run<D: Disk, I: Source, O: Sink, K: Clock>(
    alloc: Global,
    words: &[Text],
    limits: &Limits,
    disk: &mut D,
    source: &mut I,
    sink: &mut O,
    clock: &mut K,
) -> RunStatus
    requires limits { InRange limits.now }
    ensures answers { Asks words.now (λ names.
        RunsOn D.Disk I.Source O.Sink K.Clock result limits.now names disk.old disk.new source.old source.new sink.old sink.new clock.old clock.new) }

    // Whatever the files hold, and with every status, each image since comes of one at the call: a file that stood for a list in
    // that one stands for it with more behind it, or none; and where that one stood for a world, this stands for one that extends
    // it.
    ensures grows { After D.Disk Grows disk.old disk.new }
    ensures worlds { Asks words.now (λ names. After D.Disk (GrowsWorld names) disk.old disk.new) }

    // Where the files are sound, they stay so.
    ensures images { Asks words.now (λ names. After D.Disk (KeepsAbove names) disk.old disk.new) }
    ensures always { Asks words.now (λ names. (floor : World) →
        AtEachMoment D.Disk (StandsAbove names floor) (StandsAbove names floor) disk.old disk.new) }

    // In the words of transactions: at every moment each image keeps the promises, and nothing of what stood lapses.
    ensures promises { Asks words.now (λ names. (floor : World) →
        AtEachMoment D.Disk (StandsAbove names floor)
        (KeepsPromises names floor) disk.old disk.new) }

    // Only the two ledgers change. Where no line was looked at, each file keeps the list that it stands for, and one in which
    // an open gate begins no frame stays as it was.
    ensures elsewhere { LeavesOthers D.Disk 1 disk.old disk.new }
    ensures lists { IsQuiet result → After D.Disk KeepsFiles disk.old disk.new }
    ensures uncut { IsQuiet result → D.tells → KeepsAllDamaged (D.seen disk.old) (D.seen disk.new) }

    // Where all that was sent is answered, a stop leaves of each ledger its frames and no more.
    ensures tidy { IsAtRest result → (c : Files) → D.image disk.new c → AreJustFrames 1 c }
    ensures usage { (u : Usage) → command_of words.now ≡ Err u →
        ((result ≡ status.Usage u) ⊎ (result ≡ status.NoMemory)) × (disk.new ≡ disk.old)
        × (source.new ≡ source.old) × (sink.new ≡ sink.old) }
    ensures command { (u : Usage) → result ≡ status.Usage u → command_of words.now ≡ Err u }
    ensures undamaged { IsAnswered result → D.tells → AreParts 1 (D.seen disk.old) }
    ensures damaged { (file : FileId) (entry : ℕ) → result ≡ status.Damaged file entry →
        IsPartFile 1 file × (D.tells → IsFirstDamage 1 (D.seen disk.old) file entry) }
    ensures quiet { IsQuiet result → (source.new ≡ source.old) × (sink.new ≡ sink.old) }
    ensures stopped { result ≡ status.DiskFault →
        DiskStopped D.Disk I.Source O.Sink 1 disk.old disk.new source.old source.new sink.old
        sink.new clock.old clock.new }
    ensures taken { Took result limits.now (I.left source.old)
        (I.left source.new) clock.old clock.new }
    ensures clock { IsUnstarted result → clock.new ≡ clock.old }
    ensures read { result ≡ status.ReadFault → Rose (I.faults source.old) (I.faults source.new) }
    ensures write { result ≡ status.WriteFault → Rose (O.faults sink.old) (O.faults sink.new) }
    ensures disk { FaultsWithin D.Disk 1 disk.old disk.new (result ≡ status.DiskFault) }
{
    match names_of(alloc, words) {
        Ok(names) => run_over::<Brand, D, I, O, K>(
            alloc,
            Blank::new(1),
            names,
            limits,
            disk,
            source,
            sink,
            clock,
        ),
        Err(status) => status,
    }
}

/// The same with the names of the topics, and a blank for the count of records that are read: opens the parts, and answers
/// each line of the source.
fn run_over<L: ledger::Ledger, D: Disk, I: Source, O: Sink, K: Clock>(
    alloc: Global,
    blank: Blank,
    names: Vec<Text>,
    limits: &Limits,
    disk: &mut D,
    source: &mut I,
    sink: &mut O,
    clock: &mut K,
) -> RunStatus
    requires named { blank.name ≡ L.name }
    requires parts { blank.parts ≡ L.parts }
    requires one { L.parts ≡ 1 }
    requires names { NamesLawful names.items }
    requires topics { All (λ name. is_topic_name name ≡ true) names.items }
    requires limits { InRange limits.now }
    ensures answers { RunsOn D.Disk I.Source O.Sink K.Clock result limits.now names.items disk.old
        disk.new source.old source.new sink.old sink.new clock.old clock.new }
    ensures grows { After D.Disk Grows disk.old disk.new }
    ensures worlds { After D.Disk (GrowsWorld names.items) disk.old disk.new }
    ensures images { After D.Disk (KeepsAbove names.items) disk.old disk.new }
    ensures lists { IsQuiet result → After D.Disk KeepsFiles disk.old disk.new }
    ensures uncut { IsQuiet result → D.tells → KeepsAllDamaged (D.seen disk.old) (D.seen disk.new) }
    ensures tidy { IsAtRest result → (c : Files) → D.image disk.new c →
        AreJustFrames (length names.items) c }
    ensures elsewhere { LeavesOthers D.Disk (length names.items) disk.old disk.new }
    ensures statuses { IsOpened result }
    ensures undamaged { IsAnswered result → D.tells →
        AreParts (length names.items) (D.seen disk.old) }
    ensures damaged { (file : FileId) (entry : ℕ) → result ≡ status.Damaged file entry →
        IsPartFile (length names.items) file
        × (D.tells → IsFirstDamage (length names.items) (D.seen disk.old) file entry) }
    ensures quiet { IsQuiet result → (source.new ≡ source.old) × (sink.new ≡ sink.old) }
    ensures stopped { result ≡ status.DiskFault →
        DiskStopped D.Disk I.Source O.Sink
        (length names.items) disk.old disk.new source.old source.new sink.old sink.new clock.old
        clock.new }
    ensures taken { Took result limits.now (I.left source.old)
        (I.left source.new) clock.old clock.new }
    ensures clock { IsUnstarted result → clock.new ≡ clock.old }
    ensures read { result ≡ status.ReadFault → Rose (I.faults source.old) (I.faults source.new) }
    ensures write { result ≡ status.WriteFault → Rose (O.faults sink.old) (O.faults sink.new) }
    ensures disk { FaultsWithin D.Disk (length names.items) disk.old disk.new
        (result ≡ status.DiskFault) }
{
    let Ok(room) = room_for(alloc, limits.line) else {
        return RunStatus::NoMemory;
    };
    let mut steps = Steps::<L>::new(blank);
    match Engine::open_disk(alloc, names, limits, disk, &mut steps) {
        Ok(engine) => {
            let Room {
                mut chunk,
                mut pending,
                mut out,
            } = room;
            let mut engine = engine;
            run_in(
                alloc,
                limits,
                &mut chunk,
                &mut pending,
                &mut out,
                &mut engine,
                disk,
                &mut steps,
                source,
                sink,
                clock,
            )
        }
        Err(error) => unopened(error),
    }
}

/// Answers each line of the source over an engine whose parts are rebuilt.
fn run_in<L: ledger::Ledger, D: Disk, I: Source, O: Sink, K: Clock>(
    alloc: Global,
    limits: &Limits,
    chunk: &mut [u8],
    pending: &mut PartialLine,
    out: &mut Bytes,
    engine: &mut Engine,
    disk: &mut D,
    steps: &mut Steps<L>,
    source: &mut I,
    sink: &mut O,
    clock: &mut K,
) -> RunStatus
    requires chunk { length chunk.old ≡ 4096 }
    requires pending { IsLineSoFar limits.now.line pending.old [] }
    requires line { limits.now.line ≤ capacity pending.old.line }
    requires out { 512 ≤ capacity out.old }
    requires ready { CanServe D.Disk limits.now engine.old disk.old }
    ensures answers { D.tells → IsTied engine.old →
        (taken : List ℕ) × Consumes (I.left source.old) (I.left source.new) taken
        × Ended result limits.now (run_state_at D.Disk K.Clock engine.old clock.old disk.old)
        (O.held sink.old) taken (run_state_at D.Disk K.Clock engine.new clock.new disk.new)
        (O.held sink.new) (I.left source.new) }
    ensures taken { Took result limits.now (I.left source.old)
        (I.left source.new) clock.old clock.new }
    ensures stopped { result ≡ status.DiskFault →
        FaultIsLast (I.left source.old) (I.left source.new) (O.held sink.old) (O.held sink.new) }
    ensures statuses { CameToLines result × (IsAtRest result → IsWhole engine.new) }
    ensures serves { Serves D.Disk
        (result ≡ status.DiskFault) engine.old engine.new disk.old disk.new }
    ensures read { result ≡ status.ReadFault → Rose (I.faults source.old) (I.faults source.new) }
    ensures write { result ≡ status.WriteFault → Rose (O.faults sink.old) (O.faults sink.new) }
{
    let input = limits.input;
    let mut taken = 0u64;
    while taken < input {
        let most = (input - taken).min(CHUNK as u64) as usize;
        let count = match take_into(source, chunk, most) {
            Ok(count) => count,
            Err(_) => return RunStatus::ReadFault,
        };
        if count == 0 {
            return match finish(
                alloc, limits, pending, engine, disk, steps, out, sink, clock,
            ) {
                Ok(()) => RunStatus::Ok,
                Err(Stop::Sink) => RunStatus::WriteFault,
                Err(Stop::Disk) => RunStatus::DiskFault,
            };
        }
        taken += count as u64;
        let came = &chunk[..count];
        match feed(
            alloc, limits, came, pending, engine, disk, steps, out, sink, clock,
        ) {
            Ok(()) => {}
            Err(Stop::Sink) => return RunStatus::WriteFault,
            Err(Stop::Disk) => return RunStatus::DiskFault,
        }
    }
    RunStatus::TooMuch
}
