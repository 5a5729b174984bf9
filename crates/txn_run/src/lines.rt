//! The lines of the source, and what is told to each.
ghost use Rattle.std.specs.Prelude.{◌≡◌, ◌≤◌, ◌<◌, ◌∷◌, [], ◌⊎◌, ℕ, List, Option, None, length, take, IfOk, IfSome, OnOk, Ok, Err, MatchResult, true};
ghost use Rattle.std.specs.Io.KnownBytes.{Consumes, Keeps, IsAtEnd};
ghost use Rattle.txn_base.specs.Outside.{HasCause};
ghost use Rattle.txn_base.specs.Room.{capacity};
ghost use Rattle.txn_engine.specs.Told.{IsTellable};
ghost use Rattle.txn_engine.specs.View.{IsWhole, IsTied};
ghost use Rattle.txn_model.specs.Answers.{reads_clock};
ghost use Rattle.txn_model.specs.Cut.{is_blank, lines_of};
ghost use Rattle.txn_model.specs.Replies.{RunState, Replied, TellsFor};
ghost use Rattle.txn_run.specs.Going.{run_state_at, IsLineSoFar, Going, RunGoesOn, BreaksOff, StopsIn};
ghost use Rattle.txn_run.specs.Kinds.{is_answered, line_kind};
ghost use Rattle.txn_run.specs.Serving.{CanServe, Serves, TellsTo};
ghost use Rattle.txn_run.specs.Told.{tells_fault, ToldLine, ToldFront, ToldFault, AnsweredLines, Broken, Stopped, LineMayTell};
ghost use Rattle.txn_run.specs.declared.lines.Stop.TheVariants as stop;

use crate::partial_line::PartialLine;
use crate::put::put_reply;
use std::alloc::Global;
use std::sync::ledger;
use txn_base::{Bytes, Clock, Disk, Failed, Limits, Refusal, Reply, Request, Sink, Source, Steps};
use txn_engine::Engine;
use txn_wire::{WireError, read_request};

/// Why no further line is answered.
#[derive(Clone, Copy, PartialEq, Eq)]
pub enum Stop {
    /// The sink took no more.
    Sink,
    /// A fault was told, after which a part isn't rebuilt.
    Disk,
}

/// Whether a request is of a form that is answered.
fn is_answered(request: &Request) -> bool
    ensures { result ≡ is_answered request.now }
{
    match request {
        Request::New { .. }
        | Request::Add { .. }
        | Request::Publish { .. }
        | Request::Commit { .. }
        | Request::Abort { .. }
        | Request::Status { .. }
        | Request::Read { .. } => true,
        _ => false,
    }
}

/// Whether a request comes after a moment of the clock.
fn reads_clock(request: &Request) -> bool
    ensures { result ≡ reads_clock request.now }
{
    matches!(request, Request::New { .. } | Request::Tick)
}

/// The moment of a request: the next one of the clock, where it reads the clock.
fn moment_for<K: Clock>(request: &Request, clock: &mut K) -> u64
    ensures { TellsFor request.now (K.moments clock.old) result (K.moments clock.new) }
{
    if reads_clock(request) {
        return clock.now();
    }
    0
}

fn is_blank(line: &[u8]) -> bool
    ensures { result ≡ is_blank line.now }
{
    for byte in line {
        if !matches!(*byte, b' ' | b'\t' | b'\r') {
            return false;
        }
    }
    true
}

/// The reply to a line that has ended, where it has one.
fn reply<D: Disk, K: Clock, L: ledger::Ledger>(
    alloc: Global,
    limits: &Limits,
    pending: &PartialLine,
    engine: &mut Engine,
    disk: &mut D,
    steps: &mut Steps<L>,
    clock: &mut K,
) -> Option<Reply>
    requires ready { CanServe D.Disk limits.now engine.old disk.old }
    ensures some { IfSome result (λ told. D.tells → IsTied engine.old → (piece : List ℕ) →
        IsLineSoFar limits.now.line pending.now piece →
        LineMayTell limits.now (run_state_at D.Disk K.Clock engine.old clock.old disk.old)
        (line_kind limits.now piece) told
        (run_state_at D.Disk K.Clock engine.new clock.new disk.new)) }
    ensures none { result ≡ None → (piece : List ℕ) →
        IsLineSoFar limits.now.line pending.now piece →
        Replied limits.now (run_state_at D.Disk K.Clock engine.old clock.old disk.old)
        (line_kind limits.now piece) []
        (run_state_at D.Disk K.Clock engine.new clock.new disk.new) }
    ensures whole { IsWhole engine.new ⊎ (tells_fault result ≡ true) }
    ensures tellable { IfSome result IsTellable }
    ensures serves { Serves D.Disk
        (tells_fault result ≡ true) engine.old engine.new disk.old disk.new }
{
    if pending.long {
        return Some(Reply::No(Refusal::TooLong));
    }
    let line = pending.line.as_slice();
    if is_blank(line) {
        return None;
    }
    match read_request(alloc, line) {
        Ok(request) => {
            if is_answered(&request) {
                let now = moment_for(&request, clock);
                Some(engine.answer(disk, now, &request, steps))
            } else {
                Some(Reply::No(Refusal::BadLine))
            }
        }
        Err(WireError::BadLine) => Some(Reply::No(Refusal::BadLine)),
        Err(WireError::NoMemory) => Some(Reply::No(Refusal::NoMemory)),
    }
}

/// Tells the reply to a line that has ended.
fn answer_line<D: Disk, O: Sink, K: Clock, L: ledger::Ledger>(
    alloc: Global,
    limits: &Limits,
    pending: &PartialLine,
    engine: &mut Engine,
    disk: &mut D,
    steps: &mut Steps<L>,
    out: &mut Bytes,
    sink: &mut O,
    clock: &mut K,
) -> Result<(), Stop>
    requires ready { CanServe D.Disk limits.now engine.old disk.old }
    requires room { 512 ≤ capacity out.old }
    ensures kept { capacity out.old ≤ capacity out.new }
    ensures ok { result ≡ Ok tt → D.tells → IsTied engine.old → (piece : List ℕ) →
        IsLineSoFar limits.now.line pending.now piece →
        ToldLine limits.now (run_state_at D.Disk K.Clock engine.old clock.old disk.old)
        (line_kind limits.now piece) (run_state_at D.Disk K.Clock engine.new clock.new disk.new)
        (O.held sink.old) (O.held sink.new) }
    ensures sink { result ≡ Err stop.Sink → D.tells → IsTied engine.old → (piece : List ℕ) →
        IsLineSoFar limits.now.line pending.now piece →
        ToldFront limits.now (run_state_at D.Disk K.Clock engine.old clock.old disk.old)
        (line_kind limits.now piece) (run_state_at D.Disk K.Clock engine.new clock.new disk.new)
        (O.held sink.old) (O.held sink.new) }
    ensures disk { result ≡ Err stop.Disk → D.tells → IsTied engine.old → (piece : List ℕ) →
        IsLineSoFar limits.now.line pending.now piece →
        ToldFault limits.now (run_state_at D.Disk K.Clock engine.old clock.old disk.old)
        (line_kind limits.now piece) (run_state_at D.Disk K.Clock engine.new clock.new disk.new)
        (O.held sink.old) (O.held sink.new) }
    ensures whole { OnOk result (IsWhole engine.new) }
    ensures serves { Serves D.Disk
        (result ≡ Err stop.Disk) engine.old engine.new disk.old disk.new }
    ensures tells { TellsTo O.Sink result sink.old sink.new }
{
    match reply(alloc, limits, pending, engine, disk, steps, clock) {
        Some(reply) => match put_reply(alloc, &reply, out, sink) {
            Ok(()) => {
                if engine.is_whole() {
                    Ok(())
                } else {
                    Err(Stop::Disk)
                }
            }
            Err(_) => Err(Stop::Sink),
        },
        None => Ok(()),
    }
}

fn take_byte<D: Disk, O: Sink, K: Clock, L: ledger::Ledger>(
    alloc: Global,
    limits: &Limits,
    byte: u8,
    pending: &mut PartialLine,
    engine: &mut Engine,
    disk: &mut D,
    steps: &mut Steps<L>,
    out: &mut Bytes,
    sink: &mut O,
    clock: &mut K,
) -> Result<(), Stop>
    requires ready { CanServe D.Disk limits.now engine.old disk.old }
    requires line { limits.now.line ≤ capacity pending.old.line }
    requires room { 512 ≤ capacity out.old }
    ensures line { limits.now.line ≤ capacity pending.new.line }
    ensures kept { capacity out.old ≤ capacity out.new }
    ensures ok { result ≡ Ok tt → D.tells → IsTied engine.old →
        RunGoesOn limits.now (byte ∷ []) pending.old
        (run_state_at D.Disk K.Clock engine.old clock.old disk.old) (O.held sink.old) pending.new
        (run_state_at D.Disk K.Clock engine.new clock.new disk.new) (O.held sink.new) }
    ensures sink { result ≡ Err stop.Sink → D.tells → IsTied engine.old →
        BreaksOff limits.now (byte ∷ []) pending.old
        (run_state_at D.Disk K.Clock engine.old clock.old disk.old) (O.held sink.old)
        (run_state_at D.Disk K.Clock engine.new clock.new disk.new) (O.held sink.new) }
    ensures disk { result ≡ Err stop.Disk → D.tells → IsTied engine.old →
        StopsIn limits.now (byte ∷ []) pending.old
        (run_state_at D.Disk K.Clock engine.old clock.old disk.old) (O.held sink.old)
        (run_state_at D.Disk K.Clock engine.new clock.new disk.new) (O.held sink.new) }
    ensures whole { OnOk result (IsWhole engine.new) }
    ensures serves { Serves D.Disk
        (result ≡ Err stop.Disk) engine.old engine.new disk.old disk.new }
    ensures tells { TellsTo O.Sink result sink.old sink.new }
{
    if byte == b'\n' {
        match answer_line(
            alloc, limits, pending, engine, disk, steps, out, sink, clock,
        ) {
            Ok(()) => pending.clear(limits.line),
            Err(stop) => return Err(stop),
        }
    } else {
        pending.add(limits.line, byte);
    }
    Ok(())
}

/// Goes over bytes that have come.
pub fn feed<D: Disk, O: Sink, K: Clock, L: ledger::Ledger>(
    alloc: Global,
    limits: &Limits,
    bytes: &[u8],
    pending: &mut PartialLine,
    engine: &mut Engine,
    disk: &mut D,
    steps: &mut Steps<L>,
    out: &mut Bytes,
    sink: &mut O,
    clock: &mut K,
) -> Result<(), Stop>
    requires ready { CanServe D.Disk limits.now engine.old disk.old }
    requires line { limits.now.line ≤ capacity pending.old.line }
    requires room { 512 ≤ capacity out.old }
    ensures line { limits.now.line ≤ capacity pending.new.line }
    ensures kept { capacity out.old ≤ capacity out.new }
    ensures ok { result ≡ Ok tt → D.tells → IsTied engine.old →
        RunGoesOn limits.now bytes.now pending.old
        (run_state_at D.Disk K.Clock engine.old clock.old disk.old) (O.held sink.old) pending.new
        (run_state_at D.Disk K.Clock engine.new clock.new disk.new) (O.held sink.new) }
    ensures sink { result ≡ Err stop.Sink → D.tells → IsTied engine.old →
        BreaksOff limits.now bytes.now pending.old
        (run_state_at D.Disk K.Clock engine.old clock.old disk.old) (O.held sink.old)
        (run_state_at D.Disk K.Clock engine.new clock.new disk.new) (O.held sink.new) }
    ensures disk { result ≡ Err stop.Disk → D.tells → IsTied engine.old →
        StopsIn limits.now bytes.now pending.old
        (run_state_at D.Disk K.Clock engine.old clock.old disk.old) (O.held sink.old)
        (run_state_at D.Disk K.Clock engine.new clock.new disk.new) (O.held sink.new) }
    ensures whole { OnOk result (IsWhole engine.new) }
    ensures serves { Serves D.Disk
        (result ≡ Err stop.Disk) engine.old engine.new disk.old disk.new }
    ensures tells { TellsTo O.Sink result sink.old sink.new }
{
    for byte in bytes {
        match take_byte(
            alloc, limits, *byte, pending, engine, disk, steps, out, sink, clock,
        ) {
            Ok(()) => {}
            Err(stop) => return Err(stop),
        }
    }
    Ok(())
}

/// Tells the last line, where the input didn't end with a newline.
pub fn finish<D: Disk, O: Sink, K: Clock, L: ledger::Ledger>(
    alloc: Global,
    limits: &Limits,
    pending: &PartialLine,
    engine: &mut Engine,
    disk: &mut D,
    steps: &mut Steps<L>,
    out: &mut Bytes,
    sink: &mut O,
    clock: &mut K,
) -> Result<(), Stop>
    requires ready { CanServe D.Disk limits.now engine.old disk.old }
    requires room { 512 ≤ capacity out.old }
    ensures ok { result ≡ Ok tt → D.tells → IsTied engine.old →
        (first : RunState) (old : Option (List ℕ)) (fed : List ℕ) →
        Going limits.now first old fed pending.now
        (run_state_at D.Disk K.Clock engine.old clock.old disk.old) (O.held sink.old) →
        AnsweredLines limits.now first (lines_of fed)
        (run_state_at D.Disk K.Clock engine.new clock.new disk.new) old (O.held sink.new) }
    ensures sink { result ≡ Err stop.Sink → D.tells → IsTied engine.old →
        (first : RunState) (old : Option (List ℕ)) (fed : List ℕ) →
        Going limits.now first old fed pending.now
        (run_state_at D.Disk K.Clock engine.old clock.old disk.old) (O.held sink.old) →
        Broken limits.now first old (lines_of fed)
        (run_state_at D.Disk K.Clock engine.new clock.new disk.new) (O.held sink.new) }
    ensures disk { result ≡ Err stop.Disk → D.tells → IsTied engine.old →
        (first : RunState) (old : Option (List ℕ)) (fed : List ℕ) →
        Going limits.now first old fed pending.now
        (run_state_at D.Disk K.Clock engine.old clock.old disk.old) (O.held sink.old) →
        Stopped limits.now first old (lines_of fed)
        (run_state_at D.Disk K.Clock engine.new clock.new disk.new) (O.held sink.new) }
    ensures whole { OnOk result (IsWhole engine.new) }
    ensures some { result ≡ Err stop.Disk → IsLineSoFar limits.now.line pending.now [] → ⊥ }
    ensures clock { IsLineSoFar limits.now.line pending.now [] → clock.new ≡ clock.old }
    ensures serves { Serves D.Disk
        (result ≡ Err stop.Disk) engine.old engine.new disk.old disk.new }
    ensures tells { TellsTo O.Sink result sink.old sink.new }
{
    if pending.is_empty() {
        return Ok(());
    }
    answer_line(
        alloc, limits, pending, engine, disk, steps, out, sink, clock,
    )
}

/// Takes the next bytes, at most so many, into the front of the chunk.
pub fn take_into<I: Source>(source: &mut I, chunk: &mut [u8], most: usize) -> Result<usize, Failed>
    requires { most ≤ length chunk.old }
    ensures bound { IfOk result (λ n. n ≤ most) }
    ensures bytes { MatchResult result
        (λ n. Consumes (I.left source.old) (I.left source.new) (take n chunk.new)
        × (n ≡ 0 → 0 < most → IsAtEnd (I.left source.new)))
        (λ _. Keeps (I.left source.old) (I.left source.new)) }
    ensures beside { I.rest source.new ≡ I.rest source.old }
    ensures cause { HasCause (I.faults source.old) (I.faults source.new) result }
{
    source.take(&mut chunk[..most])
}
