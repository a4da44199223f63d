//! The top call.
ghost use Rattle.cp_base.specs.declared.limits.TheConstants.{MOST_SOURCE};
ghost use Rattle.std.specs.Prelude.{◌≡◌, ◌↔◌, ◌≤◌, ◌⊎◌, ℕ, codes, length, map, string_bytes, IfSome, IsTrue, Err};
ghost use Rattle.std.specs.Io.KnownBytes.{IsAtEnd};
ghost use Rattle.cp_base.specs.Faults.{Exceeds, Rose};
ghost use Rattle.cp_schedule.specs.Reading.{BadLine, NotBuilt, schedule_of};
ghost use Rattle.cp_tool.specs.declared.status.LimitName.{LimitName};
ghost use Rattle.cp_tool.specs.Runs.{IsAfterReading, IsBeforeWrites, IsReplay, Limits, Replays, ReplaysFront};

use crate::running::{Stop, transcript};
use crate::status::Status;
use cp_disk::CrashDisk;
use cp_io::{Fault, ReadEnd, Sink, Source, read_all, write_all};
use cp_schedule::ScheduleError;
use std::alloc::Global;

fn is_word_replay(word: &str) -> bool
    ensures { IsTrue result ↔ (word.now ≡ codes "replay") }
{
    word == "replay"
}

fn is_replay(words: &[String]) -> bool
    ensures { IsTrue result ↔ IsReplay (map string_bytes words.now) }
{
    match words {
        [word] => is_word_replay(word.as_str()),
        _ => false,
    }
}

/// Does what the words say: `replay` reads a schedule from the source, runs it, and writes its transcript to the sink.
/// The text is made whole before the first write. The disks are those of the members: a schedule without members leaves
/// them as they are.
pub fn run<S: Source, K: Sink, D: CrashDisk>(
    alloc: Global,
    words: &[String],
    source: &mut S,
    sink: &mut K,
    disks: &mut Vec<D>,
) -> Status
    // The source was read to its end and spells a schedule, whose transcript was written and keeps the promises.
    ensures done { result ≡ Status.Done → IsReplay (map string_bytes words.now) → IfSome (S.left source.old) (λ bytes.
        Replays bytes (K.written sink.old) (K.written sink.new)) }

    // Each other status has its cause.
    ensures usage { (result ≡ Status.Usage) ↔ (¬ IsReplay (map string_bytes words.now)) }
    ensures unread { result ≡ Status.Usage → source.new ≡ source.old }
    ensures read_fault { result ≡ Status.ReadFault → Rose (S.faults source.old) (S.faults source.new) }
    ensures too_long { result ≡ Status.TooLong → Exceeds (S.left source.old) MOST_SOURCE }
    ensures bad_schedule { (line : ℕ) → result ≡ Status.BadSchedule line
        → IfSome (S.left source.old) (λ bytes. schedule_of bytes ≡ Err (BadLine line)) }
    ensures not_built { (line : ℕ) → result ≡ Status.NotBuilt line
        → IfSome (S.left source.old) (λ bytes. schedule_of bytes ≡ Err (NotBuilt line)) }
    ensures limit { (line : ℕ) (name : LimitName) → result ≡ Status.Limit line name → IfSome (S.left source.old) (Limits line name) }
    ensures write_fault { result ≡ Status.WriteFault → Rose (K.faults sink.old) (K.faults sink.new) }

    // What was read and written by then.
    ensures read_to_end { IsAfterReading result → IsAtEnd (S.left source.new)
        × IfSome (S.left source.old) (λ bytes. length bytes ≤ MOST_SOURCE) }
    ensures unwritten { IsBeforeWrites result → sink.new ≡ sink.old }
    ensures front { result ≡ Status.WriteFault
        → IfSome (S.left source.old) (λ bytes. ReplaysFront bytes (K.written sink.old) (K.written sink.new)) }
    ensures disks { disks.new ≡ disks.old }
    ensures no_memory { result ≡ Status.NoMemory → (sink.new ≡ sink.old)
        ⊎ IfSome (S.left source.old) (λ bytes. ReplaysFront bytes (K.written sink.old) (K.written sink.new)) }
{
    if !is_replay(words) {
        return Status::Usage;
    }
    let bytes = match read_all(alloc, source) {
        Ok(bytes) => bytes,
        Err(ReadEnd::Failed) => return Status::ReadFault,
        Err(ReadEnd::TooLong) => return Status::TooLong,
        Err(ReadEnd::NoMemory) => return Status::NoMemory,
    };
    let schedule = match cp_schedule::read(alloc, &bytes) {
        Ok(schedule) => schedule,
        Err(ScheduleError::BadSchedule(line)) => return Status::BadSchedule(line),
        Err(ScheduleError::NotBuilt(line)) => return Status::NotBuilt(line),
        Err(ScheduleError::NoMemory) => return Status::NoMemory,
    };
    let text = match transcript(alloc, schedule) {
        Ok(text) => text,
        Err(Stop::Limit(line, name)) => return Status::Limit(line, name),
        Err(Stop::NoMemory) => return Status::NoMemory,
    };
    match write_all(sink, &text) {
        Ok(()) => Status::Done,
        Err(Fault::Failed) => Status::WriteFault,
        Err(Fault::NoMemory) => Status::NoMemory,
    }
}
