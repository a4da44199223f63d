//! Reads that are answered without an entry.
ghost use Rattle.std.specs.Prelude.{◌≡◌, ◌==◌, IfOk, if◌then◌else◌};
ghost use Rattle.std.specs.Option.{option_copied, option_map};
ghost use Rattle.cp_group_state.specs.Atomics.{long_at, ref_at, same_value};
ghost use Rattle.cp_group_state.specs.Locks.{lock_at};
ghost use Rattle.cp_group_state.specs.Latches.{latch_at};
ghost use Rattle.cp_semaphore.specs.Outcomes.{available_of};
ghost use Rattle.cp_resource.specs.Reads.{available_answer, latch_read, lock_read, long_read, look, map_read, object_read, ref_read, sem_read, standing_answer};
ghost use Rattle.cp_resource.specs.Laws.{LooksAreOutcomes};

use cp_atomic::{Longs, Refs};
use cp_base::{Items, Name, NoMemory};
use cp_group_tables::{GroupTables, owner_answer};
use cp_latch::Latches;
use cp_lock::Locks;
use cp_map::Maps;
use cp_ops::{Answer, Kind, LatchOp, LockOp, LongOp, MapOp, Op, RefOp, SemOp};
use cp_semaphore::Semaphores;

/// A read without an entry answers what an entry of it would, in a group that stands.
pub fn looks_are_outcomes()
    ensures { LooksAreOutcomes }
{}

fn long_read(longs: &Longs, name: &Name, op: &LongOp) -> Option<Answer>
    ensures { result ≡ long_read op.now (long_at longs.now name.now) }
{
    match op {
        LongOp::Get => Some(Answer::Value(longs.value(name))),
        LongOp::Set(_) => None,
        LongOp::GetSet(_) => None,
        LongOp::Add(_) => None,
        LongOp::GetAdd(_) => None,
        LongOp::Cas(_, _) => None,
    }
}

/// Whether two values are the same.
fn is_same(a: Option<&Items<u8>>, b: &Option<Items<u8>>) -> bool
    ensures { result ≡ same_value (option_copied a.entry) b.now }
{
    match (a, b) {
        (None, None) => true,
        (Some(a), Some(b)) => a.as_slice() == b.as_slice(),
        _ => false,
    }
}

fn copy_of(value: Option<&Items<u8>>) -> Result<Option<Items<u8>>, NoMemory>
    ensures { IfOk result (λ copy. copy ≡ option_copied value.entry) }
{
    match value {
        Some(value) => Ok(Some(value.clone()?)),
        None => Ok(None),
    }
}

fn ref_read(refs: &Refs, name: &Name, op: &RefOp) -> Result<Option<Answer>, NoMemory>
    ensures { IfOk result (λ answer. answer ≡ ref_read op.now (ref_at refs.now name.now)) }
{
    match op {
        RefOp::Get => {
            let value = copy_of(refs.value(name))?;
            Ok(Some(Answer::Ref(value)))
        }
        RefOp::Contains(other) => Ok(Some(Answer::Bool(is_same(refs.value(name), other)))),
        RefOp::Set(_) => Ok(None),
        RefOp::GetSet(_) => Ok(None),
        RefOp::Cas(_, _) => Ok(None),
    }
}

fn lock_read(locks: &Locks, name: &Name, op: &LockOp) -> Option<Answer>
    ensures { result ≡ lock_read op.now (lock_at locks.now name.now) }
{
    match op {
        LockOp::Owner => Some(owner_answer(&locks.row(name))),
        LockOp::Acquire(_, _, _) => None,
        LockOp::Release(_) => None,
    }
}

fn available_answer(available: Option<i64>) -> Answer
    ensures { result ≡ available_answer available }
{
    match available {
        Some(available) => Answer::Value(available),
        None => Answer::NotInitialized,
    }
}

fn sem_read(
    semaphores: &Semaphores,
    kind: Kind,
    name: &Name,
    op: &SemOp,
) -> Result<Option<Answer>, NoMemory>
    ensures { IfOk result (λ answer. answer ≡ sem_read op.now (available_of (name.now, kind) semaphores.now)) }
{
    match op {
        SemOp::Available => {
            let available = semaphores.available(kind, name)?;
            Ok(Some(available_answer(available)))
        }
        SemOp::Init(_) => Ok(None),
        SemOp::Acquire(_, _, _) => Ok(None),
        SemOp::Release(_, _) => Ok(None),
        SemOp::Drain(_) => Ok(None),
        SemOp::Increase(_, _) => Ok(None),
        SemOp::Reduce(_, _) => Ok(None),
    }
}

fn latch_read(latches: &Latches, name: &Name, op: &LatchOp) -> Option<Answer>
    ensures { result ≡ latch_read op.now (latch_at latches.now name.now) }
{
    match op {
        LatchOp::Count => Some(Answer::Value(i64::from(latches.count(name)))),
        LatchOp::Round => None,
        LatchOp::Set(_) => None,
        LatchOp::Down(_) => None,
        LatchOp::Await(_) => None,
    }
}

fn map_read(maps: &Maps, name: &Name, op: &MapOp) -> Result<Option<Answer>, NoMemory>
    ensures { IfOk result (λ answer. answer ≡ map_read name.now op.now maps.now) }
{
    match op {
        MapOp::Get(key) => {
            let value = copy_of(maps.value(name, key)?)?;
            Ok(Some(Answer::Ref(value)))
        }
        MapOp::Set(_, _) => Ok(None),
        MapOp::Put(_, _) => Ok(None),
        MapOp::Remove(_) => Ok(None),
        MapOp::Delete(_) => Ok(None),
        MapOp::PutIfAbsent(_, _) => Ok(None),
        MapOp::Cas(_, _, _) => Ok(None),
    }
}

/// What a read of one object is answered by its rule, if the operation is one.
fn object_read(tables: &GroupTables, op: &Op) -> Result<Option<Answer>, NoMemory>
    ensures { IfOk result (λ answer. answer ≡ object_read op.now tables.now) }
{
    match op {
        Op::Long(name, op) => Ok(long_read(tables.longs(), name, op)),
        Op::Ref(name, op) => ref_read(tables.refs(), name, op),
        Op::Lock(name, op) => Ok(lock_read(tables.locks(), name, op)),
        Op::Sem(name, op) => sem_read(tables.semaphores(), Kind::Sem, name, op),
        Op::Jsem(name, op) => sem_read(tables.semaphores(), Kind::Jsem, name, op),
        Op::Latch(name, op) => Ok(latch_read(tables.latches(), name, op)),
        Op::Map(name, op) => map_read(tables.maps(), name, op),
        Op::Session(_) => Ok(None),
        Op::Destroy(_, _) => Ok(None),
        Op::Group(_) => Ok(None),
        Op::Member(_) => Ok(None),
        Op::Change(_) => Ok(None),
    }
}

/// What a read is answered, where the group or the object may be destroyed.
fn standing_answer(tables: &GroupTables, op: &Op, answer: Answer) -> Result<Answer, NoMemory>
    ensures { IfOk result (λ standing. standing ≡ standing_answer op.now tables.now answer) }
{
    if tables.destroyed_group().0 != 0 {
        return Ok(Answer::GroupDestroyed(tables.destroyed_group()));
    }
    if tables.names_gone(op)? {
        return Ok(Answer::ObjectDestroyed);
    }
    Ok(answer)
}

/// What a read is answered without an entry; none where the operation is no read of one object's value, owner,
/// permits or count. The group stays as it is.
pub fn look(tables: &GroupTables, op: &Op) -> Result<Option<Answer>, NoMemory>
    ensures { IfOk result (λ answer. answer ≡ look op.now tables.now) }
{
    match object_read(tables, op)? {
        Some(answer) => {
            let answer = standing_answer(tables, op, answer)?;
            Ok(Some(answer))
        }
        None => Ok(None),
    }
}
