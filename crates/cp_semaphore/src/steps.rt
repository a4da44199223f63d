//! What each operation does to a semaphore.
ghost use Rattle.std.specs.Prelude.{◌≡◌, None, IfOk, OnOk, OnErr};
ghost use Rattle.cp_op_values.specs.declared.wish.Wish.TheVariants as wish;
ghost use Rattle.cp_object_ops.specs.declared.sem_op.SemOp.TheVariants as sem;
ghost use Rattle.cp_group_state.specs.Rows.{find, object_cmp};
ghost use Rattle.cp_group_state.specs.Semaphores.{is_held, raise_total, release_held, init, sem_step_at, sem_step_absent, sem_step};
ghost use Rattle.cp_semaphore.specs.Nested.{IsNested};
ghost use Rattle.cp_semaphore.specs.Tables.{seen, IsMet, IsTable};

use crate::tables::{self, Tables};
use crate::{amounts, holdings, rows};
use cp_base::limits::{MOST_PERMITS, MOST_ROWS};
use cp_base::{Name, NoMemory};
use cp_group_state::{SemOutcome, SemaphoreRow};
use cp_ops::{Answer, Argument, Kind, SemOp};

/// What may stand available at least, by a reduction.
const LEAST: i64 = -2147483648;

/// Permits are added to the total.
fn raise(tables: &mut Tables, key: &(Name, Kind), row: SemaphoreRow, permits: u32) -> SemOutcome
    requires { IsMet tables.old key.now row }
    ensures after { seen tables.new ≡ (raise_total key.now row permits (seen tables.old)).after }
    ensures outcome { result ≡ (raise_total key.now row permits (seen tables.old)).outcome }
    ensures nested { IsNested tables.new.holdings.entries }
{
    if row.total + i64::from(permits) > i64::from(MOST_PERMITS) {
        return SemOutcome::Done(Answer::BadArgument(Argument::Overflow));
    }
    tables::grow(tables, key, row, permits);
    SemOutcome::Served(Answer::Ok, row.available + i64::from(permits))
}

/// Permits come back from a session, where it holds as many.
fn release_held(
    tables: &mut Tables,
    key: &(Name, Kind),
    row: SemaphoreRow,
    session: u64,
    permits: u32,
) -> Result<SemOutcome, NoMemory>
    requires { IsMet tables.old key.now row }
    ensures after { OnOk result (seen tables.new ≡ (release_held key.now row session permits (seen tables.old)).after) }
    ensures outcome { IfOk result (λ o. o ≡ (release_held key.now row session permits (seen tables.old)).outcome) }
    ensures err { OnErr result (seen tables.new ≡ seen tables.old) }
    ensures nested { IsNested tables.new.holdings.entries }
{
    let held = holdings::held(&tables.holdings, session, &key.0);
    let permits = u64::from(permits);
    if held < permits {
        return Ok(SemOutcome::Done(Answer::NotHeld(held)));
    }
    match tables::give_back(tables, key, row, session, permits) {
        Ok(available) => Ok(SemOutcome::Served(Answer::Ok, available)),
        Err(NoMemory) => Err(NoMemory),
    }
}

fn release(
    tables: &mut Tables,
    key: &(Name, Kind),
    row: SemaphoreRow,
    session: u64,
    permits: u32,
) -> Result<SemOutcome, NoMemory>
    requires { IsMet tables.old key.now row }
    ensures after { OnOk result (seen tables.new ≡ (sem_step_at key.now row (sem.Release session permits) (seen tables.old)).after) }
    ensures outcome { IfOk result (λ o. o ≡ (sem_step_at key.now row (sem.Release session permits) (seen tables.old)).outcome) }
    ensures err { OnErr result (seen tables.new ≡ seen tables.old) }
    ensures nested { IsNested tables.new.holdings.entries }
{
    if amounts::is_held(key.1) {
        match release_held(tables, key, row, session, permits) {
            Ok(outcome) => Ok(outcome),
            Err(NoMemory) => Err(NoMemory),
        }
    } else {
        Ok(raise(tables, key, row, permits))
    }
}

fn acquire(
    tables: &mut Tables,
    key: &(Name, Kind),
    row: SemaphoreRow,
    session: u64,
    permits: u32,
) -> Result<SemOutcome, NoMemory>
    requires { IsMet tables.old key.now row }
    ensures after { OnOk result
        (seen tables.new ≡ (sem_step_at key.now row (sem.Acquire session permits wish.NoLimit) (seen tables.old)).after) }
    ensures outcome { IfOk result
        (λ o. o ≡ (sem_step_at key.now row (sem.Acquire session permits wish.NoLimit) (seen tables.old)).outcome) }
    ensures err { OnErr result (seen tables.new ≡ seen tables.old) }
    ensures nested { IsNested tables.new.holdings.entries }
{
    if row.available < i64::from(permits) {
        return Ok(SemOutcome::Wants);
    }
    match tables::take(tables, key, row, session, u64::from(permits)) {
        Ok(()) => Ok(SemOutcome::Done(Answer::Ok)),
        Err(NoMemory) => Err(NoMemory),
    }
}

fn drain(
    tables: &mut Tables,
    key: &(Name, Kind),
    row: SemaphoreRow,
    session: u64,
) -> Result<SemOutcome, NoMemory>
    requires { IsMet tables.old key.now row }
    ensures after { OnOk result (seen tables.new ≡ (sem_step_at key.now row (sem.Drain session) (seen tables.old)).after) }
    ensures outcome { IfOk result (λ o. o ≡ (sem_step_at key.now row (sem.Drain session) (seen tables.old)).outcome) }
    ensures err { OnErr result (seen tables.new ≡ seen tables.old) }
    ensures nested { IsNested tables.new.holdings.entries }
{
    let permits = amounts::at_least_none(row.available);
    match tables::take(tables, key, row, session, permits) {
        Ok(()) => Ok(SemOutcome::Done(Answer::Value(permits as i64))),
        Err(NoMemory) => Err(NoMemory),
    }
}

fn reduce(
    tables: &mut Tables,
    key: &(Name, Kind),
    row: SemaphoreRow,
    session: u64,
    permits: u32,
) -> SemOutcome
    requires { IsMet tables.old key.now row }
    ensures after { seen tables.new ≡ (sem_step_at key.now row (sem.Reduce session permits) (seen tables.old)).after }
    ensures outcome { result ≡ (sem_step_at key.now row (sem.Reduce session permits) (seen tables.old)).outcome }
    ensures nested { IsNested tables.new.holdings.entries }
{
    if row.available - i64::from(permits) < LEAST {
        return SemOutcome::Done(Answer::BadArgument(Argument::Overflow));
    }
    tables::shrink(tables, key, row, permits);
    SemOutcome::Done(Answer::Ok)
}

/// An operation on a semaphore that is there.
fn step_at(
    tables: &mut Tables,
    key: &(Name, Kind),
    row: SemaphoreRow,
    op: &SemOp,
) -> Result<SemOutcome, NoMemory>
    requires { IsMet tables.old key.now row }
    ensures after { OnOk result (seen tables.new ≡ (sem_step_at key.now row op.now (seen tables.old)).after) }
    ensures outcome { IfOk result (λ o. o ≡ (sem_step_at key.now row op.now (seen tables.old)).outcome) }
    ensures err { OnErr result (seen tables.new ≡ seen tables.old) }
    ensures nested { IsNested tables.new.holdings.entries }
{
    match *op {
        SemOp::Available => Ok(SemOutcome::Done(Answer::Value(row.available))),
        SemOp::Init(_) => Ok(SemOutcome::Done(Answer::Bool(false))),
        SemOp::Acquire(session, permits, _) => acquire(tables, key, row, session, permits),
        SemOp::Release(session, permits) => release(tables, key, row, session, permits),
        SemOp::Drain(session) => drain(tables, key, row, session),
        SemOp::Increase(_, permits) => Ok(raise(tables, key, row, permits)),
        SemOp::Reduce(session, permits) => Ok(reduce(tables, key, row, session, permits)),
    }
}

/// A semaphore is made, where there is room.
fn init(tables: &mut Tables, key: (Name, Kind), permits: u32) -> Result<SemOutcome, NoMemory>
    requires { IsNested tables.old.holdings.entries }
    ensures after { OnOk result (seen tables.new ≡ (init key permits (seen tables.old)).after) }
    ensures outcome { IfOk result (λ o. o ≡ (init key permits (seen tables.old)).outcome) }
    ensures err { OnErr result (seen tables.new ≡ seen tables.old) }
    ensures nested { IsNested tables.new.holdings.entries }
{
    if !rows::has_room(&tables.rows, &key) {
        return Ok(SemOutcome::Done(Answer::TableFull(MOST_ROWS)));
    }
    let row = SemaphoreRow {
        total: i64::from(permits),
        available: i64::from(permits),
    };
    match rows::put(&mut tables.rows, key, row) {
        Ok(()) => Ok(SemOutcome::Done(Answer::Bool(true))),
        Err(NoMemory) => Err(NoMemory),
    }
}

/// An operation on a semaphore that is not there.
fn step_absent(tables: &mut Tables, key: (Name, Kind), op: &SemOp) -> Result<SemOutcome, NoMemory>
    requires { IsNested tables.old.holdings.entries }
    ensures after { OnOk result (seen tables.new ≡ (sem_step_absent key op.now (seen tables.old)).after) }
    ensures outcome { IfOk result (λ o. o ≡ (sem_step_absent key op.now (seen tables.old)).outcome) }
    ensures err { OnErr result (seen tables.new ≡ seen tables.old) }
    ensures nested { IsNested tables.new.holdings.entries }
{
    match *op {
        SemOp::Init(permits) => init(tables, key, permits),
        SemOp::Available
        | SemOp::Acquire(_, _, _)
        | SemOp::Release(_, _)
        | SemOp::Drain(_)
        | SemOp::Increase(_, _)
        | SemOp::Reduce(_, _) => Ok(SemOutcome::Done(Answer::NotInitialized)),
    }
}

/// An operation on a semaphore. Where memory runs out, the tables stay.
#[tactic(auto, using(crate::proofs::Soundness::met))]
pub(crate) fn step(
    tables: &mut Tables,
    key: (Name, Kind),
    op: &SemOp,
) -> Result<SemOutcome, NoMemory>
    requires { IsTable tables.old }
    ensures after { OnOk result (seen tables.new ≡ (sem_step key op.now (seen tables.old)).after) }
    ensures outcome { IfOk result (λ o. o ≡ (sem_step key op.now (seen tables.old)).outcome) }
    ensures err { OnErr result (seen tables.new ≡ seen tables.old) }
    ensures nested { IsNested tables.new.holdings.entries }
{
    match rows::row_of(&tables.rows, &key) {
        Some(row) => step_at(tables, &key, row, op),
        None => step_absent(tables, key, op),
    }
}
