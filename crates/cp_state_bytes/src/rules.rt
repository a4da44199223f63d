//! The rules that bind the lists of a state to one another.
ghost use Rattle.std.specs.Prelude.{◌≡◌, ◌≤◌, ◌+◌, ◌-◌, ◌^◌, ◌||◌, ◌+ℤ◌, pos, not, min, is_some, length, IfOk, OnOk};
ghost use Rattle.std.specs.List.{AllByRecursion};
ghost use Rattle.std.specs.Ordering.{nat_cmp, int_eq};
ghost use Rattle.cp_group_state.specs.Rows.{find, most, name_cmp, object_cmp, put};
ghost use Rattle.cp_group_state.specs.Invariants.{IsRising};
ghost use Rattle.cp_lock.specs.Tables.{is_whole, are_whole};
ghost use Rattle.cp_group_ranges.specs.Rows.{is_semaphore, SemaphoreFits};
ghost use Rattle.cp_state_bytes.specs.GroupRows.{state_of};
ghost use Rattle.cp_state_bytes.specs.Rules.{clients_differ, calls_differ, are_balanced, holdings_stand, waiters_stand, permits_are_consistent, is_consistent};
ghost use Rattle.cp_state_bytes.specs.Sums.{AreListed, AreSums, are_balanced_by, held_in, sum_under};

use crate::group_rows::GroupRows;
use cp_base::{Items, Name, NoMemory};
use cp_group_state::{LockRow, SemaphoreRow, SessionRow, Waiter};
use cp_op_values::Kind;
use cp_rows::{from_rows, put_row};
use cp_session::Sessions;
use cp_wait::{RowsError, Waits};
use std::alloc::Global;
use std::collections::BTreeMap;

/// Semaphores by name and kind.
type Semaphores = BTreeMap<(Name, Kind), SemaphoreRow>;

/// Whether the lock is held, or every number in its row is 0.
fn is_whole(row: &LockRow) -> bool
    ensures { result ≡ is_whole row.now }
{
    row.holds != 0 || (row.holder.session == 0 && row.holder.thread.0 == 0 && row.fence == 0)
}

/// Whether each lock is held, or every number in its row is 0.
fn are_whole(rows: &[(Name, LockRow)]) -> bool
    ensures { result ≡ are_whole rows.now }
{
    rows.iter().all(|(_name, row)| is_whole(row))
}

/// The same waiters.
#[tactic(auto, using(crate::proofs::Checks::moved, crate::proofs::Checks::all_moved))]
fn copied_waiters(alloc: Global, rows: &[Waiter]) -> Result<Items<Waiter>, NoMemory>
    ensures { IfOk result (λ copy. copy ≡ rows.now) }
{
    let mut copy = Items::new(alloc);
    let mut rest = rows;
    while let Some((row, after)) = rest.split_first() {
        let row = row.clone()?;
        copy.push(row)?;
        rest = after;
    }
    Ok(copy)
}

/// A copy of a semaphore's row.
fn copied_row(row: &((Name, Kind), SemaphoreRow)) -> Result<((Name, Kind), SemaphoreRow), NoMemory>
    ensures { IfOk result (λ copy. copy ≡ row.now) }
{
    let ((name, kind), numbers) = row;
    Ok(((name.clone()?, *kind), *numbers))
}

/// The same rows.
#[tactic(auto, using(crate::proofs::Checks::moved, crate::proofs::Checks::all_moved))]
fn copied_semaphores(
    alloc: Global,
    rows: &[((Name, Kind), SemaphoreRow)],
) -> Result<Items<((Name, Kind), SemaphoreRow)>, NoMemory>
    ensures { IfOk result (λ copy. copy ≡ rows.now) }
{
    let mut copy = Items::new(alloc);
    let mut rest = rows;
    while let Some((row, after)) = rest.split_first() {
        let row = copied_row(row)?;
        copy.push(row)?;
        rest = after;
    }
    Ok(copy)
}

/// The same sessions.
fn copied_sessions(
    alloc: Global,
    rows: &[(u64, SessionRow)],
) -> Result<Items<(u64, SessionRow)>, NoMemory>
    ensures { IfOk result (λ copy. copy ≡ rows.now) }
{
    let copy = Vec::from_slice(alloc, rows)?;
    Ok(Items::from_vec(copy))
}

/// Whether no two sessions have one client.
#[tactic(auto, using(crate::proofs::Checks::clients_told))]
fn clients_differ(alloc: Global, rows: &[(u64, SessionRow)]) -> Result<bool, NoMemory>
    requires { IsRising nat_cmp rows.now }
    ensures { IfOk result (λ differ. differ ≡ clients_differ rows.now) }
{
    let copy = copied_sessions(alloc, rows)?;
    let made = Sessions::from_rows(alloc, copy)?;
    Ok(made.is_some())
}

/// Whether no two waiters are of one call.
#[tactic(auto, using(crate::proofs::Checks::calls_apart, crate::proofs::Checks::calls_alike, crate::proofs::Checks::too_many))]
fn calls_differ(alloc: Global, rows: &[Waiter]) -> Result<bool, NoMemory>
    requires { length rows.now ≤ most }
    ensures { IfOk result (λ differ. differ ≡ calls_differ rows.now) }
{
    let copy = copied_waiters(alloc, rows)?;
    match Waits::from_rows(alloc, copy) {
        Ok(_waits) => Ok(true),
        Err(RowsError::Repeated) => Ok(false),
        Err(RowsError::TooMany) => Ok(false),
        Err(RowsError::NoMemory) => Err(NoMemory),
    }
}

/// The map of rows by rising name and kind.
fn map_of(alloc: Global, rows: Items<((Name, Kind), SemaphoreRow)>) -> Result<Semaphores, NoMemory>
    requires { IsRising object_cmp rows }
    ensures { IfOk result (λ semaphores. semaphores.entries ≡ rows) }
{
    from_rows(alloc, rows)
}

/// The semaphores under their names and kinds.
fn semaphores_of(
    alloc: Global,
    rows: &Items<((Name, Kind), SemaphoreRow)>,
) -> Result<Semaphores, NoMemory>
    requires { IsRising object_cmp rows.now }
    ensures { IfOk result (λ semaphores. semaphores.entries ≡ rows.now) }
{
    let copy = copied_semaphores(alloc, rows.as_slice())?;
    map_of(alloc, copy)
}

/// Whether a semaphore is there.
fn has(semaphores: &Semaphores, object: &(Name, Kind)) -> bool
    ensures { result ≡ is_some (find object_cmp semaphores.now.entries object.now) }
{
    semaphores.contains_key(object)
}

/// Whether a semaphore of this name and kind is there.
fn is_there(semaphores: &Semaphores, name: &Name, kind: Kind) -> Result<bool, NoMemory>
    ensures { IfOk result (λ there. there ≡ is_some (find object_cmp semaphores.now.entries (name.now, kind))) }
{
    let object = (name.clone()?, kind);
    Ok(has(semaphores, &object))
}

/// Whether permits of this kind of object are counted.
fn is_semaphore(kind: Kind) -> bool
    ensures { result ≡ is_semaphore kind }
{
    match kind {
        Kind::Sem | Kind::Jsem => true,
        Kind::Long | Kind::Ref | Kind::Lock | Kind::Latch | Kind::Map => false,
    }
}

/// Whether the semaphore that a call waits for is there.
fn waiter_stands(semaphores: &Semaphores, waiter: &Waiter) -> Result<bool, NoMemory>
    ensures { IfOk result (λ there. there ≡ (not (is_semaphore waiter.now.kind) || is_some
        (find object_cmp semaphores.now.entries (waiter.now.name, waiter.now.kind)))) }
{
    if !is_semaphore(waiter.kind) {
        return Ok(true);
    }
    is_there(semaphores, &waiter.name, waiter.kind)
}

/// Whether the semaphores that calls wait for are there.
fn waiters_stand(semaphores: &Semaphores, waiters: &[Waiter]) -> Result<bool, NoMemory>
    ensures { IfOk result (λ there. there ≡ waiters_stand semaphores.now.entries waiters.now) }
{
    let mut rest = waiters;
    while let [waiter, after @ ..] = rest {
        if !waiter_stands(semaphores, waiter)? {
            return Ok(false);
        }
        rest = after;
    }
    Ok(true)
}

/// Whether the semaphores that sessions hold are there.
fn holdings_stand(
    semaphores: &Semaphores,
    holdings: &[((u64, Name), u64)],
) -> Result<bool, NoMemory>
    ensures { IfOk result (λ there. there ≡ holdings_stand (record { rows = semaphores.now.entries; holdings = holdings.now })) }
{
    let mut rest = holdings;
    while let [((_session, name), _permits), after @ ..] = rest {
        if !is_there(semaphores, name, Kind::Sem)? {
            return Ok(false);
        }
        rest = after;
    }
    Ok(true)
}

/// Adds permits to what all sessions hold under a name, up to the most that a number can say.
fn add(sums: &mut BTreeMap<Name, u64>, name: &Name, permits: u64) -> Result<(), NoMemory>
    ensures { OnOk result (sums.new.entries ≡ put name_cmp sums.old.entries name.now
        (min (sum_under sums.old.entries name.now + permits) (2 ^ 64 - 1))) }
{
    let sum = match sums.get(name) {
        Some(sum) => sum.saturating_add(permits),
        None => permits,
    };
    put_row(sums, name.clone()?, sum)
}

/// Adds what one row says.
fn add_row(sums: &mut BTreeMap<Name, u64>, row: &((u64, Name), u64)) -> Result<(), NoMemory>
    ensures { OnOk result (sums.new.entries ≡ put name_cmp sums.old.entries row.now.0.1
        (min (sum_under sums.old.entries row.now.0.1 + row.now.1) (2 ^ 64 - 1))) }
{
    let ((_session, name), permits) = row;
    add(sums, name, *permits)
}

/// What all sessions hold together under each name, up to the most that a number can say.
#[tactic(auto, using(crate::proofs::Checks::none_added, crate::proofs::Checks::one_added, crate::proofs::Checks::all_added))]
fn sums_of(alloc: Global, holdings: &[((u64, Name), u64)]) -> Result<BTreeMap<Name, u64>, NoMemory>
    ensures { IfOk result (λ sums. AreSums sums.entries holdings.now) }
{
    let mut sums = BTreeMap::new(alloc);
    let mut rest = holdings;
    while let Some((row, after)) = rest.split_first() {
        add_row(&mut sums, row)?;
        rest = after;
    }
    Ok(sums)
}

/// What all sessions hold of a semaphore.
fn held_in(sums: &BTreeMap<Name, u64>, name: &Name, kind: Kind) -> u64
    ensures { result ≡ held_in sums.now.entries (name.now, kind) }
{
    match kind {
        Kind::Sem => match sums.get(name) {
            Some(sum) => *sum,
            None => 0,
        },
        Kind::Long | Kind::Ref | Kind::Lock | Kind::Jsem | Kind::Latch | Kind::Map => 0,
    }
}

/// Whether the total is what stands available and what is held.
fn is_balanced(row: &SemaphoreRow, held: u64) -> bool
    ensures { result ≡ int_eq row.now.total (row.now.available +ℤ pos held) }
{
    i128::from(row.total) == i128::from(row.available) + i128::from(held)
}

/// Whether each total is what stands available and what is held.
fn are_balanced(sums: &BTreeMap<Name, u64>, rows: &[((Name, Kind), SemaphoreRow)]) -> bool
    ensures { result ≡ are_balanced_by sums.now.entries rows.now }
{
    let mut rest = rows;
    while let [((name, kind), row), after @ ..] = rest {
        if !is_balanced(row, held_in(sums, name, *kind)) {
            return false;
        }
        rest = after;
    }
    true
}

/// Whether each total is what stands available and what sessions hold.
#[tactic(auto, using(crate::proofs::Checks::balanced_told))]
fn permits_are_balanced(
    alloc: Global,
    rows: &[((Name, Kind), SemaphoreRow)],
    holdings: &[((u64, Name), u64)],
) -> Result<bool, NoMemory>
    requires { AllByRecursion SemaphoreFits rows.now }
    ensures { IfOk result (λ balanced. balanced ≡ are_balanced (record { rows = rows.now; holdings = holdings.now })) }
{
    let sums = sums_of(alloc, holdings)?;
    Ok(are_balanced(&sums, rows))
}

/// Whether permits are balanced, and the semaphores that are held and waited for are there.
fn permits_are_consistent(alloc: Global, rows: &GroupRows) -> Result<bool, NoMemory>
    requires { AreListed (state_of rows.now) }
    ensures { IfOk result (λ fine. fine ≡ permits_are_consistent (state_of rows.now)) }
{
    let holdings = rows.holdings.as_slice();
    if !permits_are_balanced(alloc, rows.semaphores.as_slice(), holdings)? {
        return Ok(false);
    }
    let semaphores = semaphores_of(alloc, &rows.semaphores)?;
    if !holdings_stand(&semaphores, holdings)? {
        return Ok(false);
    }
    waiters_stand(&semaphores, rows.waiters.as_slice())
}

/// Whether the rows keep the rules that bind them to one another.
#[tactic(auto, unfolding(crate::specs::Rules::is_consistent))]
pub fn is_consistent(alloc: Global, rows: &GroupRows) -> Result<bool, NoMemory>
    requires { AreListed (state_of rows.now) }
    ensures { IfOk result (λ fine. fine ≡ is_consistent (state_of rows.now)) }
{
    if !are_whole(rows.locks.as_slice()) {
        return Ok(false);
    }
    if !clients_differ(alloc, rows.sessions.as_slice())? {
        return Ok(false);
    }
    if !calls_differ(alloc, rows.waiters.as_slice())? {
        return Ok(false);
    }
    permits_are_consistent(alloc, rows)
}
