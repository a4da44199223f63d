//! Permits that go and come.
ghost use Rattle.std.specs.Prelude.{◌≡◌, ◌&&◌, not, bytes_eq, ◌^◌, ◌<◌, ◌≤◌, ◌+ℤ◌, true, false, pos, neg_ℤ, IfOk, OnOk, OnErr};
ghost use Rattle.std.specs.List.{filter};
ghost use Rattle.cp_group_state.specs.Semaphores.{is_held, held, take, give_back, change_total, sem_destroyed};
ghost use Rattle.cp_semaphore.specs.Nested.{flat, IsNested};
ghost use Rattle.cp_semaphore.specs.Tables.{seen, IsMet, IsTable};

use crate::{amounts, holdings, rows};
use cp_base::{Name, NoMemory};
use cp_group_state::SemaphoreRow;
use cp_ops::Kind;
use std::alloc::Global;
use std::collections::BTreeMap;

/// The rows of semaphores, and what sessions hold: permits under names, under sessions.
#[derive(Drop)]
pub(crate) struct Tables {
    pub(crate) alloc: Global,
    pub(crate) rows: BTreeMap<(Name, Kind), SemaphoreRow>,
    pub(crate) holdings: BTreeMap<u64, BTreeMap<Name, u64>>,
}

/// Permits go to a session.
fn take_held(
    tables: &mut Tables,
    key: &(Name, Kind),
    row: SemaphoreRow,
    session: u64,
    permits: u64,
) -> Result<(), NoMemory>
    requires met { IsMet tables.old key.now row }
    requires held { is_held key.now.1 ≡ true }
    requires few { permits < 2 ^ 32 }
    ensures ok { OnOk result (seen tables.new ≡ take key.now row session permits (seen tables.old)) }
    ensures err { OnErr result (seen tables.new ≡ seen tables.old) }
    ensures nested { IsNested tables.new.holdings.entries }
{
    let held = holdings::held(&tables.holdings, session, &key.0);
    match holdings::set(
        &mut tables.holdings,
        tables.alloc,
        session,
        &key.0,
        held + permits,
    ) {
        Ok(()) => {}
        Err(NoMemory) => return Err(NoMemory),
    }
    rows::write(&mut tables.rows, key, amounts::taken(row, permits));
    Ok(())
}

/// Permits go where no session holds them.
fn take_free(tables: &mut Tables, key: &(Name, Kind), row: SemaphoreRow, session: u64, permits: u64)
    requires met { IsMet tables.old key.now row }
    requires free { is_held key.now.1 ≡ false }
    requires few { permits < 2 ^ 32 }
    ensures after { seen tables.new ≡ take key.now row session permits (seen tables.old) }
    ensures nested { IsNested tables.new.holdings.entries }
{
    rows::write(&mut tables.rows, key, amounts::lessened(row, permits));
}

/// Permits go from a semaphore. Where memory runs out, the tables stay.
pub(crate) fn take(
    tables: &mut Tables,
    key: &(Name, Kind),
    row: SemaphoreRow,
    session: u64,
    permits: u64,
) -> Result<(), NoMemory>
    requires met { IsMet tables.old key.now row }
    requires few { permits < 2 ^ 32 }
    ensures ok { OnOk result (seen tables.new ≡ take key.now row session permits (seen tables.old)) }
    ensures err { OnErr result (seen tables.new ≡ seen tables.old) }
    ensures nested { IsNested tables.new.holdings.entries }
{
    if amounts::is_held(key.1) {
        match take_held(tables, key, row, session, permits) {
            Ok(()) => Ok(()),
            Err(NoMemory) => Err(NoMemory),
        }
    } else {
        take_free(tables, key, row, session, permits);
        Ok(())
    }
}

/// Permits come back from a session, which holds as many. Gives what stands available then. Where memory runs out, the
/// tables stay.
pub(crate) fn give_back(
    tables: &mut Tables,
    key: &(Name, Kind),
    row: SemaphoreRow,
    session: u64,
    permits: u64,
) -> Result<i64, NoMemory>
    requires met { IsMet tables.old key.now row }
    requires holds { permits ≤ held (flat tables.old.holdings.entries) session key.now.0 }
    ensures ok { OnOk result (seen tables.new ≡ give_back key.now row session permits (seen tables.old)) }
    ensures available { IfOk result (λ available. available ≡ row.available +ℤ pos permits) }
    ensures err { OnErr result (seen tables.new ≡ seen tables.old) }
    ensures nested { IsNested tables.new.holdings.entries }
{
    let held = holdings::held(&tables.holdings, session, &key.0);
    match holdings::set(
        &mut tables.holdings,
        tables.alloc,
        session,
        &key.0,
        held - permits,
    ) {
        Ok(()) => {}
        Err(NoMemory) => return Err(NoMemory),
    }
    let next = amounts::returned(row, permits);
    rows::write(&mut tables.rows, key, next);
    Ok(next.available)
}

/// The total grows.
pub(crate) fn grow(tables: &mut Tables, key: &(Name, Kind), row: SemaphoreRow, permits: u32)
    requires { IsMet tables.old key.now row }
    ensures after { seen tables.new ≡ change_total key.now row (pos permits) (seen tables.old) }
    ensures nested { IsNested tables.new.holdings.entries }
{
    rows::write(&mut tables.rows, key, amounts::grown(row, permits));
}

/// The total shrinks.
pub(crate) fn shrink(tables: &mut Tables, key: &(Name, Kind), row: SemaphoreRow, permits: u32)
    requires { IsMet tables.old key.now row }
    ensures after { seen tables.new ≡ change_total key.now row (neg_ℤ (pos permits)) (seen tables.old) }
    ensures nested { IsNested tables.new.holdings.entries }
{
    rows::write(
        &mut tables.rows,
        key,
        amounts::lessened(row, u64::from(permits)),
    );
}

/// What is held of a semaphore goes. Where memory runs out, the holdings stay.
fn forget_held(
    holdings: &mut BTreeMap<u64, BTreeMap<Name, u64>>,
    alloc: Global,
    key: &(Name, Kind),
) -> Result<(), NoMemory>
    requires { IsNested holdings.old.entries }
    ensures ok { OnOk result
        (flat holdings.new.entries ≡ filter (λ e. not (is_held key.now.1 && bytes_eq key.now.0 e.0.1)) (flat holdings.old.entries)) }
    ensures err { OnErr result (flat holdings.new.entries ≡ flat holdings.old.entries) }
    ensures nested { IsNested holdings.new.entries }
{
    if amounts::is_held(key.1) {
        match holdings::forget(holdings, alloc, &key.0) {
            Ok(()) => Ok(()),
            Err(NoMemory) => Err(NoMemory),
        }
    } else {
        Ok(())
    }
}

/// A semaphore goes, and what is held of it. Where memory runs out, the tables stay.
pub(crate) fn destroy(tables: &mut Tables, key: &(Name, Kind)) -> Result<(), NoMemory>
    requires { IsTable tables.old }
    ensures ok { OnOk result (seen tables.new ≡ sem_destroyed key.now (seen tables.old)) }
    ensures err { OnErr result (seen tables.new ≡ seen tables.old) }
    ensures nested { IsNested tables.new.holdings.entries }
{
    match forget_held(&mut tables.holdings, tables.alloc, key) {
        Ok(()) => {}
        Err(NoMemory) => return Err(NoMemory),
    }
    rows::remove(&mut tables.rows, key);
    Ok(())
}
