//! Waiters take what they waited for.
ghost use Rattle.std.specs.Prelude.{◌≡◌, ◌∷◌, List, OnOk, OnErr};
ghost use Rattle.cp_group_state.specs.declared.rows.Waiter.{Waiter};
ghost use Rattle.cp_group_state.specs.Rows.{find, object_cmp};
ghost use Rattle.cp_group_state.specs.Semaphores.{take_on, take_all};
ghost use Rattle.cp_semaphore.specs.Nested.{IsNested};
ghost use Rattle.cp_semaphore.specs.Tables.{seen, IsTable};
ghost use Rattle.cp_semaphore.specs.Serving.{CanTake};

use crate::rows;
use crate::tables::{self, Tables};
use cp_base::{Name, NoMemory};
use cp_group_state::Waiter;
use cp_ops::Kind;

/// A waiter takes its permits, where the semaphore is there. Where memory runs out, the tables stay.
fn take_one(tables: &mut Tables, key: &(Name, Kind), waiter: &Waiter) -> Result<(), NoMemory>
    requires { IsTable tables.old }
    ensures ok { OnOk result (seen tables.new ≡ take_on key.now (find object_cmp tables.old.rows.entries key.now) waiter.now
        (seen tables.old)) }
    ensures err { OnErr result (seen tables.new ≡ seen tables.old) }
    ensures nested { IsNested tables.new.holdings.entries }
{
    match rows::row_of(&tables.rows, key) {
        None => Ok(()),
        Some(row) => {
            match tables::take(tables, key, row, waiter.session, u64::from(waiter.permits)) {
                Ok(()) => Ok(()),
                Err(NoMemory) => Err(NoMemory),
            }
        }
    }
}

/// The first of some waiters takes its permits.
fn take_first(tables: &mut Tables, key: &(Name, Kind), waiter: &Waiter) -> Result<(), NoMemory>
    requires { IsTable tables.old }
    ensures same { OnOk result ((ws : List Waiter) → take_all key.now ws (seen tables.new) ≡ take_all key.now (waiter.now ∷ ws)
        (seen tables.old)) }
    ensures can { OnOk result ((ws : List Waiter) → CanTake key.now (waiter.now ∷ ws) (seen tables.old) →
        CanTake key.now ws (seen tables.new)) }
    ensures table { OnOk result ((ws : List Waiter) → CanTake key.now (waiter.now ∷ ws) (seen tables.old) → IsTable tables.new) }
    ensures err { OnErr result (IsTable tables.new) }
{
    match take_one(tables, key, waiter) {
        Ok(()) => Ok(()),
        Err(NoMemory) => Err(NoMemory),
    }
}

/// Waiters take their permits, one after the other. Where memory runs out, those before have taken theirs.
pub(crate) fn take_each(
    tables: &mut Tables,
    key: &(Name, Kind),
    waiters: &[Waiter],
) -> Result<(), NoMemory>
    requires table { IsTable tables.old }
    requires can { CanTake key.now waiters.now (seen tables.old) }
    ensures ok { OnOk result (seen tables.new ≡ take_all key.now waiters.now (seen tables.old)) }
    ensures table { IsTable tables.new }
{
    let mut rest = waiters;
    while let [waiter, after @ ..] = rest {
        match take_first(tables, key, waiter) {
            Ok(()) => {}
            Err(NoMemory) => return Err(NoMemory),
        }
        rest = after;
    }
    Ok(())
}
