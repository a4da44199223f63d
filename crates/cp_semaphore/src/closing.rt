//! Permits go back when sessions close.
ghost use Rattle.std.specs.Prelude.{◌≡◌, ◌∷◌, [], ℕ, List, Some};
ghost use Rattle.cp_group_state.specs.Rows.{find, object_cmp};
ghost use Rattle.cp_group_state.specs.declared.rows.SemaphoreRow.{SemaphoreRow};
ghost use Rattle.cp_group_state.specs.Semaphores.{all_back};
ghost use Rattle.cp_semaphore.specs.Backs.{back_one, back_each, CanBack, HasRoom};
ghost use Rattle.cp_semaphore.specs.Nested.{IsNested};
ghost use Rattle.cp_semaphore.specs.Tables.{seen, IsTable};

use crate::tables::Tables;
use crate::{amounts, holdings, rows};
use cp_base::Name;
use cp_group_state::SemaphoreRow;
use cp_ops::Kind;
use std::collections::BTreeMap;

/// Permits go back to a semaphore, where it is there.
fn back_one(rows: &mut BTreeMap<(Name, Kind), SemaphoreRow>, key: &(Name, Kind), permits: u64)
    requires { (row : SemaphoreRow) → find object_cmp rows.old.entries key.now ≡ Some row → HasRoom row permits }
    ensures { rows.new.entries ≡ back_one rows.old.entries key.now permits }
{
    if let Some(row) = rows::row_of(rows, key) {
        rows::write(rows, key, amounts::returned(row, permits));
    }
}

/// What stands under each name goes back to its semaphore.
fn back_each(rows: &mut BTreeMap<(Name, Kind), SemaphoreRow>, held: BTreeMap<Name, u64>)
    requires { CanBack held.entries rows.old.entries }
    ensures { rows.new.entries ≡ back_each held.entries rows.old.entries }
{
    for (name, permits) in held {
        back_one(rows, &(name, Kind::Sem), permits);
    }
}

/// What a session holds goes back.
fn close_session(tables: &mut Tables, session: u64)
    requires { IsTable tables.old }
    ensures back { seen tables.new ≡ all_back (session ∷ []) (seen tables.old) }
    ensures nested { IsNested tables.new.holdings.entries }
{
    match holdings::close(&mut tables.holdings, session) {
        Some(held) => back_each(&mut tables.rows, held),
        None => {}
    }
}

/// The first of some sessions closes.
fn close_first(tables: &mut Tables, session: u64)
    requires { IsTable tables.old }
    ensures back { (sessions : List ℕ) → all_back sessions (seen tables.new) ≡ all_back (session ∷ sessions) (seen tables.old) }
    ensures table { IsTable tables.new }
{
    close_session(tables, session);
}

/// All that these sessions hold goes back.
pub(crate) fn close_sessions(tables: &mut Tables, sessions: &[u64])
    requires { IsTable tables.old }
    ensures back { seen tables.new ≡ all_back sessions.now (seen tables.old) }
    ensures table { IsTable tables.new }
{
    let mut rest = sessions;
    while let [session, after @ ..] = rest {
        close_first(tables, *session);
        rest = after;
    }
}
