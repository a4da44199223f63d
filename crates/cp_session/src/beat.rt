//! A session that gets a beat.
ghost use Rattle.std.specs.Prelude.{◌≡◌, Some, IsSome};
ghost use Rattle.std.specs.Ordering.{nat_cmp};
ghost use Rattle.cp_group_state.specs.Rows.{find, put};
ghost use Rattle.cp_group_state.specs.Sessions.{beaten};
ghost use Rattle.cp_session.specs.Index.{Sets};

use cp_base::limits::LAST_NUMBER;
use cp_group_state::SessionRow;
use std::collections::BTreeMap;

/// The row with one beat more.
pub fn beaten_row(row: &SessionRow) -> SessionRow
    ensures { result ≡ beaten row.now }
{
    SessionRow {
        client: row.client,
        version: row.version.saturating_add(1).min(LAST_NUMBER),
    }
}

/// Writes the row of a session that is open.
pub fn beat_row(rows: &mut BTreeMap<u64, SessionRow>, session: u64, row: SessionRow)
    requires { IsSome (find nat_cmp rows.old.entries session) }
    ensures rows { rows.new.entries ≡ put nat_cmp rows.old.entries session row }
    ensures sets { Sets nat_cmp session (Some row) rows.old.entries rows.new.entries }
{
    cp_rows::write_row(rows, &session, row);
}
