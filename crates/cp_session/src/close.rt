//! Sessions that are closed.
ghost use Rattle.std.specs.Prelude.{◌≡◌, Some, None, is_some};
ghost use Rattle.std.specs.Ordering.{nat_cmp};
ghost use Rattle.cp_group_state.specs.Rows.{find};
ghost use Rattle.cp_session.specs.Index.{IsIndexed, Sets};
ghost use Rattle.cp_session.specs.Closings.{closed_each, without_session};

use crate::index::unname;
use cp_base::ClientId;
use cp_group_state::SessionRow;
use std::collections::BTreeMap;

/// Takes a row out, if it is there.
fn take_row(rows: &mut BTreeMap<u64, SessionRow>, session: u64) -> Option<SessionRow>
    ensures old { result ≡ find nat_cmp rows.old.entries session }
    ensures rows { rows.new.entries ≡ without_session session rows.old.entries }
    ensures sets { Sets nat_cmp session None rows.old.entries rows.new.entries }
{
    // What the map says of its order stands at `len`.
    let _len = rows.len();
    rows.remove(&session)
}

/// The session goes, and gives whether it was open.
#[tactic(auto, using(crate::proofs::Indexed::closed_some, crate::proofs::Indexed::closed_none))]
pub fn close_one(
    rows: &mut BTreeMap<u64, SessionRow>,
    numbers: &mut BTreeMap<ClientId, u64>,
    session: u64,
) -> bool
    requires { IsIndexed rows.old.entries numbers.old.entries }
    ensures was { result ≡ is_some (find nat_cmp rows.old.entries session) }
    ensures rows { rows.new.entries ≡ without_session session rows.old.entries }
    ensures indexed { IsIndexed rows.new.entries numbers.new.entries }
{
    match take_row(rows, session) {
        Some(row) => {
            unname(numbers, &row.client);
            true
        }
        None => false,
    }
}

/// These sessions go, one after the other.
pub fn close_each(
    rows: &mut BTreeMap<u64, SessionRow>,
    numbers: &mut BTreeMap<ClientId, u64>,
    sessions: &[u64],
)
    requires { IsIndexed rows.old.entries numbers.old.entries }
    ensures rows { rows.new.entries ≡ closed_each sessions.now rows.old.entries }
    ensures indexed { IsIndexed rows.new.entries numbers.new.entries }
{
    let mut rest = sessions;
    while let [session, after @ ..] = rest {
        close_one(rows, numbers, *session);
        rest = after;
    }
}
