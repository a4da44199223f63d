//! Sessions that got no beat for long enough.
ghost use Rattle.std.specs.Prelude.{◌≡◌, IfOk};
ghost use Rattle.std.specs.Ordering.{nat_cmp};
ghost use Rattle.cp_group_state.specs.Rows.{find};
ghost use Rattle.cp_group_state.specs.Sessions.{is_at_version, unchanged_since};

use cp_base::NoMemory;
use cp_group_state::SessionRow;
use std::alloc::Global;
use std::collections::BTreeMap;

/// Whether the session is open with this version.
fn has_version(rows: &BTreeMap<u64, SessionRow>, session: u64, version: u64) -> bool
    ensures { result ≡ is_at_version version (find nat_cmp rows.now.entries session) }
{
    match rows.get(&session) {
        Some(row) => row.version == version,
        None => false,
    }
}

/// The sessions that are open with the version that they are named with.
pub fn unchanged(
    alloc: Global,
    rows: &BTreeMap<u64, SessionRow>,
    pairs: &[(u64, u64)],
) -> Result<Vec<u64>, NoMemory>
    ensures { IfOk result (λ sessions. sessions.items ≡ unchanged_since rows.now.entries pairs.now) }
{
    let mut sessions = Vec::new(alloc);
    let mut rest = pairs;
    while let [(session, version), after @ ..] = rest {
        if has_version(rows, *session, *version) {
            sessions.push(*session)?;
        }
        rest = after;
    }
    Ok(sessions)
}
