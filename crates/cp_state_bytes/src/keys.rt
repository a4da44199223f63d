//! Keys against that of the row before them.
ghost use Rattle.std.specs.Prelude.{◌≡◌};
ghost use Rattle.std.specs.Ordering.{nat_cmp};
ghost use Rattle.cp_group_state.specs.Rows.{name_cmp};
ghost use Rattle.cp_state_bytes.specs.Keys.{is_behind, may_follow};

use cp_base::{Items, Name};
use cp_group_state::MemoryRow;
use cp_map::Key;

/// Whether the key is above that of the last row.
pub fn is_behind<K: Ord, V>(before: &[(K, V)], key: &K) -> bool
    ensures { result ≡ is_behind K.cmp before.now key.now }
{
    match before.last() {
        Some((last, _)) => last.cmp(key).is_lt(),
        None => true,
    }
}

/// Whether the session is not below that of the last row.
pub fn may_follow_session(before: &[((u64, u8), MemoryRow)], session: u64) -> bool
    ensures { result ≡ may_follow nat_cmp (λ k. k.0) before.now session }
{
    match before.last() {
        Some(((last, _), _)) => last.cmp(&session).is_le(),
        None => true,
    }
}

/// Whether the name is not below that of the last row.
pub fn may_follow_name(before: &[((Name, Key), Items<u8>)], name: &Name) -> bool
    ensures { result ≡ may_follow name_cmp (λ k. k.0) before.now name.now }
{
    match before.last() {
        Some(((last, _), _)) => last.cmp(name).is_le(),
        None => true,
    }
}
