//! How members stand.
ghost use Rattle.std.specs.Prelude.{◌≡◌, ◌==◌, not, length, IfOk};
ghost use Rattle.cp_meta_state.specs.MetaState.{is_active, is_in, is_leaving, is_out, those};

use cp_base::NoMemory;
use cp_meta_state::Standing;
use std::alloc::Global;
use std::collections::BTreeMap;

pub(crate) fn is_active(standing: Standing) -> bool
    ensures { result ≡ is_active standing }
{
    match standing {
        Standing::Active => true,
        Standing::Leaving | Standing::Out => false,
    }
}

pub(crate) fn is_leaving(standing: Standing) -> bool
    ensures { result ≡ is_leaving standing }
{
    match standing {
        Standing::Leaving => true,
        Standing::Active | Standing::Out => false,
    }
}

pub(crate) fn is_out(standing: Standing) -> bool
    ensures { result ≡ is_out standing }
{
    match standing {
        Standing::Out => true,
        Standing::Active | Standing::Leaving => false,
    }
}

/// The active members, by number.
#[tactic(auto, using(crate::proofs::Walks::active_more))]
pub(crate) fn active(alloc: Global, members: &BTreeMap<u8, Standing>) -> Result<Vec<u8>, NoMemory>
    ensures { IfOk result (λ active. active.items ≡ those is_active members.now.entries) }
{
    let mut active = Vec::new(alloc);
    for (member, standing) in members {
        if is_active(*standing) {
            active.push(*member)?;
        }
    }
    Ok(active)
}

/// Whether a member is leaving.
#[tactic(auto, using(crate::proofs::Walks::some_leaving, crate::proofs::Walks::not_leaving, crate::proofs::Walks::none_leaving))]
pub(crate) fn is_any_leaving(members: &BTreeMap<u8, Standing>) -> bool
    ensures { result ≡ not (length (those is_leaving members.now.entries) == 0) }
{
    for (_member, standing) in members {
        if is_leaving(*standing) {
            return true;
        }
    }
    false
}

/// Whether this member is active.
#[tactic(auto, using(crate::proofs::Told::told, crate::proofs::Told::untold))]
pub(crate) fn is_member_active(members: &BTreeMap<u8, Standing>, member: u8) -> bool
    ensures { result ≡ is_in (those is_active members.now.entries) member }
{
    // What the map says of its order stands at `len`.
    let _len = members.len();
    match members.get(&member) {
        Some(standing) => is_active(*standing),
        None => false,
    }
}

/// Whether this member is leaving.
#[tactic(auto, using(crate::proofs::Told::told, crate::proofs::Told::untold))]
pub(crate) fn is_member_leaving(members: &BTreeMap<u8, Standing>, member: u8) -> bool
    ensures { result ≡ is_in (those is_leaving members.now.entries) member }
{
    let _len = members.len();
    match members.get(&member) {
        Some(standing) => is_leaving(*standing),
        None => false,
    }
}

/// Whether this member is out.
#[tactic(auto, using(crate::proofs::Told::told, crate::proofs::Told::untold))]
pub(crate) fn is_member_out(members: &BTreeMap<u8, Standing>, member: u8) -> bool
    ensures { result ≡ is_in (those is_out members.now.entries) member }
{
    let _len = members.len();
    match members.get(&member) {
        Some(standing) => is_out(*standing),
        None => false,
    }
}
