//! What sessions hold, session by session.
ghost use Rattle.std.specs.Prelude.{◌≡◌, ◌==◌, ◌++◌, ◌∷◌, [], ℕ, List, false, IfOk, OnOk};
ghost use Rattle.cp_group_state.specs.Rows.{holding_cmp};
ghost use Rattle.cp_group_state.specs.Invariants.{IsRising};
ghost use Rattle.cp_semaphore.specs.Nested.{flat, IsNested};
ghost use Rattle.cp_resource.specs.States.{HoldSome};

use cp_base::{Items, Name, NoMemory};
use cp_semaphore::set_holding;
use std::alloc::Global;
use std::collections::BTreeMap;

/// A session holds so many permits, behind what is held already.
#[tactic(auto, using(crate::proofs::Held::held_last))]
fn hold(
    holdings: &mut BTreeMap<u64, BTreeMap<Name, u64>>,
    alloc: Global,
    session: u64,
    name: &Name,
    permits: u64,
) -> Result<(), NoMemory>
    requires { IsNested holdings.old.entries }
    ensures nested { IsNested holdings.new.entries }
    ensures held { OnOk result ((rest : List ((ℕ × List ℕ) × ℕ)) →
        IsRising holding_cmp (flat holdings.old.entries ++ ((session, name.now), permits) ∷ rest) →
        (permits == 0) ≡ false → flat holdings.new.entries ≡ flat
        holdings.old.entries ++ ((session, name.now), permits) ∷ []) }
{
    set_holding(holdings, alloc, session, name, permits)?;
    Ok(())
}

/// The holdings of these rows.
#[tactic(auto, using(crate::proofs::Held::goes_on, crate::proofs::Held::rest_holds))]
pub(crate) fn holdings_of(
    alloc: Global,
    rows: Items<((u64, Name), u64)>,
) -> Result<BTreeMap<u64, BTreeMap<Name, u64>>, NoMemory>
    requires rising { IsRising holding_cmp rows }
    requires some { HoldSome rows }
    ensures nested { IfOk result (λ holdings. IsNested holdings.entries) }
    ensures flat { IfOk result (λ holdings. flat holdings.entries ≡ rows) }
{
    let mut holdings = BTreeMap::new(alloc);
    for ((session, name), permits) in rows.into_vec() {
        hold(&mut holdings, alloc, session, &name, permits)?;
    }
    Ok(holdings)
}
