//! The parts of a state's bytes.
ghost use Rattle.std.specs.Prelude.{◌≡◌, ◌++◌, ◌<◌, ◌^◌, length, OnOk};
ghost use Rattle.cp_group_ranges.specs.States.{StateFits};
ghost use Rattle.cp_state_bytes.specs.Lists.{by_name};
ghost use Rattle.cp_state_bytes.specs.Lent.{state_lent};
ghost use Rattle.cp_state_bytes.specs.Whole.{owners_spelled, objects_spelled, calls_spelled};

use crate::lent::LentState;
use crate::written_holdings::append_holdings;
use crate::written_row::append_rows;
use crate::written_rows::append_waiters;
use cp_base::NoMemory;
use cp_grammar::Spelled;

/// Appends the number of the destroyed group, sessions, locks, semaphores, and what is held of them.
#[tactic(auto, unfolding(crate::specs::Whole::owners_spelled))]
pub fn append_owners(lent: &LentState, out: &mut Vec<u8>) -> Result<(), NoMemory>
    requires { StateFits (state_lent lent.now) }
    ensures bytes { OnOk result (out.new.items ≡ out.old.items ++ owners_spelled (state_lent lent.now)) }
    ensures holdings { OnOk result (length (by_name (state_lent lent.now).semaphores.holdings) < 2 ^ 32) }
{
    lent.destroyed_group.append(out)?;
    append_rows(lent.sessions, out)?;
    append_rows(lent.locks, out)?;
    append_rows(lent.semaphores, out)?;
    append_holdings(lent.holdings, out)?;
    Ok(())
}

/// Appends latches, longs, references, and destroyed objects.
#[tactic(auto, unfolding(crate::specs::Whole::objects_spelled))]
pub fn append_objects(lent: &LentState, out: &mut Vec<u8>) -> Result<(), NoMemory>
    requires { StateFits (state_lent lent.now) }
    ensures { OnOk result (out.new.items ≡ out.old.items ++ objects_spelled (state_lent lent.now)) }
{
    append_rows(lent.latches, out)?;
    append_rows(lent.longs, out)?;
    append_rows(lent.refs, out)?;
    append_rows(lent.gone, out)?;
    Ok(())
}

/// Appends calls that wait, what is remembered of calls, and the pairs of maps.
#[tactic(auto, unfolding(crate::specs::Whole::calls_spelled))]
pub fn append_calls(lent: &LentState, out: &mut Vec<u8>) -> Result<(), NoMemory>
    requires { StateFits (state_lent lent.now) }
    ensures bytes { OnOk result (out.new.items ≡ out.old.items ++ calls_spelled (state_lent lent.now)) }
    ensures memory { OnOk result (length (state_lent lent.now).memory < 2 ^ 32) }
{
    append_waiters(lent.waiters, out)?;
    append_rows(lent.memory, out)?;
    append_rows(lent.maps, out)?;
    Ok(())
}
