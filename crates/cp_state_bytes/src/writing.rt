//! A group's state into bytes.
ghost use Rattle.std.specs.Prelude.{◌≡◌, ◌++◌, Ok, OnOk, OnErr};
ghost use Rattle.cp_group_ranges.specs.States.{IsSound};
ghost use Rattle.cp_state_bytes.specs.States.{spelled, restored};
ghost use Rattle.cp_state_bytes.specs.Lent.{state_lent};

use crate::Version;
use crate::lent::LentState;
use crate::parts::{append_calls, append_objects, append_owners};
use cp_base::NoMemory;
use cp_grammar::Spelled;

/// Appends the bytes of a state; where memory runs out, a front of them may stand in `out`.
#[tactic(auto, using(crate::proofs::Spellings::whole_spelled, crate::proofs::Spellings::comes_back, crate::proofs::Spellings::newest_fits))]
fn append_state(lent: &LentState, out: &mut Vec<u8>) -> Result<(), NoMemory>
    requires { IsSound (state_lent lent.now) }
    ensures bytes { OnOk result (out.new.items ≡ out.old.items ++ spelled (state_lent lent.now)) }
    ensures back { OnOk result (restored (spelled (state_lent lent.now)) ≡ Ok (state_lent lent.now)) }
{
    Version::Third.append(out)?;
    append_owners(lent, out)?;
    append_objects(lent, out)?;
    append_calls(lent, out)?;
    Ok(())
}

/// Appends the bytes of a state, in the newest version, or leaves `out`. Where a list has more rows than a count can
/// say, there is no memory for it either.
pub fn write(lent: &LentState, out: &mut Vec<u8>) -> Result<(), NoMemory>
    requires { IsSound (state_lent lent.now) }
    ensures ok { OnOk result (out.new.items ≡ out.old.items ++ spelled (state_lent lent.now)) }
    // What was written restores to the state.
    ensures back { OnOk result (restored (spelled (state_lent lent.now)) ≡ Ok (state_lent lent.now)) }
    ensures err { OnErr result (out.new.items ≡ out.old.items) }
{
    let mut bytes = Vec::new(*out.allocator());
    append_state(lent, &mut bytes)?;
    Ok(out.extend_from_slice(&bytes)?)
}
