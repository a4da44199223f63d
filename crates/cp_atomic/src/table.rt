//! What the tables of longs and references share.
ghost use Rattle.std.specs.Prelude.{◌≡◌, None, Some, IfOk, OnOk, OnErr};
ghost use Rattle.cp_group_state.specs.Rows.{find, name_cmp};
ghost use Rattle.cp_group_state.specs.Atomics.{set_value};

use cp_base::limits::MOST_ROWS;
use cp_base::{Name, NoMemory};
use cp_ops::Answer;
use std::collections::BTreeMap;

/// Makes the row of a name that has none, and gives the answer of the call that sets it; gives `TableFull` and leaves
/// the rows where there are as many as may be. Where memory runs out, the rows stay.
pub(crate) fn make_row<V: Drop>(
    rows: &mut BTreeMap<Name, V>,
    name: &Name,
    value: V,
    answer: Answer,
) -> Result<Answer, NoMemory>
    requires { find name_cmp rows.old.entries name.now ≡ None }
    ensures rows { OnOk result (rows.new.entries ≡ (set_value rows.old.entries name.now (Some value) answer).after) }
    ensures answer { IfOk result (λ given. given ≡ (set_value rows.old.entries name.now (Some value) answer).answer) }
    ensures err { OnErr result (rows.new.entries ≡ rows.old.entries) }
{
    if rows.len() >= MOST_ROWS as usize {
        return Ok(Answer::TableFull(MOST_ROWS));
    }
    let name = name.clone()?;
    rows.insert(name, value)?;
    Ok(answer)
}
