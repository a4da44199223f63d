//! Single rows that change.
ghost use Rattle.std.specs.Prelude.{◌≡◌, Some, true, OnOk, IfOk};
ghost use Rattle.std.specs.Ordering.{nat_cmp};
ghost use Rattle.cp_group_state.specs.Rows.{find, put};
ghost use Rattle.cp_meta_state.specs.declared.rows.GroupRow.{GroupRow};
ghost use Rattle.cp_meta_state.specs.MetaState.{new_group};
ghost use Rattle.cp_meta_state.specs.Moving.{configured};

use cp_base::{Items, Name, NoMemory};
use cp_meta_state::GroupRow;
use cp_rows::put_row;
use std::alloc::Global;
use std::collections::BTreeMap;

/// A list of the same members.
pub(crate) fn copy(alloc: Global, members: &[u8]) -> Result<Items<u8>, NoMemory>
    ensures { IfOk result (λ copy. copy ≡ members.now) }
{
    match Vec::from_slice(alloc, members) {
        Ok(members) => Ok(Items::from_vec(members)),
        Err(_) => Err(NoMemory),
    }
}

/// A group as it is made.
pub(crate) fn new_group(alloc: Global, name: Name, members: &[u8]) -> Result<GroupRow, NoMemory>
    ensures { IfOk result (λ row. row ≡ new_group name members.now) }
{
    Ok(GroupRow {
        name,
        destroying: false,
        first: copy(alloc, members)?,
        index: 0,
        members: copy(alloc, members)?,
    })
}

/// A group is made, in the place of one that has the number.
pub(crate) fn put_group(
    alloc: Global,
    groups: &mut BTreeMap<u64, GroupRow>,
    group: u64,
    name: &Name,
    members: &[u8],
) -> Result<(), NoMemory>
    ensures { OnOk result (groups.new.entries ≡ put nat_cmp groups.old.entries group (new_group name.now members.now)) }
{
    let row = new_group(alloc, name.clone()?, members)?;
    put_row(groups, group, row)
}

/// The row of a group that has one says that it is being destroyed.
pub(crate) fn begin_destroying(groups: &mut BTreeMap<u64, GroupRow>, group: u64)
    ensures { (row : GroupRow) → find nat_cmp groups.old.entries group ≡ Some row →
        groups.new.entries ≡ put nat_cmp groups.old.entries group (record row { destroying = true }) }
{
    if let Some(row) = groups.get_mut(&group) {
        row.destroying = true;
    }
}

/// The group has the configuration of this index, where it has a row.
pub(crate) fn configure(
    groups: &mut BTreeMap<u64, GroupRow>,
    group: u64,
    index: u64,
    members: Items<u8>,
)
    ensures { groups.new.entries ≡ configured (find nat_cmp groups.old.entries group) group index members groups.old.entries }
{
    if let Some(row) = groups.get_mut(&group) {
        row.index = index;
        row.members = members;
    }
}
