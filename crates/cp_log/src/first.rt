//! What stands before the first part.
ghost use Rattle.std.specs.Prelude.{false, true, ◌≡◌, IfOk};
ghost use Rattle.cp_log_rules.specs.Durable.{first_groups, first_members, first_state};
ghost use Rattle.cp_log.specs.Rows.{rows_of};

use crate::durable::Durable;
use crate::row::Row;
use crate::rows::{insert_row, numbers_of};
use cp_base::{Items, NoMemory};
use std::alloc::Global;
use std::collections::{BTreeMap, BTreeSet};

/// The members 1 to `size`.
fn members(alloc: Global, size: u8) -> Result<Items<u8>, NoMemory>
    ensures { IfOk result (λ members. members ≡ first_members size) }
{
    let mut members = Items::new(alloc);
    for number in 0..size {
        members.push(number + 1)?;
    }
    Ok(members)
}

/// The row of group 1.
fn one_row(alloc: Global, size: u8) -> Result<BTreeMap<u64, Row>, NoMemory>
    ensures { IfOk result (λ rows. rows_of rows.entries ≡ first_groups false size) }
{
    let mut rows = BTreeMap::new(alloc);
    let first = members(alloc, size)?;
    insert_row(alloc, &mut rows, 1, first)?;
    Ok(rows)
}

/// The rows of groups 0 and 1.
fn two_rows(alloc: Global, size: u8) -> Result<BTreeMap<u64, Row>, NoMemory>
    ensures { IfOk result (λ rows. rows_of rows.entries ≡ first_groups true size) }
{
    let mut rows = BTreeMap::new(alloc);
    let first = members(alloc, size)?;
    insert_row(alloc, &mut rows, 0, first)?;
    let first = members(alloc, size)?;
    insert_row(alloc, &mut rows, 1, first)?;
    Ok(rows)
}

/// The rows of the groups that stand from the first start on.
fn first_rows(alloc: Global, managed: bool, size: u8) -> Result<BTreeMap<u64, Row>, NoMemory>
    ensures { IfOk result (λ rows. rows_of rows.entries ≡ first_groups managed size) }
{
    if managed {
        two_rows(alloc, size)
    } else {
        one_row(alloc, size)
    }
}

impl Durable {
    ghost use Rattle.cp_log.specs.Durables.{durable_of};

    /// What stands before the first part: group 1 and, where groups are managed, group 0, with the members 1 to `size`.
    pub fn first(alloc: Global, managed: bool, size: u8) -> Result<Durable, NoMemory>
        ensures { IfOk result (λ state. durable_of state ≡ first_state managed size) }
    {
        let rows = first_rows(alloc, managed, size)?;
        let numbers = numbers_of(alloc, &rows)?;
        Ok(Durable {
            restart: 0,
            format: 1,
            rows,
            ended: BTreeSet::new(alloc),
            numbers,
        })
    }
}
