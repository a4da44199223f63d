//! METADATA at first.
ghost use Rattle.std.specs.Prelude.{◌≡◌, [], ◌∷◌, map, IfOk};
ghost use Rattle.cp_meta_state.specs.declared.rows.Standing.TheVariants.{Active};
ghost use Rattle.cp_meta_state.specs.MetaState.{default_name, first_state, metadata_name, new_group, numbers};

use crate::changes::new_group;
use crate::tables::MetaTables;
use cp_base::{Items, Name, NoMemory};
use cp_meta_state::{GroupRow, Standing};
use cp_rows::from_rows;
use std::alloc::Global;
use std::collections::BTreeMap;

/// The members up to a number, each active.
#[tactic(auto, using(crate::proofs::Numbered::one_more, crate::proofs::Numbered::all_there))]
fn rows_of_members(alloc: Global, members: u8) -> Result<Items<(u8, Standing)>, NoMemory>
    ensures { IfOk result (λ rows. rows ≡ map (λ m. (m, Active)) (numbers members 1)) }
{
    let mut rows = Vec::new(alloc);
    for member in 0..members {
        rows.push((member + 1, Standing::Active))?;
    }
    Ok(Items::from_vec(rows))
}

/// The numbers up to one.
#[tactic(auto, using(crate::proofs::Numbered::number_more, crate::proofs::Numbered::numbers_there))]
fn numbers_to(alloc: Global, size: u8) -> Result<Vec<u8>, NoMemory>
    ensures { IfOk result (λ members. members.items ≡ numbers size 1) }
{
    let mut members = Vec::new(alloc);
    for member in 0..size {
        members.push(member + 1)?;
    }
    Ok(members)
}

/// The name that these bytes spell.
fn name_of(alloc: Global, text: &[u8]) -> Result<Name, NoMemory>
    ensures { IfOk result (λ name. name ≡ text.now) }
{
    match Name::read(alloc, text) {
        Ok(name) => Ok(name),
        Err(_) => Err(NoMemory),
    }
}

/// The members up to a number, each active.
#[tactic(auto, using(crate::proofs::Numbered::members_rise))]
fn members_of(alloc: Global, members: u8) -> Result<BTreeMap<u8, Standing>, NoMemory>
    ensures { IfOk result (λ made. made.entries ≡ map (λ m. (m, Active)) (numbers members 1)) }
{
    let rows = rows_of_members(alloc, members)?;
    from_rows(alloc, rows)
}

/// METADATA and `default`, on the members up to a number.
fn rows_of_groups(alloc: Global, size: u8) -> Result<Items<(u64, GroupRow)>, NoMemory>
    ensures { IfOk result (λ rows. rows ≡
        (0, new_group metadata_name (numbers size 1)) ∷ (1, new_group default_name (numbers size 1)) ∷ []) }
{
    let members = numbers_to(alloc, size)?;
    let metadata = name_of(alloc, b"METADATA".as_slice())?;
    let default = name_of(alloc, b"default".as_slice())?;
    let mut rows = Vec::new(alloc);
    rows.push((0, new_group(alloc, metadata, &members)?))?;
    rows.push((1, new_group(alloc, default, &members)?))?;
    Ok(Items::from_vec(rows))
}

/// METADATA and `default`, on the members up to a number.
#[tactic(auto, using(crate::proofs::Numbered::two_rise))]
fn groups_of(alloc: Global, size: u8) -> Result<BTreeMap<u64, GroupRow>, NoMemory>
    ensures { IfOk result (λ made. made.entries ≡
        (0, new_group metadata_name (numbers size 1)) ∷ (1, new_group default_name (numbers size 1)) ∷ []) }
{
    let rows = rows_of_groups(alloc, size)?;
    from_rows(alloc, rows)
}

impl MetaTables {
    /// METADATA to which no entry was applied.
    pub fn first(alloc: Global, members: u8, size: u8) -> Result<MetaTables, NoMemory>
        ensures { IfOk result (λ tables. tables ≡ first_state members size) }
    {
        Ok(MetaTables {
            alloc,
            members: members_of(alloc, members)?,
            groups: groups_of(alloc, size)?,
            destroyed: BTreeMap::new(alloc),
            moves: BTreeMap::new(alloc),
        })
    }
}
