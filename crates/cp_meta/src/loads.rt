//! The loads of members.
ghost use Rattle.std.specs.Prelude.{◌≡◌, IfOk};
ghost use Rattle.cp_meta_state.specs.MetaState.{is_in};
ghost use Rattle.cp_meta_state.specs.Loads.{counts_for, load, loaded, will_be_in};

use cp_base::NoMemory;
use cp_meta_state::{GroupRow, MoveRow};
use std::alloc::Global;
use std::collections::BTreeMap;

/// The number of METADATA's own group.
const METADATA: u64 = 0;

/// Whether a member is among some.
pub(crate) fn is_in(members: &[u8], member: u8) -> bool
    ensures { result ≡ is_in members.now member }
{
    members.iter().any(|other| *other == member)
}

/// Whether a member is in a group of these members once its move is done.
fn will_be_in(row: Option<MoveRow>, members: &[u8], member: u8) -> bool
    ensures { result ≡ will_be_in row members.now member }
{
    match row {
        None => is_in(members, member),
        Some(row) => member != row.remove && (member == row.add || is_in(members, member)),
    }
}

/// Whether a group counts for a member. METADATA counts for nobody.
fn counts_for(moves: &BTreeMap<u64, MoveRow>, member: u8, group: u64, row: &GroupRow) -> bool
    ensures { result ≡ counts_for moves.now.entries member (group, row.now) }
{
    group != METADATA && will_be_in(moves.get(&group).copied(), row.members.as_slice(), member)
}

/// In how many groups a member is, where each move that stands counts as done.
pub(crate) fn load(
    groups: &BTreeMap<u64, GroupRow>,
    moves: &BTreeMap<u64, MoveRow>,
    member: u8,
) -> usize
    ensures { result ≡ load groups.now.entries moves.now.entries member }
{
    groups
        .iter()
        .filter(|(group, row)| counts_for(moves, member, **group, *row))
        .count()
}

/// Members with their loads.
pub(crate) fn loaded(
    alloc: Global,
    groups: &BTreeMap<u64, GroupRow>,
    moves: &BTreeMap<u64, MoveRow>,
    members: &[u8],
) -> Result<Vec<(u8, usize)>, NoMemory>
    ensures { IfOk result (λ pairs. pairs.items ≡ loaded groups.now.entries moves.now.entries members.now) }
{
    let mut pairs = Vec::new(alloc);
    let mut rest = members;
    while let [member, after @ ..] = rest {
        pairs.push((*member, load(groups, moves, *member)))?;
        rest = after;
    }
    Ok(pairs)
}
