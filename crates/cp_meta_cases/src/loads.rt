//! Entries of METADATA to be timed, with 64 groups standing.
ghost use Rattle.std.specs.Prelude.{◌≤◌, ◌^◌};

use crate::answers;
use cp_base::{GroupId, NoMemory};
use cp_meta::{GroupRow, MetaMachine, MoveRow};
use std::alloc::{AllocError, AllocFailed, Global};

/// How many groups are made beside METADATA and `default`.
const MADE: u64 = 62;

/// The bytes of a call that asks for this.
fn call(alloc: Global, number: u64, op: &[u8]) -> Result<Vec<u8>, AllocError> {
    let mut bytes = Vec::from_slice(alloc, &[1])?;
    bytes.extend_from_slice(&u128::from(number % 16).to_be_bytes())?;
    bytes.push(1)?;
    bytes.extend_from_slice(&number.to_be_bytes())?;
    bytes.extend_from_slice(op)?;
    Ok(bytes)
}

/// What is asked about the group of a number: part 0 makes it with three members, part 1 destroys it.
fn on_group(alloc: Global, part: u8, group: u64) -> Result<Vec<u8>, AllocError> {
    let name = group.to_string(alloc)?;
    let name = name.as_bytes();
    let mut bytes = Vec::from_slice(alloc, &[9, part, 0, 0, 0])?;
    bytes.push(name.len().min(64) as u8)?;
    bytes.extend_from_slice(name)?;
    if part == 0 {
        bytes.push(3)?;
    }
    Ok(bytes)
}

/// The entry that says that a group has ended.
fn ended(alloc: Global, group: u64) -> Result<Vec<u8>, AllocError> {
    let mut bytes = Vec::from_slice(alloc, &[6])?;
    bytes.extend_from_slice(&group.to_be_bytes())?;
    Ok(bytes)
}

/// The entry that says that a group stands on these members.
fn moved(alloc: Global, group: u64, index: u64, members: &[u8]) -> Result<Vec<u8>, AllocError> {
    let mut bytes = Vec::from_slice(alloc, &[7])?;
    bytes.extend_from_slice(&group.to_be_bytes())?;
    bytes.extend_from_slice(&index.to_be_bytes())?;
    bytes.extend_from_slice(&[0, 0, 0, members.len().min(9) as u8])?;
    bytes.extend_from_slice(members)?;
    Ok(bytes)
}

/// Whether a member is in a group once its move is done.
fn will_be_in(row: &GroupRow, change: &MoveRow, member: u8) -> bool {
    member != change.remove
        && (member == change.add || row.members.as_slice().iter().any(|other| *other == member))
}

/// The members of a group once its move is done.
fn moved_members(
    alloc: Global,
    row: &GroupRow,
    change: &MoveRow,
) -> Result<Vec<u8>, AllocFailed<u8>> {
    let mut members = Vec::new(alloc);
    for member in 1..10 {
        if will_be_in(row, change, member) {
            members.push(member)?;
        }
    }
    Ok(members)
}

/// The entry that says that the first move that stands is done; where none stands, that `default` stands on member 2.
fn first_moved(alloc: Global, machine: &MetaMachine, index: u64) -> Result<Vec<u8>, NoMemory> {
    let Some((group, change)) = machine.tasks().first_key_value() else {
        return Ok(moved(alloc, 1, index, &[2])?);
    };
    let Some(row) = machine.group(GroupId(*group)) else {
        return Ok(moved(alloc, 1, index, &[2])?);
    };
    let members = moved_members(alloc, row, change)?;
    Ok(moved(alloc, *group, index, &members)?)
}

/// The member that leaves and joins in the thousand entries of this index.
fn member_at(index: u64) -> u8 {
    (index / 1000 % 9 + 1) as u8
}

/// What is asked about the member of an index: for 500 entries that it leaves, and for the next 500 that it joins.
fn on_member(index: u64) -> [u8; 3] {
    [10, (index / 500 % 2) as u8, member_at(index)]
}

/// What is asked about a group at an index: one after another is made, destroyed, and made anew once it has ended.
fn asked(alloc: Global, index: u64) -> Result<Vec<u8>, AllocError> {
    let group = index / 10 % MADE;
    match index % 10 {
        1 => on_group(alloc, 0, index),
        2 => Vec::from_slice(
            alloc,
            &[9, 1, 0, 0, 0, 7, b'd', b'e', b'f', b'a', b'u', b'l', b't'],
        ),
        3 => on_group(alloc, 1, group),
        8 => Vec::from_slice(alloc, &on_member(index)),
        _ => on_group(alloc, 0, group),
    }
}

/// An entry, of all kinds in turn. The number of the group that has ended is the index at which it was made.
fn entry(alloc: Global, machine: &MetaMachine, index: u64, made: u64) -> Result<Vec<u8>, NoMemory> {
    match index % 10 {
        4 => Ok(ended(alloc, made)?),
        6 => first_moved(alloc, machine, index),
        7 => Ok(Vec::from_slice(alloc, &[8, member_at(index)])?),
        _ => {
            let op = asked(alloc, index)?;
            Ok(call(alloc, index, &op)?)
        }
    }
}

/// Makes the groups, and gives the indexes of their entries by their numbers.
fn make_all(alloc: Global, machine: &mut MetaMachine) -> Result<Vec<u64>, NoMemory> {
    let mut made = Vec::new(alloc);
    for group in 0..MADE {
        let op = on_group(alloc, 0, group)?;
        let bytes = call(alloc, group, &op)?;
        answers(alloc, machine, group + 2, &bytes)?;
        made.push(group + 2)?;
    }
    Ok(made)
}

/// Applies so many entries to a machine of nine members.
pub fn apply_all(alloc: Global, count: u64) -> Result<(), NoMemory>
    requires { count ≤ 2 ^ 40 }
{
    let mut machine = MetaMachine::begin(alloc, 9, 3)?;
    let mut made = make_all(alloc, &mut machine)?;
    for number in 0..count {
        let index = number + 100;
        let place = (index / 10 % MADE) as usize;
        let was = match made.get(place) {
            Some(was) => *was,
            None => 0,
        };
        let bytes = entry(alloc, &machine, index, was)?;
        answers(alloc, &mut machine, index, &bytes)?;
        if index % 10 == 5 {
            if let Some(now) = made.get_mut(place) {
                *now = index;
            }
        }
    }
    Ok(())
}
