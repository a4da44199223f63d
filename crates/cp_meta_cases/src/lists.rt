//! The text of METADATA's lists.
use cp_base::{GroupId, NoMemory};
use cp_meta::{GroupRow, MetaMachine, MoveRow, Standing};
use cp_op_values::{append_members_text, append_numbered};

fn append_standing(standing: Standing, out: &mut Vec<u8>) -> Result<(), NoMemory> {
    match standing {
        Standing::Active => out.extend_from_slice(b" active\n")?,
        Standing::Leaving => out.extend_from_slice(b" leaving\n")?,
        Standing::Out => out.extend_from_slice(b" out\n")?,
    }
    Ok(())
}

/// Appends the lines of members: `member M STANDING`.
fn append_standings(machine: &MetaMachine, out: &mut Vec<u8>) -> Result<(), NoMemory> {
    for (member, standing) in machine.members() {
        append_numbered(b"member ", u64::from(*member), out)?;
        append_standing(*standing, out)?;
    }
    Ok(())
}

/// Appends the line of a group: `group G NAME`, whether it is being destroyed, its first members, its index and its members.
fn append_group(group: u64, row: &GroupRow, out: &mut Vec<u8>) -> Result<(), NoMemory> {
    append_numbered(b"group ", group, out)?;
    out.push(b' ')?;
    out.extend_from_slice(row.name.as_bytes())?;
    if row.destroying {
        out.extend_from_slice(b" destroying")?;
    }
    out.extend_from_slice(b" first")?;
    append_members_text(row.first.as_slice(), out)?;
    append_numbered(b" index ", row.index, out)?;
    out.extend_from_slice(b" members")?;
    append_members_text(row.members.as_slice(), out)?;
    out.push(b'\n')?;
    Ok(())
}

/// Appends the line of the group of a number, or `no group G`.
pub fn append_group_of(
    machine: &MetaMachine,
    group: u64,
    out: &mut Vec<u8>,
) -> Result<(), NoMemory> {
    match machine.group(GroupId(group)) {
        Some(row) => append_group(group, row, out),
        None => {
            append_numbered(b"no group ", group, out)?;
            out.push(b'\n')?;
            Ok(())
        }
    }
}

fn append_groups(machine: &MetaMachine, out: &mut Vec<u8>) -> Result<(), NoMemory> {
    for (group, row) in machine.groups() {
        append_group(*group, row, out)?;
    }
    Ok(())
}

/// Appends the lines of groups that have ended: `destroyed G`.
fn append_destroyed(machine: &MetaMachine, out: &mut Vec<u8>) -> Result<(), NoMemory> {
    for (group, _row) in machine.destroyed() {
        append_numbered(b"destroyed ", *group, out)?;
        out.push(b'\n')?;
    }
    Ok(())
}

/// Appends the line of a move: `move G plan P add A remove R`.
fn append_move(group: u64, row: &MoveRow, out: &mut Vec<u8>) -> Result<(), NoMemory> {
    append_numbered(b"move ", group, out)?;
    append_numbered(b" plan ", row.plan, out)?;
    append_numbered(b" add ", u64::from(row.add), out)?;
    append_numbered(b" remove ", u64::from(row.remove), out)?;
    out.push(b'\n')?;
    Ok(())
}

fn append_moves(machine: &MetaMachine, out: &mut Vec<u8>) -> Result<(), NoMemory> {
    for (group, row) in machine.tasks() {
        append_move(*group, row, out)?;
    }
    Ok(())
}

/// Appends the lists of a machine, row by row.
pub fn append_lists(machine: &MetaMachine, out: &mut Vec<u8>) -> Result<(), NoMemory> {
    append_standings(machine, out)?;
    append_groups(machine, out)?;
    append_destroyed(machine, out)?;
    append_moves(machine, out)?;
    Ok(())
}
