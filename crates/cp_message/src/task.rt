//! What the leader of METADATA tells members to do, and what it is answered.
ghost use Rattle.std.specs.Prelude.{◌≡◌, ◌++◌, OnOk};
ghost use Rattle.cp_base.specs.Text.{Grew};
ghost use Rattle.cp_message.specs.Laws.{task_lawful, task_reply_lawful};
ghost use Rattle.cp_message.specs.Tasks.{task_grammar, task_reply, start_text, task_words, task_text, moved_text, task_reply_words, task_reply_text};

use crate::{append_members_text, append_numbers_text};
use cp_base::limits::MOST_MEMBER;
use cp_base::{GroupId, Items, MemberNo, NoMemory};
use cp_grammar::{
    Spelled, Stop, append_index, append_members, append_u8, append_u64, take_index, take_members,
    take_u8, take_u64,
};
use std::alloc::Global;

/// What a member is told to do about a group.
#[derive(Clone, Copy, Debug, PartialEq, Eq)]
pub enum Task {
    /// To destroy it.
    Destroy,
    /// To let it go, since it is destroyed.
    End,
    /// To follow this plan: add this member, or nobody where it is 0, and remove this one.
    Move(u64, u8, MemberNo),
}

/// What a member has done about a group.
#[derive(Clone, Debug, PartialEq, Eq, Drop)]
pub enum TaskReply {
    /// It has the group.
    Started,
    /// The group is destroyed there.
    Destroyed,
    /// It has let the group go.
    Ended,
    /// This plan is followed: the configuration of this index has these members.
    Moved(u64, u64, Items<u8>),
}

impl Spelled for Task {
    ghost grammar = { task_grammar };

    #[tactic(auto, unfolding(crate::specs::Tasks::task_grammar))]
    fn take<'a>(alloc: Global, bytes: &'a [u8]) -> Result<(Task, &'a [u8]), Stop> {
        let (tag, rest) = take_u8(bytes, 2)?;
        match tag {
            0 => Ok((Task::Destroy, rest)),
            1 => Ok((Task::End, rest)),
            2 => {
                let (plan, rest) = take_u64(rest, u64::MAX)?;
                let (add, rest) = take_u8(rest, MOST_MEMBER)?;
                let (remove, rest) = MemberNo::take(alloc, rest)?;
                Ok((Task::Move(plan, add, remove), rest))
            }
            _ => Err(Stop::Left(rest.len())),
        }
    }

    #[tactic(auto, unfolding(crate::specs::Tasks::task_grammar))]
    fn append(&self, out: &mut Vec<u8>) -> Result<(), NoMemory> {
        match self {
            Task::Destroy => append_u8(0, out)?,
            Task::End => append_u8(1, out)?,
            Task::Move(plan, add, remove) => {
                append_u8(2, out)?;
                append_u64(*plan, out)?;
                append_u8(*add, out)?;
                remove.append(out)?;
            }
        }
        Ok(())
    }

    ghost lawful = { task_lawful };
}

impl Spelled for TaskReply {
    ghost grammar = { task_reply };

    #[tactic(auto, unfolding(crate::specs::Tasks::task_reply))]
    fn take<'a>(alloc: Global, bytes: &'a [u8]) -> Result<(TaskReply, &'a [u8]), Stop> {
        let (tag, rest) = take_u8(bytes, 3)?;
        match tag {
            0 => Ok((TaskReply::Started, rest)),
            1 => Ok((TaskReply::Destroyed, rest)),
            2 => Ok((TaskReply::Ended, rest)),
            3 => {
                let (plan, rest) = take_u64(rest, u64::MAX)?;
                let (index, rest) = take_index(rest)?;
                let (list, rest) = take_members(alloc, rest)?;
                Ok((TaskReply::Moved(plan, index, list), rest))
            }
            _ => Err(Stop::Left(rest.len())),
        }
    }

    #[tactic(auto, unfolding(crate::specs::Tasks::task_reply))]
    fn append(&self, out: &mut Vec<u8>) -> Result<(), NoMemory> {
        match self {
            TaskReply::Started => append_u8(0, out)?,
            TaskReply::Destroyed => append_u8(1, out)?,
            TaskReply::Ended => append_u8(2, out)?,
            TaskReply::Moved(plan, index, list) => {
                append_u8(3, out)?;
                append_u64(*plan, out)?;
                append_index(*index, out)?;
                append_members(list, out)?;
            }
        }
        Ok(())
    }

    ghost lawful = { task_reply_lawful };
}

/// Appends a group and members, each after a space.
pub fn append_start_text(
    group: GroupId,
    list: &Items<u8>,
    out: &mut Vec<u8>,
) -> Result<(), NoMemory>
    ensures ok { OnOk result (out.new.items ≡ out.old.items ++ start_text group list.now) }
    ensures grew { Grew out.old.items out.new.items }
{
    append_numbers_text(&[group.0], out)?;
    append_members_text(list.as_slice(), out)?;
    Ok(())
}

fn append_task_words(task: &Task, out: &mut Vec<u8>) -> Result<(), NoMemory>
    ensures ok { OnOk result (out.new.items ≡ out.old.items ++ task_words task.now) }
    ensures grew { Grew out.old.items out.new.items }
{
    match task {
        Task::Destroy => out.extend_from_slice(b" destroy")?,
        Task::End => out.extend_from_slice(b" end")?,
        Task::Move(plan, add, remove) => {
            out.extend_from_slice(b" move")?;
            append_numbers_text(&[*plan, u64::from(*add), u64::from(remove.0)], out)?;
        }
    }
    Ok(())
}

/// Appends a group and what is to be done about it, each word after a space.
pub fn append_task_text(group: GroupId, task: &Task, out: &mut Vec<u8>) -> Result<(), NoMemory>
    ensures ok { OnOk result (out.new.items ≡ out.old.items ++ task_text group task.now) }
    ensures grew { Grew out.old.items out.new.items }
{
    append_numbers_text(&[group.0], out)?;
    append_task_words(task, out)?;
    Ok(())
}

fn append_moved_text(
    plan: u64,
    index: u64,
    list: &Items<u8>,
    out: &mut Vec<u8>,
) -> Result<(), NoMemory>
    ensures ok { OnOk result (out.new.items ≡ out.old.items ++ moved_text plan index list.now) }
    ensures grew { Grew out.old.items out.new.items }
{
    append_numbers_text(&[plan, index], out)?;
    append_members_text(list.as_slice(), out)?;
    Ok(())
}

fn append_task_reply_words(reply: &TaskReply, out: &mut Vec<u8>) -> Result<(), NoMemory>
    ensures ok { OnOk result (out.new.items ≡ out.old.items ++ task_reply_words reply.now) }
    ensures grew { Grew out.old.items out.new.items }
{
    match reply {
        TaskReply::Started => out.extend_from_slice(b" started")?,
        TaskReply::Destroyed => out.extend_from_slice(b" destroyed")?,
        TaskReply::Ended => out.extend_from_slice(b" ended")?,
        TaskReply::Moved(plan, index, list) => {
            out.extend_from_slice(b" moved")?;
            append_moved_text(*plan, *index, list, out)?;
        }
    }
    Ok(())
}

/// Appends a group and what was done about it, each word after a space.
pub fn append_task_reply_text(
    group: GroupId,
    reply: &TaskReply,
    out: &mut Vec<u8>,
) -> Result<(), NoMemory>
    ensures ok { OnOk result (out.new.items ≡ out.old.items ++ task_reply_text group reply.now) }
    ensures grew { Grew out.old.items out.new.items }
{
    append_numbers_text(&[group.0], out)?;
    append_task_reply_words(reply, out)?;
    Ok(())
}
