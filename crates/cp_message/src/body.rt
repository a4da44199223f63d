//! What a message says.
ghost use Rattle.std.specs.Prelude.{◌≡◌, ◌++◌, OnOk};
ghost use Rattle.cp_base.specs.Text.{Grew};
ghost use Rattle.cp_base.specs.declared.limits.TheConstants.{MOST_ENTRY};
ghost use Rattle.cp_grammar.specs.Readers.{Reads};
ghost use Rattle.cp_message.specs.Bodies.{kind_of, body_within, body_text};

use crate::request::{Reply, Request};
use crate::task::{Task, TaskReply, append_start_text, append_task_reply_text, append_task_text};
use crate::{
    Append, AppendReply, Chunk, Confirm, Confirmed, SnapshotReply, VoteReply, VoteRequest,
    append_numbers_text,
};
use cp_base::{GroupId, Items, NoMemory, Text};
use cp_grammar::{Spelled, Stop, append_index, append_members, take_index, take_members};
use std::alloc::Global;

/// What a message says: one variant for each kind.
#[derive(Clone, Debug, PartialEq, Eq, Drop)]
pub enum Body {
    /// A client asks a member for its restart number.
    Hello,
    /// The member's restart number.
    Welcome(u64),
    /// Asks whether there would be a vote, in the term that the election would have.
    PreVote(VoteRequest),
    /// Answers that.
    PreVoteReply(VoteReply),
    /// Asks for a vote.
    Vote(VoteRequest),
    /// Gives a vote, or not.
    VoteReply(VoteReply),
    /// Hands entries to a follower.
    Append(Append),
    /// Answers that.
    AppendReply(AppendReply),
    /// Asks for an operation.
    Request(Request),
    /// Answers a request.
    Reply(Reply),
    /// Refuses a request.
    Refuse(Reply),
    /// Tells a member that it has this group, whose first members are these.
    StartGroup(GroupId, Items<u8>),
    /// Tells a member what to do about this group.
    Task(GroupId, Task),
    /// Tells what a member has done about this group.
    TaskReply(GroupId, TaskReply),
    /// Hands a piece of a snapshot to a follower.
    Snapshot(Chunk),
    /// Answers that.
    SnapshotReply(SnapshotReply),
    /// Asks whether the sender still leads.
    Confirm(Confirm),
    /// Answers that.
    Confirmed(Confirmed),
}

impl Body {
    /// The number of the kind, from 1 to 18.
    pub fn kind(&self) -> u8
        ensures { result ≡ kind_of self.now }
    {
        match self {
            Body::Hello => 1,
            Body::Welcome(_) => 2,
            Body::PreVote(_) => 3,
            Body::PreVoteReply(_) => 4,
            Body::Vote(_) => 5,
            Body::VoteReply(_) => 6,
            Body::Append(_) => 7,
            Body::AppendReply(_) => 8,
            Body::Request(_) => 9,
            Body::Reply(_) => 10,
            Body::Refuse(_) => 11,
            Body::StartGroup(_, _) => 12,
            Body::Task(_, _) => 13,
            Body::TaskReply(_, _) => 14,
            Body::Snapshot(_) => 15,
            Body::SnapshotReply(_) => 16,
            Body::Confirm(_) => 17,
            Body::Confirmed(_) => 18,
        }
    }

    /// What stands at the front, of this kind, whose entries, operations, answers and refusals have at most so many
    /// bytes; and the bytes after it.
    #[tactic(auto, unfolding(crate::specs::Bodies::body_within))]
    pub fn take_within<'a>(
        alloc: Global,
        most: u32,
        kind: u8,
        bytes: &'a [u8],
    ) -> Result<(Body, &'a [u8]), Stop>
        ensures { Reads result ((body_within most kind).reading bytes.now) }
    {
        match kind {
            1 => Ok((Body::Hello, bytes)),
            2 => {
                let (restart, rest) = take_index(bytes)?;
                Ok((Body::Welcome(restart), rest))
            }
            3 => {
                let (request, rest) = VoteRequest::take(alloc, bytes)?;
                Ok((Body::PreVote(request), rest))
            }
            4 => {
                let (reply, rest) = VoteReply::take(alloc, bytes)?;
                Ok((Body::PreVoteReply(reply), rest))
            }
            5 => {
                let (request, rest) = VoteRequest::take(alloc, bytes)?;
                Ok((Body::Vote(request), rest))
            }
            6 => {
                let (reply, rest) = VoteReply::take(alloc, bytes)?;
                Ok((Body::VoteReply(reply), rest))
            }
            7 => {
                let (append, rest) = Append::take_within(alloc, most, bytes)?;
                Ok((Body::Append(append), rest))
            }
            8 => {
                let (reply, rest) = AppendReply::take(alloc, bytes)?;
                Ok((Body::AppendReply(reply), rest))
            }
            9 => match Request::take_within(alloc, most, bytes) {
                Ok((request, rest)) => Ok((Body::Request(request), rest)),
                Err(stop) => Err(stop),
            },
            10 => {
                let (reply, rest) = Reply::take_within(alloc, most, bytes)?;
                Ok((Body::Reply(reply), rest))
            }
            11 => {
                let (reply, rest) = Reply::take_within(alloc, most, bytes)?;
                Ok((Body::Refuse(reply), rest))
            }
            12 => {
                let (group, rest) = GroupId::take(alloc, bytes)?;
                let (list, rest) = take_members(alloc, rest)?;
                Ok((Body::StartGroup(group, list), rest))
            }
            13 => {
                let (group, rest) = GroupId::take(alloc, bytes)?;
                let (task, rest) = Task::take(alloc, rest)?;
                Ok((Body::Task(group, task), rest))
            }
            14 => {
                let (group, rest) = GroupId::take(alloc, bytes)?;
                let (reply, rest) = TaskReply::take(alloc, rest)?;
                Ok((Body::TaskReply(group, reply), rest))
            }
            15 => {
                let (chunk, rest) = Chunk::take(alloc, bytes)?;
                Ok((Body::Snapshot(chunk), rest))
            }
            16 => {
                let (reply, rest) = SnapshotReply::take(alloc, bytes)?;
                Ok((Body::SnapshotReply(reply), rest))
            }
            17 => {
                let (confirm, rest) = Confirm::take(alloc, bytes)?;
                Ok((Body::Confirm(confirm), rest))
            }
            18 => {
                let (reply, rest) = Confirmed::take(alloc, bytes)?;
                Ok((Body::Confirmed(reply), rest))
            }
            _ => Err(Stop::Left(bytes.len())),
        }
    }

    /// Appends the one spelling.
    #[tactic(auto, unfolding(crate::specs::Bodies::body_within))]
    pub fn append(&self, out: &mut Vec<u8>) -> Result<(), NoMemory>
        requires { (body_within MOST_ENTRY (kind_of self.now)).Fits self.now }
        ensures { OnOk result (out.new.items ≡ out.old.items ++ (body_within MOST_ENTRY (kind_of self.now)).spelling self.now) }
    {
        match self {
            Body::Hello => {}
            Body::Welcome(restart) => append_index(*restart, out)?,
            Body::PreVote(request) => request.append(out)?,
            Body::PreVoteReply(reply) => reply.append(out)?,
            Body::Vote(request) => request.append(out)?,
            Body::VoteReply(reply) => reply.append(out)?,
            Body::Append(append) => append.append(out)?,
            Body::AppendReply(reply) => reply.append(out)?,
            Body::Request(request) => request.append(out)?,
            Body::Reply(reply) => reply.append(out)?,
            Body::Refuse(reply) => reply.append(out)?,
            Body::StartGroup(group, list) => {
                group.append(out)?;
                append_members(list, out)?;
            }
            Body::Task(group, task) => {
                group.append(out)?;
                task.append(out)?;
            }
            Body::TaskReply(group, reply) => {
                group.append(out)?;
                reply.append(out)?;
            }
            Body::Snapshot(chunk) => chunk.append(out)?,
            Body::SnapshotReply(reply) => reply.append(out)?,
            Body::Confirm(confirm) => confirm.append(out)?,
            Body::Confirmed(reply) => reply.append(out)?,
        }
        Ok(())
    }

    /// Appends the text. `inner` is the text of the operation, the answer or the refusal, and isn't used where there
    /// is none.
    pub fn append_text(&self, inner: &[u8], out: &mut Vec<u8>) -> Result<(), NoMemory>
        ensures ok { OnOk result (out.new.items ≡ out.old.items ++ body_text inner.now self.now) }
        ensures grew { Grew out.old.items out.new.items }
    {
        match self {
            Body::Hello => out.extend_from_slice(b"hello")?,
            Body::Welcome(restart) => {
                out.extend_from_slice(b"welcome")?;
                append_numbers_text(&[*restart], out)?;
            }
            Body::PreVote(request) => {
                out.extend_from_slice(b"prevote")?;
                request.append_text(out)?;
            }
            Body::PreVoteReply(reply) => {
                out.extend_from_slice(b"prevoted")?;
                reply.append_text(out)?;
            }
            Body::Vote(request) => {
                out.extend_from_slice(b"vote")?;
                request.append_text(out)?;
            }
            Body::VoteReply(reply) => {
                out.extend_from_slice(b"voted")?;
                reply.append_text(out)?;
            }
            Body::Append(append) => {
                out.extend_from_slice(b"append")?;
                append.append_text(out)?;
            }
            Body::AppendReply(reply) => {
                out.extend_from_slice(b"appended")?;
                reply.append_text(out)?;
            }
            Body::Request(request) => {
                out.extend_from_slice(b"request")?;
                request.append_text(inner, out)?;
            }
            Body::Reply(reply) => {
                out.extend_from_slice(b"reply")?;
                reply.append_text(inner, out)?;
            }
            Body::Refuse(reply) => {
                out.extend_from_slice(b"refuse")?;
                reply.append_text(inner, out)?;
            }
            Body::StartGroup(group, list) => {
                out.extend_from_slice(b"start")?;
                append_start_text(*group, list, out)?;
            }
            Body::Task(group, task) => {
                out.extend_from_slice(b"task")?;
                append_task_text(*group, task, out)?;
            }
            Body::TaskReply(group, reply) => {
                out.extend_from_slice(b"tasked")?;
                append_task_reply_text(*group, reply, out)?;
            }
            Body::Snapshot(chunk) => {
                out.extend_from_slice(b"snapshot")?;
                chunk.append_text(out)?;
            }
            Body::SnapshotReply(reply) => {
                out.extend_from_slice(b"snapshotted")?;
                reply.append_text(out)?;
            }
            Body::Confirm(confirm) => {
                out.extend_from_slice(b"confirm")?;
                confirm.append_text(out)?;
            }
            Body::Confirmed(reply) => {
                out.extend_from_slice(b"confirmed")?;
                reply.append_text(out)?;
            }
        }
        Ok(())
    }
}
