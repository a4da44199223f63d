//! What clients ask of members, and what they are answered. Operations, answers and refusals stand as their bytes.
ghost use Rattle.std.specs.Prelude.{◌≡◌, ◌++◌, OnOk};
ghost use Rattle.cp_base.specs.Text.{Grew};
ghost use Rattle.cp_base.specs.declared.limits.TheConstants.{MOST_ENTRY};
ghost use Rattle.cp_grammar.specs.Readers.{Reads};
ghost use Rattle.cp_message.specs.Requests.{request_within, reply_within, request_text, reply_text};

use crate::{append_numbers_text, take_copy};
use cp_base::{ClientId, GroupId, Items, NoMemory, ThreadNo};
use cp_grammar::{Spelled, Stop, append_bytes, append_index, take_index};
use std::alloc::Global;

/// Asks for an operation.
#[derive(Clone, Debug, PartialEq, Eq, Drop)]
pub struct Request {
    pub thread: ThreadNo,
    /// The number of this try, among those of the thread.
    pub attempt: u64,
    /// The restart number of the member, as the client knows it.
    pub restart: u64,
    pub client: ClientId,
    pub group: GroupId,
    /// The number of the thread's call.
    pub number: u64,
    /// The bytes of the operation.
    pub op: Items<u8>,
}

/// Answers or refuses a request.
#[derive(Clone, Debug, PartialEq, Eq, Drop)]
pub struct Reply {
    pub thread: ThreadNo,
    /// The try that is answered.
    pub attempt: u64,
    pub group: GroupId,
    /// The number of the thread's call.
    pub number: u64,
    /// The bytes of the answer or of the refusal.
    pub bytes: Items<u8>,
}

impl Request {
    /// The request at the front, whose operation has at most so many bytes, and the bytes after it.
    #[tactic(auto, unfolding(crate::specs::Requests::request_within))]
    pub fn take_within<'a>(
        alloc: Global,
        most: u32,
        bytes: &'a [u8],
    ) -> Result<(Request, &'a [u8]), Stop>
        ensures { Reads result ((request_within most).reading bytes.now) }
    {
        let (thread, rest) = ThreadNo::take(alloc, bytes)?;
        let (attempt, rest) = take_index(rest)?;
        let (restart, rest) = take_index(rest)?;
        let (client, rest) = match ClientId::take(alloc, rest) {
            Ok(read) => read,
            Err(stop) => return Err(stop),
        };
        let (group, rest) = GroupId::take(alloc, rest)?;
        let (number, rest) = take_index(rest)?;
        let (op, rest) = take_copy(alloc, most, rest)?;
        let request = Request {
            thread,
            attempt,
            restart,
            client,
            group,
            number,
            op,
        };
        Ok((request, rest))
    }

    /// Appends the one spelling.
    #[tactic(auto, unfolding(crate::specs::Requests::request_within))]
    pub fn append(&self, out: &mut Vec<u8>) -> Result<(), NoMemory>
        requires { (request_within MOST_ENTRY).Fits self.now }
        ensures { OnOk result (out.new.items ≡ out.old.items ++ (request_within MOST_ENTRY).spelling self.now) }
    {
        self.thread.append(out)?;
        append_index(self.attempt, out)?;
        append_index(self.restart, out)?;
        self.client.append(out)?;
        self.group.append(out)?;
        append_index(self.number, out)?;
        append_bytes(self.op.as_slice(), out)?;
        Ok(())
    }

    /// Appends the words of the text behind the first, and the text of the operation, each after a space.
    pub fn append_text(&self, inner: &[u8], out: &mut Vec<u8>) -> Result<(), NoMemory>
        ensures ok { OnOk result (out.new.items ≡ out.old.items ++ request_text self.now inner.now) }
        ensures grew { Grew out.old.items out.new.items }
    {
        let numbers = [
            u64::from(self.thread.0),
            self.attempt,
            self.restart,
            self.group.0,
            self.number,
        ];
        append_numbers_text(&numbers, out)?;
        out.push(b' ')?;
        out.extend_from_slice(inner)?;
        Ok(())
    }
}

impl Reply {
    /// The reply at the front, whose answer or refusal has at most so many bytes, and the bytes after it.
    #[tactic(auto, unfolding(crate::specs::Requests::reply_within))]
    pub fn take_within<'a>(
        alloc: Global,
        most: u32,
        bytes: &'a [u8],
    ) -> Result<(Reply, &'a [u8]), Stop>
        ensures { Reads result ((reply_within most).reading bytes.now) }
    {
        let (thread, rest) = ThreadNo::take(alloc, bytes)?;
        let (attempt, rest) = take_index(rest)?;
        let (group, rest) = GroupId::take(alloc, rest)?;
        let (number, rest) = take_index(rest)?;
        let (bytes, rest) = take_copy(alloc, most, rest)?;
        let reply = Reply {
            thread,
            attempt,
            group,
            number,
            bytes,
        };
        Ok((reply, rest))
    }

    /// Appends the one spelling.
    #[tactic(auto, unfolding(crate::specs::Requests::reply_within))]
    pub fn append(&self, out: &mut Vec<u8>) -> Result<(), NoMemory>
        requires { (reply_within MOST_ENTRY).Fits self.now }
        ensures { OnOk result (out.new.items ≡ out.old.items ++ (reply_within MOST_ENTRY).spelling self.now) }
    {
        self.thread.append(out)?;
        append_index(self.attempt, out)?;
        self.group.append(out)?;
        append_index(self.number, out)?;
        append_bytes(self.bytes.as_slice(), out)?;
        Ok(())
    }

    /// Appends the words of the text behind the first, and the text of the answer or the refusal, each after a space.
    pub fn append_text(&self, inner: &[u8], out: &mut Vec<u8>) -> Result<(), NoMemory>
        ensures ok { OnOk result (out.new.items ≡ out.old.items ++ reply_text self.now inner.now) }
        ensures grew { Grew out.old.items out.new.items }
    {
        let numbers = [
            u64::from(self.thread.0),
            self.attempt,
            self.group.0,
            self.number,
        ];
        append_numbers_text(&numbers, out)?;
        out.push(b' ')?;
        out.extend_from_slice(inner)?;
        Ok(())
    }
}
