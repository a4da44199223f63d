//! Three members of one group, and the messages between them.

use crate::member::Member;
use cp_base::MemberNo;
use cp_message::Message;
use cp_raft::RaftOut;
use std::alloc::Global;
use std::mem;

/// Three members of one group, and the messages that are not handed over yet.
#[derive(Drop)]
pub struct Group {
    first: Member,
    second: Member,
    third: Member,
    out: RaftOut,
    queue: Vec<Message>,
}

impl Group {
    /// Three members that start for the first time.
    pub fn start(alloc: Global) -> Option<Group> {
        let first = Member::start(alloc, 1)?;
        let second = Member::start(alloc, 2)?;
        let third = Member::start(alloc, 3)?;
        Some(Group {
            first,
            second,
            third,
            out: RaftOut::new(alloc),
            queue: Vec::new(alloc),
        })
    }

    /// Puts what the last step sent behind the messages that are not handed over yet.
    fn collect(&mut self, alloc: Global) -> bool {
        let sent = mem::replace(&mut self.out.messages, Vec::new(alloc));
        for message in sent {
            if self.queue.push(message).is_err() {
                return false;
            }
        }
        true
    }

    /// The clock of the first member moves.
    pub fn tick(&mut self, alloc: Global, now: u32) -> bool {
        self.first.tick(alloc, u64::from(now), &mut self.out) && self.collect(alloc)
    }

    /// The first member is asked to append an entry.
    pub fn propose(&mut self, alloc: Global, entry: &[u8]) -> bool {
        self.first.propose(alloc, entry, &mut self.out) && self.collect(alloc)
    }

    /// The first member is asked to remove the third.
    pub fn remove_third(&mut self, alloc: Global) -> bool {
        self.first.remove(alloc, MemberNo(3), &mut self.out) && self.collect(alloc)
    }

    /// A message comes to the member that it names.
    pub fn take(&mut self, alloc: Global, message: Message) -> bool {
        let taken = match message.to {
            1 => self.first.take(alloc, message, &mut self.out),
            2 => self.second.take(alloc, message, &mut self.out),
            3 => self.third.take(alloc, message, &mut self.out),
            _ => false,
        };
        taken && self.collect(alloc)
    }

    /// The commit of a member.
    pub fn commit(&self, member: u8) -> u64 {
        match member {
            1 => self.first.commit(),
            2 => self.second.commit(),
            _ => self.third.commit(),
        }
    }

    /// Whether the last step wrote a part.
    pub fn wrote(&self) -> bool {
        self.out.wrote
    }

    /// The messages that are not handed over yet, lent.
    pub fn messages(&self) -> &[Message] {
        &self.queue
    }

    /// The messages that are not handed over yet.
    pub fn take_messages(&mut self, alloc: Global) -> Vec<Message> {
        mem::replace(&mut self.queue, Vec::new(alloc))
    }
}
