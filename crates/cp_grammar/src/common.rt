//! Readers and writers of the formats that several types share: indexes, names, members, groups, invocations.
ghost use Rattle.std.specs.Prelude.{◌≡◌, ◌++◌, OnOk};
ghost use Rattle.cp_grammar.specs.Common.{index, index_pair, name, group_id, thread_no, member_no, client_id, invocation, member_after, members};
ghost use Rattle.cp_grammar.specs.CommonLaws.{name_lawful, group_lawful, thread_lawful, member_lawful, client_lawful, invocation_lawful};
ghost use Rattle.cp_grammar.specs.Lists.{each};
ghost use Rattle.cp_grammar.specs.Readers.{Reads};

use crate::fields::{take_array, take_bytes, take_u8, take_u64};
use crate::lists::{Item, append_list, take_list};
use crate::spelled::Spelled;
use crate::stop::Stop;
use crate::writing::{append_array, append_bytes, append_u8, append_u64};
use cp_base::limits::{LAST_NUMBER, MOST_MEMBER, MOST_NAME, MOST_THREAD};
use cp_base::{
    ClientId, GroupId, Invocation, Items, MemberNo, Name, NameError, NoMemory, ThreadNo,
};
use std::alloc::Global;
use uuid::Uuid;

/// A term, an index, a session or a number of a call: at most 2^62.
#[tactic(auto, unfolding(crate::specs::Common::index))]
pub fn take_index(bytes: &[u8]) -> Result<(u64, &[u8]), Stop>
    ensures { Reads result (index.reading bytes.now) }
{
    take_u64(bytes, LAST_NUMBER)
}

/// Appends a number of at most 2^62.
#[tactic(auto, unfolding(crate::specs::Common::index))]
pub fn append_index(value: u64, out: &mut Vec<u8>) -> Result<(), NoMemory>
    ensures { OnOk result (out.new.items ≡ out.old.items ++ index.spelling value) }
{
    append_u64(value, out)
}

impl Spelled for Name {
    ghost grammar = { name };

    #[tactic(auto, unfolding(crate::specs::Common::name), using(cp_base::proofs::NameLemmas::is_name, cp_base::proofs::NameLemmas::no_name))]
    fn take<'a>(alloc: Global, bytes: &'a [u8]) -> Result<(Name, &'a [u8]), Stop> {
        let (text, rest) = take_bytes(bytes, MOST_NAME)?;
        match Name::read(alloc, text) {
            Ok(name) => Ok((name, rest)),
            Err(NameError::BadName(_)) => Err(Stop::Left(bytes.len())),
            Err(NameError::NoMemory) => Err(Stop::NoMemory),
        }
    }

    #[tactic(auto, unfolding(crate::specs::Common::name))]
    fn append(&self, out: &mut Vec<u8>) -> Result<(), NoMemory> {
        append_bytes(self.as_bytes(), out)
    }

    ghost lawful = { name_lawful };
}

impl Spelled for GroupId {
    ghost grammar = { group_id };

    #[tactic(auto, unfolding(crate::specs::Common::group_id))]
    fn take<'a>(_alloc: Global, bytes: &'a [u8]) -> Result<(GroupId, &'a [u8]), Stop> {
        let (number, rest) = take_index(bytes)?;
        Ok((GroupId(number), rest))
    }

    #[tactic(auto, unfolding(crate::specs::Common::group_id))]
    fn append(&self, out: &mut Vec<u8>) -> Result<(), NoMemory> {
        append_index(self.0, out)
    }

    ghost lawful = { group_lawful };
}

impl Spelled for ThreadNo {
    ghost grammar = { thread_no };

    #[tactic(auto, unfolding(crate::specs::Common::thread_no))]
    fn take<'a>(_alloc: Global, bytes: &'a [u8]) -> Result<(ThreadNo, &'a [u8]), Stop> {
        let (number, rest) = take_u8(bytes, MOST_THREAD)?;
        Ok((ThreadNo(number), rest))
    }

    #[tactic(auto, unfolding(crate::specs::Common::thread_no))]
    fn append(&self, out: &mut Vec<u8>) -> Result<(), NoMemory> {
        append_u8(self.0, out)
    }

    ghost lawful = { thread_lawful };
}

impl Spelled for MemberNo {
    ghost grammar = { member_no };

    #[tactic(auto, unfolding(crate::specs::Common::member_no))]
    fn take<'a>(_alloc: Global, bytes: &'a [u8]) -> Result<(MemberNo, &'a [u8]), Stop> {
        let (number, rest) = take_u8(bytes, MOST_MEMBER)?;
        if number < 1 {
            return Err(Stop::Left(bytes.len()));
        }
        Ok((MemberNo(number), rest))
    }

    #[tactic(auto, unfolding(crate::specs::Common::member_no))]
    fn append(&self, out: &mut Vec<u8>) -> Result<(), NoMemory> {
        append_u8(self.0, out)
    }

    ghost lawful = { member_lawful };
}

impl Spelled for ClientId {
    ghost grammar = { client_id };

    #[tactic(auto, unfolding(crate::specs::Common::client_id))]
    fn take<'a>(_alloc: Global, bytes: &'a [u8]) -> Result<(ClientId, &'a [u8]), Stop> {
        let (id, rest) = take_array(bytes)?;
        Ok((ClientId(Uuid::from_bytes(id)), rest))
    }

    #[tactic(auto, unfolding(crate::specs::Common::client_id))]
    fn append(&self, out: &mut Vec<u8>) -> Result<(), NoMemory> {
        append_array(&self.0.into_bytes(), out)
    }

    ghost lawful = { client_lawful };
}

impl Spelled for Invocation {
    ghost grammar = { invocation };

    #[tactic(auto, unfolding(crate::specs::Common::invocation))]
    fn take<'a>(alloc: Global, bytes: &'a [u8]) -> Result<(Invocation, &'a [u8]), Stop> {
        let (client, rest) = match ClientId::take(alloc, bytes) {
            Ok(read) => read,
            Err(stop) => return Err(stop),
        };
        let (thread, rest) = ThreadNo::take(alloc, rest)?;
        let (number, rest) = take_index(rest)?;
        let call = Invocation {
            client,
            thread,
            number,
        };
        Ok((call, rest))
    }

    #[tactic(auto, unfolding(crate::specs::Common::invocation))]
    fn append(&self, out: &mut Vec<u8>) -> Result<(), NoMemory> {
        self.client.append(out)?;
        self.thread.append(out)?;
        append_index(self.number, out)?;
        Ok(())
    }

    ghost lawful = { invocation_lawful };
}

impl Item for Invocation {
    ghost item = { each invocation };

    #[tactic(auto, unfolding(crate::specs::Lists::each))]
    fn take_item<'a>(
        alloc: Global,
        _before: &[Invocation],
        bytes: &'a [u8],
    ) -> Result<(Invocation, &'a [u8]), Stop> {
        Invocation::take(alloc, bytes)
    }

    #[tactic(auto, unfolding(crate::specs::Lists::each))]
    fn append_item(&self, _before: &[Invocation], out: &mut Vec<u8>) -> Result<(), NoMemory> {
        self.append(out)
    }
}

/// Two numbers of at most 2^62, as a session with its version.
impl Item for (u64, u64) {
    ghost item = { each index_pair };

    #[tactic(auto, unfolding(crate::specs::Lists::each, crate::specs::Common::index_pair))]
    fn take_item<'a>(
        _alloc: Global,
        _before: &[(u64, u64)],
        bytes: &'a [u8],
    ) -> Result<((u64, u64), &'a [u8]), Stop> {
        let (first, rest) = take_index(bytes)?;
        let (second, rest) = take_index(rest)?;
        Ok(((first, second), rest))
    }

    #[tactic(auto, unfolding(crate::specs::Lists::each, crate::specs::Common::index_pair))]
    fn append_item(&self, _before: &[(u64, u64)], out: &mut Vec<u8>) -> Result<(), NoMemory> {
        append_index(self.0, out)?;
        append_index(self.1, out)?;
        Ok(())
    }
}

/// The number of a member, above those before it.
impl Item for u8 {
    ghost item = { member_after };

    #[tactic(auto, unfolding(crate::specs::Common::member_after))]
    fn take_item<'a>(
        _alloc: Global,
        before: &[u8],
        bytes: &'a [u8],
    ) -> Result<(u8, &'a [u8]), Stop> {
        let last = match before.last() {
            Some(number) => *number,
            None => 0,
        };
        let (number, rest) = take_u8(bytes, MOST_MEMBER)?;
        if number <= last {
            return Err(Stop::Left(bytes.len()));
        }
        Ok((number, rest))
    }

    #[tactic(auto, unfolding(crate::specs::Common::member_after))]
    fn append_item(&self, _before: &[u8], out: &mut Vec<u8>) -> Result<(), NoMemory> {
        append_u8(*self, out)
    }
}

/// Members by rising number, one at least.
#[tactic(auto, unfolding(crate::specs::Common::members))]
pub fn take_members(alloc: Global, bytes: &[u8]) -> Result<(Items<u8>, &[u8]), Stop>
    ensures { Reads result (members.reading bytes.now) }
{
    let (members, rest) = take_list(alloc, 1, u32::MAX, bytes)?;
    Ok((Items::from_vec(members), rest))
}

/// Appends members by rising number.
#[tactic(auto, unfolding(crate::specs::Common::members))]
pub fn append_members(list: &Items<u8>, out: &mut Vec<u8>) -> Result<(), NoMemory>
    requires { members.Fits list.now }
    ensures { OnOk result (out.new.items ≡ out.old.items ++ members.spelling list.now) }
{
    append_list(list.as_slice(), out)
}
