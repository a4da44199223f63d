//! The configuration of a group.
ghost use Rattle.std.specs.Prelude.{◌≡◌, IfOk};
ghost use Rattle.cp_grammar.specs.Fields.{optional};
ghost use Rattle.cp_grammar.specs.Common.{invocation};
ghost use Rattle.cp_grammar.specs.Readers.{Reads};
ghost use Rattle.cp_parts.specs.Configs.{config_grammar, members_entry, config_in};
ghost use Rattle.cp_parts.specs.Laws.{config_lawful};

use cp_base::{Invocation, Items, NoMemory};
use cp_grammar::{
    Spelled, Stop, append_index, append_members, append_u64, take_index, take_mark, take_members,
    take_u8, take_u64,
};
use std::alloc::Global;

/// The byte of an entry that brings a configuration.
const MEMBERS_ENTRY: u8 = 4;

/// A configuration of a group: which members it has.
#[derive(Clone, Debug, PartialEq, Eq, Drop)]
pub struct Config {
    /// The index of the entry that brought it, 0 for the first members.
    pub index: u64,
    /// The plan that it follows, 0 where it follows none.
    pub plan: u64,
    /// The members' numbers, rising.
    pub members: Items<u8>,
}

impl Spelled for Config {
    ghost grammar = { config_grammar };

    #[tactic(auto, unfolding(crate::specs::Configs::config_grammar))]
    fn take<'a>(alloc: Global, bytes: &'a [u8]) -> Result<(Config, &'a [u8]), Stop> {
        let (index, rest) = take_index(bytes)?;
        let (plan, rest) = take_u64(rest, u64::MAX)?;
        let (members, rest) = take_members(alloc, rest)?;
        let config = Config {
            index,
            plan,
            members,
        };
        Ok((config, rest))
    }

    #[tactic(auto, unfolding(crate::specs::Configs::config_grammar))]
    fn append(&self, out: &mut Vec<u8>) -> Result<(), NoMemory> {
        append_index(self.index, out)?;
        append_u64(self.plan, out)?;
        append_members(&self.members, out)?;
        Ok(())
    }

    ghost lawful = { config_lawful };
}

/// An invocation, or none.
fn take_asker(alloc: Global, bytes: &[u8]) -> Result<(Option<Invocation>, &[u8]), Stop>
    ensures { Reads result ((optional invocation).reading bytes.now) }
{
    let (flag, rest) = take_u8(bytes, 1)?;
    match flag {
        0 => Ok((None, rest)),
        1 => match Invocation::take(alloc, rest) {
            Ok((call, rest)) => Ok((Some(call), rest)),
            Err(stop) => Err(stop),
        },
        _ => Err(Stop::Left(rest.len())),
    }
}

#[tactic(auto, unfolding(crate::specs::Configs::members_entry))]
/// Who asked for a configuration, its plan and its members, at the front of bytes.
fn take_members_entry(
    alloc: Global,
    bytes: &[u8],
) -> Result<((Option<Invocation>, (u64, Items<u8>)), &[u8]), Stop>
    ensures { Reads result (members_entry.reading bytes.now) }
{
    let rest = take_mark(bytes, MEMBERS_ENTRY)?;
    let (asker, rest) = match take_asker(alloc, rest) {
        Ok(read) => read,
        Err(stop) => return Err(stop),
    };
    let (plan, rest) = take_u64(rest, u64::MAX)?;
    let (members, rest) = take_members(alloc, rest)?;
    Ok(((asker, (plan, members)), rest))
}

#[tactic(auto, unfolding(crate::specs::Configs::config_in, cp_grammar::specs::Grammar::whole))]
/// The configuration that an entry at this index brings: that of a members entry, and none of other bytes.
pub fn config_of_entry(alloc: Global, index: u64, bytes: &[u8]) -> Result<Option<Config>, NoMemory>
    ensures { IfOk result (λ config. config ≡ config_in index bytes.now) }
{
    match take_members_entry(alloc, bytes) {
        Ok(((_asker, (plan, members)), [])) => Ok(Some(Config {
            index,
            plan,
            members,
        })),
        Ok((_entry, _rest)) => Ok(None),
        Err(Stop::Left(_)) => Ok(None),
        Err(Stop::NoMemory) => Err(NoMemory),
    }
}
