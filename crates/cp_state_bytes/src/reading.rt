//! A group's state out of its bytes.
ghost use Rattle.std.specs.Prelude.{◌≡◌, IfOk};
ghost use Rattle.cp_grammar.specs.Readers.{Gives};
ghost use Rattle.cp_grammar.specs.Grammar.{whole};
ghost use Rattle.cp_group_ranges.specs.States.{IsSound};
ghost use Rattle.cp_state_bytes.specs.GroupRows.{state_of, Restores};
ghost use Rattle.cp_state_bytes.specs.Parts.{owners_of, objects_of, calls_of};
ghost use Rattle.cp_state_bytes.specs.States.{owners, objects, calls, state_of_parts, lists_in, state_in, any_version, restored, HasCounts};
ghost use Rattle.cp_state_bytes.specs.Sums.{AreListed};

use crate::group_rows::GroupRows;
use crate::rules::is_consistent;
use crate::{
    Version, take_gone, take_holdings, take_latches, take_locks, take_longs, take_memory,
    take_pairs, take_refs, take_semaphores, take_sessions, take_waiters,
};
use cp_base::{GroupId, Items, Name};
use cp_grammar::{ReadError, Spelled, Stop};
use cp_group_state::{LatchRow, LockRow, MemoryRow, SemaphoreRow, SessionRow, Waiter};
use cp_map::Key;
use cp_op_values::Kind;
use std::alloc::Global;

/// The first part: who there is, and what they own.
#[derive(Drop)]
struct OwnerRows {
    destroyed_group: GroupId,
    sessions: Items<(u64, SessionRow)>,
    locks: Items<(Name, LockRow)>,
    semaphores: Items<((Name, Kind), SemaphoreRow)>,
    holdings: Items<((u64, Name), u64)>,
}

/// The second part: objects that nobody owns, and those that are gone.
#[derive(Drop)]
struct ObjectRows {
    latches: Items<(Name, LatchRow)>,
    longs: Items<(Name, i64)>,
    refs: Items<(Name, Option<Items<u8>>)>,
    gone: Items<((Name, Kind), ())>,
}

/// The last part: calls, and the pairs of maps.
#[derive(Drop)]
struct CallRows {
    waiters: Items<Waiter>,
    memory: Items<((u64, u8), MemoryRow)>,
    maps: Items<((Name, Key), Items<u8>)>,
}

#[tactic(auto, unfolding(crate::specs::States::owners))]
fn take_owners(alloc: Global, bytes: &[u8]) -> Result<(OwnerRows, &[u8]), Stop>
    ensures { Gives (λ x. (owners_of x.0, x.1.now)) result (owners.reading bytes.now) }
{
    let (destroyed_group, rest) = GroupId::take(alloc, bytes)?;
    let (sessions, rest) = take_sessions(alloc, rest)?;
    let (locks, rest) = take_locks(alloc, rest)?;
    let (semaphores, rest) = take_semaphores(alloc, rest)?;
    let (holdings, rest) = take_holdings(alloc, rest)?;
    let owners = OwnerRows {
        destroyed_group,
        sessions,
        locks,
        semaphores,
        holdings,
    };
    Ok((owners, rest))
}

#[tactic(auto, unfolding(crate::specs::States::objects))]
fn take_objects(alloc: Global, version: Version, bytes: &[u8]) -> Result<(ObjectRows, &[u8]), Stop>
    ensures { Gives (λ x. (objects_of x.0, x.1.now)) result ((objects version).reading bytes.now) }
{
    let (latches, rest) = take_latches(alloc, bytes)?;
    let (longs, rest) = take_longs(alloc, rest)?;
    let (refs, rest) = take_refs(alloc, version, rest)?;
    let (gone, rest) = take_gone(alloc, version, rest)?;
    let objects = ObjectRows {
        latches,
        longs,
        refs,
        gone,
    };
    Ok((objects, rest))
}

#[tactic(auto, unfolding(crate::specs::States::calls))]
fn take_calls(alloc: Global, version: Version, bytes: &[u8]) -> Result<(CallRows, &[u8]), Stop>
    ensures { Gives (λ x. (calls_of x.0, x.1.now)) result ((calls version).reading bytes.now) }
{
    let (waiters, rest) = take_waiters(alloc, bytes)?;
    let (memory, rest) = take_memory(alloc, version, rest)?;
    let (maps, rest) = take_pairs(alloc, version, rest)?;
    let calls = CallRows {
        waiters,
        memory,
        maps,
    };
    Ok((calls, rest))
}

/// The rows of the three parts.
fn joined(owners: OwnerRows, objects: ObjectRows, calls: CallRows) -> GroupRows
    ensures { state_of result ≡ state_of_parts (owners_of owners, (objects_of objects, calls_of calls)) }
{
    let OwnerRows {
        destroyed_group,
        sessions,
        locks,
        semaphores,
        holdings,
    } = owners;
    let ObjectRows {
        latches,
        longs,
        refs,
        gone,
    } = objects;
    let CallRows {
        waiters,
        memory,
        maps,
    } = calls;
    GroupRows {
        destroyed_group,
        sessions,
        locks,
        semaphores,
        holdings,
        latches,
        longs,
        refs,
        gone,
        waiters,
        memory,
        maps,
    }
}

/// The rows at the front, and the bytes after them.
#[tactic(auto, unfolding(crate::specs::States::lists_in))]
fn take_lists(alloc: Global, version: Version, bytes: &[u8]) -> Result<(GroupRows, &[u8]), Stop>
    ensures { Gives (λ x. (state_of x.0, x.1.now)) result ((lists_in version).reading bytes.now) }
{
    let (owners, rest) = take_owners(alloc, bytes)?;
    let (objects, rest) = take_objects(alloc, version, rest)?;
    let (calls, rest) = take_calls(alloc, version, rest)?;
    Ok((joined(owners, objects, calls), rest))
}

/// The rows at the front with what is known of their fields, and the bytes after them.
fn take_fitting(alloc: Global, version: Version, bytes: &[u8]) -> Result<(GroupRows, &[u8]), Stop>
    ensures reads { Gives (λ x. (state_of x.0, x.1.now)) result ((lists_in version).reading bytes.now) }
    ensures known { IfOk result (λ x. AreListed (state_of x.0)) }
{
    take_lists(alloc, version, bytes)
}

/// The rows of a state at the front, and the bytes after them.
#[tactic(auto, unfolding(crate::specs::States::state_in))]
fn take_state(alloc: Global, version: Version, bytes: &[u8]) -> Result<(GroupRows, &[u8]), Stop>
    ensures { Gives (λ x. (state_of x.0, x.1.now)) result ((state_in version).reading bytes.now) }
{
    let (rows, rest) = take_fitting(alloc, version, bytes)?;
    match is_consistent(alloc, &rows) {
        Ok(true) => Ok((rows, rest)),
        Ok(false) => Err(Stop::Left(rest.len())),
        Err(_) => Err(Stop::NoMemory),
    }
}

/// The rows of a state at the front, with the version in which they are spelled, and the bytes after them.
#[tactic(auto, unfolding(crate::specs::States::any_version))]
fn take_versioned(alloc: Global, bytes: &[u8]) -> Result<((Version, GroupRows), &[u8]), Stop>
    ensures { Gives (λ x. ((x.0.0, state_of x.0.1), x.1.now)) result (any_version.reading bytes.now) }
{
    let (version, rest) = Version::take(alloc, bytes)?;
    let (rows, rest) = take_state(alloc, version, rest)?;
    Ok(((version, rows), rest))
}

#[tactic(auto, unfolding(crate::specs::States::restored, cp_grammar::specs::Grammar::whole))]
fn read_exactly(alloc: Global, bytes: &[u8]) -> Result<GroupRows, ReadError>
    ensures { Restores result (restored bytes.now) }
{
    match take_versioned(alloc, bytes) {
        Ok((versioned, rest)) => {
            if rest.is_empty() {
                Ok(versioned.1)
            } else {
                let place = bytes.len().saturating_sub(rest.len());
                Err(ReadError::NotInGrammar(place))
            }
        }
        Err(Stop::Left(left)) => Err(ReadError::NotInGrammar(bytes.len().saturating_sub(left))),
        Err(Stop::NoMemory) => Err(ReadError::NoMemory),
    }
}

/// The rows of the state that the bytes spell, all of them, in any version.
pub fn read(alloc: Global, bytes: &[u8]) -> Result<GroupRows, ReadError>
    // Which state it is, and else at which place the bytes fail.
    ensures exact { Restores result (restored bytes.now) }
    // What is read is a sound state, which can be written.
    ensures sound { IfOk result (λ rows. IsSound (state_of rows) × HasCounts (state_of rows)) }
{
    read_exactly(alloc, bytes)
}
