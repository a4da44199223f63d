//! What a client asks enters the history at once.
ghost use Rattle.cp_base.specs.declared.limits.TheConstants.{LAST_NUMBER};
ghost use Rattle.std.specs.Prelude.{◌≡◌, ◌<◌, ◌+◌, ◌++◌, ℕ, List, map, OnOk};
ghost use Rattle.cp_client_rules.specs.Clients.{Did};
ghost use Rattle.cp_world_rules.specs.World.{commit, commit_all, does};
ghost use Rattle.cp_world.specs.Following.{Leads, LeadsFrom};
ghost use Rattle.cp_world.specs.Given.{IsGiven};
ghost use Rattle.cp_world.specs.Rooms.{CanCount, CanCountDone};

use crate::reusing::take_backwards;
use crate::turn::Turn;
use crate::world::World;
use cp_base::{ClientNo, Items, NoMemory};
use cp_client::{Asked, ClientOut};
use cp_events::{Opened, Return};
use std::alloc::Global;

/// A request is the next entry of the history, and what that answers waits to be handed on.
fn commit(world: &mut World, asked: Asked, turn: &mut Turn) -> Result<(), NoMemory>
    requires { world.old.entries < LAST_NUMBER }
    ensures { OnOk result (Leads (commit asked) world.old turn.old world.new turn.new) }
{
    let entry = asked.into_entry();
    world
        .tables
        .apply_entry(world.entries + 1, &entry, &mut world.queue)?;
    world.entries += 1;
    turn.entries.push(entry)
}

fn commit_all(world: &mut World, asked: &mut Items<Asked>, turn: &mut Turn) -> Result<(), NoMemory>
    requires { CanCount (commit_all asked.old) world.old turn.old }
    ensures { OnOk result (Leads (commit_all asked.old) world.old turn.old world.new turn.new) }
{
    let mut requests = take_backwards(world.alloc, asked);
    while let Some(request) = requests.pop() {
        commit(world, request, turn)?;
    }
    *asked = Items::from_vec(requests);
    Ok(())
}

/// The sessions that a client opened are shown.
fn show_opened(
    me: ClientNo,
    opened: &[Opened],
    out: &mut Items<(ClientNo, Opened)>,
) -> Result<(), NoMemory>
    ensures { OnOk result (out.new ≡ out.old ++ map (λ o. (me, o)) opened.now) }
{
    let mut rest = opened;
    while let [session, after @ ..] = rest {
        out.push((me, *session))?;
        rest = after;
    }
    Ok(())
}

/// The calls of a client that returned are shown.
fn show_returns(
    alloc: Global,
    me: ClientNo,
    returns: &mut Items<Return>,
    out: &mut Items<(ClientNo, Return)>,
) -> Result<(), NoMemory>
    ensures { OnOk result (out.new ≡ out.old ++ map (λ r. (me, r)) returns.old) }
{
    let mut calls = take_backwards(alloc, returns);
    while let Some(call) = calls.pop() {
        out.push((me, call))?;
    }
    *returns = Items::from_vec(calls);
    Ok(())
}

/// A client took a step, which gave this. The requests that begin are committed at once.
pub fn does(
    world: &mut World,
    me: ClientNo,
    given: &mut ClientOut,
    turn: &mut Turn,
) -> Result<(), NoMemory>
    requires { CanCountDone me given.old world.old turn.old }
    ensures { OnOk result ((d : Did) → IsGiven d given.old → LeadsFrom me d (does me d) world.old turn.old world.new turn.new) }
{
    show_opened(me, given.opened.as_slice(), &mut turn.opened)?;
    show_returns(world.alloc, me, &mut given.returns, &mut turn.returns)?;
    commit_all(world, &mut given.asked, turn)
}
