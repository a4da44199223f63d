//! An event, and all that follows from it.
ghost use Rattle.std.specs.Prelude.{◌≡◌, ◌≤◌, ◌+◌, OnOk};
ghost use Rattle.std.specs.Ordering.{nat_cmp};
ghost use Rattle.cp_events.specs.declared.event.Event.TheVariants as event;
ghost use Rattle.cp_group_state.specs.Rows.{find};
ghost use Rattle.cp_world_rules.specs.World.{World as Rules, begin, calls_now, is_client, moves_if_room, or_new};
ghost use Rattle.cp_world.specs.Steps.{calls};
ghost use Rattle.cp_world.specs.Following.{Follows, IsStep, Leads};
ghost use Rattle.cp_world.specs.Rooms.{HasRoomFor, IsReached};

use crate::clients::{call_at, clock_of, is_busy, tick_at};
use crate::committing::does;
use crate::handing::handed;
use crate::turn::Turn;
use crate::world::World;
use cp_base::limits::LAST_NUMBER;
use cp_base::{ClientNo, NoMemory, ThreadNo};
use cp_client::ClientOut;
use cp_events::{Event, Ignored, Plan, UserOp};

fn is_client(plan: &Plan, me: ClientNo) -> bool
    ensures { result ≡ is_client plan.now me }
{
    0 < me.0 && me.0 <= plan.clients
}

/// A thread begins a call.
fn calls_now(
    world: &mut World,
    plan: &Plan,
    me: ClientNo,
    thread: ThreadNo,
    op: &UserOp,
    given: &mut ClientOut,
    turn: &mut Turn,
) -> Result<(), NoMemory>
    requires { HasRoomFor (calls_now plan.now me thread op.now) world.old turn.old }
    ensures { OnOk result (Leads (calls_now plan.now me thread op.now) world.old turn.old world.new turn.new) }
{
    given.clear();
    call_at(world.alloc, &mut world.clients, plan, me, thread, op, given)?;
    does(world, me, given, turn)
}

/// A thread makes one call at a time.
fn calls(
    world: &mut World,
    plan: &Plan,
    me: ClientNo,
    thread: ThreadNo,
    op: &UserOp,
    given: &mut ClientOut,
    turn: &mut Turn,
) -> Result<(), NoMemory>
    requires { HasRoomFor (calls plan.now me thread op.now) world.old turn.old }
    ensures { OnOk result (Leads (calls plan.now me thread op.now) world.old turn.old world.new turn.new) }
{
    match is_busy(&world.clients, me, thread) {
        Some(number) => {
            turn.ignored = Some(Ignored::ThreadBusy(number));
            Ok(())
        }
        None => calls_now(world, plan, me, thread, op, given, turn),
    }
}

/// The clock of a client moves, which doesn't pass its end.
fn moves_now(
    world: &mut World,
    me: ClientNo,
    ms: u32,
    given: &mut ClientOut,
    turn: &mut Turn,
) -> Result<(), NoMemory>
    requires room { HasRoomFor (moves_if_room me ms) world.old turn.old }
    requires clock { (or_new (find nat_cmp world.old.clients.entries me.0)).clock + ms ≤ LAST_NUMBER }
    ensures { OnOk result (Leads (moves_if_room me ms) world.old turn.old world.new turn.new) }
{
    given.clear();
    tick_at(world.alloc, &mut world.clients, me, ms, given)?;
    does(world, me, given, turn)
}

/// Clocks have an end.
fn moves(
    world: &mut World,
    me: ClientNo,
    ms: u32,
    given: &mut ClientOut,
    turn: &mut Turn,
) -> Result<(), NoMemory>
    requires { HasRoomFor (moves_if_room me ms) world.old turn.old }
    ensures { OnOk result (Leads (moves_if_room me ms) world.old turn.old world.new turn.new) }
{
    let clock = clock_of(&world.clients, me);
    if clock > LAST_NUMBER - u64::from(ms) {
        turn.ignored = Some(Ignored::ClockEnd(clock));
        return Ok(());
    }
    moves_now(world, me, ms, given, turn)
}

fn begin_call(
    world: &mut World,
    plan: &Plan,
    me: ClientNo,
    thread: ThreadNo,
    op: &UserOp,
    given: &mut ClientOut,
    turn: &mut Turn,
) -> Result<(), NoMemory>
    requires { HasRoomFor (begin plan.now (event.Call me thread op.now)) world.old turn.old }
    ensures { OnOk result (Leads (begin plan.now (event.Call me thread op.now)) world.old turn.old world.new turn.new) }
{
    if is_client(plan, me) {
        return calls(world, plan, me, thread, op, given, turn);
    }
    turn.ignored = Some(Ignored::NoSuchClient);
    Ok(())
}

fn begin_tick(
    world: &mut World,
    plan: &Plan,
    me: ClientNo,
    ms: u32,
    given: &mut ClientOut,
    turn: &mut Turn,
) -> Result<(), NoMemory>
    requires { HasRoomFor (begin plan.now (event.ClientTick me ms)) world.old turn.old }
    ensures { OnOk result (Leads (begin plan.now (event.ClientTick me ms)) world.old turn.old world.new turn.new) }
{
    if is_client(plan, me) {
        return moves(world, me, ms, given, turn);
    }
    turn.ignored = Some(Ignored::NoSuchClient);
    Ok(())
}

/// What an event does first.
fn begin(
    world: &mut World,
    plan: &Plan,
    event: &Event,
    given: &mut ClientOut,
    turn: &mut Turn,
) -> Result<(), NoMemory>
    requires { HasRoomFor (begin plan.now event.now) world.old turn.old }
    ensures { OnOk result (Leads (begin plan.now event.now) world.old turn.old world.new turn.new) }
{
    match event {
        Event::Call(me, thread, op) => begin_call(world, plan, *me, *thread, op, given, turn),
        Event::ClientTick(me, ms) => begin_tick(world, plan, *me, *ms, given, turn),
        Event::Deliver(_) => {
            turn.ignored = Some(Ignored::NoMessage(0));
            Ok(())
        }
        Event::Tick(_, _) | Event::Crash(_) | Event::CrashAfter(_, _, _) | Event::Start(_) => {
            turn.ignored = Some(Ignored::NoSuchMember);
            Ok(())
        }
        Event::Open => Ok(()),
    }
}

/// The next event, of which the steps of clients are given in this list. An answer makes its client ask at most once
/// more, so the queue is empty when it was handed on twice.
pub fn step(
    world: &mut World,
    plan: &Plan,
    event: &Event,
    given: &mut ClientOut,
    turn: &mut Turn,
) -> Result<(), NoMemory>
    requires { IsReached plan.now world.old }
    ensures { OnOk result ((w : Rules) → Follows w world.old → IsStep plan.now event.now w world.new turn.new) }
{
    turn.start(world.events + 1);
    begin(world, plan, event, given, turn)?;
    handed(world, plan, given, turn)?;
    handed(world, plan, given, turn)?;
    world.events += 1;
    Ok(())
}
