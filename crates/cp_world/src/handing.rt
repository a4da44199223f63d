//! Answers are handed on to their clients.
ghost use Rattle.std.specs.Prelude.{◌≡◌, [], OnOk};
ghost use Rattle.cp_world_rules.specs.World.{hand_all, hand_on, handed};
ghost use Rattle.cp_world.specs.Following.{Leads};
ghost use Rattle.cp_world.specs.Rooms.{HasRoomFor};
ghost use Rattle.cp_world.specs.Steps.{hand_to};

use crate::clients::{answer_at, client_of};
use crate::committing::does;
use crate::reusing::take_backwards;
use crate::turn::Turn;
use crate::world::World;
use cp_answers::Answer;
use cp_base::{ClientNo, Invocation, Items, NoMemory};
use cp_client::ClientOut;
use cp_events::Plan;
use std::alloc::Global;
use std::mem;

/// An answer is handed to this client.
fn hand_to(
    world: &mut World,
    plan: &Plan,
    me: ClientNo,
    request: &Invocation,
    answer: Answer,
    given: &mut ClientOut,
    turn: &mut Turn,
) -> Result<(), NoMemory>
    requires { HasRoomFor (hand_to plan.now me request.now answer) world.old turn.old }
    ensures { OnOk result (Leads (hand_to plan.now me request.now answer) world.old turn.old world.new turn.new) }
{
    given.clear();
    answer_at(
        world.alloc,
        &mut world.clients,
        plan,
        me,
        request,
        answer,
        given,
    )?;
    does(world, me, given, turn)
}

/// An answer is handed to its client.
fn hand_on(
    world: &mut World,
    plan: &Plan,
    request: Invocation,
    answer: Answer,
    given: &mut ClientOut,
    turn: &mut Turn,
) -> Result<(), NoMemory>
    requires { HasRoomFor (hand_on plan.now (request, answer)) world.old turn.old }
    ensures { OnOk result (Leads (hand_on plan.now (request, answer)) world.old turn.old world.new turn.new) }
{
    let me = client_of(&request);
    hand_to(world, plan, me, &request, answer, given, turn)
}

fn hand_all(
    world: &mut World,
    plan: &Plan,
    queue: &mut Items<(Invocation, Answer)>,
    given: &mut ClientOut,
    turn: &mut Turn,
) -> Result<(), NoMemory>
    requires { HasRoomFor (hand_all plan.now queue.old) world.old turn.old }
    ensures { OnOk result (Leads (hand_all plan.now queue.old) world.old turn.old world.new turn.new) }
{
    let mut answers = take_backwards(world.alloc, queue);
    while let Some((request, answer)) = answers.pop() {
        hand_on(world, plan, request, answer, given, turn)?;
    }
    *queue = Items::from_vec(answers);
    Ok(())
}

/// The answers that wait are taken out. The next ones come into the spare list's memory.
fn take_queue(
    alloc: Global,
    queue: &mut Items<(Invocation, Answer)>,
    spare: &mut Items<(Invocation, Answer)>,
) -> Items<(Invocation, Answer)>
    ensures taken { result ≡ queue.old }
    ensures left { queue.new ≡ [] }
{
    spare.clear();
    let next = mem::replace(spare, Items::new(alloc));
    mem::replace(queue, next)
}

/// The answers that wait are handed on in their order. Answers that come meanwhile wait behind them.
pub fn handed(
    world: &mut World,
    plan: &Plan,
    given: &mut ClientOut,
    turn: &mut Turn,
) -> Result<(), NoMemory>
    requires { HasRoomFor (handed plan.now) world.old turn.old }
    ensures { OnOk result (Leads (handed plan.now) world.old turn.old world.new turn.new) }
{
    if world.queue.is_empty() {
        return Ok(());
    }
    let mut queue = take_queue(world.alloc, &mut world.queue, &mut world.spare);
    hand_all(world, plan, &mut queue, given, turn)?;
    world.spare = queue;
    Ok(())
}
