//! The clients of a world, by number.
ghost use Rattle.cp_base.specs.declared.limits.TheConstants.{LAST_NUMBER};
ghost use Rattle.std.specs.Prelude.{◌≡◌, ◌≤◌, ◌+◌, OnOk};
ghost use Rattle.std.specs.Ordering.{nat_cmp};
ghost use Rattle.cp_group_state.specs.Rows.{find};
ghost use Rattle.cp_client.specs.Threads.{open_number};
ghost use Rattle.cp_client_rules.specs.Clients.{thread_at};
ghost use Rattle.cp_base.specs.Identifiers.{replay_id};
ghost use Rattle.cp_client.specs.Rooms.{HasRoom};
ghost use Rattle.cp_client.specs.Steps.{Gives};
ghost use Rattle.cp_client_rules.specs.Answers.{answer_client};
ghost use Rattle.cp_client_rules.specs.Calls.{call_client};
ghost use Rattle.cp_client_rules.specs.Ticks.{tick_client};
ghost use Rattle.cp_world_rules.specs.World.{client_of, or_new};
ghost use Rattle.cp_world.specs.Given.{GivesAt};

use crate::copying::copy_of;
use cp_answers::Answer;
use cp_base::{ClientId, ClientNo, Invocation, NoMemory, ThreadNo};
use cp_client::{Client, ClientOut};
use cp_events::{Plan, UserOp};
use cp_rows::put_row;
use std::alloc::Global;
use std::collections::BTreeMap;

/// The number of a thread's open request, if it has one.
pub fn is_busy(clients: &BTreeMap<u8, Client>, me: ClientNo, thread: ThreadNo) -> Option<u64>
    ensures { result ≡ open_number (thread_at (or_new (find nat_cmp clients.now.entries me.0)) thread).number (thread_at
        (or_new (find nat_cmp clients.now.entries me.0)) thread).pending }
{
    match clients.get(&me.0) {
        Some(client) => client.is_busy(thread),
        None => None,
    }
}

/// The clock of a client.
pub fn clock_of(clients: &BTreeMap<u8, Client>, me: ClientNo) -> u64
    ensures { result ≡ (or_new (find nat_cmp clients.now.entries me.0)).clock }
{
    match clients.get(&me.0) {
        Some(client) => client.clock(),
        None => 0,
    }
}

/// The client whose request this is.
pub fn client_of(request: &Invocation) -> ClientNo
    ensures { result ≡ client_of request.now }
{
    ClientNo(request.client.number())
}

/// A thread of a client begins a call.
fn step_call(
    client: &mut Client,
    plan: &Plan,
    me: ClientNo,
    thread: ThreadNo,
    op: &UserOp,
    out: &mut ClientOut,
) -> Result<(), NoMemory>
    requires { HasRoom thread client.old }
    ensures { OnOk result (Gives (call_client plan.now (replay_id me) thread op.now client.old) client.new out.old out.new) }
{
    let op = copy_of(op)?;
    client.call(plan, ClientId::in_replay(me), thread, op, out)
}

/// A thread of the client of this number begins a call.
pub fn call_at(
    alloc: Global,
    clients: &mut BTreeMap<u8, Client>,
    plan: &Plan,
    me: ClientNo,
    thread: ThreadNo,
    op: &UserOp,
    out: &mut ClientOut,
) -> Result<(), NoMemory>
    requires { HasRoom thread (or_new (find nat_cmp clients.old.entries me.0)) }
    ensures { OnOk result (GivesAt me (call_client plan.now (replay_id me) thread op.now (or_new (find nat_cmp
        clients.old.entries me.0))) clients.old.entries clients.new.entries out.old out.new) }
{
    match clients.get_mut(&me.0) {
        Some(client) => step_call(client, plan, me, thread, op, out),
        None => {
            let mut client = Client::new(alloc);
            step_call(&mut client, plan, me, thread, op, out)?;
            put_row(clients, me.0, client)
        }
    }
}

/// An answer comes to a client.
fn step_answer(
    client: &mut Client,
    plan: &Plan,
    me: ClientNo,
    request: &Invocation,
    answer: Answer,
    out: &mut ClientOut,
) -> Result<(), NoMemory>
    requires { HasRoom request.now.thread client.old }
    ensures { OnOk result (Gives (answer_client plan.now (replay_id me) request.now answer client.old) client.new out.old out.new) }
{
    client.answer(plan, ClientId::in_replay(me), request, answer, out)
}

/// An answer comes to the client of this number.
pub fn answer_at(
    alloc: Global,
    clients: &mut BTreeMap<u8, Client>,
    plan: &Plan,
    me: ClientNo,
    request: &Invocation,
    answer: Answer,
    out: &mut ClientOut,
) -> Result<(), NoMemory>
    requires { HasRoom request.now.thread (or_new (find nat_cmp clients.old.entries me.0)) }
    ensures { OnOk result (GivesAt me (answer_client plan.now (replay_id me) request.now answer (or_new (find nat_cmp
        clients.old.entries me.0))) clients.old.entries clients.new.entries out.old out.new) }
{
    match clients.get_mut(&me.0) {
        Some(client) => step_answer(client, plan, me, request, answer, out),
        None => {
            let mut client = Client::new(alloc);
            step_answer(&mut client, plan, me, request, answer, out)?;
            put_row(clients, me.0, client)
        }
    }
}

/// The clock of a client moves.
fn step_tick(
    client: &mut Client,
    me: ClientNo,
    ms: u32,
    out: &mut ClientOut,
) -> Result<(), NoMemory>
    requires { client.old.clock + ms ≤ LAST_NUMBER }
    ensures { OnOk result (Gives (tick_client (replay_id me) ms client.old) client.new out.old out.new) }
{
    client.tick(ClientId::in_replay(me), ms, out)
}

/// The clock of the client of this number moves.
pub fn tick_at(
    alloc: Global,
    clients: &mut BTreeMap<u8, Client>,
    me: ClientNo,
    ms: u32,
    out: &mut ClientOut,
) -> Result<(), NoMemory>
    requires { (or_new (find nat_cmp clients.old.entries me.0)).clock + ms ≤ LAST_NUMBER }
    ensures { OnOk result (GivesAt me (tick_client (replay_id me) ms (or_new (find nat_cmp clients.old.entries me.0)))
        clients.old.entries clients.new.entries out.old out.new) }
{
    match clients.get_mut(&me.0) {
        Some(client) => step_tick(client, me, ms, out),
        None => {
            let mut client = Client::new(alloc);
            step_tick(&mut client, me, ms, out)?;
            put_row(clients, me.0, client)
        }
    }
}
