//! A call becomes requests.
ghost use Rattle.cp_base.specs.declared.limits.TheConstants.{LAST_NUMBER};
ghost use Rattle.std.specs.Prelude.{◌≡◌, ◌≤◌, ◌<◌, ◌+◌, IfOk, OnOk};
ghost use Rattle.cp_client_rules.specs.Clients.{ask, done_at_once, session_in_group, thread_at};
ghost use Rattle.cp_client_rules.specs.Calls.{ask_itself, by_need, call_client, closing, deadline_of, go_on, holding_session, in_session, pending_of};
ghost use Rattle.cp_client.specs.Calling.{call_of, need_is};
ghost use Rattle.cp_client.specs.Rooms.{HasRoom};
ghost use Rattle.cp_client.specs.Steps.{Gives};

use crate::asking::{Need, group_of, need_of, op_of, wish_of};
use crate::call::{Call, pending_of};
use crate::client::Client;
use crate::holds::{key_of, record_of};
use crate::output::{Asked, ClientOut};
use crate::{sessions, threads};
use cp_answers::Answer;
use cp_base::{ClientId, Invocation, Name, NoMemory, ThreadNo};
use cp_client_rules::{Pending, Purpose, Thread};
use cp_events::{Ending, Plan, Return, UserOp};
use cp_ops::{LatchOp, Op, SessionOp};

/// A call ends without an answer this long after it would have waited, in milliseconds.
const PATIENCE: u64 = 60_000;

fn deadline_of(clock: u64, wish: Option<u32>) -> Option<u64>
    requires { clock ≤ LAST_NUMBER }
    ensures { result ≡ deadline_of clock wish }
{
    match wish {
        None => None,
        Some(ms) => Some(clock + PATIENCE + u64::from(ms)),
    }
}

/// The number that the thread's next request takes.
fn next_number(client: &Client, thread: ThreadNo) -> u64
    requires { (thread_at client.now thread).number < LAST_NUMBER }
    ensures { result ≡ (thread_at client.now thread).number + 1 }
{
    threads::number_of(&client.threads, thread) + 1
}

/// The thread's next request begins.
#[tactic(auto, using(crate::proofs::Steps::same))]
pub fn ask(
    client: &mut Client,
    me: ClientId,
    thread: ThreadNo,
    now: Pending,
    op: Op,
    out: &mut ClientOut,
) -> Result<(), NoMemory>
    requires { (thread_at client.old thread).number < LAST_NUMBER }
    ensures { OnOk result (Gives (ask me thread now op client.old) client.new out.old out.new) }
{
    let number = next_number(client, thread);
    let group = now.group;
    let row = Thread {
        number,
        pending: Some(now),
    };
    threads::write(&mut client.threads, thread, row)?;
    let call = Invocation {
        client: me,
        thread,
        number,
    };
    out.asked.push(Asked { group, call, op })
}

/// A call that is done without a request takes a number too.
#[tactic(auto, using(crate::proofs::Steps::same))]
fn done_at_once(client: &mut Client, thread: ThreadNo, out: &mut ClientOut) -> Result<(), NoMemory>
    requires { (thread_at client.old thread).number < LAST_NUMBER }
    ensures { OnOk result (Gives (done_at_once thread client.old) client.new out.old out.new) }
{
    let number = next_number(client, thread);
    let row = Thread {
        number,
        pending: None,
    };
    threads::write(&mut client.threads, thread, row)?;
    out.returns.push(Return {
        thread,
        number,
        ending: Ending::Answered(Answer::Ok),
    })
}

/// A request of a call begins.
fn ask_for(
    client: &mut Client,
    me: ClientId,
    call: Call,
    purpose: Purpose,
    op: Op,
    out: &mut ClientOut,
) -> Result<(), NoMemory>
    requires { (thread_at client.old call.thread).number < LAST_NUMBER }
    ensures { OnOk result (Gives (ask me call.thread (pending_of (call_of call) purpose) op client.old) client.new out.old out.new) }
{
    let thread = call.thread;
    ask(client, me, thread, pending_of(call, purpose), op, out)
}

/// The request for the call itself, in this session and with this round.
pub fn ask_itself(
    client: &mut Client,
    plan: &Plan,
    me: ClientId,
    call: Call,
    session: u64,
    round: u64,
    out: &mut ClientOut,
) -> Result<(), NoMemory>
    requires { (thread_at client.old call.thread).number < LAST_NUMBER }
    ensures { OnOk result (Gives (ask_itself plan.now me (call_of call) session round client.old) client.new out.old out.new) }
{
    let op = op_of(plan, &call.op, session, round)?;
    ask_for(client, me, call, Purpose::ForItself(session), op, out)
}

/// A session is opened first where there is none.
fn in_session(
    client: &mut Client,
    plan: &Plan,
    me: ClientId,
    call: Call,
    session: Option<u64>,
    out: &mut ClientOut,
) -> Result<(), NoMemory>
    requires { (thread_at client.old call.thread).number < LAST_NUMBER }
    ensures { OnOk result (Gives (in_session plan.now me (call_of call) session client.old) client.new out.old out.new) }
{
    match session {
        None => ask_for(
            client,
            me,
            call,
            Purpose::ForSession,
            Op::Session(SessionOp::Open),
            out,
        ),
        Some(session) => ask_itself(client, plan, me, call, session, 0, out),
    }
}

/// Without a session there is nothing to close.
fn closing(
    client: &mut Client,
    plan: &Plan,
    me: ClientId,
    call: Call,
    session: Option<u64>,
    out: &mut ClientOut,
) -> Result<(), NoMemory>
    requires { (thread_at client.old call.thread).number < LAST_NUMBER }
    ensures { OnOk result (Gives (closing plan.now me (call_of call) session client.old) client.new out.old out.new) }
{
    match session {
        None => done_at_once(client, call.thread, out),
        Some(session) => ask_itself(client, plan, me, call, session, 0, out),
    }
}

/// The session in which the thread holds the lock, else the client's.
fn holding_session(client: &Client, call: &Call, name: &Name) -> Result<Option<u64>, NoMemory>
    ensures { IfOk result (λ session. session ≡ holding_session (call_of call.now) name.now client.now) }
{
    let key = key_of(call.thread, call.group, name)?;
    match record_of(&client.holds, &key) {
        Some(record) => Ok(Some(record.session)),
        None => Ok(sessions::id_of(&client.sessions, call.group)),
    }
}

/// The number of the client's session in the group of a call.
fn own_session(client: &Client, call: &Call) -> Option<u64>
    ensures { result ≡ session_in_group client.now call.now.group }
{
    sessions::id_of(&client.sessions, call.group)
}

fn by_need(
    client: &mut Client,
    plan: &Plan,
    me: ClientId,
    need: Need,
    call: Call,
    out: &mut ClientOut,
) -> Result<(), NoMemory>
    requires { (thread_at client.old call.thread).number < LAST_NUMBER }
    ensures { OnOk result (Gives (by_need plan.now me (need_is need) (call_of call) client.old) client.new out.old out.new) }
{
    match need {
        Need::Nothing => ask_itself(client, plan, me, call, 0, 0, out),
        Need::HoldingSession(name) => {
            let session = holding_session(client, &call, &name)?;
            in_session(client, plan, me, call, session, out)
        }
        Need::ItsSession => {
            let session = own_session(client, &call);
            in_session(client, plan, me, call, session, out)
        }
        Need::SessionToClose => {
            let session = own_session(client, &call);
            closing(client, plan, me, call, session, out)
        }
        Need::Round(name) => ask_for(
            client,
            me,
            call,
            Purpose::ForRound,
            Op::Latch(name, LatchOp::Round),
            out,
        ),
    }
}

/// The first request of a call, or the next one once it has what it needs.
pub fn go_on(
    client: &mut Client,
    plan: &Plan,
    me: ClientId,
    call: Call,
    out: &mut ClientOut,
) -> Result<(), NoMemory>
    requires { (thread_at client.old call.thread).number < LAST_NUMBER }
    ensures { OnOk result (Gives (go_on plan.now me (call_of call) client.old) client.new out.old out.new) }
{
    let need = need_of(&call.op)?;
    by_need(client, plan, me, need, call, out)
}

/// A call begins.
pub fn begin(
    client: &mut Client,
    plan: &Plan,
    me: ClientId,
    thread: ThreadNo,
    op: UserOp,
    out: &mut ClientOut,
) -> Result<(), NoMemory>
    requires { HasRoom thread client.old }
    ensures { OnOk result (Gives (call_client plan.now me thread op client.old) client.new out.old out.new) }
{
    let call = Call {
        thread,
        group: group_of(&op),
        deadline: deadline_of(client.clock, wish_of(&op)),
        op,
    };
    go_on(client, plan, me, call, out)
}
