//! An answer ends a request: its call goes on, or returns.
ghost use Rattle.std.specs.Prelude.{◌≡◌, ◌++◌, true, IfSome, OnOk};
ghost use Rattle.cp_client_rules.specs.Clients.{idle, thread_at};
ghost use Rattle.cp_client_rules.specs.Sessions.{opens, with_session};
ghost use Rattle.cp_client_rules.specs.Answers.{answer_client};
ghost use Rattle.cp_client.specs.Calling.{call_of};
ghost use Rattle.cp_client.specs.Rooms.{HasRoom};
ghost use Rattle.cp_client.specs.Steps.{Gives};
ghost use Rattle.cp_client.specs.Threads.{is_open};
ghost use Rattle.cp_client.specs.Nexts.{ended, next_of, prepared_by, prepared_with, tasked};

use crate::call::Call;
use crate::client::Client;
use crate::output::ClientOut;
use crate::{going, holds, sessions, threads};
use cp_answers::Answer;
use cp_base::{ClientId, GroupId, Invocation, NoMemory, ThreadNo};
use cp_client_rules::{OwnSession, Pending, Purpose, Task};
use cp_events::{Ending, Opened, Plan, Return};
use cp_rows::put_row;

/// What an answer lets a call do.
#[derive(Clone, Copy)]
pub enum Next {
    /// It goes on with this session.
    WithSession(u64),
    /// It goes on with this round.
    WithRound(u64),
    /// It ends.
    Ends,
}

fn next_of(purpose: Purpose, answer: &Answer) -> Next
    ensures { result ≡ next_of purpose answer.now }
{
    match purpose {
        Purpose::ForSession => match answer {
            Answer::Session(session) => Next::WithSession(*session),
            _ => Next::Ends,
        },
        Purpose::ForRound => match answer {
            Answer::Value(round) => Next::WithRound(round.unsigned_abs()),
            _ => Next::Ends,
        },
        Purpose::ForItself(_) => Next::Ends,
    }
}

/// The session becomes the client's, unless it is already.
fn note_session(
    client: &mut Client,
    group: GroupId,
    session: u64,
    out: &mut ClientOut,
) -> Result<(), NoMemory>
    ensures client { OnOk result (client.new ≡ with_session group session client.old) }
    ensures opened { OnOk result (out.new ≡ record out.old { opened = out.old.opened ++ opens group session client.old }) }
{
    if sessions::is_session(&client.sessions, group, session) {
        return Ok(());
    }
    let own = OwnSession {
        id: session,
        beat: client.clock,
    };
    put_row(&mut client.sessions, group.0, own)?;
    out.opened.push(Opened { group, session })
}

/// The session that a call waits for lets it go on.
#[tactic(auto, using(crate::proofs::Over::session_room, crate::proofs::Over::opened_gives))]
fn go_on_in(
    client: &mut Client,
    plan: &Plan,
    me: ClientId,
    call: Call,
    session: u64,
    out: &mut ClientOut,
) -> Result<(), NoMemory>
    requires { HasRoom call.thread client.old }
    ensures { OnOk result (Gives (prepared_with plan.now me (call_of call) session client.old) client.new out.old out.new) }
{
    note_session(client, call.group, session, out)?;
    going::go_on(client, plan, me, call, out)
}

/// The last answer of a call whose request is over: it returns.
#[tactic(auto, using(crate::proofs::Steps::same))]
fn finish(
    client: &mut Client,
    number: u64,
    call: Call,
    purpose: Purpose,
    answer: Answer,
    out: &mut ClientOut,
) -> Result<(), NoMemory>
    requires { HasRoom call.thread client.old }
    ensures { OnOk result (Gives (ended number (call_of call) purpose answer client.old) client.new out.old out.new) }
{
    sessions::after(&mut client.sessions, call.group, &call.op, purpose, &answer);
    let last = holds::holding(&mut client.holds, &call, purpose, answer)?;
    out.returns.push(Return {
        thread: call.thread,
        number,
        ending: Ending::Answered(last),
    })
}

/// An answer to a call whose request is over.
fn prepared(
    client: &mut Client,
    plan: &Plan,
    me: ClientId,
    number: u64,
    call: Call,
    purpose: Purpose,
    answer: Answer,
    out: &mut ClientOut,
) -> Result<(), NoMemory>
    requires { HasRoom call.thread client.old }
    ensures { OnOk result (Gives (prepared_by plan.now me (next_of purpose answer) number (call_of call) purpose answer
        client.old) client.new out.old out.new) }
{
    match next_of(purpose, &answer) {
        Next::WithSession(session) => go_on_in(client, plan, me, call, session, out),
        Next::WithRound(round) => going::ask_itself(client, plan, me, call, 0, round, out),
        Next::Ends => finish(client, number, call, purpose, answer, out),
    }
}

/// An answer to a request that is over.
#[tactic(auto, using(crate::proofs::Steps::same))]
fn on_task(
    client: &mut Client,
    plan: &Plan,
    me: ClientId,
    request: &Invocation,
    now: Pending,
    answer: Answer,
    out: &mut ClientOut,
) -> Result<(), NoMemory>
    requires { HasRoom request.now.thread client.old }
    ensures { OnOk result (Gives (tasked plan.now me request.now now.task now answer client.old) client.new out.old out.new) }
{
    let Pending {
        group,
        task,
        purpose,
        deadline,
    } = now;
    match task {
        Task::Calls(op) => {
            let call = Call {
                thread: request.thread,
                group,
                op,
                deadline,
            };
            prepared(client, plan, me, request.number, call, purpose, answer, out)
        }
        Task::Beats(_) => {
            sessions::forget_by(&mut client.sessions, group, &answer);
            Ok(())
        }
    }
}

/// Ends the open request of a thread.
fn take_request(client: &mut Client, thread: ThreadNo) -> Option<Pending>
    ensures pending { result ≡ (thread_at client.old thread).pending }
    ensures idle { IfSome result (λ now. client.new ≡ idle thread client.old) }
{
    threads::take_pending(&mut client.threads, thread)
}

/// Whether this request is open.
fn is_open(client: &Client, request: &Invocation) -> bool
    ensures { result ≡ is_open request.now (thread_at client.now request.now.thread) }
{
    threads::is_open(&client.threads, request)
}

/// An answer to an open request ends it.
#[tactic(auto, using(crate::proofs::Over::open_none, crate::proofs::Over::idle_room))]
fn answer_open(
    client: &mut Client,
    plan: &Plan,
    me: ClientId,
    request: &Invocation,
    answer: Answer,
    out: &mut ClientOut,
) -> Result<(), NoMemory>
    requires open { is_open request.now (thread_at client.old request.now.thread) ≡ true }
    requires room { HasRoom request.now.thread client.old }
    ensures { OnOk result (Gives (answer_client plan.now me request.now answer client.old) client.new out.old out.new) }
{
    match take_request(client, request.thread) {
        Some(now) => on_task(client, plan, me, request, now, answer, out),
        None => unreachable!(),
    }
}

/// An answer to the open request of its thread ends that request. Other answers are dropped.
#[tactic(auto, using(crate::proofs::Over::dropped_gives))]
pub fn answer(
    client: &mut Client,
    plan: &Plan,
    me: ClientId,
    request: &Invocation,
    answer: Answer,
    out: &mut ClientOut,
) -> Result<(), NoMemory>
    requires { HasRoom request.now.thread client.old }
    ensures { OnOk result (Gives (answer_client plan.now me request.now answer client.old) client.new out.old out.new) }
{
    if is_open(client, request) {
        answer_open(client, plan, me, request, answer, out)
    } else {
        Ok(())
    }
}
