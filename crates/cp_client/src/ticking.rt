//! The clock of a client moves.
ghost use Rattle.std.specs.Prelude.{◌≡◌, ◌≤◌, ◌<◌, ◌+◌, IfOk, OnOk};
ghost use Rattle.std.specs.Ordering.{nat_cmp};
ghost use Rattle.cp_group_state.specs.Rows.{find};
ghost use Rattle.cp_client_rules.specs.Clients.{or_new, thread_at};
ghost use Rattle.cp_client_rules.specs.Ticks.{beat, beat_each, beat_if_due, beats, end_each, end_late, is_due, is_late, own_thread, tick_client};
ghost use Rattle.cp_client.specs.Steps.{Gives};
ghost use Rattle.cp_client.specs.Ticking.{end_calls};

use crate::client::Client;
use crate::going::ask;
use crate::output::ClientOut;
use crate::threads;
use cp_answers::{Answer, EndedBy};
use cp_base::limits::LAST_NUMBER;
use cp_base::{ClientId, GroupId, NoMemory, ThreadNo};
use cp_client_rules::{OwnSession, Pending, Purpose, Task, Thread};
use cp_events::{Ending, Return};
use cp_ops::{Op, SessionOp};
use cp_rows::put_row;
use std::collections::BTreeMap;

/// How long a session goes without a beat, in milliseconds.
const BEAT_AFTER: u64 = 5_000;

/// The client's own thread, which sends beats.
const OWN_THREAD: ThreadNo = ThreadNo(0);

/// Whether the deadline of the thread's open request is reached.
fn is_late(clock: u64, threads: &BTreeMap<u8, Thread>, thread: ThreadNo) -> bool
    ensures { result ≡ is_late clock (or_new (find nat_cmp threads.now.entries thread.0)).pending }
{
    match threads.get(&thread.0) {
        Some(row) => match &row.pending {
            Some(now) => match now.deadline {
                Some(deadline) => clock >= deadline,
                None => false,
            },
            None => false,
        },
        None => false,
    }
}

/// A call whose deadline is reached returns, and nobody knows whether it took effect.
#[tactic(auto, using(crate::proofs::Steps::same))]
fn end_late(client: &mut Client, thread: ThreadNo, out: &mut ClientOut) -> Result<(), NoMemory>
    ensures { OnOk result (Gives (end_late thread client.old) client.new out.old out.new) }
{
    if !is_late(client.clock, &client.threads, thread) {
        return Ok(());
    }
    let number = threads::number_of(&client.threads, thread);
    let row = Thread {
        number,
        pending: None,
    };
    put_row(&mut client.threads, thread.0, row)?;
    out.returns.push(Return {
        thread,
        number,
        ending: Ending::Answered(Answer::Indeterminate(EndedBy::Deadline)),
    })
}

fn end_each(client: &mut Client, threads: &[ThreadNo], out: &mut ClientOut) -> Result<(), NoMemory>
    ensures { OnOk result (Gives (end_each threads.now client.old) client.new out.old out.new) }
{
    let mut rest = threads;
    while let [thread, others @ ..] = rest {
        end_late(client, *thread, out)?;
        rest = others;
    }
    Ok(())
}

/// Whether a beat of the session is due.
fn is_due(client: &Client, own: OwnSession) -> bool
    ensures { result ≡ is_due own client.now }
{
    client.clock.saturating_sub(own.beat) >= BEAT_AFTER
        && threads::number_of(&client.threads, OWN_THREAD) < LAST_NUMBER
}

/// The beat of the session of a group.
fn beat(
    client: &mut Client,
    me: ClientId,
    group: u64,
    own: OwnSession,
    out: &mut ClientOut,
) -> Result<(), NoMemory>
    requires { (thread_at client.old own_thread).number < LAST_NUMBER }
    ensures { OnOk result (Gives (beat me group own client.old) client.new out.old out.new) }
{
    let beaten = OwnSession {
        id: own.id,
        beat: client.clock,
    };
    put_row(&mut client.sessions, group, beaten)?;
    let now = Pending {
        group: GroupId(group),
        task: Task::Beats(own.id),
        purpose: Purpose::ForItself(own.id),
        deadline: None,
    };
    ask(
        client,
        me,
        OWN_THREAD,
        now,
        Op::Session(SessionOp::Beat(own.id)),
        out,
    )
}

#[tactic(auto, using(crate::proofs::Steps::same))]
fn beat_if_due(
    client: &mut Client,
    me: ClientId,
    group: u64,
    own: OwnSession,
    out: &mut ClientOut,
) -> Result<(), NoMemory>
    ensures { OnOk result (Gives (beat_if_due me group own client.old) client.new out.old out.new) }
{
    if is_due(client, own) {
        beat(client, me, group, own, out)
    } else {
        Ok(())
    }
}

fn beat_each(
    client: &mut Client,
    me: &ClientId,
    sessions: &[(u64, OwnSession)],
    out: &mut ClientOut,
) -> Result<(), NoMemory>
    ensures { OnOk result (Gives (beat_each me.now sessions.now client.old) client.new out.old out.new) }
{
    let mut rest = sessions;
    while let [row, others @ ..] = rest {
        beat_if_due(client, *me, row.0, row.1, out)?;
        rest = others;
    }
    Ok(())
}

/// The client's sessions, by group.
fn sessions_of(client: &Client) -> Result<Vec<(u64, OwnSession)>, NoMemory>
    ensures { IfOk result (λ rows. rows.items ≡ client.now.sessions) }
{
    let mut rows = Vec::new(client.alloc);
    for (group, own) in &client.sessions {
        rows.push((*group, *own))?;
    }
    Ok(rows)
}

fn beats(client: &mut Client, me: ClientId, out: &mut ClientOut) -> Result<(), NoMemory>
    ensures { OnOk result (Gives (beats me client.old) client.new out.old out.new) }
{
    let sessions = sessions_of(client)?;
    beat_each(client, &me, &sessions, out)
}

fn move_clock(client: &mut Client, ms: u32)
    requires { client.old.clock + ms ≤ LAST_NUMBER }
    ensures { client.new ≡ record client.old { clock = client.old.clock + ms } }
{
    client.clock += u64::from(ms);
}

fn end_calls(client: &mut Client, ms: u32, out: &mut ClientOut) -> Result<(), NoMemory>
    requires { client.old.clock + ms ≤ LAST_NUMBER }
    ensures { OnOk result (Gives (end_calls ms client.old) client.new out.old out.new) }
{
    move_clock(client, ms);
    let threads = [
        ThreadNo(1),
        ThreadNo(2),
        ThreadNo(3),
        ThreadNo(4),
        ThreadNo(5),
        ThreadNo(6),
        ThreadNo(7),
        ThreadNo(8),
    ];
    end_each(client, &threads, out)
}

/// First calls end at their deadlines, thread by thread. Then the beats that are due are asked, by group.
#[tactic(auto, using(crate::proofs::Steps::then_gives, crate::proofs::Steps::same))]
pub fn tick(client: &mut Client, me: ClientId, ms: u32, out: &mut ClientOut) -> Result<(), NoMemory>
    requires { client.old.clock + ms ≤ LAST_NUMBER }
    ensures { OnOk result (Gives (tick_client me ms client.old) client.new out.old out.new) }
{
    end_calls(client, ms, out)?;
    beats(client, me, out)
}
