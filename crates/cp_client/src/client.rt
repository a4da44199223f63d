//! A client.
ghost use Rattle.std.specs.Prelude.{◌≡◌, ◌≤◌, ◌<◌, ◌+◌, IsTrue, OnOk};
ghost use Rattle.cp_client_rules.specs.Clients.{new_client, thread_at, with_thread};
ghost use Rattle.cp_client_rules.specs.Calls.{call_client};
ghost use Rattle.cp_client_rules.specs.Answers.{answer_client};
ghost use Rattle.cp_client_rules.specs.Ticks.{tick_client};
ghost use Rattle.cp_client.specs.Steps.{Gives};
ghost use Rattle.cp_client.specs.Rooms.{HasRoom};
ghost use Rattle.cp_client.specs.Threads.{open_number};

use crate::holds::LockKey;
use crate::output::ClientOut;
use crate::{answering, going, holds, threads, ticking};
use cp_answers::Answer;
use cp_base::limits::LAST_NUMBER;
use cp_base::{ClientId, Invocation, NoMemory, ThreadNo};
use cp_client_rules::{HoldRecord, OwnSession, Thread};
use cp_events::{Plan, UserOp};
use std::alloc::Global;
use std::collections::BTreeMap;
use std::marker::Model;

/// A client, which contracts see as the definitions' client. After want of memory in a step, it is only dropped.
#[derive(Drop)]
pub struct Client {
    pub(crate) alloc: Global,
    /// In milliseconds.
    pub(crate) clock: u64,
    pub(crate) threads: BTreeMap<u8, Thread>,
    /// By group.
    pub(crate) sessions: BTreeMap<u64, OwnSession>,
    /// By thread, group and name of the lock.
    pub(crate) holds: BTreeMap<LockKey, HoldRecord>,
}

impl Model for Client {
    ghost use Rattle.cp_client_rules.specs.Clients as rules;

    ghost Value = { rules.Client };

    ghost view = { λ c. record {
      clock = c.clock;
      threads = c.threads.entries;
      sessions = c.sessions.entries;
      holds = c.holds.entries;
    } };
}

impl Client {
    /// A client that has done nothing.
    pub fn new(alloc: Global) -> Client
        ensures { result ≡ new_client }
    {
        Client {
            alloc,
            clock: 0,
            threads: BTreeMap::new(alloc),
            sessions: BTreeMap::new(alloc),
            holds: BTreeMap::new(alloc),
        }
    }

    /// The clock, in milliseconds.
    pub fn clock(&self) -> u64
        ensures { result ≡ self.now.clock }
    {
        self.clock
    }

    /// The number of the thread's open request, if it has one.
    pub fn is_busy(&self, thread: ThreadNo) -> Option<u64>
        ensures { result ≡ open_number (thread_at self.now thread).number (thread_at self.now thread).pending }
    {
        threads::open_number(&self.threads, thread)
    }

    /// Whether the thread may make requests, and its calls may end: no number is near the end of its range.
    pub fn has_room(&self, thread: ThreadNo) -> bool
        ensures { IsTrue result → HasRoom thread self.now }
    {
        self.clock <= LAST_NUMBER
            && threads::number_of(&self.threads, thread) < LAST_NUMBER
            && holds::have_room(&self.holds)
    }

    /// A thread begins a call.
    pub fn call(
        &mut self,
        plan: &Plan,
        me: ClientId,
        thread: ThreadNo,
        op: UserOp,
        out: &mut ClientOut,
    ) -> Result<(), NoMemory>
        requires { HasRoom thread self.old }
        ensures { OnOk result (Gives (call_client plan.now me thread op self.old) self.new out.old out.new) }
    {
        going::begin(self, plan, me, thread, op, out)
    }

    /// An answer comes to a request. Where the request isn't open, nothing happens.
    pub fn answer(
        &mut self,
        plan: &Plan,
        me: ClientId,
        request: &Invocation,
        answer: Answer,
        out: &mut ClientOut,
    ) -> Result<(), NoMemory>
        requires { HasRoom request.now.thread self.old }
        ensures { OnOk result (Gives (answer_client plan.now me request.now answer self.old) self.new out.old out.new) }
    {
        answering::answer(self, plan, me, request, answer, out)
    }

    /// The clock moves by so many milliseconds.
    pub fn tick(&mut self, me: ClientId, ms: u32, out: &mut ClientOut) -> Result<(), NoMemory>
        requires { self.old.clock + ms ≤ LAST_NUMBER }
        ensures { OnOk result (Gives (tick_client me ms self.old) self.new out.old out.new) }
    {
        ticking::tick(self, me, ms, out)
    }
}
