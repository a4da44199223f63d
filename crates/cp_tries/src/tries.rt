//! What a client knows of members and groups, and how it tries a request: the lower layer of a client.
ghost use Rattle.cp_base.specs.declared.limits.TheConstants.{LAST_NUMBER};
ghost use Rattle.std.specs.Ordering.{nat_cmp};
ghost use Rattle.std.specs.Prelude.{◌≡◌, ◌<◌, ◌++◌, ◌&&◌, not, is_some, nat_lt, Some, None, OnOk};
ghost use Rattle.cp_group_state.specs.Rows.{find};
ghost use Rattle.cp_try_rules.specs.Tries.{begin_request, first_target, may_try, next_member, no_tries, pause, restart_of, says_to, target_of, told, tried_at, try_request, try_to, turned, with_target, with_tried};
ghost use Rattle.cp_try_rules.specs.Welcomes.{rises, with_restart};
ghost use Rattle.cp_try_rules.specs.declared.event.Says.TheVariants as says;

use cp_answers::Answer;
use cp_base::limits::LAST_NUMBER;
use cp_base::{GroupId, Items, NoMemory, ThreadNo};
use cp_rows::put_row;
use cp_try_rules::{Asked, Says, Sent, Tried, Try};
use std::alloc::Global;
use std::collections::BTreeMap;
use std::marker::Model;

/// What a client keeps of its tries, which contracts see as the definitions' tries.
#[derive(Drop)]
pub struct Tries {
    /// The greatest restart number that each member has told.
    restarts: BTreeMap<u8, u64>,
    /// The member to which requests of a group go; member 1 where there is no row.
    targets: BTreeMap<u64, u8>,
    threads: BTreeMap<u8, Tried>,
}

impl Model for Tries {
    ghost use Rattle.cp_try_rules.specs.Tries as rules;

    ghost Value = { rules.Tries };

    ghost view = { λ t. record { restarts = t.restarts.entries; targets = t.targets.entries; threads = t.threads.entries } };
}

impl Tries {
    /// Nothing was tried.
    pub fn new(alloc: Global) -> Tries
        ensures { result ≡ no_tries }
    {
        Tries {
            restarts: BTreeMap::new(alloc),
            targets: BTreeMap::new(alloc),
            threads: BTreeMap::new(alloc),
        }
    }

    /// The tries of a thread.
    pub fn of(&self, thread: ThreadNo) -> Tried
        ensures { result ≡ tried_at self.now thread }
    {
        match self.threads.get(&thread.0) {
            Some(row) => *row,
            None => Tried {
                attempt: 0,
                last: None,
                paused: None,
            },
        }
    }

    /// Writes the tries of a thread.
    pub fn write(&mut self, thread: ThreadNo, row: Tried) -> Result<(), NoMemory>
        ensures { OnOk result (self.new ≡ with_tried self.old thread row) }
    {
        put_row(&mut self.threads, thread.0, row)
    }

    /// The restart number of a member, if it is known.
    pub fn restart_of(&self, member: u8) -> Option<u64>
        ensures { result ≡ restart_of self.now member }
    {
        self.restarts.get(&member).copied()
    }

    /// The member to which requests of a group go.
    pub fn target_of(&self, group: GroupId) -> u8
        ensures { result ≡ target_of self.now group }
    {
        match self.targets.get(&group.0) {
            Some(member) => *member,
            None => 1,
        }
    }

    /// Requests of a group go to this member.
    pub fn aim(&mut self, group: GroupId, member: u8) -> Result<(), NoMemory>
        ensures { OnOk result (self.new ≡ with_target group member self.old) }
    {
        put_row(&mut self.targets, group.0, member)
    }

    /// Requests of a group go to the next member, of so many.
    pub fn turn(&mut self, members: u8, group: GroupId) -> Result<(), NoMemory>
        ensures { OnOk result (self.new ≡ turned members group self.old) }
    {
        let next = next_member(members, self.target_of(group));
        self.aim(group, next)
    }

    /// The request of a thread waits before it is tried again.
    pub fn pause(&mut self, clock: u64, thread: ThreadNo) -> Result<(), NoMemory>
        ensures { OnOk result (self.new ≡ pause clock thread self.old) }
    {
        let row = self.of(thread);
        self.write(
            thread,
            Tried {
                attempt: row.attempt,
                last: row.last,
                paused: Some(clock),
            },
        )
    }

    /// Whether the thread's next attempt has a number.
    pub fn may_try(&self, thread: ThreadNo) -> bool
        ensures { result ≡ may_try thread self.now }
    {
        self.of(thread).attempt < LAST_NUMBER
    }

    /// Whether the number is greater than the one known of the member.
    pub fn rises(&self, member: u8, restart: u64) -> bool
        ensures { result ≡ rises member restart self.now }
    {
        match self.restarts.get(&member) {
            Some(known) => *known < restart,
            None => true,
        }
    }

    /// The member told this restart number.
    pub fn know(&mut self, member: u8, restart: u64) -> Result<(), NoMemory>
        ensures { OnOk result (self.new ≡ with_restart member restart self.old) }
    {
        put_row(&mut self.restarts, member, restart)
    }

    /// What an answer tells of a group: its first member, where the group has no target yet.
    pub fn learn(&mut self, answer: &Answer) -> Result<(), NoMemory>
        ensures { OnOk result (self.new ≡ told answer.now self.old) }
    {
        match answer {
            Answer::Group(group, members) => self.aim_first(*group, members.as_slice()),
            _ => Ok(()),
        }
    }

    /// Whether a group has no target yet. Groups 0 and 1 have theirs from the beginning.
    fn lacks_target(&self, group: GroupId) -> bool
        ensures { result ≡ (nat_lt 1 group.0 && not (is_some (find nat_cmp self.now.targets group.0))) }
    {
        group.0 > 1 && !self.targets.contains_key(&group.0)
    }

    fn aim_first(&mut self, group: GroupId, members: &[u8]) -> Result<(), NoMemory>
        ensures { OnOk result (self.new ≡ first_target group members.now self.old) }
    {
        match members {
            [first, ..] => if self.lacks_target(group) {
                self.aim(group, *first)
            } else {
                Ok(())
            },
            [] => Ok(()),
        }
    }
}

/// The member after this one, of so many.
fn next_member(members: u8, member: u8) -> u8
    ensures { result ≡ next_member members member }
{
    if member < members { member + 1 } else { 1 }
}

/// A member is asked for its restart number.
pub fn say_hello(member: u8, sent: &mut Items<Sent>) -> Result<(), NoMemory>
    ensures { OnOk result (sent.new ≡ sent.old ++ says_to member says.Hello) }
{
    sent.push(Sent {
        to: member,
        says: Says::Hello,
    })
}

/// A try of a request asks the member for its restart number.
fn try_hello(
    tries: &mut Tries,
    clock: u64,
    asked: &Asked,
    member: u8,
    sent: &mut Items<Sent>,
) -> Result<(), NoMemory>
    ensures tries { OnOk result (tries.new ≡ (try_to clock asked.now member None tries.old).tries) }
    ensures sent { OnOk result (sent.new ≡ sent.old ++ (try_to clock asked.now member None tries.old).sent) }
{
    let row = tries.of(asked.call.thread);
    tries.write(
        asked.call.thread,
        Tried {
            attempt: row.attempt,
            last: Some(Try::Hello(member, clock)),
            paused: None,
        },
    )?;
    say_hello(member, sent)
}

/// A try of a request asks a start of the member.
fn try_attempt(
    tries: &mut Tries,
    clock: u64,
    asked: Asked,
    member: u8,
    restart: u64,
    sent: &mut Items<Sent>,
) -> Result<(), NoMemory>
    requires { (tried_at tries.old asked.call.thread).attempt < LAST_NUMBER }
    ensures tries { OnOk result (tries.new ≡ (try_to clock asked member (Some restart) tries.old).tries) }
    ensures sent { OnOk result (sent.new ≡ sent.old ++ (try_to clock asked member (Some restart) tries.old).sent) }
{
    let thread = asked.call.thread;
    let attempt = tries.of(thread).attempt + 1;
    tries.write(
        thread,
        Tried {
            attempt,
            last: Some(Try::Attempt(member, restart, clock)),
            paused: None,
        },
    )?;
    sent.push(Sent {
        to: member,
        says: Says::Asks(attempt, restart, asked),
    })
}

/// A try of a request goes to the target of its group.
pub fn try_request(
    tries: &mut Tries,
    clock: u64,
    asked: Asked,
    sent: &mut Items<Sent>,
) -> Result<(), NoMemory>
    ensures tries { OnOk result (tries.new ≡ (try_request clock asked tries.old).tries) }
    ensures sent { OnOk result (sent.new ≡ sent.old ++ (try_request clock asked tries.old).sent) }
{
    if !tries.may_try(asked.call.thread) {
        return Ok(());
    }
    let target = tries.target_of(asked.group);
    match tries.restart_of(target) {
        None => try_hello(tries, clock, &asked, target, sent),
        Some(restart) => try_attempt(tries, clock, asked, target, restart, sent),
    }
}

/// A request begins, and is tried.
pub fn begin_request(
    tries: &mut Tries,
    clock: u64,
    asked: Asked,
    sent: &mut Items<Sent>,
) -> Result<(), NoMemory>
    ensures tries { OnOk result (tries.new ≡ (begin_request clock asked tries.old).tries) }
    ensures sent { OnOk result (sent.new ≡ sent.old ++ (begin_request clock asked tries.old).sent) }
{
    let thread = asked.call.thread;
    let row = tries.of(thread);
    tries.write(
        thread,
        Tried {
            attempt: row.attempt,
            last: None,
            paused: None,
        },
    )?;
    try_request(tries, clock, asked, sent)
}
