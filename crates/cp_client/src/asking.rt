//! What a call asks of its group.
ghost use Rattle.std.specs.Prelude.{◌≡◌, Some, IfOk};
ghost use Rattle.cp_client_rules.specs.Asking.{group_of, group_op, latch_need, latch_op, latch_wish, limit_of, lock_need, lock_op, lock_wish, long_op, need_of, op_of, ref_op, sem_need, sem_op, sem_wish, wish_of};
ghost use Rattle.cp_client.specs.Calling.{need_is};

use cp_base::{GroupId, Items, Name, NoMemory};
use cp_events::{
    GroupCall, HoldLimit, LatchCall, LockCall, LongCall, Plan, RefCall, SemCall, UserOp,
};
use cp_ops::{GroupOp, LatchOp, LockOp, LongOp, Op, RefOp, SemOp, SessionOp, Wish};

/// What a call needs before it can be asked.
#[derive(Drop)]
pub enum Need {
    Nothing,
    /// The session in which the thread holds the lock of this name, else the client's.
    HoldingSession(Name),
    /// The client's session.
    ItsSession,
    /// The client's session, without which there is nothing to close.
    SessionToClose,
    /// The round of the latch of this name.
    Round(Name),
}

/// The group that a call goes to.
pub fn group_of(op: &UserOp) -> GroupId
    ensures { result ≡ group_of op.now }
{
    match op {
        UserOp::Group(_) | UserOp::Member(_) => GroupId(0),
        _ => GroupId(1),
    }
}

/// How often a thread may hold the lock of this name; 0 where the header says nothing of it.
fn limit_of(limits: &[HoldLimit], name: &Name) -> u32
    ensures { result ≡ limit_of limits.now name.now }
{
    let mut rest = limits;
    while let [limit, others @ ..] = rest {
        if limit.lock == *name {
            return limit.holds;
        }
        rest = others;
    }
    0
}

fn long_op(call: LongCall) -> LongOp
    ensures { result ≡ long_op call }
{
    match call {
        LongCall::Plain(op) => op,
        LongCall::Inc => LongOp::Add(1),
        LongCall::Dec => LongOp::Add(-1),
    }
}

fn ref_op(call: &RefCall) -> Result<RefOp, NoMemory>
    ensures { IfOk result (λ op. op ≡ ref_op call.now) }
{
    match call {
        RefCall::Plain(op) => Ok(op.clone()?),
        RefCall::IsNull => Ok(RefOp::Contains(None)),
        RefCall::Clear => Ok(RefOp::Set(None)),
    }
}

fn lock_op(limit: u32, call: LockCall, session: u64) -> LockOp
    ensures { result ≡ lock_op limit call session }
{
    match call {
        LockCall::Lock => LockOp::Acquire(session, limit, Wish::NoLimit),
        LockCall::Try(ms) => LockOp::Acquire(session, limit, Wish::Within(ms)),
        LockCall::Unlock => LockOp::Release(session),
        LockCall::Owner => LockOp::Owner,
    }
}

fn sem_op(call: SemCall, session: u64) -> SemOp
    ensures { result ≡ sem_op call session }
{
    match call {
        SemCall::Init(permits) => SemOp::Init(permits),
        SemCall::Acquire(permits) => SemOp::Acquire(session, permits, Wish::NoLimit),
        SemCall::Try(permits, ms) => SemOp::Acquire(session, permits, Wish::Within(ms)),
        SemCall::Release(permits) => SemOp::Release(session, permits),
        SemCall::Available => SemOp::Available,
        SemCall::Drain => SemOp::Drain(session),
        SemCall::Increase(permits) => SemOp::Increase(session, permits),
        SemCall::Reduce(permits) => SemOp::Reduce(session, permits),
    }
}

fn latch_op(call: LatchCall, round: u64) -> LatchOp
    ensures { result ≡ latch_op call round }
{
    match call {
        LatchCall::Set(count) => LatchOp::Set(count),
        LatchCall::Down => LatchOp::Down(round),
        LatchCall::Count => LatchOp::Count,
        LatchCall::Await(ms) => LatchOp::Await(ms),
    }
}

fn group_op(size: u8, call: &GroupCall) -> Result<GroupOp, NoMemory>
    ensures { IfOk result (λ op. op ≡ group_op size call.now) }
{
    match call {
        GroupCall::Create(name) => Ok(GroupOp::Create(name.clone()?, size)),
        GroupCall::Destroy(name) => Ok(GroupOp::Destroy(name.clone()?)),
    }
}

/// The operation of a call, in this session and with this round.
pub fn op_of(plan: &Plan, op: &UserOp, session: u64, round: u64) -> Result<Op, NoMemory>
    ensures { IfOk result (λ made. made ≡ op_of plan.now op.now session round) }
{
    match op {
        UserOp::Long(object, call) => Ok(Op::Long(object.name.clone()?, long_op(*call))),
        UserOp::Ref(object, call) => Ok(Op::Ref(object.name.clone()?, ref_op(call)?)),
        UserOp::Lock(object, call) => {
            let limit = limit_of(plan.limits.as_slice(), &object.name);
            Ok(Op::Lock(object.name.clone()?, lock_op(limit, *call, session)))
        }
        UserOp::Sem(object, call) => Ok(Op::Sem(object.name.clone()?, sem_op(*call, session))),
        UserOp::Jsem(object, call) => Ok(Op::Jsem(object.name.clone()?, sem_op(*call, 0))),
        UserOp::Latch(object, call) => Ok(Op::Latch(object.name.clone()?, latch_op(*call, round))),
        UserOp::Map(object, call) => Ok(Op::Map(object.name.clone()?, call.clone()?)),
        UserOp::Destroy(kind, object) => Ok(Op::Destroy(*kind, object.name.clone()?)),
        UserOp::CloseSession(_) => Ok(Op::Session(SessionOp::Close(session))),
        UserOp::Group(call) => Ok(Op::Group(group_op(plan.size, call)?)),
        UserOp::Member(op) => Ok(Op::Member(op.clone()?)),
        UserOp::Change(op) => Ok(Op::Change(op.clone()?)),
    }
}

fn lock_need(name: &Name, call: LockCall) -> Result<Need, NoMemory>
    ensures { IfOk result (λ need. need_is need ≡ lock_need name.now call) }
{
    match call {
        LockCall::Owner => Ok(Need::Nothing),
        LockCall::Lock | LockCall::Try(_) | LockCall::Unlock => {
            Ok(Need::HoldingSession(name.clone()?))
        }
    }
}

fn sem_need(call: SemCall) -> Need
    ensures { need_is result ≡ sem_need call }
{
    match call {
        SemCall::Init(_) | SemCall::Available => Need::Nothing,
        SemCall::Acquire(_)
        | SemCall::Try(_, _)
        | SemCall::Release(_)
        | SemCall::Drain
        | SemCall::Increase(_)
        | SemCall::Reduce(_) => Need::ItsSession,
    }
}

fn latch_need(name: &Name, call: LatchCall) -> Result<Need, NoMemory>
    ensures { IfOk result (λ need. need_is need ≡ latch_need name.now call) }
{
    match call {
        LatchCall::Down => Ok(Need::Round(name.clone()?)),
        LatchCall::Set(_) | LatchCall::Count | LatchCall::Await(_) => Ok(Need::Nothing),
    }
}

/// What a call needs before it can be asked.
pub fn need_of(op: &UserOp) -> Result<Need, NoMemory>
    ensures { IfOk result (λ need. need_is need ≡ need_of op.now) }
{
    match op {
        UserOp::Lock(object, call) => lock_need(&object.name, *call),
        UserOp::Sem(_, call) => Ok(sem_need(*call)),
        UserOp::Latch(object, call) => latch_need(&object.name, *call),
        UserOp::CloseSession(_) => Ok(Need::SessionToClose),
        _ => Ok(Need::Nothing),
    }
}

fn lock_wish(call: LockCall) -> Option<u32>
    ensures { result ≡ lock_wish call }
{
    match call {
        LockCall::Lock => None,
        LockCall::Try(ms) => Some(ms),
        LockCall::Unlock | LockCall::Owner => Some(0),
    }
}

fn sem_wish(call: SemCall) -> Option<u32>
    ensures { result ≡ sem_wish call }
{
    match call {
        SemCall::Acquire(_) => None,
        SemCall::Try(_, ms) => Some(ms),
        SemCall::Init(_)
        | SemCall::Release(_)
        | SemCall::Available
        | SemCall::Drain
        | SemCall::Increase(_)
        | SemCall::Reduce(_) => Some(0),
    }
}

fn latch_wish(call: LatchCall) -> Option<u32>
    ensures { result ≡ latch_wish call }
{
    match call {
        LatchCall::Await(ms) => Some(ms),
        LatchCall::Set(_) | LatchCall::Down | LatchCall::Count => Some(0),
    }
}

/// How many milliseconds a call wishes to wait, none where it waits as long as it takes.
pub fn wish_of(op: &UserOp) -> Option<u32>
    ensures { result ≡ wish_of op.now }
{
    match op {
        UserOp::Lock(_, call) => lock_wish(*call),
        UserOp::Sem(_, call) | UserOp::Jsem(_, call) => sem_wish(*call),
        UserOp::Latch(_, call) => latch_wish(*call),
        _ => Some(0),
    }
}
