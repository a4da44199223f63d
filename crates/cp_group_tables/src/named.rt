//! What an operation names: its object, its session.
ghost use Rattle.std.specs.Prelude.{◌≡◌, IfOk};
ghost use Rattle.cp_group_state.specs.Protected.{session_in, session_of_lock, session_of_sem};
ghost use Rattle.cp_group_state.specs.Destroying.{names_gone, object_of};
ghost use Rattle.cp_group_state.specs.Apply.{is_elsewhere};

use crate::tables::GroupTables;
use cp_base::NoMemory;
use cp_ops::{Kind, LockOp, Op, SemOp};

fn session_of_lock(op: &LockOp) -> Option<u64>
    ensures { result ≡ session_of_lock op.now }
{
    match *op {
        LockOp::Owner => None,
        LockOp::Acquire(session, _, _) => Some(session),
        LockOp::Release(session) => Some(session),
    }
}

fn session_of_sem(op: &SemOp) -> Option<u64>
    ensures { result ≡ session_of_sem op.now }
{
    match *op {
        SemOp::Available => None,
        SemOp::Init(_) => None,
        SemOp::Acquire(session, _, _) => Some(session),
        SemOp::Release(session, _) => Some(session),
        SemOp::Drain(session) => Some(session),
        SemOp::Increase(session, _) => Some(session),
        SemOp::Reduce(session, _) => Some(session),
    }
}

/// The session that a call names.
pub(crate) fn session_in(op: &Op) -> Option<u64>
    ensures { result ≡ session_in op.now }
{
    match op {
        Op::Lock(_, op) => session_of_lock(op),
        Op::Sem(_, op) => session_of_sem(op),
        Op::Long(_, _) => None,
        Op::Ref(_, _) => None,
        Op::Map(_, _) => None,
        Op::Jsem(_, _) => None,
        Op::Latch(_, _) => None,
        Op::Session(_) => None,
        Op::Destroy(_, _) => None,
        Op::Group(_) => None,
        Op::Member(_) => None,
        Op::Change(_) => None,
    }
}

/// Whether the operation is one on groups or members.
pub(crate) fn is_elsewhere(op: &Op) -> bool
    ensures { result ≡ is_elsewhere op.now }
{
    match op {
        Op::Group(_) => true,
        Op::Member(_) => true,
        Op::Change(_) => true,
        Op::Long(_, _) => false,
        Op::Ref(_, _) => false,
        Op::Map(_, _) => false,
        Op::Lock(_, _) => false,
        Op::Sem(_, _) => false,
        Op::Jsem(_, _) => false,
        Op::Latch(_, _) => false,
        Op::Session(_) => false,
        Op::Destroy(_, _) => false,
    }
}

impl GroupTables {
    /// Whether the operation names an object that was destroyed.
    pub fn names_gone(&self, op: &Op) -> Result<bool, NoMemory>
        ensures { IfOk result (λ gone. gone ≡ names_gone self.now (object_of op.now)) }
    {
        match op {
            Op::Long(name, _) => self.gone.is_gone(Kind::Long, name),
            Op::Ref(name, _) => self.gone.is_gone(Kind::Ref, name),
            Op::Map(name, _) => self.gone.is_gone(Kind::Map, name),
            Op::Lock(name, _) => self.gone.is_gone(Kind::Lock, name),
            Op::Sem(name, _) => self.gone.is_gone(Kind::Sem, name),
            Op::Jsem(name, _) => self.gone.is_gone(Kind::Jsem, name),
            Op::Latch(name, _) => self.gone.is_gone(Kind::Latch, name),
            Op::Destroy(kind, name) => self.gone.is_gone(*kind, name),
            Op::Session(_) => Ok(false),
            Op::Group(_) => Ok(false),
            Op::Member(_) => Ok(false),
            Op::Change(_) => Ok(false),
        }
    }
}
