//! Which requests may be sent again.
ghost use Rattle.std.specs.Prelude.{◌≡◌};
ghost use Rattle.cp_try_rules.specs.Again.{group_again, latch_again, may_again, sem_again};

use cp_ops::{GroupOp, LatchOp, Op, SemOp};

fn sem_again(op: SemOp) -> bool
    ensures { result ≡ sem_again op }
{
    match op {
        SemOp::Init(_) => false,
        _ => true,
    }
}

fn latch_again(op: LatchOp) -> bool
    ensures { result ≡ latch_again op }
{
    match op {
        LatchOp::Set(_) => false,
        _ => true,
    }
}

fn group_again(op: &GroupOp) -> bool
    ensures { result ≡ group_again op.now }
{
    match op {
        GroupOp::Create(_, _) => true,
        GroupOp::Destroy(_) => false,
    }
}

/// Whether a request may be sent again: a second entry of it changes nothing more.
pub fn may_again(op: &Op) -> bool
    ensures { result ≡ may_again op.now }
{
    match op {
        Op::Session(_) | Op::Lock(_, _) => true,
        Op::Sem(_, op) => sem_again(*op),
        Op::Latch(_, op) => latch_again(*op),
        Op::Group(op) => group_again(op),
        _ => false,
    }
}
