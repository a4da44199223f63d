//! Copies of operations.
ghost use Rattle.std.specs.Prelude.{◌≡◌, IfOk};

use cp_base::{Name, NoMemory};
use cp_events::{GroupCall, Object, RefCall, UserOp};
use cp_object_ops::MapOp;

fn object_of(object: &Object) -> Result<Object, NoMemory>
    ensures { IfOk result (λ copy. copy ≡ object.now) }
{
    Ok(object.clone()?)
}

fn ref_call_of(call: &RefCall) -> Result<RefCall, NoMemory>
    ensures { IfOk result (λ copy. copy ≡ call.now) }
{
    Ok(call.clone()?)
}

fn group_call_of(call: &GroupCall) -> Result<GroupCall, NoMemory>
    ensures { IfOk result (λ copy. copy ≡ call.now) }
{
    Ok(call.clone()?)
}

fn map_op_of(op: &MapOp) -> Result<MapOp, NoMemory>
    ensures { IfOk result (λ copy. copy ≡ op.now) }
{
    Ok(op.clone()?)
}

fn name_of(name: &Option<Name>) -> Result<Option<Name>, NoMemory>
    ensures { IfOk result (λ copy. copy ≡ name.now) }
{
    match name {
        Some(name) => Ok(Some(name.clone()?)),
        None => Ok(None),
    }
}

/// A copy of an operation.
pub fn copy_of(op: &UserOp) -> Result<UserOp, NoMemory>
    ensures { IfOk result (λ copy. copy ≡ op.now) }
{
    match op {
        UserOp::Long(object, call) => Ok(UserOp::Long(object_of(object)?, *call)),
        UserOp::Ref(object, call) => Ok(UserOp::Ref(object_of(object)?, ref_call_of(call)?)),
        UserOp::Lock(object, call) => Ok(UserOp::Lock(object_of(object)?, *call)),
        UserOp::Sem(object, call) => Ok(UserOp::Sem(object_of(object)?, *call)),
        UserOp::Jsem(object, call) => Ok(UserOp::Jsem(object_of(object)?, *call)),
        UserOp::Latch(object, call) => Ok(UserOp::Latch(object_of(object)?, *call)),
        UserOp::Map(object, call) => Ok(UserOp::Map(object_of(object)?, map_op_of(call)?)),
        UserOp::Destroy(kind, object) => Ok(UserOp::Destroy(*kind, object_of(object)?)),
        UserOp::CloseSession(name) => Ok(UserOp::CloseSession(name_of(name)?)),
        UserOp::Group(call) => Ok(UserOp::Group(group_call_of(call)?)),
        UserOp::Member(op) => Ok(UserOp::Member(op.clone()?)),
        UserOp::Change(op) => Ok(UserOp::Change(op.clone()?)),
    }
}
