//! Apart from `cp_ops` for the time of its check alone: what may be done to each kind of object: types, bytes and
//! texts.
#![tactic(auto)]

mod latch_op;
mod lock_op;
mod long_op;
mod map_op;
mod ref_op;
mod sem_op;

pub use latch_op::LatchOp;
pub use lock_op::LockOp;
pub use long_op::LongOp;
pub use map_op::MapOp;
pub use ref_op::RefOp;
pub use sem_op::SemOp;
