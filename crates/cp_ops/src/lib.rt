//! Operations and entries, with the types of their parts, and with answers and refusals.
#![tactic(auto)]

mod change_op;
mod entry;
mod entry_values;
mod group_op;
mod member_op;
mod op;
mod session_op;
mod sizes;

pub use change_op::ChangeOp;
pub use cp_answers::{
    Answer, Argument, EndedBy, Refusal, no_answer_begins_another, no_refusal_begins_another,
};
pub use cp_grammar::ReadError;
pub use cp_object_ops::{LatchOp, LockOp, LongOp, MapOp, RefOp, SemOp};
pub use cp_op_values::{Kind, Wish};
pub use entry::{Entry, no_entry_begins_another};
pub use group_op::GroupOp;
pub use member_op::MemberOp;
pub use op::{Op, no_op_begins_another};
pub use session_op::SessionOp;
pub use sizes::{entries_are_short, older_entries_are_short};
