//! What is remembered of a call.
ghost use Rattle.std.specs.Prelude.{◌≡◌, ℕ, Some, IfOk};
ghost use Rattle.cp_ops.specs.declared.op.Op.{Op};
ghost use Rattle.cp_group_state.specs.Rows.{find, holder_cmp};
ghost use Rattle.cp_group_state.specs.GroupState.{GroupState};
ghost use Rattle.cp_group_state.specs.Apply.{by_memory};
ghost use Rattle.cp_group_tables.specs.Recalls.{recalled};

use cp_base::{Invocation, NoMemory};
use cp_group_state::MemoryRow;
use cp_ops::Answer;
use cp_remembered::Memory;

/// What is remembered of a call.
#[derive(Drop)]
pub enum Recall {
    /// Nothing: the thread's calls so far have lower numbers.
    New,
    /// It is the thread's last call, with this answer, or none while it waits.
    Again(Option<Answer>),
    /// The thread has made a later call, with this number.
    Late(u64),
}

fn copy_of(answer: &Option<Answer>) -> Result<Option<Answer>, NoMemory>
    ensures { IfOk result (λ copy. copy ≡ answer.now) }
{
    Ok(answer.clone()?)
}

/// What the thread's last call says of this one.
fn compare(row: &MemoryRow, call: &Invocation) -> Result<Recall, NoMemory>
    ensures { IfOk result (λ r. (index : ℕ) (o : Op) (s : GroupState) →
        by_memory index call.now o (Some row.now) s ≡ recalled r index call.now o s) }
{
    if row.number == call.number {
        return Ok(Recall::Again(copy_of(&row.answer)?));
    }
    if call.number < row.number {
        return Ok(Recall::Late(row.number));
    }
    Ok(Recall::New)
}

/// What is remembered of a call in a session.
pub fn look_back(memory: &Memory, session: u64, call: &Invocation) -> Result<Recall, NoMemory>
    ensures { IfOk result (λ r. (index : ℕ) (o : Op) (s : GroupState) →
        by_memory index call.now o (find holder_cmp memory.now (session, call.now.thread.0)) s ≡ recalled r index
        call.now o s) }
{
    match memory.find(session, call.thread) {
        Some(row) => compare(row, call),
        None => Ok(Recall::New),
    }
}
