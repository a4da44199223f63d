//! Waits that end.
ghost use Rattle.std.specs.Prelude.{◌≡◌, ◌++◌, OnOk};
ghost use Rattle.cp_group_state.specs.Waiters.{still_waiting};
ghost use Rattle.cp_group_state.specs.Memory.{note_all};
ghost use Rattle.cp_group_state.specs.Apply.{told};
ghost use Rattle.cp_group_tables.specs.Endings.{ended_by};

use crate::ending::Ending;
use cp_base::{Invocation, Items, NoMemory};
use cp_group_state::Waiter;
use cp_ops::Answer;
use cp_remembered::Memory;
use cp_wait::Waits;

/// The rows of these waiters hold their answers, which are told.
fn note_each(
    memory: &mut Memory,
    waiters: &[Waiter],
    ending: Ending,
    out: &mut Items<(Invocation, Answer)>,
) -> Result<(), NoMemory>
    ensures memory { OnOk result (memory.new ≡ note_all memory.old (ended_by ending waiters.now)) }
    ensures told { OnOk result (out.new ≡ out.old ++ told (ended_by ending waiters.now)) }
{
    let mut rest = waiters;
    while let [waiter, after @ ..] = rest {
        memory.note(waiter, ending.answer(waiter));
        out.push((waiter.call, ending.answer(waiter)))?;
        rest = after;
    }
    Ok(())
}

/// These waiters end: they no longer wait, their rows hold their answers, which are told.
pub(crate) fn end_waits(
    waits: &mut Waits,
    memory: &mut Memory,
    waiters: &[Waiter],
    ending: Ending,
    out: &mut Items<(Invocation, Answer)>,
) -> Result<(), NoMemory>
    ensures waits { OnOk result (waits.new ≡ still_waiting (ended_by ending waiters.now) waits.old) }
    ensures memory { OnOk result (memory.new ≡ note_all memory.old (ended_by ending waiters.now)) }
    ensures told { OnOk result (out.new ≡ out.old ++ told (ended_by ending waiters.now)) }
{
    waits.end(waiters);
    note_each(memory, waiters, ending, out)
}
