//! What the bytes of an entry do to the tables of a group.
ghost use Rattle.std.specs.Prelude.{◌≡◌, ◌++◌, ◌≤◌, OnOk, IfOk};
ghost use Rattle.cp_base.specs.declared.limits.TheConstants.{LAST_NUMBER};
ghost use Rattle.cp_ops.specs.Entries.{entry_grammar};
ghost use Rattle.cp_ops.specs.Ops.{op_grammar};
ghost use Rattle.cp_machine.specs.Machines.{AnswersFit, LookFits};
ghost use Rattle.cp_group_state.specs.Apply.{apply};
ghost use Rattle.cp_group_ranges.specs.States.{IsSound};
ghost use Rattle.cp_group_ranges.specs.Laws.{IsSoundStep};
ghost use Rattle.cp_resource.specs.Reads.{look};
ghost use Rattle.cp_resource.specs.Stepping.{looked, step, stepped};

use crate::look;
use cp_answers::Answer;
use cp_base::{Invocation, Items, NoMemory};
use cp_grammar::ReadError;
use cp_group_ranges::entries_keep_states_sound;
use cp_group_tables::GroupTables;
use cp_ops::{Entry, Op};
use std::alloc::Global;

/// Applies an entry that has a spelling. A sound state stays sound, and the answers have spellings.
fn apply_entry(
    tables: &mut GroupTables,
    index: u64,
    entry: &Entry,
    out: &mut Items<(Invocation, Answer)>,
) -> Result<(), NoMemory>
    requires index { index ≤ LAST_NUMBER }
    requires fits { entry_grammar.Fits entry.now }
    requires sound { IsSound tables.old }
    ensures view { OnOk result (tables.new ≡ (apply index entry.now tables.old).state) }
    ensures answers { OnOk result (out.new ≡ out.old ++ (apply index entry.now tables.old).answers) }
    ensures step { OnOk result (IsSoundStep (apply index entry.now tables.old)) }
{
    entries_keep_states_sound();
    tables.apply_entry(index, entry, out)
}

/// Applies the entry that the bytes spell, if they spell one.
#[tactic(auto, using(crate::proofs::Entries::read_step, crate::proofs::Entries::no_step, crate::proofs::Entries::fit_step, crate::proofs::Entries::sound_step, crate::proofs::Entries::no_answers_fit))]
pub(crate) fn apply_bytes(
    alloc: Global,
    tables: &mut GroupTables,
    index: u64,
    bytes: &[u8],
    out: &mut Items<(Invocation, Answer)>,
) -> Result<(), NoMemory>
    requires index { index ≤ LAST_NUMBER }
    requires sound { IsSound tables.old }
    ensures view { OnOk result (tables.new ≡ (step tables.old index bytes.now).view) }
    ensures answers { OnOk result (out.new ≡ out.old ++ (step tables.old index bytes.now).answers) }
    ensures fit { OnOk result (AnswersFit (step tables.old index bytes.now).answers) }
    ensures sound { OnOk result (IsSound tables.new) }
{
    match Entry::read(alloc, bytes) {
        Ok(entry) => apply_entry(tables, index, &entry, out),
        Err(ReadError::NotInGrammar(_place)) => Ok(()),
        Err(ReadError::NoMemory) => Err(NoMemory),
    }
}

/// What a read that has a spelling is answered without an entry.
#[tactic(auto, using(crate::proofs::Looks::look_fits))]
fn look_at_op(tables: &GroupTables, op: &Op) -> Result<Option<Answer>, NoMemory>
    requires fits { op_grammar.Fits op.now }
    requires sound { IsSound tables.now }
    ensures answer { IfOk result (λ answer. answer ≡ look op.now tables.now) }
    ensures fit { IfOk result (λ answer. LookFits answer) }
{
    look(tables, op)
}

/// What a read of these bytes is answered without an entry. The answer has a spelling.
pub(crate) fn look_at(
    alloc: Global,
    tables: &GroupTables,
    bytes: &[u8],
) -> Result<Option<Answer>, NoMemory>
    requires { IsSound tables.now }
    ensures answer { IfOk result (λ answer. answer ≡ looked tables.now bytes.now) }
    ensures fit { IfOk result (λ answer. LookFits answer) }
{
    match Op::read(alloc, bytes) {
        Ok(op) => look_at_op(tables, &op),
        Err(ReadError::NotInGrammar(_place)) => Ok(None),
        Err(ReadError::NoMemory) => Err(NoMemory),
    }
}
