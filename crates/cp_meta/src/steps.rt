//! What entries do.
ghost use Rattle.std.specs.Prelude.{◌≡◌, ◌++◌, ◌≤◌, IfOk, OnOk};
ghost use Rattle.cp_base.specs.declared.limits.TheConstants.{LAST_NUMBER};
ghost use Rattle.cp_ops.specs.Entries.{entry_grammar};
ghost use Rattle.cp_machine.specs.Machines.{AnswersFit};
ghost use Rattle.cp_meta_state.specs.Apply.{apply, apply_call, group_rule, member_rule};
ghost use Rattle.cp_meta_state.specs.Ranges.{IsSound};
ghost use Rattle.cp_meta_state.specs.Laws.{IsSoundStep};
ghost use Rattle.cp_meta.specs.Stepping.{step};

use crate::tables::MetaTables;
use cp_answers::Answer;
use cp_base::{Invocation, Items, NoMemory};
use cp_grammar::ReadError;
use cp_meta_state::entries_keep_states_sound;
use cp_ops::{Entry, GroupOp, MemberOp, Op};
use std::alloc::Global;

impl MetaTables {
    /// What is asked about groups.
    fn group_rule(&mut self, index: u64, op: &GroupOp) -> Result<Answer, NoMemory>
        ensures state { OnOk result (self.new ≡ (group_rule index op.now self.old).state) }
        ensures answer { IfOk result (λ answer. answer ≡ (group_rule index op.now self.old).answer) }
    {
        match op {
            GroupOp::Create(name, size) => self.create(index, name, *size),
            GroupOp::Destroy(name) => Ok(self.destroy(name)),
        }
    }

    /// What is asked about members.
    fn member_rule(&mut self, op: &MemberOp) -> Result<Answer, NoMemory>
        ensures state { OnOk result (self.new ≡ (member_rule op.now self.old).state) }
        ensures answer { IfOk result (λ answer. answer ≡ (member_rule op.now self.old).answer) }
    {
        match op {
            MemberOp::Leave(member) => self.leave(member.0),
            MemberOp::Join(member) => self.join(member.0),
        }
    }

    /// A call. What is asked of other groups does nothing here.
    fn apply_call(
        &mut self,
        index: u64,
        call: &Invocation,
        op: &Op,
        out: &mut Items<(Invocation, Answer)>,
    ) -> Result<(), NoMemory>
        ensures state { OnOk result (self.new ≡ (apply_call index call.now op.now self.old).state) }
        ensures answers { OnOk result (out.new ≡ out.old ++ (apply_call index call.now op.now self.old).answers) }
    {
        match op {
            Op::Group(op) => {
                let answer = self.group_rule(index, op)?;
                out.push((*call, answer))
            }
            Op::Member(op) => {
                let answer = self.member_rule(op)?;
                out.push((*call, answer))
            }
            Op::Long(_, _) | Op::Ref(_, _) | Op::Map(_, _) | Op::Latch(_, _) => Ok(()),
            Op::Lock(_, _) | Op::Sem(_, _) | Op::Jsem(_, _) => Ok(()),
            Op::Session(_) | Op::Destroy(_, _) | Op::Change(_) => Ok(()),
        }
    }

    /// An entry.
    pub fn apply_entry(
        &mut self,
        index: u64,
        entry: &Entry,
        out: &mut Items<(Invocation, Answer)>,
    ) -> Result<(), NoMemory>
        ensures state { OnOk result (self.new ≡ (apply index entry.now self.old).state) }
        ensures answers { OnOk result (out.new ≡ out.old ++ (apply index entry.now self.old).answers) }
    {
        match entry {
            Entry::Call(call, op) => self.apply_call(index, call, op, out),
            Entry::Destroyed(group) => self.end_group(group.0),
            Entry::Moved(group, at, members) => self.end_move(group.0, *at, members.as_slice()),
            Entry::Left(member) => self.end_leaving(member.0),
            Entry::Empty | Entry::SessionsExpired(_) | Entry::WaitsExpired(_) => Ok(()),
            Entry::Members(_, _, _) | Entry::Destroy(_) => Ok(()),
        }
    }
}

/// Applies an entry that has a spelling. A sound state stays sound, and the answers have spellings.
fn apply_sound(
    tables: &mut MetaTables,
    index: u64,
    entry: &Entry,
    out: &mut Items<(Invocation, Answer)>,
) -> Result<(), NoMemory>
    requires index { index ≤ LAST_NUMBER }
    requires fits { entry_grammar.Fits entry.now }
    requires sound { IsSound tables.old }
    ensures view { OnOk result (tables.new ≡ (apply index entry.now tables.old).state) }
    ensures answers { OnOk result (out.new ≡ out.old ++ (apply index entry.now tables.old).answers) }
    ensures step { OnOk result (IsSoundStep (apply index entry.now tables.old)) }
{
    entries_keep_states_sound();
    tables.apply_entry(index, entry, out)
}

/// Applies the entry that the bytes spell, if they spell one.
#[tactic(auto, using(crate::proofs::Entries::read_step, crate::proofs::Entries::no_step, crate::proofs::Entries::fit_step, crate::proofs::Entries::sound_step, crate::proofs::Entries::no_answers_fit))]
pub(crate) fn apply_bytes(
    alloc: Global,
    tables: &mut MetaTables,
    index: u64,
    bytes: &[u8],
    out: &mut Items<(Invocation, Answer)>,
) -> Result<(), NoMemory>
    requires index { index ≤ LAST_NUMBER }
    requires sound { IsSound tables.old }
    ensures view { OnOk result (tables.new ≡ (step tables.old index bytes.now).view) }
    ensures answers { OnOk result (out.new ≡ out.old ++ (step tables.old index bytes.now).answers) }
    ensures fit { OnOk result (AnswersFit (step tables.old index bytes.now).answers) }
    ensures sound { OnOk result (IsSound tables.new) }
{
    match Entry::read(alloc, bytes) {
        Ok(entry) => {
            apply_sound(tables, index, &entry, out)?;
            Ok(())
        }
        Err(ReadError::NotInGrammar(_place)) => Ok(()),
        Err(ReadError::NoMemory) => Err(NoMemory),
    }
}
