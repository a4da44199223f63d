//! What a group of members applies its entries to.
ghost use Rattle.std.specs.Prelude.{◌≡◌, ◌++◌, ◌<◌, ◌≤◌, [], ℕ, List, length, Option, Some, Result, Err, OnOk, OnErr, IfOk, IfSome};
ghost use Rattle.std.specs.List.{slice_get};
ghost use Rattle.cp_base.specs.declared.identifier.GroupId.{GroupId};
ghost use Rattle.cp_base.specs.declared.limits.TheConstants.{LAST_NUMBER};
ghost use Rattle.cp_answers.specs.declared.answer.Answer.{Answer};
ghost use Rattle.cp_grammar.specs.Grammar.{whole};
ghost use Rattle.cp_ops.specs.Entries.{entry_grammar};
ghost use Rattle.cp_machine.specs.declared.timer.Timer.{Timer};
ghost use Rattle.cp_machine.specs.Machines.{Stepped, AnswersFit, IsSized, LookFits, TimerFits, Restores};

use crate::timer::Timer;
use cp_answers::Answer;
use cp_base::{GroupId, Invocation, Items, NoMemory};
use cp_grammar::ReadError;
use std::alloc::Global;

/// Why bytes are no snapshot.
pub type RestoreError = ReadError;

/// Answers with the invocations that they are given to.
pub type Answers = Items<(Invocation, Answer)>;

/// What a group of members applies its entries to, one after another. Contracts see what a machine stands for, its view.
/// After want of memory in `apply` a machine is only dropped.
pub trait Machine: Sized + Drop {
    /// What machines stand for.
    ghost View: { Type 0 };

    /// What this machine stands for.
    ghost view: { Self → View };

    /// What a new machine stands for: its group, how many members there are, and how many a first group has.
    ghost first: { GroupId → ℕ → ℕ → View };

    /// What the entry that these bytes spell leaves and answers, at this index.
    ghost step: { View → ℕ → List ℕ → Stepped View };

    /// What waits for its time to be over, in order.
    ghost timers: { View → List Timer };

    /// What the snapshot of these bytes stands for, or the place of the first field that fails.
    ghost restored: { List ℕ → Result View ℕ };

    /// What a read of these bytes is answered without an entry, if it is one.
    ghost looked: { View → List ℕ → Option Answer };

    /// The machine of a group to which no entry was applied. The members are numbered from 1, and those up to `size` are the first
    /// ones of the group.
    fn new(alloc: Global, group: GroupId, members: u8, size: u8) -> Result<Self, NoMemory>
        requires { IsSized members size }
        ensures { IfOk result (λ machine. view machine ≡ first group members size) };

    /// Applies the entry of this index, and appends the answers that it gives.
    fn apply(&mut self, index: u64, entry: &[u8], out: &mut Answers) -> Result<(), NoMemory>
        requires { index ≤ LAST_NUMBER }
        ensures view { OnOk result (view self.new ≡ (step (view self.old) index entry.now).view) }
        ensures answers { OnOk result (out.new ≡ out.old ++ (step (view self.old) index entry.now).answers) }
        // Each answer that is given can be spelled.
        ensures fit { OnOk result (AnswersFit (step (view self.old) index entry.now).answers) };

    /// How many sessions and calls wait for their time to be over.
    fn timers(&self) -> usize
        ensures { result ≡ length (timers (view self.now)) };

    /// The one at this place, from 0; none behind them.
    fn timer(&self, place: usize) -> Option<Timer>
        ensures found { result ≡ slice_get (timers (view self.now)) place }
        // What it names can be spelled.
        ensures fit { IfSome result (λ timer. TimerFits timer) };

    /// Appends bytes that restore to this machine, or leaves `out`.
    fn write_snapshot(&self, out: &mut Vec<u8>) -> Result<(), NoMemory>
        ensures ok { OnOk result ((text : List ℕ) × (out.new.items ≡ out.old.items ++ text) × (restored text ≡ Ok (view self.now))) }
        ensures err { OnErr result (out.new.items ≡ out.old.items) };

    /// The machine of a snapshot, or why the bytes are none.
    fn restore(alloc: Global, bytes: &[u8]) -> Result<Self, RestoreError>
        ensures { Restores view result (restored bytes.now) };

    /// What a read is answered without an entry. Bytes that spell no such read are answered by none.
    fn look(&self, op: &[u8]) -> Result<Option<Answer>, NoMemory>
        ensures answer { IfOk result (λ answer. answer ≡ looked (view self.now) op.now) }
        // An answer that is given can be spelled.
        ensures fit { IfOk result (λ answer. LookFits answer) };

    /// Bytes that spell no entry change nothing and answer nothing.
    ghost quiet: { (v : View) (index place : ℕ) (bytes : List ℕ) → whole entry_grammar bytes ≡ Err place →
        step v index bytes ≡ record { view = v; answers = [] } };
}
