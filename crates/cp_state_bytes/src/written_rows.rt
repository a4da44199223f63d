//! How single rows are spelled.
ghost use Rattle.std.specs.Prelude.{◌≡◌, ◌<◌, ◌^◌, ◌++◌, [], OnOk};
ghost use Rattle.std.specs.List.{AllByRecursion};
ghost use Rattle.cp_grammar.specs.Fields.{optional};
ghost use Rattle.cp_grammar.specs.Lists.{each};
ghost use Rattle.cp_grammar.specs.Common.{invocation};
ghost use Rattle.cp_answers.specs.Answers.{answer_grammar};
ghost use Rattle.cp_group_ranges.specs.Rows.{SessionFits, LockFits, SemaphoreFits, LatchFits, LongFits, RefFits, PairFits, GoneFits, WaiterFits, MemoryFits};
ghost use Rattle.cp_state_bytes.specs.declared.version.Version.TheVariants.{Third};
ghost use Rattle.cp_state_bytes.specs.Rows.{session_row, lock_row, semaphore_row, held_row, counted_list, latch_row, long_row, ref_row, gone_row, waiter_row, memory_row, pair_row};
ghost use Rattle.cp_state_bytes.specs.Spelled.{HeldFits, each_spelled, list_spelled};

use crate::written_row::{AppendRow, count_of};
use cp_answers::Answer;
use cp_base::{Invocation, Items, Name, NoMemory};
use cp_grammar::{
    Spelled, append_bytes, append_i64, append_index, append_items, append_u8, append_u32,
};
use cp_group_state::{LockRow, MemoryRow, SemaphoreRow, SessionRow, Waiter};
use cp_latch::Latch;
use cp_map::Key;
use cp_op_values::{Kind, append_reference, append_value, append_wish};

impl AppendRow<SessionRow> for u64 {
    ghost fits = { SessionFits };

    ghost first = { session_row [] };

    #[tactic(auto, unfolding(crate::specs::Rows::session_row))]
    fn append_row(&self, row: &SessionRow, out: &mut Vec<u8>) -> Result<(), NoMemory> {
        append_index(*self, out)?;
        row.client.append(out)?;
        append_index(row.version, out)?;
        Ok(())
    }
}

impl AppendRow<LockRow> for Name {
    ghost fits = { LockFits };

    ghost first = { lock_row [] };

    #[tactic(auto, unfolding(crate::specs::Rows::lock_row, crate::specs::Rows::name_behind))]
    fn append_row(&self, row: &LockRow, out: &mut Vec<u8>) -> Result<(), NoMemory> {
        self.append(out)?;
        append_index(row.holder.session, out)?;
        row.holder.thread.append(out)?;
        append_index(row.fence, out)?;
        append_u32(row.holds, out)?;
        Ok(())
    }
}

impl AppendRow<SemaphoreRow> for (Name, Kind) {
    ghost fits = { SemaphoreFits };

    ghost first = { semaphore_row [] };

    #[tactic(auto, using(cp_group_ranges::proofs::Fitting::kind_fits), unfolding(crate::specs::Rows::semaphore_row, crate::specs::Rows::object_behind, crate::specs::Rows::signed_permits))]
    fn append_row(&self, row: &SemaphoreRow, out: &mut Vec<u8>) -> Result<(), NoMemory> {
        self.1.append(out)?;
        self.0.append(out)?;
        append_i64(row.total, out)?;
        append_i64(row.available, out)?;
        Ok(())
    }
}

/// What a session holds of a semaphore, under the semaphore's name and the session.
impl AppendRow<u64> for (Name, u64) {
    ghost fits = { HeldFits };

    ghost first = { held_row [] };

    #[tactic(auto, unfolding(crate::specs::Rows::held_row))]
    fn append_row(&self, permits: &u64, out: &mut Vec<u8>) -> Result<(), NoMemory> {
        append_index(self.1, out)?;
        self.0.append(out)?;
        append_u32(*permits as u32, out)?;
        Ok(())
    }
}

/// Appends the calls that were counted in a latch's round.
#[tactic(auto, using(crate::proofs::Facts::each_fits), unfolding(crate::specs::Rows::counted_list))]
fn append_counted(calls: &[Invocation], out: &mut Vec<u8>) -> Result<(), NoMemory>
    requires { AllByRecursion invocation.Fits calls.now }
    ensures { OnOk result (out.new.items ≡ out.old.items ++ (counted_list 0).spelling calls.now) }
{
    let count = count_of(calls.len())?;
    append_u32(count, out)?;
    append_items(calls, out)?;
    Ok(())
}

impl AppendRow<Latch> for Name {
    ghost fits = { LatchFits };

    ghost first = { latch_row [] };

    #[tactic(auto, unfolding(crate::specs::Rows::latch_row, crate::specs::Rows::name_behind))]
    fn append_row(&self, latch: &Latch, out: &mut Vec<u8>) -> Result<(), NoMemory> {
        self.append(out)?;
        append_index(latch.round(), out)?;
        append_u32(latch.count(), out)?;
        append_counted(latch.counted().calls(), out)?;
        Ok(())
    }
}

impl AppendRow<i64> for Name {
    ghost fits = { LongFits };

    ghost first = { long_row [] };

    #[tactic(auto, unfolding(crate::specs::Rows::long_row, crate::specs::Rows::name_behind))]
    fn append_row(&self, long: &i64, out: &mut Vec<u8>) -> Result<(), NoMemory> {
        self.append(out)?;
        append_i64(*long, out)?;
        Ok(())
    }
}

impl AppendRow<Option<Items<u8>>> for Name {
    ghost fits = { RefFits };

    ghost first = { ref_row Third [] };

    #[tactic(auto, unfolding(crate::specs::Rows::ref_row, crate::specs::Rows::name_behind))]
    fn append_row(&self, value: &Option<Items<u8>>, out: &mut Vec<u8>) -> Result<(), NoMemory> {
        self.append(out)?;
        append_reference(value, out)?;
        Ok(())
    }
}

impl AppendRow<()> for (Name, Kind) {
    ghost fits = { GoneFits };

    ghost first = { gone_row Third [] };

    #[tactic(auto, unfolding(crate::specs::Rows::gone_row, crate::specs::Rows::object_behind))]
    fn append_row(&self, _gone: &(), out: &mut Vec<u8>) -> Result<(), NoMemory> {
        self.1.append(out)?;
        self.0.append(out)?;
        Ok(())
    }
}

/// Appends an answer, or that there is none.
fn append_answer(answer: &Option<Answer>, out: &mut Vec<u8>) -> Result<(), NoMemory>
    requires { (optional answer_grammar).Fits answer.now }
    ensures { OnOk result (out.new.items ≡ out.old.items ++ (optional answer_grammar).spelling answer.now) }
{
    match answer {
        None => append_u8(0, out)?,
        Some(answer) => {
            append_u8(1, out)?;
            answer.append(out)?;
        }
    }
    Ok(())
}

impl AppendRow<MemoryRow> for (u64, u8) {
    ghost fits = { MemoryFits };

    ghost first = { memory_row Third [] };

    #[tactic(auto, unfolding(crate::specs::Rows::memory_row, crate::specs::Rows::holder_behind))]
    fn append_row(&self, row: &MemoryRow, out: &mut Vec<u8>) -> Result<(), NoMemory> {
        append_index(self.0, out)?;
        append_u8(self.1, out)?;
        append_index(row.number, out)?;
        append_answer(&row.answer, out)?;
        Ok(())
    }
}

impl AppendRow<Items<u8>> for (Name, Key) {
    ghost fits = { PairFits };

    ghost first = { pair_row [] };

    #[tactic(auto, unfolding(crate::specs::Rows::pair_row, crate::specs::Rows::place_behind, cp_op_values::specs::Values::key))]
    fn append_row(&self, value: &Items<u8>, out: &mut Vec<u8>) -> Result<(), NoMemory> {
        self.0.append(out)?;
        append_bytes(self.1.as_bytes(), out)?;
        append_value(value, out)?;
        Ok(())
    }
}

/// Appends a call that waits.
#[tactic(auto, using(cp_group_ranges::proofs::Fitting::kind_fits), unfolding(crate::specs::Rows::waiter_row))]
fn append_waiter(waiter: &Waiter, out: &mut Vec<u8>) -> Result<(), NoMemory>
    requires { WaiterFits waiter.now }
    ensures { OnOk result (out.new.items ≡ out.old.items ++ waiter_row.spelling waiter.now) }
{
    waiter.call.append(out)?;
    waiter.kind.append(out)?;
    waiter.name.append(out)?;
    append_index(waiter.session, out)?;
    append_u32(waiter.permits, out)?;
    append_wish(&waiter.wish, out)?;
    Ok(())
}

/// Appends calls that wait, one after another.
#[tactic(auto, using(crate::proofs::Spellings::first_fits))]
fn append_each_waiter(waiters: &[Waiter], out: &mut Vec<u8>) -> Result<(), NoMemory>
    requires { AllByRecursion WaiterFits waiters.now }
    ensures { OnOk result (out.new.items ≡ out.old.items ++ each_spelled waiter_row waiters.now) }
{
    let mut rest = waiters;
    while let Some((waiter, after)) = rest.split_first() {
        append_waiter(waiter, out)?;
        rest = after;
    }
    Ok(())
}

/// Appends the number of calls that wait, and the calls.
pub fn append_waiters(waiters: &[Waiter], out: &mut Vec<u8>) -> Result<(), NoMemory>
    requires { AllByRecursion WaiterFits waiters.now }
    ensures { OnOk result (out.new.items ≡ out.old.items ++ list_spelled waiter_row waiters.now) }
{
    let count = count_of(waiters.len())?;
    append_u32(count, out)?;
    append_each_waiter(waiters, out)?;
    Ok(())
}
