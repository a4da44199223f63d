//! What calls do to the latch of a name.
ghost use Rattle.std.specs.Prelude.{◌≡◌, [], None, IfOk, OnOk, OnErr};
ghost use Rattle.cp_group_state.specs.Rows.{find, name_cmp};
ghost use Rattle.cp_group_state.specs.declared.outcome.LatchOutcome.TheVariants.{Done};
ghost use Rattle.cp_group_state.specs.Latches.{counted_calls, new_latch, next_round};
ghost use Rattle.cp_latch.specs.Rounds.{with_row, IsBegun, IsBegunIn, IsDown, IsDownIn};

use crate::Latch;
use cp_base::limits::MOST_ROWS;
use cp_base::{Invocation, Name, NoMemory};
use cp_ops::Answer;
use std::alloc::Global;
use std::collections::BTreeMap;

/// What a call that sets a latch meets.
#[derive(Clone, Copy, Debug, PartialEq, Eq)]
pub(crate) enum Begun {
    /// The latch has no row.
    NoRow,
    /// Its round goes on.
    Counting,
    /// Its round was over and the next one began; so many counted calls are forgotten.
    Forgotten(usize),
}

/// What a countdown meets.
#[derive(Clone, Copy, Debug, PartialEq, Eq)]
pub(crate) enum Down {
    /// The round is over, or the call was counted.
    Over,
    /// There are as many counted calls as may be.
    Full,
    /// The call is counted, and whether the latch opens.
    Counted(bool),
}

/// Begins the next round of a latch whose round is over.
fn begin(latch: &mut Latch, alloc: Global, count: u32) -> Begun
    ensures { IsBegun result count latch.old latch.new }
{
    if latch.count() != 0 {
        return Begun::Counting;
    }
    Begun::Forgotten(latch.begin(alloc, count))
}

/// Begins the next round of the latch of this name, if its round is over.
pub(crate) fn begin_in(
    rows: &mut BTreeMap<Name, Latch>,
    alloc: Global,
    name: &Name,
    count: u32,
) -> Begun
    ensures { IsBegunIn result name.now count rows.old.entries rows.new.entries }
{
    match rows.get_mut(name) {
        Some(latch) => begin(latch, alloc, count),
        None => Begun::NoRow,
    }
}

/// A latch in its first round.
pub(crate) fn first_round(alloc: Global, count: u32) -> Latch
    ensures { result ≡ next_round new_latch count }
{
    let mut latch = Latch::new(alloc);
    latch.begin(alloc, count);
    latch
}

/// Makes the row of a latch that has none; gives `TableFull` and leaves the rows where there are as many as may be.
/// Where memory runs out, the rows stay.
pub(crate) fn make_row(
    rows: &mut BTreeMap<Name, Latch>,
    name: &Name,
    latch: Latch,
) -> Result<Answer, NoMemory>
    requires absent { find name_cmp rows.old.entries name.now ≡ None }
    requires fresh { latch.counted ≡ [] }
    ensures rows { OnOk result (rows.new.entries ≡ (with_row rows.old.entries name.now latch).after) }
    ensures answer { IfOk result (λ answer. (with_row rows.old.entries name.now latch).outcome ≡ Done answer) }
    ensures counted { counted_calls rows.new.entries ≡ counted_calls rows.old.entries }
    ensures err { OnErr result (rows.new.entries ≡ rows.old.entries) }
{
    if rows.len() >= MOST_ROWS as usize {
        return Ok(Answer::TableFull(MOST_ROWS));
    }
    let name = name.clone()?;
    rows.insert(name, latch)?;
    Ok(Answer::Bool(true))
}

/// Counts a call of a latch's round, if there is room. Where memory runs out, the latch stays.
#[tactic(auto, using(crate::proofs::Totals::goes_on))]
fn step_down(latch: &mut Latch, call: &Invocation, round: u64, room: bool) -> Result<Down, NoMemory>
    ensures ok { IfOk result (λ down. IsDown down call.now round room latch.old latch.new) }
    ensures err { OnErr result (latch.new ≡ latch.old) }
{
    if latch.is_over(call, round) {
        return Ok(Down::Over);
    }
    if !room {
        return Ok(Down::Full);
    }
    let opens = latch.count() == 1;
    latch.count_down(call)?;
    Ok(Down::Counted(opens))
}

/// Counts a call of the round of the latch of this name, if there is room. Where memory runs out, the rows stay.
#[tactic(auto, using(crate::proofs::Steps::over_absent))]
pub(crate) fn down_in(
    rows: &mut BTreeMap<Name, Latch>,
    name: &Name,
    call: &Invocation,
    round: u64,
    room: bool,
) -> Result<Down, NoMemory>
    ensures ok { IfOk result (λ down. IsDownIn down name.now call.now round room rows.old.entries rows.new.entries) }
    ensures err { OnErr result (rows.new.entries ≡ rows.old.entries) }
{
    match rows.get_mut(name) {
        Some(latch) => step_down(latch, call, round, room),
        None => Ok(Down::Over),
    }
}
