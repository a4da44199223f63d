//! The table of the latches of a group.
ghost use Rattle.std.specs.Prelude.{◌≡◌, ◌≤◌, ◌==◌, [], ◌∷◌, ◌++◌, true, IfOk, OnOk, OnErr, IfSome, if◌then◌else◌};
ghost use Rattle.cp_answers.specs.declared.answer.Answer.TheVariants as answer;
ghost use Rattle.cp_group_state.specs.Rows.{without, name_cmp};
ghost use Rattle.cp_group_state.specs.Invariants.{IsRising};
ghost use Rattle.cp_group_state.specs.declared.outcome.LatchOutcome.TheVariants.{Done, Wants, Opened};
ghost use Rattle.cp_group_state.specs.Latches.{counted_calls, latch_at, set_latch, count_down, latch_step};
ghost use Rattle.cp_latch.specs.Rounds.{AreRounds};

use crate::Latch;
use crate::rounds::{Begun, Down, begin_in, down_in, first_round, make_row};
use cp_base::limits::{LAST_NUMBER, MOST_COUNTED};
use cp_base::{Invocation, Items, Name, NoMemory};
use cp_group_state::{LatchOutcome, LatchRow};
use cp_ops::{Answer, LatchOp};
use cp_rows::from_rows;
use std::alloc::Global;
use std::collections::BTreeMap;
use std::marker::Model;

/// The latches of a group, which contracts see as the list of names and rows by rising name. A latch that was never
/// set has no row.
#[derive(Debug, Drop)]
pub struct Latches {
    rows: BTreeMap<Name, Latch>,
    total: usize,
    alloc: Global,
}

impl Model for Latches {
    ghost use Rattle.std.specs.Prelude.{◌≡◌};
    ghost use Rattle.cp_group_state.specs.Rows.{Named};
    ghost use Rattle.cp_group_state.specs.declared.rows.LatchRow.{LatchRow};
    ghost use Rattle.cp_group_state.specs.Latches.{counted_calls};

    ghost Value = { Named LatchRow };

    ghost view = { λ latches. latches.rows.entries };

    ghost invariant = { λ latches. latches.total ≡ counted_calls latches.rows.entries };
}

/// Sets a latch. `total` is how many calls are counted in all.
fn set(
    rows: &mut BTreeMap<Name, Latch>,
    total: &mut usize,
    alloc: Global,
    name: &Name,
    count: u32,
) -> Result<Answer, NoMemory>
    requires { total.old ≡ counted_calls rows.old.entries }
    ensures rows { OnOk result (rows.new.entries ≡ (set_latch rows.old.entries name.now (latch_at rows.old.entries name.now) count).after) }
    ensures answer { IfOk result
        (λ answer. (set_latch rows.old.entries name.now (latch_at rows.old.entries name.now) count).outcome ≡ Done answer) }
    ensures err { OnErr result (rows.new.entries ≡ rows.old.entries) }
    ensures total { total.new ≡ counted_calls rows.new.entries }
{
    match begin_in(rows, alloc, name, count) {
        Begun::NoRow => make_row(rows, name, first_round(alloc, count)),
        Begun::Counting => Ok(Answer::Bool(false)),
        Begun::Forgotten(calls) => {
            *total -= calls;
            Ok(Answer::Bool(true))
        }
    }
}

/// Counts a latch down. `total` is how many calls are counted in all.
fn count_down(
    rows: &mut BTreeMap<Name, Latch>,
    total: &mut usize,
    name: &Name,
    call: &Invocation,
    round: u64,
) -> Result<LatchOutcome, NoMemory>
    requires { total.old ≡ counted_calls rows.old.entries }
    ensures rows { OnOk result
        (rows.new.entries ≡ (count_down rows.old.entries name.now call.now round (latch_at rows.old.entries name.now)).after) }
    ensures outcome { IfOk result
        (λ outcome. outcome ≡ (count_down rows.old.entries name.now call.now round (latch_at rows.old.entries name.now)).outcome) }
    ensures err { OnErr result (rows.new.entries ≡ rows.old.entries) }
    ensures total { total.new ≡ counted_calls rows.new.entries }
{
    let room = *total < MOST_COUNTED as usize;
    match down_in(rows, name, call, round, room)? {
        Down::Over => Ok(LatchOutcome::Done(Answer::Ok)),
        Down::Full => Ok(LatchOutcome::Done(Answer::TableFull(MOST_COUNTED))),
        Down::Counted(opens) => {
            *total += 1;
            Ok(outcome_of(opens))
        }
    }
}

/// What a countdown that was counted leads to.
fn outcome_of(opens: bool) -> LatchOutcome
    ensures { result ≡ (if opens then Opened else Done answer.Ok) }
{
    if opens {
        LatchOutcome::Opened
    } else {
        LatchOutcome::Done(Answer::Ok)
    }
}

/// How many calls are counted in these rows, if a number holds it.
#[tactic(auto, using(crate::proofs::Totals::first_counted))]
fn total_of(rows: &[(Name, LatchRow)]) -> Option<usize>
    ensures { IfSome result (λ total. total ≡ counted_calls rows.now) }
{
    let mut total: usize = 0;
    let mut rest = rows;
    while let [row, after @ ..] = rest {
        total = total.checked_add(row.1.counted.len())?;
        rest = after;
    }
    Some(total)
}

/// Puts the latch of a row behind others.
fn add(
    alloc: Global,
    latches: &mut Items<(Name, Latch)>,
    name: Name,
    row: LatchRow,
) -> Result<(), NoMemory>
    requires { row.round ≤ LAST_NUMBER }
    ensures { OnOk result (latches.new ≡ latches.old ++ (name, row) ∷ []) }
{
    let latch = Latch::from_row(alloc, row)?;
    latches.push((name, latch))?;
    Ok(())
}

/// The latches of these rows.
fn latches_of(
    alloc: Global,
    rows: Items<(Name, LatchRow)>,
) -> Result<Items<(Name, Latch)>, NoMemory>
    requires { AreRounds rows }
    ensures { IfOk result (λ latches. latches ≡ rows) }
{
    let mut latches = Items::new(alloc);
    for (name, row) in rows.into_vec() {
        add(alloc, &mut latches, name, row)?;
    }
    Ok(latches)
}

/// What an await leads to.
fn awaited(count: u32) -> LatchOutcome
    ensures { result ≡ (if count == 0 then Done (answer.Bool true) else Wants) }
{
    if count == 0 {
        LatchOutcome::Done(Answer::Bool(true))
    } else {
        LatchOutcome::Wants
    }
}

impl Latches {
    /// The table without rows.
    pub fn new(alloc: Global) -> Result<Latches, NoMemory>
        ensures { IfOk result (λ latches. latches ≡ []) }
    {
        Ok(Latches {
            rows: BTreeMap::new(alloc),
            total: 0,
            alloc,
        })
    }

    /// The table of these rows, by rising name.
    pub fn from_rows(alloc: Global, rows: Items<(Name, LatchRow)>) -> Result<Latches, NoMemory>
        requires rising { IsRising name_cmp rows }
        requires rounds { AreRounds rows }
        ensures { IfOk result (λ latches. latches ≡ rows) }
    {
        let Some(total) = total_of(rows.as_slice()) else {
            return Err(NoMemory);
        };
        let latches = latches_of(alloc, rows)?;
        Ok(Latches {
            rows: from_rows(alloc, latches)?,
            total,
            alloc,
        })
    }

    /// The rows, by rising name.
    pub fn rows(&self) -> &BTreeMap<Name, Latch>
        ensures { result.now.entries ≡ self.now }
    {
        &self.rows
    }

    /// How many countdowns a latch still needs, 0 where it has no row.
    pub fn count(&self, name: &Name) -> u32
        ensures { result ≡ (latch_at self.now name.now).count }
    {
        match self.rows.get(name) {
            Some(latch) => latch.count(),
            None => 0,
        }
    }

    /// The round of a latch, 0 where it has no row.
    pub fn round(&self, name: &Name) -> u64
        ensures value { result ≡ (latch_at self.now name.now).round }
        ensures bound { result ≤ LAST_NUMBER }
    {
        match self.rows.get(name) {
            Some(latch) => latch.round(),
            None => 0,
        }
    }

    /// Does an operation of a call to the latch of this name. A set that would make a row beyond the most, and a
    /// countdown that would count a call beyond the most of all latches, is answered by `TableFull`, and changes
    /// nothing. Where memory runs out, the table stays.
    pub fn apply(
        &mut self,
        name: &Name,
        call: &Invocation,
        op: &LatchOp,
    ) -> Result<LatchOutcome, NoMemory>
        ensures rows { OnOk result (self.new ≡ (latch_step self.old name.now call.now op.now).after) }
        ensures outcome { IfOk result (λ outcome. outcome ≡ (latch_step self.old name.now call.now op.now).outcome) }
        ensures err { OnErr result (self.new ≡ self.old) }
    {
        match *op {
            LatchOp::Count => Ok(LatchOutcome::Done(Answer::Value(i64::from(self.count(name))))),
            LatchOp::Round => Ok(LatchOutcome::Done(Answer::Value(self.round(name) as i64))),
            LatchOp::Await(_) => Ok(awaited(self.count(name))),
            LatchOp::Set(count) => Ok(LatchOutcome::Done(set(
                &mut self.rows,
                &mut self.total,
                self.alloc,
                name,
                count,
            )?)),
            LatchOp::Down(round) => count_down(&mut self.rows, &mut self.total, name, call, round),
        }
    }

    /// Takes the latch of this name away.
    pub fn destroy(&mut self, name: &Name)
        ensures { self.new ≡ without name_cmp self.old name.now }
    {
        if let Some(latch) = self.rows.remove(name) {
            self.total -= latch.counted().calls().len();
        }
    }
}
