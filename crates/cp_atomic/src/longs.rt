//! The table of atomic longs of a group.
ghost use Rattle.std.specs.Prelude.{◌≡◌, [], None, unwrap_or, IfOk, OnOk, OnErr, IfNone, OnSome, IfSome};
ghost use Rattle.cp_group_state.specs.Rows.{find, without, name_cmp};
ghost use Rattle.cp_group_state.specs.Invariants.{IsRising};
ghost use Rattle.cp_group_state.specs.Atomics.{long_step, long_set, long_answer, long_at};

use crate::table::make_row;
use cp_base::{Items, Name, NoMemory};
use cp_ops::{Answer, LongOp};
use cp_rows::from_rows;
use std::alloc::Global;
use std::collections::BTreeMap;
use std::marker::Model;

/// The atomic longs of a group, which contracts see as the list of names and values by rising name. A long that has
/// no row is 0.
#[derive(Debug, Drop)]
pub struct Longs {
    rows: BTreeMap<Name, i64>,
}

impl Model for Longs {
    ghost use Rattle.std.specs.Prelude.{ℕ, ℤ, List};

    ghost Value = { List (List ℕ × ℤ) };

    ghost view = { λ longs. longs.rows.entries };
}

/// The value that an operation sets, if it sets one.
fn value_set(now: i64, op: &LongOp) -> Option<i64>
    ensures { result ≡ long_set now op.now }
{
    match *op {
        LongOp::Get => None,
        LongOp::Set(next) => Some(next),
        LongOp::GetSet(next) => Some(next),
        LongOp::Add(number) => Some(now.wrapping_add(number)),
        LongOp::GetAdd(number) => Some(now.wrapping_add(number)),
        LongOp::Cas(old, next) => { if now == old { Some(next) } else { None } }
    }
}

/// The answer of an operation that finds this value.
fn answer_at(now: i64, op: &LongOp) -> Answer
    ensures { result ≡ long_answer now op.now }
{
    match *op {
        LongOp::Get | LongOp::GetSet(_) | LongOp::GetAdd(_) => Answer::Value(now),
        LongOp::Set(_) => Answer::Ok,
        LongOp::Add(number) => Answer::Value(now.wrapping_add(number)),
        LongOp::Cas(old, _) => Answer::Bool(now == old),
    }
}

/// Does an operation to a value, and gives its answer.
fn apply_to(value: &mut i64, op: &LongOp) -> Answer
    ensures value { value.new ≡ unwrap_or (long_set value.old op.now) value.old }
    ensures answer { result ≡ long_answer value.old op.now }
{
    let answer = answer_at(*value, op);
    if let Some(next) = value_set(*value, op) {
        *value = next;
    }
    answer
}

/// Does an operation to the long of this name, where it has a row.
fn apply_to_row(rows: &mut BTreeMap<Name, i64>, name: &Name, op: &LongOp) -> Option<Answer>
    ensures absent { IfNone result (find name_cmp rows.old.entries name.now ≡ None) }
    ensures same { IfNone result (rows.new.entries ≡ rows.old.entries) }
    ensures rows { OnSome result (rows.new.entries ≡ (long_step rows.old.entries name.now op.now).after) }
    ensures answer { IfSome result (λ answer. answer ≡ (long_step rows.old.entries name.now op.now).answer) }
{
    match rows.get_mut(name) {
        Some(value) => Some(apply_to(value, op)),
        None => None,
    }
}

/// Does an operation to the long of this name, which has no row.
fn apply_to_absent(
    rows: &mut BTreeMap<Name, i64>,
    name: &Name,
    op: &LongOp,
) -> Result<Answer, NoMemory>
    requires { find name_cmp rows.old.entries name.now ≡ None }
    ensures rows { OnOk result (rows.new.entries ≡ (long_step rows.old.entries name.now op.now).after) }
    ensures answer { IfOk result (λ answer. answer ≡ (long_step rows.old.entries name.now op.now).answer) }
    ensures err { OnErr result (rows.new.entries ≡ rows.old.entries) }
{
    let answer = answer_at(0, op);
    match value_set(0, op) {
        Some(value) => make_row(rows, name, value, answer),
        None => Ok(answer),
    }
}

impl Longs {
    /// The table without rows.
    pub fn new(alloc: Global) -> Result<Longs, NoMemory>
        ensures { IfOk result (λ longs. longs ≡ []) }
    {
        Ok(Longs {
            rows: BTreeMap::new(alloc),
        })
    }

    /// The table of these rows, by rising name.
    pub fn from_rows(alloc: Global, rows: Items<(Name, i64)>) -> Result<Longs, NoMemory>
        requires { IsRising name_cmp rows }
        ensures { IfOk result (λ longs. longs ≡ rows) }
    {
        Ok(Longs {
            rows: from_rows(alloc, rows)?,
        })
    }

    /// The rows, by rising name.
    pub fn rows(&self) -> &BTreeMap<Name, i64>
        ensures { result.now.entries ≡ self.now }
    {
        &self.rows
    }

    /// The value of a long, 0 where it has no row.
    pub fn value(&self, name: &Name) -> i64
        ensures { result ≡ long_at self.now name.now }
    {
        match self.rows.get(name) {
            Some(value) => *value,
            None => 0,
        }
    }

    /// Does an operation to the long of this name, and gives its answer. A call that would make a row beyond the most
    /// is answered by `TableFull`, and changes nothing. Where memory runs out, the table stays.
    pub fn apply(&mut self, name: &Name, op: &LongOp) -> Result<Answer, NoMemory>
        ensures rows { OnOk result (self.new ≡ (long_step self.old name.now op.now).after) }
        ensures answer { IfOk result (λ answer. answer ≡ (long_step self.old name.now op.now).answer) }
        ensures err { OnErr result (self.new ≡ self.old) }
    {
        match apply_to_row(&mut self.rows, name, op) {
            Some(answer) => Ok(answer),
            None => apply_to_absent(&mut self.rows, name, op),
        }
    }

    /// Takes the long of this name away.
    pub fn destroy(&mut self, name: &Name)
        ensures { self.new ≡ without name_cmp self.old name.now }
    {
        self.rows.remove(name);
    }
}
