//! The table of atomic references of a group.
ghost use Rattle.std.specs.Prelude.{◌≡◌, [], None, Some, is_some, unwrap_or, IfOk, OnOk, OnErr, IfNone, OnSome, IfSome};
ghost use Rattle.std.specs.Option.{option_copied};
ghost use Rattle.cp_group_state.specs.Rows.{find, without, name_cmp};
ghost use Rattle.cp_group_state.specs.Invariants.{IsRising};
ghost use Rattle.cp_group_state.specs.Atomics.{ref_step, ref_set, ref_answer, ref_at, same_value};

use crate::table::make_row;
use cp_base::{Items, Name, NoMemory};
use cp_ops::{Answer, RefOp};
use cp_rows::from_rows;
use std::alloc::Global;
use std::collections::BTreeMap;
use std::marker::Model;
use std::mem;

/// The atomic references of a group, which contracts see as the list of names and values by rising name. A reference
/// that has no row is null; one that was set to null has a row.
#[derive(Debug, Drop)]
pub struct Refs {
    rows: BTreeMap<Name, Option<Items<u8>>>,
}

impl Model for Refs {
    ghost use Rattle.std.specs.Prelude.{ℕ, List, Option};

    ghost Value = { List (List ℕ × Option (List ℕ)) };

    ghost view = { λ refs. refs.rows.entries };
}

/// Whether two values are the same.
fn is_same(a: &Option<Items<u8>>, b: &Option<Items<u8>>) -> bool
    ensures { result ≡ same_value a.now b.now }
{
    match (a, b) {
        (None, None) => true,
        (Some(a), Some(b)) => a.as_slice() == b.as_slice(),
        _ => false,
    }
}

/// Whether an operation sets a reference that is null.
fn sets_null(op: &RefOp) -> bool
    ensures { result ≡ is_some (ref_set None op.now) }
{
    match op {
        RefOp::Get | RefOp::Contains(_) => false,
        RefOp::Set(_) | RefOp::GetSet(_) => true,
        RefOp::Cas(old, _) => old.is_none(),
    }
}

/// Does an operation to a value, and gives its answer. Where memory runs out, the value stays.
fn apply_to(value: &mut Option<Items<u8>>, op: &RefOp) -> Result<Answer, NoMemory>
    ensures value { OnOk result (value.new ≡ unwrap_or (ref_set value.old op.now) value.old) }
    ensures answer { IfOk result (λ answer. answer ≡ ref_answer value.old op.now) }
    ensures err { OnErr result (value.new ≡ value.old) }
{
    match op {
        RefOp::Get => Ok(Answer::Ref(value.clone()?)),
        RefOp::Set(next) => {
            *value = next.clone()?;
            Ok(Answer::Ok)
        }
        RefOp::GetSet(next) => {
            let next = next.clone()?;
            Ok(Answer::Ref(mem::replace(value, next)))
        }
        RefOp::Cas(old, next) => {
            if !is_same(value, old) {
                return Ok(Answer::Bool(false));
            }
            *value = next.clone()?;
            Ok(Answer::Bool(true))
        }
        RefOp::Contains(other) => Ok(Answer::Bool(is_same(value, other))),
    }
}

/// Does an operation to the reference of this name, where it has a row.
fn apply_to_row(
    rows: &mut BTreeMap<Name, Option<Items<u8>>>,
    name: &Name,
    op: &RefOp,
) -> Result<Option<Answer>, NoMemory>
    ensures same { IfOk result (λ answer. IfNone answer (rows.new.entries ≡ rows.old.entries)) }
    ensures absent { IfOk result (λ answer. IfNone answer (find name_cmp rows.old.entries name.now ≡ None)) }
    ensures rows { IfOk result (λ answer. OnSome answer (rows.new.entries ≡ (ref_step rows.old.entries name.now op.now).after)) }
    ensures answer { IfOk result (λ answer. IfSome answer (λ answer. answer ≡ (ref_step rows.old.entries name.now op.now).answer)) }
    ensures err { OnErr result (rows.new.entries ≡ rows.old.entries) }
{
    match rows.get_mut(name) {
        Some(value) => Ok(Some(apply_to(value, op)?)),
        None => Ok(None),
    }
}

/// Does an operation to the reference of this name, which has no row.
fn apply_to_absent(
    rows: &mut BTreeMap<Name, Option<Items<u8>>>,
    name: &Name,
    op: &RefOp,
) -> Result<Answer, NoMemory>
    requires { find name_cmp rows.old.entries name.now ≡ None }
    ensures rows { OnOk result (rows.new.entries ≡ (ref_step rows.old.entries name.now op.now).after) }
    ensures answer { IfOk result (λ answer. answer ≡ (ref_step rows.old.entries name.now op.now).answer) }
    ensures err { OnErr result (rows.new.entries ≡ rows.old.entries) }
{
    let mut value = None;
    let answer = apply_to(&mut value, op)?;
    if sets_null(op) {
        make_row(rows, name, value, answer)
    } else {
        Ok(answer)
    }
}

impl Refs {
    /// The table without rows.
    pub fn new(alloc: Global) -> Result<Refs, NoMemory>
        ensures { IfOk result (λ refs. refs ≡ []) }
    {
        Ok(Refs {
            rows: BTreeMap::new(alloc),
        })
    }

    /// The table of these rows, by rising name.
    pub fn from_rows(
        alloc: Global,
        rows: Items<(Name, Option<Items<u8>>)>,
    ) -> Result<Refs, NoMemory>
        requires { IsRising name_cmp rows }
        ensures { IfOk result (λ refs. refs ≡ rows) }
    {
        Ok(Refs {
            rows: from_rows(alloc, rows)?,
        })
    }

    /// The rows, by rising name.
    pub fn rows(&self) -> &BTreeMap<Name, Option<Items<u8>>>
        ensures { result.now.entries ≡ self.now }
    {
        &self.rows
    }

    /// The value of a reference, lent; `None` where it is null.
    pub fn value(&self, name: &Name) -> Option<&Items<u8>>
        ensures { option_copied result ≡ ref_at self.now name.now }
    {
        match self.rows.get(name) {
            Some(value) => value.as_ref(),
            None => None,
        }
    }

    /// Does an operation to the reference of this name, and gives its answer. A call that would make a row beyond the
    /// most is answered by `TableFull`, and changes nothing. Where memory runs out, the table stays.
    pub fn apply(&mut self, name: &Name, op: &RefOp) -> Result<Answer, NoMemory>
        ensures rows { OnOk result (self.new ≡ (ref_step self.old name.now op.now).after) }
        ensures answer { IfOk result (λ answer. answer ≡ (ref_step self.old name.now op.now).answer) }
        ensures err { OnErr result (self.new ≡ self.old) }
    {
        match apply_to_row(&mut self.rows, name, op)? {
            Some(answer) => Ok(answer),
            None => apply_to_absent(&mut self.rows, name, op),
        }
    }

    /// Takes the reference of this name away.
    pub fn destroy(&mut self, name: &Name)
        ensures { self.new ≡ without name_cmp self.old name.now }
    {
        self.rows.remove(name);
    }
}
