//! A table out of rows.
ghost use Rattle.std.specs.Prelude.{◌≡◌, IfOk, OnOk};
ghost use Rattle.cp_session.specs.Index.{IsIndexed};
ghost use Rattle.cp_session.specs.Tables.{IsPushed, MakesMaps};

use crate::index::{name, number_of, unname};
use cp_base::{ClientId, Items, NoMemory};
use cp_group_state::SessionRow;
use cp_rows::PushError;
use std::alloc::Global;
use std::collections::BTreeMap;

/// What became of a row that was to come behind the others.
pub enum Pushed {
    /// It stands behind them.
    Behind,
    /// Its number isn't above the others, or its client has a session. The rows are as they were.
    Unfit,
}

/// Puts a row behind the others, where it fits.
pub fn push(
    rows: &mut BTreeMap<u64, SessionRow>,
    numbers: &mut BTreeMap<ClientId, u64>,
    number: u64,
    row: SessionRow,
) -> Result<Pushed, NoMemory>
    requires { IsIndexed rows.old.entries numbers.old.entries }
    ensures pushed { IfOk result (λ pushed. IsPushed pushed number row rows.old.entries rows.new.entries) }
    ensures indexed { OnOk result (IsIndexed rows.new.entries numbers.new.entries) }
{
    let client = row.client;
    match number_of(numbers, &client) {
        Some(_held) => return Ok(Pushed::Unfit),
        None => {}
    }
    name(numbers, client, number)?;
    match cp_rows::push_row(rows, number, row) {
        Ok(()) => Ok(Pushed::Behind),
        Err(PushError::OutOfOrder) => {
            unname(numbers, &client);
            Ok(Pushed::Unfit)
        }
        Err(PushError::NoMemory) => Err(NoMemory),
    }
}

/// The maps of these rows: none exactly where they are no table's.
#[tactic(auto, using(crate::proofs::Tabled::goes_on, crate::proofs::Tabled::one_session, crate::proofs::Tabled::refused))]
pub fn maps_of(
    alloc: Global,
    rows: Items<(u64, SessionRow)>,
) -> Result<Option<(BTreeMap<u64, SessionRow>, BTreeMap<ClientId, u64>)>, NoMemory>
    ensures { IfOk result (MakesMaps rows) }
{
    let mut map = BTreeMap::new(alloc);
    let mut numbers = BTreeMap::new(alloc);
    for (number, row) in rows.into_vec() {
        match push(&mut map, &mut numbers, number, row)? {
            Pushed::Behind => {}
            Pushed::Unfit => return Ok(None),
        }
    }
    // What the map says of its order stands at `len`.
    let _len = map.len();
    Ok(Some((map, numbers)))
}
