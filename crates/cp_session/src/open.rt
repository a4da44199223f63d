//! A session that is opened.
ghost use Rattle.std.specs.Prelude.{◌≡◌, Some, None, OnErr, OnOk, IfOk};
ghost use Rattle.std.specs.Ordering.{nat_cmp};
ghost use Rattle.cp_group_state.specs.Rows.{find, has_room, most, put};
ghost use Rattle.cp_session.specs.Index.{IsIndexed, Sets, client_cmp};
ghost use Rattle.cp_session.specs.Meetings.{IsMet};

use crate::index::{name, number_of, unname};
use cp_base::limits::MOST_ROWS;
use cp_base::{ClientId, NoMemory};
use cp_group_state::SessionRow;
use std::collections::BTreeMap;

/// Whether there is room for a session under this number.
pub fn has_room_for(rows: &BTreeMap<u64, SessionRow>, number: u64) -> bool
    ensures { result ≡ has_room nat_cmp most rows.now.entries number }
{
    rows.contains_key(&number) || rows.len() < MOST_ROWS as usize
}

/// What a client meets that asks for a session.
pub enum Met {
    /// It has this session.
    Has(u64),
    /// It has none, and there is room for one.
    Room,
    /// It has none, and there is no room.
    Full,
}

/// What the client meets that asks for a session at this index.
#[tactic(auto, using(crate::proofs::Found::created_again, crate::proofs::Found::created_anew))]
pub fn meet(
    rows: &BTreeMap<u64, SessionRow>,
    numbers: &BTreeMap<ClientId, u64>,
    index: u64,
    client: &ClientId,
) -> Met
    requires { IsIndexed rows.now.entries numbers.now.entries }
    ensures { IsMet result rows.now.entries numbers.now.entries index client.now }
{
    // What the map says of its order stands at `len`.
    let _len = rows.len();
    match number_of(numbers, client) {
        Some(number) => Met::Has(number),
        None => {
            if has_room_for(rows, index) {
                Met::Room
            } else {
                Met::Full
            }
        }
    }
}

/// Puts a row, and gives the one that gave way; or leaves the rows.
fn replace_row(
    rows: &mut BTreeMap<u64, SessionRow>,
    number: u64,
    row: SessionRow,
) -> Result<Option<SessionRow>, NoMemory>
    ensures old { IfOk result (λ old. old ≡ find nat_cmp rows.old.entries number) }
    ensures ok { OnOk result (rows.new.entries ≡ put nat_cmp rows.old.entries number row) }
    ensures sets { OnOk result (Sets nat_cmp number (Some row) rows.old.entries rows.new.entries) }
    ensures err { OnErr result (rows.new.entries ≡ rows.old.entries) }
{
    Ok(rows.insert(number, row)?)
}

/// A client without a session has one, under this number. A row of another client that stands there gives way.
pub fn open_at(
    rows: &mut BTreeMap<u64, SessionRow>,
    numbers: &mut BTreeMap<ClientId, u64>,
    number: u64,
    client: &ClientId,
) -> Result<(), NoMemory>
    requires indexed { IsIndexed rows.old.entries numbers.old.entries }
    requires none { find client_cmp numbers.old.entries client.now ≡ None }
    ensures ok { OnOk result (rows.new.entries ≡ put nat_cmp rows.old.entries number (record { client = client.now; version = 0 })) }
    ensures err { OnErr result (rows.new.entries ≡ rows.old.entries) }
    ensures indexed { IsIndexed rows.new.entries numbers.new.entries }
{
    name(numbers, *client, number)?;
    let row = SessionRow {
        client: *client,
        version: 0,
    };
    match replace_row(rows, number, row) {
        Ok(None) => Ok(()),
        Ok(Some(old)) => {
            unname(numbers, &old.client);
            Ok(())
        }
        Err(NoMemory) => {
            unname(numbers, client);
            Err(NoMemory)
        }
    }
}
