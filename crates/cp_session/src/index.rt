//! The sessions' numbers by client.
ghost use Rattle.std.specs.Prelude.{◌≡◌, Some, None, OnErr, OnOk};
ghost use Rattle.cp_group_state.specs.Rows.{find};
ghost use Rattle.cp_session.specs.Index.{Sets, client_cmp};

use cp_base::{ClientId, NoMemory};
use std::collections::BTreeMap;

/// The number of the client's open session.
pub fn number_of(numbers: &BTreeMap<ClientId, u64>, client: &ClientId) -> Option<u64>
    ensures { result ≡ find client_cmp numbers.now.entries client.now }
{
    numbers.get(client).copied()
}

/// The client has this session, or the numbers stay.
pub fn name(
    numbers: &mut BTreeMap<ClientId, u64>,
    client: ClientId,
    number: u64,
) -> Result<(), NoMemory>
    ensures ok { OnOk result (Sets client_cmp client (Some number) numbers.old.entries numbers.new.entries) }
    ensures err { OnErr result (numbers.new.entries ≡ numbers.old.entries) }
{
    numbers.insert(client, number)?;
    Ok(())
}

/// The client has no session.
pub fn unname(numbers: &mut BTreeMap<ClientId, u64>, client: &ClientId)
    ensures { Sets client_cmp client.now None numbers.old.entries numbers.new.entries }
{
    numbers.remove(client);
}
