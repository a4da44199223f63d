//! The threads of a client, by number.
ghost use Rattle.std.specs.Prelude.{◌≡◌, Some, None, is_some, IfSome, OnOk};
ghost use Rattle.std.specs.Ordering.{nat_cmp};
ghost use Rattle.cp_group_state.specs.Rows.{find, put};
ghost use Rattle.cp_client_rules.specs.Clients.{or_new};
ghost use Rattle.cp_client.specs.Threads.{is_open, open_number, idle_row};

use cp_base::{Invocation, NoMemory, ThreadNo};
use cp_client_rules::{Pending, Thread};
use cp_rows::put_row;
use std::collections::BTreeMap;
use std::mem;

/// The number that the thread's last request took, 0 where it made none.
pub fn number_of(threads: &BTreeMap<u8, Thread>, thread: ThreadNo) -> u64
    ensures { result ≡ (or_new (find nat_cmp threads.now.entries thread.0)).number }
{
    match threads.get(&thread.0) {
        Some(row) => row.number,
        None => 0,
    }
}

/// The number of the thread's open request, if it has one.
pub fn open_number(threads: &BTreeMap<u8, Thread>, thread: ThreadNo) -> Option<u64>
    ensures { result ≡ open_number (or_new (find nat_cmp threads.now.entries thread.0)).number (or_new (find nat_cmp
        threads.now.entries thread.0)).pending }
{
    match threads.get(&thread.0) {
        Some(
            Thread {
                number,
                pending: Some(_),
            },
        ) => Some(*number),
        _ => None,
    }
}

/// Whether this request is open.
pub fn is_open(threads: &BTreeMap<u8, Thread>, request: &Invocation) -> bool
    ensures { result ≡ is_open request.now (or_new (find nat_cmp threads.now.entries request.now.thread.0)) }
{
    match threads.get(&request.thread.0) {
        Some(row) => row.number == request.number && row.pending.is_some(),
        None => false,
    }
}

/// Takes the open request of a thread out.
pub fn take_pending(threads: &mut BTreeMap<u8, Thread>, thread: ThreadNo) -> Option<Pending>
    ensures pending { result ≡ (or_new (find nat_cmp threads.old.entries thread.0)).pending }
    ensures rows { IfSome result (λ now. threads.new.entries
        ≡ put nat_cmp threads.old.entries thread.0 (idle_row (or_new (find nat_cmp threads.old.entries thread.0)))) }
{
    match threads.get_mut(&thread.0) {
        Some(row) => {
            let idle = Thread {
                number: row.number,
                pending: None,
            };
            mem::replace(row, idle).pending
        }
        None => None,
    }
}

/// Writes the row of a thread.
pub fn write(
    threads: &mut BTreeMap<u8, Thread>,
    thread: ThreadNo,
    row: Thread,
) -> Result<(), NoMemory>
    ensures { OnOk result (threads.new.entries ≡ put nat_cmp threads.old.entries thread.0 row) }
{
    match threads.get_mut(&thread.0) {
        Some(place) => {
            *place = row;
            Ok(())
        }
        None => put_row(threads, thread.0, row),
    }
}
