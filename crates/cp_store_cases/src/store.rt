//! Steps with a store over the disk.
ghost use Rattle.std.specs.Prelude.{false, ◌≡◌, ◌≤◌, ◌<◌, ◌^◌, IfOk, IsTrue, length};
ghost use Rattle.cp_parts.specs.Parts.{part_grammar};
ghost use Rattle.cp_log_rules.specs.Legal.{is_legal};
ghost use Rattle.cp_log.specs.Stores.{disk_of, held_by, is_spent};
ghost use Rattle.cp_store_cases.specs.Orders.{orders_of};

use crate::disk::{CaseDisk, MOST_ORDERS};
use crate::end::CaseEnd;
use crate::words::{tell, tell_number};
use cp_base::NoMemory;
use cp_disk::MemoryDisk;
use cp_grammar::{ReadError, read};
use cp_log::{Store, StoreError};
use cp_parts::Part;
use std::alloc::Global;

/// A store that is not spent over a disk in memory, and how many orders the disk was given at most.
#[derive(Drop)]
pub struct CaseStore {
    pub(crate) store: Store<MemoryDisk>,
    orders: u64,
    ghost whole: { is_spent store ≡ false },
    ghost counted: { orders_of (disk_of store) ≤ orders },
}

/// A store, or the disk alone.
#[derive(Drop)]
pub enum Place {
    Open(CaseStore),
    Closed(CaseDisk),
}

/// Why a part was not written.
#[derive(Drop)]
enum Refusal {
    NoPart(u64),
    NotLegal,
    Error(StoreError),
}

fn tell_error(error: StoreError, out: &mut Vec<u8>) -> Result<(), NoMemory> {
    match error {
        StoreError::DiskFault => tell(b"disk fault", out),
        StoreError::Full => tell(b"journal full", out),
        StoreError::BadFrame(place) => {
            tell(b"bad frame at ", out)?;
            tell_number(place, out)
        }
        StoreError::BadRecord(place) => {
            tell(b"bad record at ", out)?;
            tell_number(place, out)
        }
        StoreError::NoMemory => tell(b"no memory", out),
    }
}

fn tell_written(written: Result<(), Refusal>, out: &mut Vec<u8>) -> Result<(), NoMemory> {
    match written {
        Ok(()) => tell(b"ok", out),
        Err(Refusal::NoPart(place)) => {
            tell(b"no part from ", out)?;
            tell_number(place, out)
        }
        Err(Refusal::NotLegal) => tell(b"not legal", out),
        Err(Refusal::Error(error)) => tell_error(error, out),
    }
}

/// Opens a store over a disk, or gives the disk back.
fn opened(
    alloc: Global,
    disk: CaseDisk,
    managed: bool,
    size: u8,
) -> Result<CaseStore, (CaseDisk, StoreError)>
    requires { (1 ≤ size) × (size ≤ 9) }
{
    let CaseDisk { disk, orders } = disk;
    match Store::open(alloc, disk, managed, size) {
        Ok(store) => Ok(CaseStore { store, orders }),
        Err((disk, error)) => Err((CaseDisk { disk, orders }, error)),
    }
}

/// Opens a store over a disk, for a member whose first groups have 1 to 9 members.
pub fn open(
    alloc: Global,
    disk: CaseDisk,
    managed: bool,
    size: u64,
    out: &mut Vec<u8>,
) -> Result<Place, CaseEnd> {
    if size < 1 || 9 < size {
        return Err(CaseEnd::BadInput);
    }
    match opened(alloc, disk, managed, size as u8) {
        Ok(store) => {
            tell(b"ok", out)?;
            Ok(Place::Open(store))
        }
        Err((disk, error)) => {
            tell_error(error, out)?;
            Ok(Place::Closed(disk))
        }
    }
}

/// The part that bytes spell.
fn part_of(alloc: Global, body: &[u8]) -> Result<Part, Refusal>
    requires { length body.now ≤ 1000 }
    ensures fits { IfOk result (λ part. part_grammar.Fits part) }
    ensures short { IfOk result (λ part. length (part_grammar.spelling part) ≤ 1000) }
{
    match read::<Part>(alloc, body) {
        Ok(part) => Ok(part),
        Err(ReadError::NotInGrammar(place)) => Err(Refusal::NoPart(place as u64)),
        Err(ReadError::NoMemory) => Err(Refusal::Error(StoreError::NoMemory)),
    }
}

/// The part that bytes spell, where the store may write it.
fn legal_part(alloc: Global, store: &Store<MemoryDisk>, body: &[u8]) -> Result<Part, Refusal>
    requires { length body.now ≤ 1000 }
    ensures legal { IfOk result (λ part. IsTrue (is_legal part (held_by store.now))) }
    ensures fits { IfOk result (λ part. part_grammar.Fits part) }
    ensures short { IfOk result (λ part. length (part_grammar.spelling part) ≤ 1000) }
{
    let part = part_of(alloc, body)?;
    match store.is_legal(alloc, &part) {
        Ok(true) => Ok(part),
        Ok(false) => Err(Refusal::NotLegal),
        Err(NoMemory) => Err(Refusal::Error(StoreError::NoMemory)),
    }
}

impl CaseStore {
    /// Writes a part. A store that a disk fault has spent is closed.
    fn put(self, alloc: Global, part: &Part) -> (Place, Result<(), Refusal>)
        requires legal { IsTrue (is_legal part.now (held_by self.store)) }
        requires fits { part_grammar.Fits part.now }
        requires short { length (part_grammar.spelling part.now) ≤ 1000 }
    {
        let CaseStore { store, orders } = self;
        let mut store = store;
        match store.write_step(alloc, part) {
            Ok(()) => (Place::Open(CaseStore { store, orders }), Ok(())),
            Err(StoreError::DiskFault) => {
                let disk = store.close();
                (
                    Place::Closed(CaseDisk { disk, orders }),
                    Err(Refusal::Error(StoreError::DiskFault)),
                )
            }
            Err(error) => (
                Place::Open(CaseStore { store, orders }),
                Err(Refusal::Error(error)),
            ),
        }
    }

    /// Writes the part that bytes spell, where it may follow.
    fn written(self, alloc: Global, body: &[u8]) -> (Place, Result<(), Refusal>)
        requires { length body.now ≤ 1000 }
    {
        match legal_part(alloc, &self.store, body) {
            Ok(part) => self.put(alloc, &part),
            Err(refusal) => (Place::Open(self), Err(refusal)),
        }
    }

    /// Writes the part that bytes spell, and tells what came out.
    pub fn write(self, alloc: Global, body: &[u8], out: &mut Vec<u8>) -> Result<Place, CaseEnd> {
        if body.len() > 1000 {
            return Err(CaseEnd::BadInput);
        }
        let (place, written) = self.written(alloc, body);
        tell_written(written, out)?;
        Ok(place)
    }

    /// Hands a stop to the disk.
    pub fn stop_after(&mut self, calls: u64) {
        if self.orders < MOST_ORDERS {
            self.store.stop_after(calls);
            self.orders += 1;
        }
    }

    /// Ends the store.
    pub fn close(self) -> CaseDisk {
        let CaseStore { store, orders } = self;
        CaseDisk {
            disk: store.close(),
            orders,
        }
    }
}
