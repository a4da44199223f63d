//! Steps with a journal over the disk.
ghost use Rattle.std.specs.Prelude.{false, ◌≡◌, ◌≤◌, ◌<◌, ◌^◌};
ghost use Rattle.cp_journal.specs.Journals.{disk_of, is_spent};
ghost use Rattle.cp_journal.specs.Records.{IsBody};
ghost use Rattle.cp_store_cases.specs.Orders.{orders_of};

use crate::disk::{CaseDisk, MOST_ORDERS};
use crate::end::CaseEnd;
use crate::words::{tell, tell_bytes, tell_number};
use cp_base::NoMemory;
use cp_disk::MemoryDisk;
use cp_journal::{Journal, JournalError};
use std::alloc::Global;

/// A journal that is not spent over a disk in memory, and how many orders the disk was given at most.
#[derive(Drop)]
pub struct CaseJournal {
    journal: Journal<MemoryDisk>,
    orders: u64,
    ghost whole: { is_spent journal ≡ false },
    ghost counted: { orders_of (disk_of journal) ≤ orders },
}

/// A journal, or the disk alone.
#[derive(Drop)]
pub enum Place {
    Open(CaseJournal),
    Closed(CaseDisk),
}

fn tell_error(error: JournalError, out: &mut Vec<u8>) -> Result<(), NoMemory> {
    match error {
        JournalError::DiskFault => tell(b"disk fault", out),
        JournalError::Full => tell(b"journal full", out),
        JournalError::BadFrame(place) => {
            tell(b"bad frame at ", out)?;
            tell_number(place, out)
        }
        JournalError::NoMemory => tell(b"no memory", out),
    }
}

fn tell_done(done: Result<(), JournalError>, out: &mut Vec<u8>) -> Result<(), NoMemory> {
    match done {
        Ok(()) => tell(b"ok", out),
        Err(error) => tell_error(error, out),
    }
}

/// Tells the bodies of records.
fn tell_bodies(bodies: &[Vec<u8>], out: &mut Vec<u8>) -> Result<(), NoMemory> {
    tell(b"opened", out)?;
    for body in bodies {
        tell(b" ", out)?;
        tell_bytes(body, out)?;
    }
    Ok(())
}

/// Opens a journal over a disk, or gives the disk back.
fn opened(
    alloc: Global,
    disk: CaseDisk,
) -> Result<(CaseJournal, Vec<Vec<u8>>), (CaseDisk, JournalError)> {
    let CaseDisk { disk, orders } = disk;
    match Journal::open(alloc, disk) {
        Ok((journal, bodies)) => Ok((CaseJournal { journal, orders }, bodies)),
        Err((disk, error)) => Err((CaseDisk { disk, orders }, error)),
    }
}

/// Opens a journal over a disk, and tells the bodies of its records.
pub fn open(alloc: Global, disk: CaseDisk, out: &mut Vec<u8>) -> Result<Place, CaseEnd> {
    match opened(alloc, disk) {
        Ok((journal, bodies)) => {
            tell_bodies(&bodies, out)?;
            Ok(Place::Open(journal))
        }
        Err((disk, error)) => {
            tell_error(error, out)?;
            Ok(Place::Closed(disk))
        }
    }
}

impl CaseJournal {
    /// Appends a record. A journal that a disk fault has spent is closed.
    fn appended(self, alloc: Global, body: &[u8]) -> (Place, Result<(), JournalError>)
        requires { IsBody body.now }
    {
        let CaseJournal { journal, orders } = self;
        let mut journal = journal;
        match journal.append(alloc, body) {
            Ok(()) => (Place::Open(CaseJournal { journal, orders }), Ok(())),
            Err(JournalError::Full) => (
                Place::Open(CaseJournal { journal, orders }),
                Err(JournalError::Full),
            ),
            Err(JournalError::NoMemory) => (
                Place::Open(CaseJournal { journal, orders }),
                Err(JournalError::NoMemory),
            ),
            Err(error) => {
                let disk = journal.close();
                (Place::Closed(CaseDisk { disk, orders }), Err(error))
            }
        }
    }

    /// Appends a record of at least one byte, and tells what came out.
    pub fn append(self, alloc: Global, body: &[u8], out: &mut Vec<u8>) -> Result<Place, CaseEnd> {
        if body.is_empty() || body.len() > 1000 {
            return Err(CaseEnd::BadInput);
        }
        let (place, done) = self.appended(alloc, body);
        tell_done(done, out)?;
        Ok(place)
    }

    /// How many bytes the file has.
    pub fn bytes(&self) -> u64 {
        self.journal.journal_bytes()
    }

    /// Hands a stop to the disk.
    pub fn stop_after(&mut self, calls: u64) {
        if self.orders < MOST_ORDERS {
            self.journal.stop_after(calls);
            self.orders += 1;
        }
    }

    /// Ends the journal.
    pub fn close(self) -> CaseDisk {
        let CaseJournal { journal, orders } = self;
        CaseDisk {
            disk: journal.close(),
            orders,
        }
    }
}
