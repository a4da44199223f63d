//! Writing the record of one part.
ghost use Rattle.std.specs.Prelude.{true, false, ◌≡◌, ◌≤◌, ◌<◌, ◌+◌, ◌↔◌, length, IfOk, IsOk, OnOk, IsErrOf};
ghost use Rattle.cp_base.specs.declared.limits.TheConstants.{FILE_LIMIT};
ghost use Rattle.cp_base.specs.Faults.{Rose};
ghost use Rattle.cp_disk.specs.Images.{Only};
ghost use Rattle.cp_journal.specs.Moments.{LeavesOnly};
ghost use Rattle.cp_journal.specs.Journals.{disk_of, is_spent, end_of};
ghost use Rattle.cp_journal.specs.Records.{IsBody, IsBeforeOrAfter, and_record, records_of};
ghost use Rattle.cp_parts.specs.Parts.{part_grammar};
ghost use Rattle.cp_log.specs.declared.error.StoreError.TheVariants as error;
ghost use Rattle.cp_log.specs.Causes.{Counts};

use crate::StoreError;
use cp_base::NoMemory;
use cp_disk::Disk;
use cp_grammar::write;
use cp_journal::{Journal, JournalError};
use cp_parts::{Part, STATE_BYTES, state_bytes};
use std::alloc::Global;

/// The bytes of a part. Those of a `State` take no memory.
#[derive(Drop)]
pub(crate) enum Body {
    State([u8; STATE_BYTES]),
    Other(Vec<u8>),
}

impl Body {
    ghost use Rattle.cp_log.specs.Bodies.{bytes_of};
    ghost use Rattle.cp_log.specs.Changes.{is_state};

    /// The bytes of a part.
    pub fn of(alloc: Global, part: &Part) -> Result<Body, NoMemory>
        requires { part_grammar.Fits part.now }
        ensures ok { IfOk result (λ body. bytes_of body ≡ part_grammar.spelling part.now) }
        ensures frugal { is_state part.now ≡ true → IsOk result }
    {
        match part {
            Part::State(group, term, vote) => Ok(Body::State(state_bytes(*group, *term, *vote))),
            other => {
                let mut bytes = Vec::new(alloc);
                write(other, &mut bytes)?;
                Ok(Body::Other(bytes))
            }
        }
    }

    /// The bytes, lent.
    pub fn as_slice(&self) -> &[u8]
        ensures { result.now ≡ bytes_of self.now }
    {
        match self {
            Body::State(bytes) => bytes,
            Body::Other(bytes) => bytes,
        }
    }
}

/// Appends a record.
pub(crate) fn append<D: Disk>(
    alloc: Global,
    journal: &mut Journal<D>,
    body: &[u8],
) -> Result<(), StoreError>
    requires body { IsBody body.now }
    requires whole { is_spent journal.old ≡ false }
    ensures appended { D.Told → OnOk result (records_of (D.seen (disk_of journal.new)) ≡ and_record
        (records_of (D.seen (disk_of journal.old))) body.now) }
    ensures durable { D.Told → is_spent journal.new ≡ false → Only (D.seen (disk_of journal.new)) (D.may_leave (disk_of journal.new)) }
    ensures any_moment { D.Told → LeavesOnly D.moment D.left_since (disk_of journal.old) (disk_of journal.new)
        (IsBeforeOrAfter (records_of (D.seen (disk_of journal.old))) body.now) }
    ensures ok { OnOk result ((is_spent journal.new ≡ false) × (end_of journal.new ≡ end_of journal.old + (length body.now + 5))) }
    ensures starved { IsErrOf result error.NoMemory → (is_spent journal.new ≡ false) × (end_of journal.new ≡ end_of journal.old) }
    ensures kept { D.Told → IsErrOf result error.NoMemory →
        records_of (D.seen (disk_of journal.new)) ≡ records_of (D.seen (disk_of journal.old)) }
    ensures frugal { length body.now ≤ 64 → IsErrOf result error.NoMemory →
        Rose (D.starved (disk_of journal.old)) (D.starved (disk_of journal.new)) }
    ensures full { IsErrOf result error.Full ↔ (FILE_LIMIT < end_of journal.old + (length body.now + 5)) }
    ensures full_kept { IsErrOf result error.Full → (disk_of journal.new ≡ disk_of journal.old) ×
        ((is_spent journal.new ≡ false) × (end_of journal.new ≡ end_of journal.old)) }
    ensures cause { Counts D.Disk (disk_of journal.old) (disk_of journal.new) result }
    ensures orders { D.orders (disk_of journal.new) ≡ D.orders (disk_of journal.old) }
{
    match journal.append(alloc, body) {
        Ok(()) => Ok(()),
        Err(JournalError::DiskFault) => Err(StoreError::DiskFault),
        Err(JournalError::Full) => Err(StoreError::Full),
        Err(JournalError::BadFrame(_place)) => unreachable!(),
        Err(JournalError::NoMemory) => Err(StoreError::NoMemory),
    }
}
