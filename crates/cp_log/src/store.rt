//! The store.
ghost use Rattle.std.specs.Prelude.{Bool, true, false, [], ◌≡◌, ◌≤◌, ◌<◌, ◌+◌, ◌^◌, ◌⊎◌, ℕ, List, length, Some, None, Ok, Err, IfOk, IfErr, IsOk, is_ok, MatchResult, OnOk, OnErr, IsErrOf, IsTrue, if◌then◌else◌};
ghost use Rattle.cp_base.specs.declared.limits.TheConstants.{BODY_LIMIT, FILE_LIMIT, LAST_NUMBER};
ghost use Rattle.cp_base.specs.Faults.{Rose};
ghost use Rattle.cp_disk.specs.Images.{Only, NoMore, Elapses};
ghost use Rattle.cp_disk.specs.Tallies.{Tallies};
ghost use Rattle.cp_journal.specs.Journals as journals;
ghost use Rattle.cp_journal.specs.Moments.{LeavesOnly};
ghost use Rattle.cp_journal.specs.Records.{records_of};
ghost use Rattle.cp_parts.specs.Parts.{part_grammar};
ghost use Rattle.cp_log_rules.specs.Durable.{first_state, with_part};
ghost use Rattle.cp_log_rules.specs.Legal.{is_legal};
ghost use Rattle.cp_log.specs.declared.error.StoreError.TheVariants as error;
ghost use Rattle.cp_log.specs.Causes.{Counts, IsNotBad, OpenCause, WriteCause, is_fault};
ghost use Rattle.cp_log.specs.Changes.{Fits, IsReady, committed, cancelled, is_state};
ghost use Rattle.cp_log.specs.Durables.{durable_of};
ghost use Rattle.cp_log.specs.Errors.{of_body, of_journal};
ghost use Rattle.cp_log.specs.Files.{file_state, sizes, started, IfOkState, IsOpening, IsSound, StandsForEither};

use crate::StoreError;
use crate::change::Change;
use crate::durable::Durable;
use crate::recovery::BadBody;
use crate::writing::{Body, append};
use cp_base::NoMemory;
use cp_disk::{CrashDisk, Disk};
use cp_journal::{Journal, JournalError};
use cp_parts::Part;
use std::alloc::Global;

/// An empty file stands for what stands before the first part.
pub fn empty_files_are_sound()
    ensures { (managed : Bool) (size : ℕ) → file_state (first_state managed size) [] ≡ Ok (first_state managed size) }
{}

/// Terms, votes, logs and snapshots of groups, kept in a journal of parts over a disk.
#[derive(Drop)]
pub struct Store<D: Disk> {
    pub(crate) journal: Journal<D>,
    pub(crate) state: Durable,
    managed: bool,
    size: u8,
    spent: bool,
    ghost whole: { spent ≡ false → journals.is_spent journal ≡ false },
    ghost fold: { spent ≡ false → D.Told → file_state (first_state managed size) (D.seen (journals.disk_of journal)) ≡ Ok
        (durable_of state) },
}

/// Why a journal was not opened.
fn store_error(error: JournalError) -> StoreError
    ensures { result ≡ of_journal error }
{
    match error {
        JournalError::DiskFault => StoreError::DiskFault,
        JournalError::Full => StoreError::Full,
        JournalError::BadFrame(place) => StoreError::BadFrame(place),
        JournalError::NoMemory => StoreError::NoMemory,
    }
}

/// Why the bodies of a journal stand for nothing.
fn bad_error(bad: BadBody) -> StoreError
    ensures { result ≡ of_body bad }
{
    match bad {
        BadBody::At(place) => StoreError::BadRecord(place),
        BadBody::NoMemory => StoreError::NoMemory,
    }
}

/// A copy of a part.
fn copy_of(part: &Part) -> Result<Part, NoMemory>
    ensures { IfOk result (λ copy. copy ≡ part.now) }
{
    Ok(part.clone()?)
}

/// Prepares what a copy of a part changes. A `State` takes no memory.
fn prepare_copy(alloc: Global, state: &mut Durable, part: &Part) -> Result<Change, NoMemory>
    requires legal { IsTrue (is_legal part.now (durable_of state.old)) }
    requires fits { part_grammar.Fits part.now }
    ensures ok { IfOk result (λ change. IsReady change state.new (durable_of state.old) (with_part part.now (durable_of state.old))) }
    ensures err { OnErr result (durable_of state.new ≡ durable_of state.old) }
    ensures frugal { is_state part.now ≡ true → IsOk result }
{
    match part {
        Part::State(group, term, vote) => state.prepare(alloc, Part::State(*group, *term, *vote)),
        other => {
            let copy = copy_of(other)?;
            state.prepare(alloc, copy)
        }
    }
}

/// Applies a change, or gives it up.
fn settle(state: &mut Durable, change: Change, applies: bool)
    requires { Fits change state.old }
    ensures { durable_of state.new ≡ (if applies then committed change (durable_of state.old) else cancelled change
        (durable_of state.old)) }
{
    if applies {
        state.apply(change);
    } else {
        state.cancel(change);
    }
}

/// Whether a call ended by a disk fault.
fn is_disk_fault(written: &Result<(), StoreError>) -> bool
    ensures { result ≡ is_fault written.now }
{
    matches!(written, Err(StoreError::DiskFault))
}

impl<D: Disk> Store<D> {
    ghost use Rattle.cp_log.specs.Stores.{held_by, first_of, disk_of, is_spent, bytes_of};

    /// Writes one part. Once it answered Ok, every crash leaves the part.
    pub fn write_step(&mut self, alloc: Global, part: &Part) -> Result<(), StoreError>
        requires whole { is_spent self.old ≡ false }
        requires legal { IsTrue (is_legal part.now (held_by self.old)) }
        requires fits { part_grammar.Fits part.now }
        requires size { length (part_grammar.spelling part.now) ≤ BODY_LIMIT }
        ensures ok { OnOk result (held_by self.new ≡ with_part part.now (held_by self.old)) }
        ensures err { OnErr result (held_by self.new ≡ held_by self.old) }
        ensures first { first_of self.new ≡ first_of self.old }
        ensures spent { is_spent self.new ≡ is_fault result }

        // A crash at any moment of the call leaves the parts from before it, with the new one or without.
        ensures any_moment { D.Told → LeavesOnly D.moment D.left_since (disk_of self.old) (disk_of self.new)
            (StandsForEither (first_of self.old) (held_by self.old) (with_part part.now (held_by self.old))) }
        ensures durable { D.Told → is_spent self.new ≡ false → Only (D.seen (disk_of self.new)) (D.may_leave (disk_of self.new)) }

        ensures sound { D.Told → LeavesOnly D.moment D.left_since (disk_of self.old) (disk_of self.new) (IsSound (first_of self.old)) }

        // A State takes memory of the disk alone.
        ensures frugal { is_state part.now ≡ true → IsErrOf result error.NoMemory →
            Rose (D.starved (disk_of self.old)) (D.starved (disk_of self.new)) }

        // It is full exactly where the file would pass 2^30 bytes, unless memory runs out before.
        ensures full { IsErrOf result error.Full → FILE_LIMIT < bytes_of self.old + (length (part_grammar.spelling part.now) + 5) }
        ensures only_full { FILE_LIMIT < bytes_of self.old + (length (part_grammar.spelling part.now) + 5) → IsErrOf result error.Full ⊎
            IsErrOf result error.NoMemory }
        ensures bytes { bytes_of self.new ≡ (if is_ok result then bytes_of self.old + (length (part_grammar.spelling part.now) + 5)
            else bytes_of self.old) ⊎ IsErrOf result error.DiskFault }
        ensures cause { Counts D.Disk (disk_of self.old) (disk_of self.new) result }
        ensures orders { D.orders (disk_of self.new) ≡ D.orders (disk_of self.old) }
    {
        let body = match Body::of(alloc, part) {
            Ok(body) => body,
            Err(NoMemory) => return Err(StoreError::NoMemory),
        };
        let change = match prepare_copy(alloc, &mut self.state, part) {
            Ok(change) => change,
            Err(NoMemory) => return Err(StoreError::NoMemory),
        };
        let written = append(alloc, &mut self.journal, body.as_slice());
        settle(&mut self.state, change, written.is_ok());
        self.spent = is_disk_fault(&written);
        written
    }

    /// Opens a journal of a member whose groups are managed or not, and whose first groups have the members 1 to `size`. It
    /// writes the part with which the member starts, or gives the disk back.
    pub fn open(
        alloc: Global,
        disk: D,
        managed: bool,
        size: u8,
    ) -> Result<Store<D>, (D, StoreError)>
        requires { (1 ≤ size) × (size ≤ 9) }
        ensures opened { IfOk result (λ store. (is_spent store ≡ false) × (first_of store ≡ first_state managed size)) }

        // The store stands for what the file stood for, with one start more.
        ensures state { D.Told → IfOk result (λ store. IfOkState (file_state (first_state managed size) (D.seen disk))
            (λ before. held_by store ≡ started before)) }

        // A crash at any moment of the call leaves what it could leave before, or the same parts, or these with the start.
        ensures any_moment { D.Told → MatchResult result
            (λ store. LeavesOnly D.moment D.left_since disk (disk_of store)
            (IsOpening (D.may_leave disk) (first_state managed size) (D.seen disk)))
            (λ refused. LeavesOnly D.moment D.left_since disk refused.0
            (IsOpening (D.may_leave disk) (first_state managed size) (D.seen disk))) }
        ensures durable { D.Told → IfOk result (λ store. Only (D.seen (disk_of store)) (D.may_leave (disk_of store))) }

        // It is full exactly where the file would pass 2^30 bytes with the start.
        ensures full { (bodies : List (List ℕ)) → D.Told → records_of (D.seen disk) ≡ Ok bodies →
            IfErr result (λ refused. refused.1 ≡ error.Full → FILE_LIMIT < 16 + sizes bodies) }
        ensures bytes { (bodies : List (List ℕ)) → D.Told → records_of (D.seen disk) ≡ Ok bodies →
            IfOk result (λ store. (bytes_of store ≡ 16 + sizes bodies) × (bytes_of store ≤ FILE_LIMIT)) }
        ensures cause { IfErr result (λ refused. OpenCause (D.faults disk) (D.faults refused.0) D.Told
            (file_state (first_state managed size) (D.seen disk)) refused.1) }
        ensures counts { MatchResult result
            (λ store. Tallies D.Disk disk (disk_of store))
            (λ refused. Tallies D.Disk disk refused.0) }

        // Where every image of the disk stands for some state, each image at any moment of the call does too, and the file is not
        // bad. So no file is bad that stores alone wrote on an empty disk.
        ensures sound { D.Told → ((image : List ℕ) → D.may_leave disk image → IsSound (first_state managed size) image) → MatchResult result
            (λ store. LeavesOnly D.moment D.left_since disk (disk_of store) (IsSound (first_state managed size)))
            (λ refused. LeavesOnly D.moment D.left_since disk refused.0 (IsSound (first_state managed size)) × IsNotBad refused.1) }
    {
        Store::open_file(alloc, disk, managed, size)
    }

    /// Opens the file and writes the start.
    fn open_file(
        alloc: Global,
        disk: D,
        managed: bool,
        size: u8,
    ) -> Result<Store<D>, (D, StoreError)>
        ensures opened { IfOk result (λ store. (is_spent store ≡ false) × (first_of store ≡ first_state managed size)) }

        // The store stands for what the file stood for, with one start more.
        ensures state { D.Told → IfOk result (λ store. IfOkState (file_state (first_state managed size) (D.seen disk))
            (λ before. held_by store ≡ started before)) }

        // A crash at any moment of the call leaves what it could leave before, or the same parts, or these with the start.
        ensures any_moment { D.Told → MatchResult result
            (λ store. LeavesOnly D.moment D.left_since disk (disk_of store)
            (IsOpening (D.may_leave disk) (first_state managed size) (D.seen disk)))
            (λ refused. LeavesOnly D.moment D.left_since disk refused.0
            (IsOpening (D.may_leave disk) (first_state managed size) (D.seen disk))) }
        ensures durable { D.Told → IfOk result (λ store. Only (D.seen (disk_of store)) (D.may_leave (disk_of store))) }

        // It is full exactly where the file would pass 2^30 bytes with the start.
        ensures full { (bodies : List (List ℕ)) → D.Told → records_of (D.seen disk) ≡ Ok bodies →
            IfErr result (λ refused. refused.1 ≡ error.Full → FILE_LIMIT < 16 + sizes bodies) }
        ensures bytes { (bodies : List (List ℕ)) → D.Told → records_of (D.seen disk) ≡ Ok bodies →
            IfOk result (λ store. (bytes_of store ≡ 16 + sizes bodies) × (bytes_of store ≤ FILE_LIMIT)) }
        ensures cause { IfErr result (λ refused. OpenCause (D.faults disk) (D.faults refused.0) D.Told
            (file_state (first_state managed size) (D.seen disk)) refused.1) }
        ensures counts { MatchResult result
            (λ store. Tallies D.Disk disk (disk_of store))
            (λ refused. Tallies D.Disk disk refused.0) }
    {
        let (journal, bodies) = match Journal::open(alloc, disk) {
            Ok(opened) => opened,
            Err((disk, error)) => return Err((disk, store_error(error))),
        };
        match Durable::recover(alloc, managed, size, &bodies) {
            Ok(state) => Store::begin(alloc, journal, state, managed, size),
            Err(bad) => Err((journal.close(), bad_error(bad))),
        }
    }

    /// Writes the part with which the member starts.
    fn begin(
        alloc: Global,
        journal: Journal<D>,
        state: Durable,
        managed: bool,
        size: u8,
    ) -> Result<Store<D>, (D, StoreError)>
        requires whole { journals.is_spent journal ≡ false }
        requires fold { D.Told → file_state (first_state managed size) (D.seen (journals.disk_of journal)) ≡ Ok (durable_of state) }
        requires room { state.restart < LAST_NUMBER }
        ensures opened { IfOk result (λ store. (is_spent store ≡ false) ×
            ((first_of store ≡ first_state managed size) × (held_by store ≡ started (durable_of state)))) }
        ensures any_moment { D.Told → MatchResult result
            (λ store. LeavesOnly D.moment D.left_since (journals.disk_of journal) (disk_of store)
            (StandsForEither (first_state managed size) (durable_of state) (started (durable_of state))))
            (λ refused. LeavesOnly D.moment D.left_since (journals.disk_of journal) refused.0
            (StandsForEither (first_state managed size) (durable_of state) (started (durable_of state)))) }
        ensures durable { D.Told → IfOk result (λ store. Only (D.seen (disk_of store)) (D.may_leave (disk_of store))) }
        ensures full { IfErr result (λ refused. refused.1 ≡ error.Full → FILE_LIMIT < journals.end_of journal + 15) }
        ensures bytes { IfOk result (λ store. (bytes_of store ≡ journals.end_of journal + 15) × (bytes_of store ≤ FILE_LIMIT)) }
        ensures cause { IfErr result (λ refused. WriteCause (D.faults (journals.disk_of journal)) (D.faults refused.0) refused.1) }
        ensures counts { MatchResult result
            (λ store. Tallies D.Disk (journals.disk_of journal) (disk_of store))
            (λ refused. Tallies D.Disk (journals.disk_of journal) refused.0) }
    {
        let part = Part::Start2(state.restart + 1);
        let mut store = Store {
            journal,
            state,
            managed,
            size,
            spent: false,
        };
        match store.write_step(alloc, &part) {
            Ok(()) => Ok(store),
            Err(error) => Err((store.close(), error)),
        }
    }

    /// Ends the store and gives its disk.
    pub fn close(self) -> D
        ensures { result ≡ disk_of self }
    {
        let Store {
            journal,
            state: _,
            managed: _,
            size: _,
            spent: _,
        } = self;
        journal.close()
    }

    /// The bytes of the journal's file up to and with the last gate.
    pub fn journal_bytes(&self) -> u64
        ensures { result ≡ bytes_of self.now }
    {
        self.journal.journal_bytes()
    }
}

impl<D: CrashDisk> Store<D> {
    ghost use Rattle.cp_log.specs.Stores.{held_by, first_of, disk_of, is_spent, bytes_of};

    /// Hands the number to the disk.
    pub fn stop_after(&mut self, calls: u64)
        requires { D.Disk.orders (disk_of self.old) < LAST_NUMBER }
        ensures seen { D.Disk.Told → D.Disk.seen (disk_of self.new) ≡ D.Disk.seen (disk_of self.old) }
        ensures crash { D.Disk.Told → NoMore (D.Disk.may_leave (disk_of self.old)) (D.Disk.may_leave (disk_of self.new))
            × NoMore (D.Disk.may_leave (disk_of self.new)) (D.Disk.may_leave (disk_of self.old)) }
        ensures time { D.Disk.Told → Elapses (D.Disk.moment (disk_of self.old)) (D.Disk.moment (disk_of self.new))
            (D.Disk.left_since (disk_of self.old)) (D.Disk.left_since (disk_of self.new))
            (D.Disk.may_leave (disk_of self.new)) }
        ensures orders { D.Disk.orders (disk_of self.new) ≡ D.Disk.orders (disk_of self.old) + 1 }
        ensures counts { (D.Disk.faults (disk_of self.new) ≡ D.Disk.faults (disk_of self.old)) ×
            (D.Disk.starved (disk_of self.new) ≡ D.Disk.starved (disk_of self.old)) }
        ensures armed { D.is_struck (disk_of self.new) ≡ false }
        ensures stop { D.stop (disk_of self.new) ≡ Some calls }
        ensures others { (held_by self.new ≡ held_by self.old) ×
            ((first_of self.new ≡ first_of self.old) ×
            ((is_spent self.new ≡ is_spent self.old) × (bytes_of self.new ≡ bytes_of self.old))) }
    {
        self.journal.stop_after(calls);
    }
}
