//! The table of locks of a group.
ghost use Rattle.std.specs.Prelude.{◌≡◌, ℕ, List, [], ◌∷◌, Some, All, IfErr, IfOk, IsSome, OnErr, OnOk};
ghost use Rattle.std.specs.Option.{option_copied};
ghost use Rattle.cp_group_state.specs.Rows.{find, name_cmp, put, without};
ghost use Rattle.cp_group_state.specs.declared.outcome.Released.TheVariants.{Freed};
ghost use Rattle.cp_group_state.specs.Locks.{acquired, freed_all, held_among, held_once, lock_at, released_by};
ghost use Rattle.cp_group_state.specs.Invariants.{IsRising, LocksWell};
ghost use Rattle.cp_lock.specs.Tables.{MakesTable, AreThere};
ghost use Rattle.cp_lock.specs.Outcomes.{IsLockError, owner_of};

use crate::close::{free_rows, names_held};
use crate::error::LockError;
use crate::meet::{self, Asked, Step};
use crate::rows::{are_whole, put_row, write_row};
use crate::session_set::SessionSet;
use cp_base::limits::MOST_ROWS;
use cp_base::{Items, Name, NoMemory};
use cp_group_state::{Holder, LockRow, Released, Taken};
use std::alloc::Global;
use std::collections::BTreeMap;
use std::marker::Model;

/// The locks of a group, which contracts see as the list of names and rows by rising name. A lock that has no row is
/// free, and in the row of a free lock every number is 0.
#[derive(Debug, Drop)]
pub struct Locks {
    alloc: Global,
    rows: BTreeMap<Name, LockRow>,
}

impl Model for Locks {
    ghost use Rattle.std.specs.Prelude.{ℕ, List};
    ghost use Rattle.cp_group_state.specs.declared.rows.LockRow.{LockRow};
    ghost use Rattle.cp_group_state.specs.Invariants.{LocksWell};

    ghost Value = { List (List ℕ × LockRow) };

    ghost view = { λ locks. locks.rows.entries };

    ghost invariant = { λ locks. LocksWell locks.rows.entries };
}

impl Locks {
    /// The table without rows.
    pub fn new(alloc: Global) -> Result<Locks, NoMemory>
        ensures { IfOk result (λ locks. locks ≡ []) }
    {
        Ok(Locks {
            alloc,
            rows: BTreeMap::new(alloc),
        })
    }

    /// The table of these rows: none exactly where their names don't rise, or one without holds has a number that
    /// isn't 0.
    #[tactic(auto, using(crate::proofs::Whole::all_well, crate::proofs::Whole::none_well))]
    pub fn from_rows(alloc: Global, rows: Items<(Name, LockRow)>) -> Result<Option<Locks>, NoMemory>
        ensures { IfOk result (MakesTable rows) }
    {
        if !are_whole(rows.as_slice()) {
            return Ok(None);
        }
        match cp_rows::rising_rows(alloc, rows)? {
            Some(rows) => Ok(Some(Locks { alloc, rows })),
            None => Ok(None),
        }
    }

    /// The holder asks for the lock at this index. A free lock is held under the index as its fence, one's own is held
    /// once more. A limit of 0 stands for 2^31 - 1 holds.
    pub fn acquire(
        &mut self,
        index: u64,
        name: &Name,
        who: &Holder,
        limit: u32,
    ) -> Result<Taken, LockError>
        ensures rows { OnOk result (self.new ≡ (acquired self.old index name.now who.now limit).rows) }
        ensures taken { IfOk result (λ taken. (acquired self.old index name.now who.now limit).taken ≡ Some taken) }
        ensures error { IfErr result (λ error. IsLockError error (acquired self.old index name.now who.now limit).taken) }
        ensures same { OnErr result (self.new ≡ self.old) }
    {
        match meet::meet_acquire(&self.rows, name, who, limit) {
            Asked::Busy => Ok(Taken::Busy),
            Asked::Most(most) => Ok(Taken::Limit(most)),
            Asked::Again(row) => {
                write_row(&mut self.rows, name, row);
                Ok(Taken::Fence(row.fence))
            }
            Asked::Free => {
                if !meet::has_room_for(&self.rows, name) {
                    return Err(LockError::TableFull(MOST_ROWS));
                }
                match put_row(&mut self.rows, name, meet::row_held_once(who, index)) {
                    Ok(()) => Ok(Taken::Fence(index)),
                    Err(NoMemory) => Err(LockError::NoMemory),
                }
            }
        }
    }

    /// The holder gives a hold back. A lock that is freed has a row.
    #[tactic(auto, using(crate::proofs::Standing::put_there))]
    pub fn release(&mut self, name: &Name, who: &Holder) -> Released
        ensures rows { self.new ≡ (released_by self.old name.now who.now).rows }
        ensures there { result ≡ Freed → IsSome (find name_cmp self.new name.now) }
        ensures released { result ≡ (released_by self.old name.now who.now).released }
    {
        match meet::meet_release(&self.rows, name, who) {
            Step::Not => Released::NotOwner,
            Step::Last => {
                write_row(&mut self.rows, name, meet::free_row());
                Released::Freed
            }
            Step::Less(row) => {
                write_row(&mut self.rows, name, row);
                Released::Kept
            }
        }
    }

    /// A lock that has a row goes to this holder, under the index as its fence. No lock loses its row.
    #[tactic(auto, using(crate::proofs::Standing::put_keeps))]
    pub fn grant(&mut self, index: u64, name: &Name, who: &Holder)
        requires { IsSome (find name_cmp self.old name.now) }
        ensures rows { self.new ≡ put name_cmp self.old name.now (held_once who.now index) }
        ensures there { (other : List ℕ) → IsSome (find name_cmp self.old other) → IsSome (find name_cmp self.new other) }
    {
        write_row(&mut self.rows, name, meet::row_held_once(who, index));
    }

    /// These sessions are closed: the locks that they hold are free, and answered by name. Each of them has a row.
    pub fn close_sessions(&mut self, sessions: &[u64]) -> Result<Vec<Name>, NoMemory>
        ensures names { IfOk result (λ names. names.items ≡ held_among sessions.now self.old) }
        ensures rows { OnOk result (self.new ≡ freed_all sessions.now self.old) }
        ensures there { IfOk result (λ names. AreThere names.items self.new) }
        ensures same { OnErr result (self.new ≡ self.old) }
    {
        let closed = SessionSet::of(self.alloc, sessions)?;
        let names = names_held(self.alloc, &self.rows, &closed)?;
        free_rows(&mut self.rows, &closed);
        Ok(names)
    }

    /// The session is closed: the locks that it holds are free, and answered by name. Each of them has a row.
    pub fn close_session(&mut self, session: u64) -> Result<Vec<Name>, NoMemory>
        ensures names { IfOk result (λ names. names.items ≡ held_among (session ∷ []) self.old) }
        ensures rows { OnOk result (self.new ≡ freed_all (session ∷ []) self.old) }
        ensures there { IfOk result (λ names. AreThere names.items self.new) }
        ensures same { OnErr result (self.new ≡ self.old) }
    {
        self.close_sessions(&[session])
    }

    /// The row of a lock, that of a free one where it has none.
    pub fn row(&self, name: &Name) -> LockRow
        ensures { result ≡ lock_at self.now name.now }
    {
        match self.rows.get(name) {
            Some(row) => *row,
            None => meet::free_row(),
        }
    }

    /// Who holds the lock: none exactly where it is free.
    pub fn owner(&self, name: &Name) -> Option<&Holder>
        ensures { option_copied result ≡ owner_of (lock_at self.now name.now) }
    {
        let row = self.rows.get(name)?;
        if meet::is_free_row(row) {
            None
        } else {
            Some(&row.holder)
        }
    }

    /// The fence under which the lock is held, 0 where it is free.
    pub fn fence(&self, name: &Name) -> u64
        ensures { result ≡ (lock_at self.now name.now).fence }
    {
        match self.rows.get(name) {
            Some(row) => row.fence,
            None => 0,
        }
    }

    /// The lock was destroyed: its row goes.
    pub fn destroy(&mut self, name: &Name)
        ensures { self.new ≡ without name_cmp self.old name.now }
    {
        self.rows.remove(name);
    }

    /// The rows, lent.
    pub fn rows(&self) -> &BTreeMap<Name, LockRow>
        ensures rows { result.now.entries ≡ self.now }
        ensures rising { IsRising name_cmp self.now }
        ensures well { LocksWell self.now }
    {
        // What the map says of its order stands at `len`.
        let _len = self.rows.len();
        &self.rows
    }
}
