//! The table of semaphores.
ghost use Rattle.std.specs.Prelude.{◌≡◌, ◌<◌, ◌^◌, [], IfOk, OnOk, OnErr};
ghost use Rattle.cp_group_state.specs.Semaphores.{all_back, sem_destroyed, sem_step, set_held, take_all};
ghost use Rattle.cp_semaphore.specs.Fitting.{Fits};
ghost use Rattle.cp_semaphore.specs.Nested.{flat, IsNested};
ghost use Rattle.cp_semaphore.specs.Outcomes.{available_of};
ghost use Rattle.cp_semaphore.specs.Serving.{AreServed};
ghost use Rattle.cp_semaphore.specs.Tables.{IsSound};

use crate::tables::{self, Tables};
use crate::{closing, holdings, rows, serving, steps};
use cp_base::{Name, NoMemory};
use cp_group_state::{SemOutcome, SemaphoreRow, Waiter};
use cp_ops::{Kind, SemOp};
use std::alloc::Global;
use std::collections::BTreeMap;
use std::marker::Model;

/// The semaphores of a group: their rows by name and kind, and what sessions hold, by session and name. The total of a
/// semaphore is what stands available and what is held of it.
#[derive(Drop)]
pub struct Semaphores {
    tables: Tables,
}

impl Model for Semaphores {
    ghost use Rattle.cp_group_state.specs.Semaphores as definitions;
    ghost use Rattle.cp_semaphore.specs.Tables.{seen, IsTable};

    ghost Value = { definitions.Semaphores };

    ghost view = { λ s. seen s.tables };

    ghost invariant = { λ s. IsTable s.tables };
}

fn small(_number: u32)
    ensures { _number < 2 ^ 32 }
{}

/// The numbers of an operation are of 32 bits.
fn known(op: &SemOp)
    ensures { Fits op.now }
{
    match *op {
        SemOp::Available => {}
        SemOp::Init(permits) => small(permits),
        SemOp::Acquire(_session, permits, _wish) => small(permits),
        SemOp::Release(_session, permits) => small(permits),
        SemOp::Drain(_session) => {}
        SemOp::Increase(_session, permits) => small(permits),
        SemOp::Reduce(_session, permits) => small(permits),
    }
}

/// A session holds so many permits of the semaphore of a name, in holdings of which a table can be made. Where memory
/// runs out, all holdings stay.
pub fn set_holding(
    holdings: &mut BTreeMap<u64, BTreeMap<Name, u64>>,
    alloc: Global,
    session: u64,
    name: &Name,
    permits: u64,
) -> Result<(), NoMemory>
    requires { IsNested holdings.old.entries }
    ensures ok { OnOk result (flat holdings.new.entries ≡ set_held (flat holdings.old.entries) session name.now permits) }
    ensures err { OnErr result (flat holdings.new.entries ≡ flat holdings.old.entries) }
    ensures nested { IsNested holdings.new.entries }
{
    holdings::set(holdings, alloc, session, name, permits)
}

impl Semaphores {
    /// The table without semaphores.
    pub fn new(alloc: Global) -> Result<Semaphores, NoMemory>
        ensures { IfOk result (λ semaphores. semaphores ≡ record { rows = []; holdings = [] }) }
    {
        Ok(Semaphores {
            tables: Tables {
                alloc,
                rows: BTreeMap::new(alloc),
                holdings: BTreeMap::new(alloc),
            },
        })
    }

    /// The table of these rows, and of what each session holds under each name.
    pub fn from_maps(
        alloc: Global,
        rows: BTreeMap<(Name, Kind), SemaphoreRow>,
        holdings: BTreeMap<u64, BTreeMap<Name, u64>>,
    ) -> Semaphores
        requires nested { IsNested holdings.entries }
        requires sound { IsSound (record { rows = rows.entries; holdings = flat holdings.entries }) }
        ensures { result ≡ record { rows = rows.entries; holdings = flat holdings.entries } }
    {
        Semaphores {
            tables: Tables {
                alloc,
                rows,
                holdings,
            },
        }
    }

    /// The rows, by name and kind.
    pub fn rows(&self) -> &BTreeMap<(Name, Kind), SemaphoreRow>
        ensures { result.now.entries ≡ self.now.rows }
    {
        &self.tables.rows
    }

    /// What each session holds under each name.
    pub fn holdings(&self) -> &BTreeMap<u64, BTreeMap<Name, u64>>
        ensures { flat result.now.entries ≡ self.now.holdings }
    {
        &self.tables.holdings
    }

    /// How many permits of a semaphore stand available, none where it isn't there.
    pub fn available(&self, kind: Kind, name: &Name) -> Result<Option<i64>, NoMemory>
        ensures { IfOk result (λ available. available ≡ available_of (name.now, kind) self.now) }
    {
        let key = (name.clone()?, kind);
        match rows::row_of(&self.tables.rows, &key) {
            Some(row) => Ok(Some(row.available)),
            None => Ok(None),
        }
    }

    /// Does an operation to a semaphore. Where memory runs out, the table stays.
    pub fn apply(&mut self, kind: Kind, name: &Name, op: &SemOp) -> Result<SemOutcome, NoMemory>
        ensures after { OnOk result (self.new ≡ (sem_step (name.now, kind) op.now self.old).after) }
        ensures outcome { IfOk result (λ outcome. outcome ≡ (sem_step (name.now, kind) op.now self.old).outcome) }
        ensures err { OnErr result (self.new ≡ self.old) }
    {
        let name = name.clone()?;
        known(op);
        match steps::step(&mut self.tables, (name, kind), op) {
            Ok(outcome) => Ok(outcome),
            Err(NoMemory) => Err(NoMemory),
        }
    }

    /// Waiters that are served take their permits. Where memory runs out, some of the first may have taken theirs.
    pub fn take_each(&mut self, kind: Kind, name: &Name, waiters: &[Waiter]) -> Result<(), NoMemory>
        requires { AreServed (name.now, kind) waiters.now self.old }
        ensures { OnOk result (self.new ≡ take_all (name.now, kind) waiters.now self.old) }
    {
        let key = (name.clone()?, kind);
        match serving::take_each(&mut self.tables, &key, waiters) {
            Ok(()) => Ok(()),
            Err(NoMemory) => Err(NoMemory),
        }
    }

    /// What closed sessions held goes back.
    pub fn close_sessions(&mut self, sessions: &[u64])
        ensures { self.new ≡ all_back sessions.now self.old }
    {
        closing::close_sessions(&mut self.tables, sessions);
    }

    /// A semaphore is destroyed: it goes, and what is held of it. Where memory runs out, the table stays.
    pub fn destroy(&mut self, kind: Kind, name: &Name) -> Result<(), NoMemory>
        ensures ok { OnOk result (self.new ≡ sem_destroyed (name.now, kind) self.old) }
        ensures err { OnErr result (self.new ≡ self.old) }
    {
        let key = (name.clone()?, kind);
        match tables::destroy(&mut self.tables, &key) {
            Ok(()) => Ok(()),
            Err(NoMemory) => Err(NoMemory),
        }
    }
}
