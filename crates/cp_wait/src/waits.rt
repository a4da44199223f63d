//! The table of calls that wait.
ghost use Rattle.std.specs.Prelude.{◌≡◌, ◌<◌, ◌≤◌, ◌++◌, ◌∷◌, [], false, nat_lt, map, length, slice_get, IfOk, IfErr, OnOk, OnErr};
ghost use Rattle.std.specs.List.{filter};
ghost use Rattle.std.specs.Map.{values_of};
ghost use Rattle.std.specs.Option.{option_copied};
ghost use Rattle.cp_answers.specs.declared.answer.Answer.{Answer};
ghost use Rattle.cp_group_state.specs.declared.rows.Waiter.{Waiter};
ghost use Rattle.cp_group_state.specs.Rows.{most};
ghost use Rattle.cp_group_state.specs.Waiters.{same_call, stands, still_waiting, answered_by, waits_on, first_on};
ghost use Rattle.cp_group_state.specs.Semaphores.{served};
ghost use Rattle.cp_group_state.specs.Apply.{is_older};
ghost use Rattle.cp_group_state.specs.Invariants.{CallsDiffer};
ghost use Rattle.cp_group_state.specs.Sessions.{is_among};
ghost use Rattle.cp_wait.specs.Arrivals.{under_calls, waiter_of, without_waiter, waits_limited};
ghost use Rattle.cp_wait.specs.Queues.{IsQueue};
ghost use Rattle.cp_wait.specs.Faults.{IsWaitFault, IsRowsFault, IsSeatFault};

use crate::indexes::{self, Indexes};
use crate::rows;
use cp_base::limits::MOST_ROWS;
use cp_base::{Invocation, Items, Name, NoMemory};
use cp_group_state::Waiter;
use cp_ops::Kind;
use indexmap::IndexMap;
use std::alloc::{AllocError, Global};
use std::marker::Model;
use thiserror::Error;

/// Why a call can't wait.
#[derive(Clone, Copy, Debug, PartialEq, Eq, Error)]
pub enum WaitError {
    /// So many calls wait already, which is as many as may.
    #[error("{0} calls wait already")]
    TableFull(u32),
    /// There was no memory.
    #[error("no memory")]
    NoMemory,
}

/// Why a list of waiters is no table.
#[derive(Clone, Copy, Debug, PartialEq, Eq, Error)]
pub enum RowsError {
    /// Two waiters are of one call.
    #[error("two waiters of one call")]
    Repeated,
    /// There are more waiters than may wait.
    #[error("too many waiters")]
    TooMany,
    /// There was no memory.
    #[error("no memory")]
    NoMemory,
}

/// The calls that wait, which contracts see as the list of their waiters in order of arrival. No two are of one call.
#[derive(Drop)]
pub struct Waits {
    rows: IndexMap<Invocation, Waiter>,
    indexes: Indexes,
}

impl Model for Waits {
    ghost use Rattle.std.specs.Prelude.{List};
    ghost use Rattle.indexmap.specs.IndexMap.{values};
    ghost use Rattle.cp_group_state.specs.declared.rows.Waiter.{Waiter};
    ghost use Rattle.cp_wait.specs.Queues.{IsQueue};

    ghost Value = { List Waiter };

    ghost view = { λ w. values w.rows };

    ghost invariant = { λ w. IsQueue w.rows.entries w.indexes };
}

/// A waiter that doesn't stand yet comes last, where there is room. Where memory runs out, the queue stays.
fn enter(
    rows: &mut IndexMap<Invocation, Waiter>,
    indexes: &mut Indexes,
    waiter: Waiter,
) -> Result<(), NoMemory>
    requires queue { IsQueue rows.old.entries indexes.old }
    requires fresh { stands waiter.call (values_of rows.old.entries) ≡ false }
    requires room { length rows.old.entries < most }
    ensures queue { IsQueue rows.new.entries indexes.new }
    ensures ok { OnOk result (values_of rows.new.entries ≡ values_of rows.old.entries ++ waiter ∷ []) }
    ensures err { OnErr result (values_of rows.new.entries ≡ values_of rows.old.entries) }
{
    let alloc = *rows.allocator();
    match indexes::enter(indexes, alloc, &waiter) {
        Ok(()) => {}
        Err(NoMemory) => return Err(NoMemory),
    }
    match rows::add_row(rows, waiter) {
        Ok(()) => Ok(()),
        Err(waiter) => {
            indexes::leave(indexes, &waiter);
            Err(NoMemory)
        }
    }
}

/// Takes the waiter of a call out. The others keep their order.
fn take(
    rows: &mut IndexMap<Invocation, Waiter>,
    indexes: &mut Indexes,
    call: &Invocation,
) -> Option<Waiter>
    requires { IsQueue rows.old.entries indexes.old }
    ensures queue { IsQueue rows.new.entries indexes.new }
    ensures value { result ≡ waiter_of call.now (values_of rows.old.entries) }
    ensures rest { values_of rows.new.entries ≡ without_waiter call.now (values_of rows.old.entries) }
{
    match rows::take_row(rows, call) {
        None => None,
        Some(waiter) => {
            indexes::leave(indexes, &waiter);
            Some(waiter)
        }
    }
}

/// The calls with a number below this one.
fn calls_below(
    alloc: Global,
    calls: &[Invocation],
    number: u64,
) -> Result<Vec<Invocation>, AllocError>
    ensures { IfOk result (λ below. below.items ≡ filter (λ c. nat_lt c.number number) calls.now) }
{
    calls
        .iter()
        .copied()
        .filter(|call| call.number < number)
        .collect(alloc)
}

fn is_of(waiter: &Waiter, sessions: &[u64]) -> bool
    ensures { result ≡ is_among sessions.now waiter.now.session }
{
    let own = waiter.session;
    sessions.iter().any(|session| *session == own)
}

/// The waiters of these sessions, copied, in order of arrival.
fn of_sessions(
    alloc: Global,
    rows: &IndexMap<Invocation, Waiter>,
    sessions: &[u64],
) -> Result<Items<Waiter>, NoMemory>
    ensures { IfOk result (λ found. found ≡ filter (λ w. is_among sessions.now w.session) (values_of rows.now.entries)) }
{
    let mut found = Items::new(alloc);
    for waiter in rows.values() {
        if is_of(waiter, sessions) {
            found.push(waiter.clone()?)?;
        }
    }
    Ok(found)
}

/// All waiters, copied, in order of arrival.
fn copies(alloc: Global, rows: &IndexMap<Invocation, Waiter>) -> Result<Items<Waiter>, NoMemory>
    ensures { IfOk result (λ found. found ≡ values_of rows.now.entries) }
{
    let mut found = Items::new(alloc);
    for waiter in rows.values() {
        found.push(waiter.clone()?)?;
    }
    Ok(found)
}

/// A list of a copy of this waiter alone.
fn copy_of(alloc: Global, waiter: &Waiter) -> Result<Items<Waiter>, NoMemory>
    ensures { IfOk result (λ found. found ≡ waiter.now ∷ []) }
{
    let mut found = Items::new(alloc);
    found.push(waiter.clone()?)?;
    Ok(found)
}

impl Waits {
    /// The table without waiters.
    pub fn new(alloc: Global) -> Result<Waits, NoMemory>
        ensures { IfOk result (λ waits. waits ≡ []) }
    {
        Ok(Waits {
            rows: IndexMap::new(alloc),
            indexes: indexes::new(alloc),
        })
    }

    /// The waiters in order of arrival, each under its own call.
    pub fn rows(&self) -> &IndexMap<Invocation, Waiter>
        ensures rows { result.now.entries ≡ under_calls self.now }
        ensures differ { CallsDiffer self.now }
    {
        &self.rows
    }

    /// How many calls wait.
    pub fn len(&self) -> usize
        ensures len { result ≡ length self.now }
        ensures bound { result ≤ most }
    {
        self.rows.len()
    }

    /// Whether a waiter of this call stands.
    pub fn stands(&self, call: &Invocation) -> bool
        ensures { result ≡ stands call.now self.now }
    {
        rows::has_row(&self.rows, call)
    }

    /// The waiter of a call, if there is one.
    pub fn waiter(&self, call: &Invocation) -> Option<&Waiter>
        ensures { option_copied result ≡ waiter_of call.now self.now }
    {
        rows::row_of(&self.rows, call)
    }

    /// The waiter on an object that came first, if there is one.
    pub fn first(&self, kind: Kind, name: &Name) -> Option<&Waiter>
        ensures { option_copied result ≡ first_on kind name.now self.now }
    {
        let calls = indexes::on_object(&self.indexes, kind, name);
        rows::nth(&self.rows, calls, 0)
    }

    /// Copies of the waiters on a semaphore that what is available serves, strictly in order of arrival.
    pub fn served(&self, kind: Kind, name: &Name, available: i64) -> Result<Items<Waiter>, NoMemory>
        ensures { IfOk result (λ found. found ≡ served (name.now, kind) available self.now) }
    {
        let calls = indexes::on_object(&self.indexes, kind, name);
        rows::serve(*self.rows.allocator(), &self.rows, calls, available)
    }

    /// Copies of the waiters on an object, in order of arrival.
    pub fn on_object(&self, kind: Kind, name: &Name) -> Result<Items<Waiter>, NoMemory>
        ensures { IfOk result (λ found. found ≡ filter (waits_on kind name.now) self.now) }
    {
        let calls = indexes::on_object(&self.indexes, kind, name);
        rows::gather(*self.rows.allocator(), &self.rows, calls)
    }

    /// A copy of the waiter of a call, if there is one.
    pub fn of_call(&self, call: &Invocation) -> Result<Items<Waiter>, NoMemory>
        ensures { IfOk result (λ found. found ≡ filter (λ w. same_call call.now w.call) self.now) }
    {
        let alloc = *self.rows.allocator();
        match rows::row_of(&self.rows, call) {
            Some(waiter) => copy_of(alloc, waiter),
            None => Ok(Items::new(alloc)),
        }
    }

    /// Copies of the waiters of this call's thread that have a lower number, in order of arrival.
    pub fn older(&self, call: &Invocation) -> Result<Items<Waiter>, NoMemory>
        ensures { IfOk result (λ found. found ≡ filter (is_older call.now) self.now) }
    {
        let alloc = *self.rows.allocator();
        let calls = indexes::of_thread(&self.indexes, call);
        let older = calls_below(alloc, calls, call.number)?;
        rows::gather(alloc, &self.rows, &older)
    }

    /// Copies of the waiters of these sessions, in order of arrival.
    pub fn of_sessions(&self, sessions: &[u64]) -> Result<Items<Waiter>, NoMemory>
        ensures { IfOk result (λ found. found ≡ filter (λ w. is_among sessions.now w.session) self.now) }
    {
        let alloc = *self.rows.allocator();
        match sessions {
            [session] => {
                let calls = indexes::of_session(&self.indexes, *session);
                rows::gather(alloc, &self.rows, calls)
            }
            _ => of_sessions(alloc, &self.rows, sessions),
        }
    }

    /// Copies of all waiters, in order of arrival.
    pub fn all(&self) -> Result<Items<Waiter>, NoMemory>
        ensures { IfOk result (λ found. found ≡ self.now) }
    {
        copies(*self.rows.allocator(), &self.rows)
    }

    /// How many calls wait for some time only.
    pub fn limited_len(&self) -> usize
        ensures { result ≡ length (filter waits_limited self.now) }
    {
        self.indexes.limited.as_slice().len()
    }

    /// The waiter at this place among those that wait for some time only, in order of arrival.
    pub fn limited(&self, place: usize) -> Option<&Waiter>
        ensures { option_copied result ≡ slice_get (filter waits_limited self.now) place }
    {
        rows::nth(&self.rows, self.indexes.limited.as_slice(), place)
    }

    /// A call waits behind the others. Where it can't, the table stays, and the waiter is let go.
    pub fn join(&mut self, waiter: Waiter) -> Result<(), WaitError>
        requires { stands waiter.call self.old ≡ false }
        ensures ok { OnOk result (self.new ≡ self.old ++ waiter ∷ []) }
        ensures room { OnOk result (length self.old < most) }
        ensures err { OnErr result (self.new ≡ self.old) }
        ensures fault { IfErr result (λ e. IsWaitFault e self.old) }
    {
        if self.rows.len() >= MOST_ROWS as usize {
            return Err(WaitError::TableFull(MOST_ROWS));
        }
        match enter(&mut self.rows, &mut self.indexes, waiter) {
            Ok(()) => Ok(()),
            Err(NoMemory) => Err(WaitError::NoMemory),
        }
    }

    /// The waiter of a call leaves, if there is one. The others keep their order.
    pub fn leave(&mut self, call: &Invocation) -> Option<Waiter>
        ensures value { result ≡ waiter_of call.now self.old }
        ensures rest { self.new ≡ without_waiter call.now self.old }
    {
        take(&mut self.rows, &mut self.indexes, call)
    }

    /// These waiters leave. The others keep their order.
    pub fn end(&mut self, waiters: &[Waiter])
        ensures { (answer : Waiter → Answer) → self.new ≡ still_waiting (map (answered_by answer) waiters.now) self.old }
    {
        // From the last on, so that few others move up.
        let mut left = waiters.len();
        while left > 0 {
            left -= 1;
            self.leave(&waiters[left].call);
        }
    }

    /// The table of these waiters, in order of arrival.
    pub fn from_rows(alloc: Global, rows: Items<Waiter>) -> Result<Waits, RowsError>
        ensures rows { IfOk result (λ waits. waits ≡ rows) }
        ensures queue { OnOk result (CallsDiffer rows × (length rows ≤ most)) }
        ensures fault { IfErr result (λ e. IsRowsFault e rows) }
    {
        let mut waits = match Waits::new(alloc) {
            Ok(waits) => waits,
            Err(NoMemory) => return Err(RowsError::NoMemory),
        };
        for waiter in rows.into_vec() {
            match seat(&mut waits, waiter) {
                Ok(()) => {}
                Err(error) => return Err(error),
            }
        }
        known(&waits);
        Ok(waits)
    }
}

/// What is known of every table.
fn known(waits: &Waits)
    ensures differ { CallsDiffer waits.now }
    ensures few { length waits.now ≤ most }
{
    let _rows = waits.rows();
    let _count = waits.len();
}

/// A waiter comes behind the others, unless it stands already, or there is no room.
fn seat(waits: &mut Waits, waiter: Waiter) -> Result<(), RowsError>
    ensures ok { OnOk result (waits.new ≡ waits.old ++ waiter ∷ []) }
    ensures fault { IfErr result (λ e. IsSeatFault e waiter waits.old) }
{
    if waits.stands(&waiter.call) {
        return Err(RowsError::Repeated);
    }
    match waits.join(waiter) {
        Ok(()) => Ok(()),
        Err(WaitError::TableFull(_)) => Err(RowsError::TooMany),
        Err(WaitError::NoMemory) => Err(RowsError::NoMemory),
    }
}
