//! What waits for its time to be over.
ghost use Rattle.std.specs.Prelude.{◌≡◌, ◌<◌, ◌≤◌, ◌-◌, ◌^◌, Some, length, map, slice_get};
ghost use Rattle.std.specs.List.{filter};
ghost use Rattle.cp_grammar.specs.Common.{index, invocation};
ghost use Rattle.cp_machine.specs.Machines.{TimerFits};
ghost use Rattle.cp_wait.specs.Arrivals.{waits_limited};
ghost use Rattle.cp_group_ranges.specs.States.{IsSound};
ghost use Rattle.cp_resource.specs.Timing.{limit, numbered, session_timer, timers_of, wait_timer};

use cp_group_state::Waiter;
use cp_group_tables::GroupTables;
use cp_machine::{Timed, Timer};
use cp_ops::Wish;

/// How many milliseconds a session lives without a beat.
const SESSION_MILLIS: u64 = 300_000;

fn session_timer(session: (u64, u64)) -> Timer
    requires number { index.Fits session.0 }
    requires version { index.Fits session.1 }
    ensures timer { result ≡ session_timer session }
    ensures fit { TimerFits result }
{
    Timer {
        what: Timed::Session(session.0, session.1),
        after: SESSION_MILLIS,
    }
}

fn limit(wish: Wish) -> u64
    ensures millis { result ≡ limit wish }
    ensures bound { result ≤ 2 ^ 32 - 1 }
{
    match wish {
        Wish::NoLimit => 0,
        Wish::Within(millis) => u64::from(millis),
    }
}

fn wait_timer(waiter: &Waiter) -> Timer
    requires { invocation.Fits waiter.now.call }
    ensures timer { result ≡ wait_timer waiter.now }
    ensures fit { TimerFits result }
{
    Timer {
        what: Timed::Wait(waiter.call),
        after: limit(waiter.wish),
    }
}

/// How many sessions and waits end when their time is over.
#[tactic(auto, using(crate::proofs::Timers::limited_few))]
pub(crate) fn count(tables: &GroupTables) -> usize
    requires { IsSound tables.now }
    ensures { result ≡ length (timers_of tables.now) }
{
    tables.session_count() + tables.limited_count()
}

/// The session at this place among them.
#[tactic(auto, using(crate::proofs::Timers::present_session, crate::proofs::Timers::session_fits))]
fn session_at(tables: &GroupTables, place: usize) -> Timer
    requires place { place < length tables.now.sessions }
    requires sound { IsSound tables.now }
    ensures found { slice_get (map (λ e. session_timer (numbered e)) tables.now.sessions) place ≡ Some result }
    ensures fit { TimerFits result }
{
    match tables.session_at(place) {
        Some(session) => session_timer(session),
        None => unreachable!(),
    }
}

/// The wait at this place among those of some time only.
#[tactic(auto, using(crate::proofs::Timers::present, crate::proofs::Timers::waiter_fits))]
fn wait_at(tables: &GroupTables, place: usize) -> Timer
    requires place { place < length (filter waits_limited tables.now.waiters) }
    requires sound { IsSound tables.now }
    ensures found { slice_get (map wait_timer (filter waits_limited tables.now.waiters)) place ≡ Some result }
    ensures fit { TimerFits result }
{
    match tables.limited_at(place) {
        Some(waiter) => wait_timer(waiter),
        None => unreachable!(),
    }
}

/// What ends when its time is over, at this place.
#[tactic(auto, using(crate::proofs::Timers::get_first, crate::proofs::Timers::get_behind))]
pub(crate) fn timer_at(tables: &GroupTables, place: usize) -> Timer
    requires place { place < length (timers_of tables.now) }
    requires sound { IsSound tables.now }
    ensures found { slice_get (timers_of tables.now) place ≡ Some result }
    ensures fit { TimerFits result }
{
    let sessions = tables.session_count();
    if place < sessions {
        session_at(tables, place)
    } else {
        wait_at(tables, place - sessions)
    }
}
