//! The state of a group, and what one entry of its log does to it: rows, definitions, and laws that hold of every
//! history. No code: the functions below state laws.
#![tactic(auto)]

ghost use Rattle.cp_group_state.specs.Laws.{CallsActAtMostOnce, FencesAlwaysRise, AnsweredFencesStand, ListsStayOrdered};
ghost use Rattle.cp_group_state.specs.Laws.{EachLockHasOneOwner, FullOrderIsOrder, RunsGoByStates};
ghost use Rattle.cp_group_state.specs.Laws.{LocksAreHeldOrFree, ClientsHaveOneSession, CallsWaitOnce, PermitsStayBalanced, HoldingsAreOfSemaphores};

mod outcome;
mod rows;

pub use outcome::{LatchOutcome, Released, Reply, SemOutcome, Taken};
pub use rows::{Holder, LatchRow, LockRow, MemoryRow, SemaphoreRow, SessionRow, Waiter};

/// In every orderly history each call with a session, and each countdown of a latch, acts at most once.
pub fn calls_act_at_most_once()
    ensures { CallsActAtMostOnce }
{}

/// What is orderly in full is as orderly as the laws ask for.
pub fn full_order_is_order()
    ensures { FullOrderIsOrder }
{}

/// What the run of a history has at a place is what the entry there does in the state that it meets.
pub fn runs_go_by_states()
    ensures { RunsGoByStates }
{}

/// Of two moments at which a lock is held, either one hold lasts from the one to the other, or the later fence is greater:
/// so also where one thread gives a lock back and gets it again.
pub fn fences_rise()
    ensures { FencesAlwaysRise }
{}

/// Each list of the state stays in rising order of its keys.
pub fn lists_stay_ordered()
    ensures { ListsStayOrdered }
{}

/// In every orderly history a fence that is answered is that of the lock which the call asks for, and which its thread
/// holds after the entry, in the session that the call names; who asks for the owner of a lock is told the hold that
/// stands then; or the answer was given to the call before.
pub fn answered_fences_stand()
    ensures { AnsweredFencesStand }
{}

/// A lock has one owner at most.
pub fn each_lock_has_one_owner()
    ensures { EachLockHasOneOwner }
{}

/// Without holds every number in a lock's row is 0.
pub fn locks_are_held_or_free()
    ensures { LocksAreHeldOrFree }
{}

/// No client has two open sessions.
pub fn clients_have_one_session()
    ensures { ClientsHaveOneSession }
{}

/// No two waiters are of one call.
pub fn calls_wait_once()
    ensures { CallsWaitOnce }
{}

/// The total of a semaphore is what stands available and what is held.
pub fn permits_stay_balanced()
    ensures { PermitsStayBalanced }
{}

/// A session holds one permit or more, of a semaphore that is there.
pub fn holdings_are_of_semaphores()
    ensures { HoldingsAreOfSemaphores }
{}
