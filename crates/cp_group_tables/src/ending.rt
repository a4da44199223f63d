//! How waits end.
ghost use Rattle.std.specs.Prelude.{◌≡◌};
ghost use Rattle.cp_group_tables.specs.Endings.{answer_of};

use cp_base::GroupId;
use cp_group_state::Waiter;
use cp_ops::Answer;

/// How waits end.
#[derive(Clone, Copy)]
pub enum Ending {
    /// The semaphore gave what was wanted.
    Served,
    /// The lock is the waiter's, under this fence.
    Granted(u64),
    /// The thread made a later call, with this number.
    Cancelled(u64),
    /// The time is over.
    TimedOut,
    /// The latch is open.
    Opened,
    /// The object was destroyed.
    ObjectDestroyed,
    /// The group was destroyed.
    GroupDestroyed(GroupId),
    /// The waiter's session was closed.
    SessionExpired,
}

impl Ending {
    /// What a waiter is answered.
    pub fn answer(self, waiter: &Waiter) -> Answer
        ensures { result ≡ answer_of self waiter.now }
    {
        match self {
            Ending::Served => Answer::Ok,
            Ending::Granted(index) => Answer::Fence(index),
            Ending::Cancelled(number) => Answer::WaitCancelled(number),
            Ending::TimedOut => Answer::TimedOut,
            Ending::Opened => Answer::Bool(true),
            Ending::ObjectDestroyed => Answer::ObjectDestroyed,
            Ending::GroupDestroyed(group) => Answer::GroupDestroyed(group),
            Ending::SessionExpired => Answer::SessionExpired(waiter.session),
        }
    }
}
