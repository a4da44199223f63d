//! A call that waits.
ghost use Rattle.std.specs.Prelude.{◌≡◌};
ghost use Rattle.cp_group_state.specs.GroupState.{GroupState};
ghost use Rattle.cp_group_state.specs.Changes.{stay};
ghost use Rattle.cp_group_state.specs.Outcomes.{wait};

use cp_group_state::{Reply, Waiter};
use cp_ops::{Answer, Wish};

/// A call that can't go on waits, unless it doesn't wish to.
pub fn wait(waiter: Waiter) -> Reply
    ensures stays { (s : GroupState) → (wait waiter waiter.wish s).change ≡ stay s }
    ensures reply { (s : GroupState) → result ≡ (wait waiter waiter.wish s).reply }
{
    match waiter.wish {
        Wish::Within(0) => Reply::Answered(Answer::TimedOut),
        _ => Reply::Waits(waiter),
    }
}
