//! Sessions that are closed together.
ghost use Rattle.std.specs.Prelude.{◌≡◌, ℕ, IfOk};
ghost use Rattle.std.specs.Ordering.{nat_cmp};
ghost use Rattle.std.specs.BTreeSet.{IsFromIterResult};
ghost use Rattle.cp_group_state.specs.Sessions.{is_among};

use cp_base::NoMemory;
use std::alloc::{AllocError, Global};
use std::collections::BTreeSet;
use std::marker::Model;

/// A set of sessions by their numbers, which contracts see as the list of them, rising.
#[derive(Drop)]
pub struct SessionSet {
    numbers: BTreeSet<u64>,
}

impl Model for SessionSet {
    ghost use Rattle.std.specs.Prelude.{ℕ, List};

    ghost Value = { List ℕ };

    ghost view = { λ set. set.numbers.keys };
}

fn collect(alloc: Global, sessions: &[u64]) -> Result<BTreeSet<u64>, AllocError>
    ensures { IfOk result (IsFromIterResult nat_cmp sessions.now) }
{
    sessions.iter().copied().collect(alloc)
}

impl SessionSet {
    /// The set of these sessions.
    pub fn of(alloc: Global, sessions: &[u64]) -> Result<SessionSet, NoMemory>
        ensures { IfOk result (λ set. (s : ℕ) → is_among set s ≡ is_among sessions.now s) }
    {
        let numbers = collect(alloc, sessions)?;
        Ok(SessionSet { numbers })
    }

    /// Whether the session is one of them.
    pub fn contains(&self, session: u64) -> bool
        ensures { result ≡ is_among self.now session }
    {
        self.numbers.contains(&session)
    }
}
