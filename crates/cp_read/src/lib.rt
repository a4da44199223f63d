//! Reads without entries that wait at a leader: each has a round, and waits until a quorum has confirmed it and all that
//! was in the log when it came is applied.
#![tactic(auto)]

ghost use Rattle.std.specs.Prelude.{◌≡◌, ◌∷◌, [], Some, None};
ghost use Rattle.cp_read.specs.Looks.{first_ready, without_first_ready};
ghost use Rattle.cp_read.specs.Worked.{asked, both, confirmed_late, members, one, other, others_removed, rounds};

mod error;
mod look;
mod reads;
mod ready;

pub use error::ReadsError;
pub use look::Look;
pub use reads::Reads;
pub use ready::MOST_LOOKS;

/// Two reads begin the rounds 1 and 2.
pub fn reads_begin_rounds()
    ensures { rounds both ≡ 1 ∷ 2 ∷ [] }
{}

/// Of three members, one that confirms the first round lets the leader answer the first read, and not the second.
pub fn a_quorum_confirms()
    ensures alone { first_ready 1 members 5 both ≡ None }
    ensures confirmed { first_ready 1 members 5 asked ≡ Some one }
    ensures rest { first_ready 1 members 5 (without_first_ready 1 members 5 asked) ≡ None }
{}

/// A later round confirms an earlier read, too; a yes to an earlier round takes nothing back.
pub fn later_rounds_confirm()
    ensures first { first_ready 1 members 5 confirmed_late ≡ Some one }
    ensures second { first_ready 1 members 5 (without_first_ready 1 members 5 confirmed_late) ≡ Some other }
{}

/// A read waits for its index, and one that came later does not pass for it where it has another.
pub fn reads_wait_for_their_index()
    ensures { first_ready 1 members 3 confirmed_late ≡ None }
{}

/// A member outside the configuration is not counted, and neither is a leader that is outside.
pub fn others_are_not_counted()
    ensures { first_ready 1 others_removed 5 asked ≡ None }
{}
