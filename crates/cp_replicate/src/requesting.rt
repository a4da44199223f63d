//! What refuses an entry that a member is asked to append, and an expiry.
ghost use Rattle.std.specs.Prelude.{◌≡◌, Some, None, MatchResult};
ghost use Rattle.cp_rules.specs.Requests.{refuses};
ghost use Rattle.cp_replicate.specs.Decisions.{may_expire};

use cp_answers::Refusal;
use cp_base::limits::LAST_NUMBER;
use cp_election::is_leader;
use cp_rules::Role;

/// So many entries that are not committed make a leader refuse another.
const MOST_UNCOMMITTED: u32 = 100;

/// Whether a member appends an entry that it is asked for; its log ends at `last`. The first that holds refuses: it does
/// not lead (`NotLeader`, with the leader that it knows or 0), its log has no room (`IndexEnd`), or too much is not
/// committed (`Overloaded`).
pub fn may_propose(role: Role, leader: u8, last: u64, commit: u64) -> Result<(), Refusal>
    ensures { MatchResult result (λ _. refuses role leader last commit ≡ None) (λ refusal. refuses role leader last commit ≡ Some refusal) }
{
    if !is_leader(role) {
        Err(Refusal::NotLeader(leader))
    } else if LAST_NUMBER <= last {
        Err(Refusal::IndexEnd(last))
    } else if u64::from(MOST_UNCOMMITTED) <= last.saturating_sub(commit) {
        Err(Refusal::Overloaded(MOST_UNCOMMITTED))
    } else {
        Ok(())
    }
}

/// Whether a member appends an expiry that is due: it may write, and nothing refuses an entry.
pub fn may_expire(role: Role, leader: u8, last: u64, commit: u64, may_write: bool) -> bool
    ensures { result ≡ may_expire role leader last commit may_write }
{
    if !may_write {
        return false;
    }
    match may_propose(role, leader, last, commit) {
        Ok(()) => true,
        Err(_) => false,
    }
}
