//! When a member stands for election.
ghost use Rattle.std.specs.Prelude.{◌≡◌, ◌-◌};
ghost use Rattle.cp_rules.specs.PreVotes.{timeout, may_stand};
ghost use Rattle.cp_election.specs.Decisions.{standing};

use crate::members::is_member;
use cp_base::limits::LAST_NUMBER;

/// How long the first member waits for a leader, and a member that knows one refuses pre-votes after it heard of it, in
/// milliseconds.
pub(crate) const LEAST_TIMEOUT: u64 = 2_000;

/// How much longer than the one before it each next member waits.
const TIMEOUT_STEP: u64 = 100;

/// What a tick does with a member that does not lead.
#[derive(Clone, Copy, Debug, PartialEq, Eq)]
pub enum Stand {
    /// It goes on as it is.
    Waits,
    /// It is alone, and takes leadership of the next term.
    Leads,
    /// It asks the others whether they would vote for it.
    Asks,
}

/// How long a member has heard of no leader, in milliseconds.
pub fn silence(clock: u64, heard: u64) -> u64
    ensures { result ≡ clock - heard }
{
    clock.saturating_sub(heard)
}

/// How long a member waits for a leader, in milliseconds.
pub fn timeout(me: u8) -> u64
    ensures { result ≡ timeout me }
{
    LEAST_TIMEOUT + TIMEOUT_STEP * u64::from(me.saturating_sub(1))
}

/// Whether a member may stand: one of the configuration that heard of no leader for too long, and whose term and log
/// have room.
pub fn may_stand(me: u8, members: &[u8], term: u64, last: u64, silence: u64) -> bool
    ensures { result ≡ may_stand me members.now term last silence }
{
    is_member(me, members) && timeout(me) <= silence && term < LAST_NUMBER && last < LAST_NUMBER
}

/// What a tick does with a member that does not lead. Who is alone waits where it may not write.
pub fn standing(
    me: u8,
    members: &[u8],
    term: u64,
    last: u64,
    silence: u64,
    may_write: bool,
) -> Stand
    ensures { result ≡ standing me members.now term last silence may_write }
{
    if !may_stand(me, members, term, last, silence) {
        Stand::Waits
    } else if members.len() != 1 {
        Stand::Asks
    } else if may_write {
        Stand::Leads
    } else {
        Stand::Waits
    }
}
