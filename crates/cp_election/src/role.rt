//! Which role a member has.
ghost use Rattle.std.specs.Prelude.{◌≡◌};
ghost use Rattle.cp_rules.specs.Local.{is_leader, is_candidate, is_pre_candidate};

use cp_rules::Role;

/// Whether this is the role of a leader.
pub fn is_leader(role: Role) -> bool
    ensures { result ≡ is_leader role }
{
    match role {
        Role::Leader => true,
        Role::Follower => false,
        Role::PreCandidate => false,
        Role::Candidate => false,
    }
}

/// Whether this is the role of a candidate.
pub fn is_candidate(role: Role) -> bool
    ensures { result ≡ is_candidate role }
{
    match role {
        Role::Candidate => true,
        Role::Follower => false,
        Role::PreCandidate => false,
        Role::Leader => false,
    }
}

/// Whether this is the role of a member that asks whether it would be elected.
pub fn is_pre_candidate(role: Role) -> bool
    ensures { result ≡ is_pre_candidate role }
{
    match role {
        Role::PreCandidate => true,
        Role::Follower => false,
        Role::Candidate => false,
        Role::Leader => false,
    }
}
