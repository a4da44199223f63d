//! What refuses a change.
ghost use Rattle.std.specs.Prelude.{◌≡◌, Some, None, MatchResult};
ghost use Rattle.cp_rules.specs.Changes.{may_change};
ghost use Rattle.cp_change.specs.Decisions.{unfit};

use cp_answers::Refusal;
use cp_election::is_member;
use cp_parts::Config;
use cp_rules::Change;

/// What refuses a change of these members, whatever the log.
fn unfit(change: &Change, members: &[u8]) -> Option<Refusal>
    ensures { result ≡ unfit change.now members.now }
{
    let there = is_member(change.member.0, members);
    if change.add && there {
        Some(Refusal::AlreadyThere)
    } else if !change.add && !there {
        Some(Refusal::NotThere)
    } else if !change.add && members.len() == 1 {
        Some(Refusal::LastMember)
    } else {
        None
    }
}

/// Whether a leader of a term may change the members of the configuration in force. `committed_term` is the term of the
/// index that is committed. The first that holds refuses: the change expects another configuration (`WrongMembers`);
/// the configuration is not committed (`ChangePending`); no entry of the leader's term is (`NoOwnTermCommit`); the
/// member to be added is there (`AlreadyThere`); the one to be removed is not (`NotThere`), or is the only one
/// (`LastMember`).
pub fn may_change(
    config: &Config,
    change: &Change,
    commit: u64,
    committed_term: u64,
    term: u64,
) -> Result<(), Refusal>
    ensures { MatchResult result
        (λ _. may_change config.now.index config.now.members change.now commit committed_term term ≡ None)
        (λ refusal. may_change config.now.index config.now.members change.now commit committed_term term ≡ Some refusal) }
{
    if change.expected != config.index {
        return Err(Refusal::WrongMembers(config.index));
    }
    if commit < config.index {
        return Err(Refusal::ChangePending(config.index));
    }
    if committed_term != term {
        return Err(Refusal::NoOwnTermCommit(term));
    }
    match unfit(change, config.members.as_slice()) {
        Some(refusal) => Err(refusal),
        None => Ok(()),
    }
}
