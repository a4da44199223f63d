//! What a member asks all others.
ghost use Rattle.std.specs.Prelude.{◌≡◌, ◌≤◌, ◌++◌, ◌∷◌, ℕ, List, length, map, IsOk, OnOk};
ghost use Rattle.cp_rules.specs.Local.{send};
ghost use Rattle.cp_rules.specs.Persistent.{others};
ghost use Rattle.cp_rules_ranges.specs.Messages.{body_of};
ghost use Rattle.cp_raft_state.specs.Messages.{messages_of};
ghost use Rattle.cp_raft_state.specs.Room.{spare};
ghost use Rattle.cp_raft_leading.specs.Asks.{asked, asks, to_others};

use cp_base::{GroupId, NoMemory};
use cp_message::{Body, Message};
use cp_raft_state::{Seat, confirm_body, post, pre_vote_body, vote_body};
use cp_rules::LogEnd;

/// What a member asks all others.
#[derive(Clone, Copy, Debug, PartialEq, Eq)]
pub enum Ask {
    /// Whether they would vote for it, in this term with this end of its log.
    PreVote(u64, LogEnd),
    /// For their vote, in this term with this end of its log.
    Vote(u64, LogEnd),
    /// Whether it still leads this term, in this round.
    Confirm(u64, u64),
}

/// It as what a message says.
fn asked(group: GroupId, ask: Ask) -> Body
    ensures { result ≡ body_of group (asked ask) }
{
    match ask {
        Ask::PreVote(term, end) => pre_vote_body(group, term, end),
        Ask::Vote(term, end) => vote_body(group, term, end),
        Ask::Confirm(term, round) => confirm_body(group, term, round),
    }
}

/// Asks a member, unless it is oneself.
#[tactic(auto, using(crate::proofs::Others::to_other, crate::proofs::Others::to_self, crate::proofs::Others::other_in, crate::proofs::Others::self_out))]
fn ask_other(seat: Seat, member: u8, ask: Ask, out: &mut Vec<Message>) -> Result<(), NoMemory>
    ensures sends { OnOk result ((rest : List ℕ) → out.new.items ++ to_others seat (asks ask) rest
        ≡ out.old.items ++ to_others seat (asks ask) (member ∷ rest)) }
    ensures frugal { (rest : List ℕ) → length (others seat.me (member ∷ rest)) ≤ spare out.old → IsOk result }
    ensures room { (rest : List ℕ) → length (others seat.me (member ∷ rest)) ≤ spare out.old
        → length (others seat.me rest) ≤ spare out.new }
{
    if member == seat.me {
        return Ok(());
    }
    post(seat, member, asked(seat.group, ask), out)
}

/// Asks all members but oneself. It takes no memory where there is room.
pub fn ask_others(
    seat: Seat,
    members: &[u8],
    ask: Ask,
    out: &mut Vec<Message>,
) -> Result<(), NoMemory>
    ensures sends { OnOk result (out.new.items ≡ out.old.items
        ++ messages_of seat (map (λ f. send f (asked ask)) (others seat.me members.now))) }
    ensures frugal { length (others seat.me members.now) ≤ spare out.old → IsOk result }
{
    let mut rest = members;
    while let [member, others @ ..] = rest {
        ask_other(seat, *member, ask, out)?;
        rest = others;
    }
    Ok(())
}
