//! What an answer does to the client's sessions, which stand by their groups.
ghost use Rattle.std.specs.Prelude.{◌≡◌, Some};
ghost use Rattle.std.specs.Ordering.{nat_cmp};
ghost use Rattle.std.specs.Option.{option_map};
ghost use Rattle.cp_group_state.specs.Rows.{find};
ghost use Rattle.cp_client_rules.specs.Clients.{id_of};
ghost use Rattle.cp_client_rules.specs.Sessions.{forget_session, forgets, is_session, sessions_after};
ghost use Rattle.cp_client.specs.Changes.{closed_by};

use cp_answers::Answer;
use cp_base::GroupId;
use cp_client_rules::{OwnSession, Purpose};
use cp_events::UserOp;
use std::collections::BTreeMap;

/// The number of the client's session in a group.
pub fn id_of(sessions: &BTreeMap<u64, OwnSession>, group: GroupId) -> Option<u64>
    ensures { result ≡ id_of (find nat_cmp sessions.now.entries group.0) }
{
    match sessions.get(&group.0) {
        Some(own) => Some(own.id),
        None => None,
    }
}

/// Whether this is the client's session in the group.
pub fn is_session(sessions: &BTreeMap<u64, OwnSession>, group: GroupId, session: u64) -> bool
    ensures { result ≡ is_session session (find nat_cmp sessions.now.entries group.0) }
{
    match sessions.get(&group.0) {
        Some(own) => own.id == session,
        None => false,
    }
}

fn forget(sessions: &mut BTreeMap<u64, OwnSession>, group: GroupId, session: u64)
    ensures { sessions.new.entries ≡ forget_session group session sessions.old.entries }
{
    if is_session(sessions, group, session) {
        sessions.remove(&group.0);
    }
}

/// A session that expired is forgotten, and so is that of a destroyed group.
pub fn forget_by(sessions: &mut BTreeMap<u64, OwnSession>, group: GroupId, answer: &Answer)
    ensures { sessions.new.entries ≡ forgets group answer.now sessions.old.entries }
{
    match answer {
        Answer::SessionExpired(session) => forget(sessions, group, *session),
        Answer::GroupDestroyed(_) => {
            sessions.remove(&group.0);
        }
        _ => {}
    }
}

/// The session that an answer says is closed, as its client asked.
fn closed_by(op: &UserOp, purpose: Purpose, answer: &Answer) -> Option<u64>
    ensures { result ≡ closed_by op.now purpose answer.now }
{
    match op {
        UserOp::CloseSession(_) => match purpose {
            Purpose::ForItself(session) => match answer {
                Answer::Ok => Some(session),
                _ => None,
            },
            Purpose::ForSession | Purpose::ForRound => None,
        },
        _ => None,
    }
}

/// What the last answer of a call does to the client's session of the group.
#[tactic(auto, using(crate::proofs::Cases::forgotten_after))]
pub fn after(
    sessions: &mut BTreeMap<u64, OwnSession>,
    group: GroupId,
    op: &UserOp,
    purpose: Purpose,
    answer: &Answer,
)
    ensures { sessions.new.entries ≡ sessions_after group op.now purpose answer.now sessions.old.entries }
{
    match closed_by(op, purpose, answer) {
        Some(session) => forget(sessions, group, session),
        None => forget_by(sessions, group, answer),
    }
}
