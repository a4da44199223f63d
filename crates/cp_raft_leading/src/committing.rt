//! How far a leader commits.
ghost use Rattle.std.specs.Prelude.{◌≡◌, ◌≤◌};
ghost use Rattle.cp_log_rules.specs.Persistent.{last};
ghost use Rattle.cp_rules.specs.Commit as commit;

use cp_election::is_member;
use cp_raft_state::{Group, Volatile, members};
use cp_replicate::commit_found;

/// Commits up to an index; where the commit rises, a leader that the committed configuration leaves out steps down.
fn commits_to<G: Group>(stored: &G, me: u8, state: &mut Volatile, index: u64)
    requires from { (G.stored stored.now).base ≤ index }
    requires to { index ≤ last (G.stored stored.now) }
    ensures { state.new ≡ commit.commits_to me (G.stored stored.now) state.old index }
{
    if index == state.commit() {
        return;
    }
    state.set_commit(index);
    if is_member(me, stored.config_at(index).members.as_slice()) {
        return;
    }
    state.step_down();
}

/// Commits what a quorum of the configuration is known to hold.
#[tactic(auto, using(crate::proofs::Committed::found_from, crate::proofs::Committed::found_to))]
pub fn commits<G: Group>(stored: &G, me: u8, state: &mut Volatile)
    requires above_base { (G.stored stored.now).base ≤ state.old.commit }
    requires within { state.old.commit ≤ last (G.stored stored.now) }
    ensures { state.new ≡ commit.commits me (G.stored stored.now) state.old }
{
    let found = commit_found(
        stored,
        me,
        stored.term(),
        members(stored),
        state.peers(),
        state.commit(),
    );
    commits_to(stored, me, state, found);
}
