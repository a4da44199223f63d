//! What may come to a member.
ghost use Rattle.cp_raft.specs.Coming.{SaidIsInRange};

/// What a member of a group says in a message that was read is in range, as `Raft::step` requires it.
pub fn what_has_a_spelling_is_in_range()
    ensures { SaidIsInRange }
{}
