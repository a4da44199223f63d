//! METADATA's state, and what one entry of its log does to it: rows, definitions, and laws that hold of every history. No
//! code: the functions below state histories that were worked out by hand, and laws.
#![tactic(auto)]

ghost use Rattle.std.specs.Prelude.{◌≡◌, ◌++◌, [], ◌∷◌};
ghost use Rattle.cp_answers.specs.declared.answer.Answer.TheVariants.{TableFull};
ghost use Rattle.cp_meta_state.specs.declared.rows.Standing.TheVariants.{Active, Leaving, Out};
ghost use Rattle.cp_meta_state.specs.MetaState.{default_name, metadata_name};
ghost use Rattle.cp_meta_state.specs.Creating.{create};
ghost use Rattle.cp_meta_state.specs.Laws.{EndedGroupsAreGone, EntriesKeepStatesSound, FirstStateIsSound, HistoriesAreSound};
ghost use Rattle.cp_meta_state.specs.Laws.{ListsStayOrdered, MovesStayWithGroups, NumbersAreIndexes};
ghost use Rattle.cp_meta_state.specs.Worked.{Gives, a, b, c, dying, g, group, move, row, state_of};
ghost use Rattle.cp_meta_state.specs.WorkedGroups.{does_nothing_else, leaves_at_last, leaves_while_destroying, makes_anew, makes_groups};
ghost use Rattle.cp_meta_state.specs.WorkedGroups.{with_groups};
ghost use Rattle.cp_meta_state.specs.WorkedMoves.{gets_smaller, joins, last_stays, leaves, leaves_after_moves, leaves_two_groups};
ghost use Rattle.cp_meta_state.specs.WorkedMoves.{makes_while_leaving, moves, takes_from_one_out, takes_one, takes_two};

mod rows;

pub use rows::{GroupRow, MOST_DESTROYED, MOST_GROUPS, MoveRow, Standing};

/// Groups are made on the members of least load.
pub fn makes_groups()
    ensures { Gives 3 1 makes_groups }
{}

/// A name that is being destroyed stays taken until its group has ended.
pub fn makes_anew()
    ensures answers { Gives 3 1 makes_anew }
    ensures destroyed { (state_of 3 1 makes_anew).destroyed ≡ (2, tt) ∷ [] }
{}

/// What is asked of other groups does nothing.
pub fn does_nothing_else()
    ensures answers { Gives 3 1 does_nothing_else }
    ensures moves { (state_of 3 1 does_nothing_else).moves ≡ [] }
{}

/// A member leaves, its groups move, and it joins again.
pub fn leaves_and_joins()
    ensures answers { Gives 3 1 (leaves ++ moves ++ joins) }
    ensures first { (state_of 3 1 leaves).moves ≡ move 0 0 3 1 ∷ move 1 0 3 1 ∷ [] }
    ensures moves { (state_of 3 1 (leaves ++ moves)).moves ≡ [] }
    ensures rows { (state_of 3 1 (leaves ++ moves)).groups ≡ row 0 metadata_name (1 ∷ []) 9 (3 ∷ [])
        ∷ row 1 default_name (1 ∷ []) 4 (3 ∷ []) ∷ row 2 g (2 ∷ []) 0 (2 ∷ []) ∷ [] }
    ensures left { (state_of 3 1 (leaves ++ moves ++ joins)).members ≡ (1, Active) ∷ (2, Active) ∷ (3, Active) ∷ [] }
    ensures none { (state_of 3 1 (leaves ++ moves ++ joins)).moves ≡ [] }
{}

/// Who joins takes over a group.
pub fn takes_one()
    ensures answers { Gives 2 1 takes_one }
    ensures moves { (state_of 2 1 takes_one).moves ≡ move 1 0 2 1 ∷ [] }
{}

/// Who joins takes over two groups of four.
pub fn takes_two()
    ensures answers { Gives 2 1 takes_two }
    ensures moves { (state_of 2 1 takes_two).moves ≡ move 4 0 2 1 ∷ [] }
{}

/// A member whose groups are being destroyed leaves once they have ended.
pub fn leaves_while_destroying()
    ensures answers { Gives 2 1 (leaves_while_destroying ++ leaves_at_last) }
    ensures moves { (state_of 2 1 leaves_while_destroying).moves ≡ move 2 0 1 2 ∷ [] }
    ensures leaving { (state_of 2 1 leaves_while_destroying).members ≡ (1, Active) ∷ (2, Leaving) ∷ [] }
    ensures out { (state_of 2 1 (leaves_while_destroying ++ leaves_at_last)).members ≡ (1, Active) ∷ (2, Out) ∷ [] }
{}

/// Groups that are being destroyed count for a member that is out.
pub fn takes_from_one_out()
    ensures answers { Gives 3 1 takes_from_one_out }
    ensures members { (state_of 3 1 takes_from_one_out).members ≡ (1, Out) ∷ (2, Active) ∷ (3, Active) ∷ [] }
    ensures groups { (state_of 3 1 takes_from_one_out).groups ≡ row 0 metadata_name (1 ∷ []) 5 (2 ∷ [])
        ∷ row 1 default_name (1 ∷ []) 5 (2 ∷ []) ∷ dying 6 a (1 ∷ []) ∷ dying 7 b (1 ∷ []) ∷ [] }
    ensures moves { (state_of 3 1 takes_from_one_out).moves ≡ move 6 0 3 1 ∷ [] }
{}

/// A leave spreads its groups: each move counts for the groups after it.
pub fn leaves_two_groups()
    ensures answers { Gives 3 1 leaves_two_groups }
    ensures moves { (state_of 3 1 leaves_two_groups).moves ≡ move 0 0 2 1 ∷ move 1 0 2 1 ∷ move 4 0 3 1 ∷ [] }
{}

/// A member that leaves gets no new group, and is out only once its groups have moved.
pub fn makes_while_leaving()
    ensures answers { Gives 3 1 (makes_while_leaving ++ leaves_after_moves) }
    ensures moves { (state_of 3 1 makes_while_leaving).moves ≡ move 1 0 2 1 ∷ [] }
    ensures leaving { (state_of 3 1 makes_while_leaving).members ≡ (1, Leaving) ∷ (2, Active) ∷ (3, Active) ∷ [] }
    ensures out { (state_of 3 1 (makes_while_leaving ++ leaves_after_moves)).members ≡ (1, Out) ∷ (2, Active) ∷ (3, Active) ∷ [] }
{}

/// The last active member does not leave.
pub fn last_stays()
    ensures { Gives 1 1 last_stays }
{}

/// Groups of all members get smaller by a leave, and stay so.
pub fn gets_smaller()
    ensures answers { Gives 3 3 gets_smaller }
    ensures moves { (state_of 3 3 gets_smaller).moves ≡ [] }
    ensures groups { (state_of 3 3 gets_smaller).groups ≡ row 0 metadata_name (1 ∷ 2 ∷ 3 ∷ []) 5 (2 ∷ 3 ∷ [])
        ∷ row 1 default_name (1 ∷ 2 ∷ 3 ∷ []) 6 (2 ∷ 3 ∷ []) ∷ [] }
{}

/// Sixty-four groups are the most.
pub fn fills_the_list()
    ensures room { (create 100 a 1 (with_groups 63)).answer ≡ group 100 (2 ∷ []) }
    ensures full { (create 100 a 1 (with_groups 64)).answer ≡ TableFull 64 }
{}

/// Each list stays in rising order of its keys: no number stands twice, and no group has two moves.
pub fn lists_stay_ordered()
    ensures { ListsStayOrdered }
{}

/// A group that has ended has no row.
pub fn ended_groups_are_gone()
    ensures { EndedGroupsAreGone }
{}

/// A move is of a group that has a row.
pub fn moves_stay_with_groups()
    ensures { MovesStayWithGroups }
{}

/// The number of a group is the index of the entry that made it.
pub fn numbers_are_indexes()
    ensures { NumbersAreIndexes }
{}

/// METADATA begins in a sound state.
pub fn first_state_is_sound()
    ensures { FirstStateIsSound }
{}

/// An entry that has a spelling, at an index of at most 2^62, leaves a sound state sound, and each answer that it gives
/// has a spelling.
pub fn entries_keep_states_sound()
    ensures { EntriesKeepStatesSound }
{}

/// In every history of entries that have spellings each state is sound, and each answer has a spelling.
pub fn histories_are_sound()
    ensures { HistoriesAreSound }
{}
