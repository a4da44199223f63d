//! Apart from `cp_group_state` for the time of its check alone: every state that a group's history reaches, and every
//! answer that it gives, can be spelled. No code: the functions below state laws of the state machine of
//! `cp_group_state`, over the formats of `cp_ops` and `cp_answers`.
#![tactic(auto)]

ghost use Rattle.cp_group_ranges.specs.Laws.{FirstStateIsSound, EntriesKeepStatesSound, HistoriesAreSound, SoundHoldingsStand};
ghost use Rattle.cp_group_ranges.specs.Laws.{EntriesKeepOwners, OwnedRowsAreCounted, HistoriesAreCounted};

/// A group begins in a sound state.
pub fn first_state_is_sound()
    ensures { FirstStateIsSound }
{}

/// An entry that has a spelling, at an index of at most 2^62, leaves a sound state sound, and each answer that it gives
/// has a spelling.
pub fn entries_keep_states_sound()
    ensures { EntriesKeepStatesSound }
{}

/// In every history of entries that have spellings each state is sound, and each answer has a spelling.
pub fn histories_are_sound()
    ensures { HistoriesAreSound }
{}

/// In a sound state a session holds one permit or more, of a semaphore that is there.
pub fn sound_holdings_stand()
    ensures { SoundHoldingsStand }
{}

/// Where permits are held and calls are remembered for open sessions alone, every entry leaves it so.
pub fn entries_keep_owners()
    ensures { EntriesKeepOwners }
{}

/// In a sound state where permits are held and calls are remembered for open sessions alone there are at most
/// 100,000,000 holdings and 90,000 memory rows.
pub fn owned_rows_are_counted()
    ensures { OwnedRowsAreCounted }
{}

/// In every history of entries that have spellings no state has more holdings or memory rows than that.
pub fn histories_are_counted()
    ensures { HistoriesAreCounted }
{}
