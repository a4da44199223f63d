//! The state of a group as bytes: which bytes spell a state, and the state that they restore.
#![tactic(auto)]

ghost use Rattle.cp_state_bytes.specs.Laws.{StatesComeBack, RestoredStatesAreSound};

mod group_rows;
mod holdings;
mod keys;
mod latches;
mod lent;
mod lists;
mod parts;
mod reading;
mod row;
mod rows;
mod rules;
mod version;
mod writing;
mod written_holdings;
mod written_row;
mod written_rows;

pub use group_rows::GroupRows;
pub use holdings::take_holdings;
pub use latches::take_latches;
pub use lent::LentState;
pub use lists::{
    take_gone, take_locks, take_longs, take_memory, take_pairs, take_refs, take_semaphores,
    take_sessions, take_waiters,
};
pub use reading::read;
pub use row::{Row, take_rows};
pub use version::Version;
pub use writing::write;

/// A sound state is restored from its bytes.
pub fn states_come_back()
    ensures { StatesComeBack }
{}

/// What bytes restore is a sound state.
pub fn restored_states_are_sound()
    ensures { RestoredStatesAreSound }
{}
