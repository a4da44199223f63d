//! The machine of METADATA: it applies the entries of METADATA's log to its lists.
#![tactic(auto)]

mod answering;
mod changes;
mod chosen;
mod creating;
mod destroying;
mod first;
mod joining;
mod lawful;
mod leaving;
mod loads;
mod machine;
mod moving;
mod row;
mod rows;
mod snapshot;
mod standings;
mod steps;
mod tables;

pub use answering::answers_have_causes;
pub use cp_meta_state::{GroupRow, MoveRow, Standing};
pub use machine::MetaMachine;
pub use tables::MetaTables;
