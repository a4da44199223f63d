//! METADATA's lists.
ghost use Rattle.std.specs.Prelude.{◌≡◌};
ghost use Rattle.cp_meta.specs.Stepping.{nothing};

use cp_meta_state::{GroupRow, MoveRow, Standing};
use std::alloc::Global;
use std::collections::BTreeMap;
use std::marker::Model;

/// METADATA's lists, which contracts see as its state. After want of memory in a call that changes them, they are only
/// dropped.
#[derive(Drop)]
pub struct MetaTables {
    pub(crate) alloc: Global,
    pub(crate) members: BTreeMap<u8, Standing>,
    pub(crate) groups: BTreeMap<u64, GroupRow>,
    pub(crate) destroyed: BTreeMap<u64, ()>,
    pub(crate) moves: BTreeMap<u64, MoveRow>,
}

impl Model for MetaTables {
    ghost use Rattle.cp_meta_state.specs.MetaState.{MetaState};

    ghost Value = { MetaState };

    ghost view = { λ t. record {
      members = t.members.entries;
      groups = t.groups.entries;
      destroyed = t.destroyed.entries;
      moves = t.moves.entries;
    } };
}

impl MetaTables {
    /// Lists without rows.
    pub fn nothing(alloc: Global) -> MetaTables
        ensures { result ≡ nothing }
    {
        MetaTables {
            alloc,
            members: BTreeMap::new(alloc),
            groups: BTreeMap::new(alloc),
            destroyed: BTreeMap::new(alloc),
            moves: BTreeMap::new(alloc),
        }
    }
}
