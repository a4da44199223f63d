//! Groups have moved.
ghost use Rattle.std.specs.Prelude.{◌≡◌, OnOk};
ghost use Rattle.cp_meta_state.specs.Moving.{end_move, settled};

use crate::changes::{configure, copy};
use crate::tables::MetaTables;
use cp_base::NoMemory;

impl MetaTables {
    /// The group has this configuration, and its move goes.
    fn settle(&mut self, group: u64, index: u64, members: &[u8]) -> Result<(), NoMemory>
        ensures { OnOk result (self.new ≡ settled group index members.now self.old) }
    {
        let members = copy(self.alloc, members)?;
        configure(&mut self.groups, group, index, members);
        self.moves.remove(&group);
        Ok(())
    }

    /// The group has the configuration of this index. One that isn't above the plan of the group's move is an older one.
    pub(crate) fn end_move(
        &mut self,
        group: u64,
        index: u64,
        members: &[u8],
    ) -> Result<(), NoMemory>
        ensures { OnOk result (self.new ≡ end_move group index members.now self.old) }
    {
        let is_done = match self.moves.get(&group) {
            Some(row) => row.plan < index,
            None => false,
        };
        if is_done {
            self.settle(group, index, members)?;
        }
        Ok(())
    }
}
