//! Objects that are destroyed.
ghost use Rattle.std.specs.Prelude.{◌≡◌, ◌++◌, if◌then◌else◌, IfOk, OnOk};
ghost use Rattle.cp_group_state.specs.Rows.{has_room, most, object_cmp};
ghost use Rattle.cp_group_state.specs.declared.outcome.Reply.TheVariants.{Answered};
ghost use Rattle.cp_group_state.specs.Destroying.{add_gone, destroy_rule, drop_rows};
ghost use Rattle.cp_group_state.specs.Apply.{told};

use crate::ending::Ending;
use crate::tables::GroupTables;
use cp_base::limits::MOST_ROWS;
use cp_base::{Invocation, Items, Name, NoMemory};
use cp_ops::{Answer, Kind};

impl GroupTables {
    /// What the tables have of an object goes.
    fn drop_rows(&mut self, kind: Kind, name: &Name) -> Result<(), NoMemory>
        ensures { OnOk result (self.new ≡ drop_rows name.now kind self.old) }
    {
        match kind {
            Kind::Long => self.longs.destroy(name),
            Kind::Ref => self.refs.destroy(name),
            Kind::Lock => self.locks.destroy(name),
            Kind::Sem => self.semaphores.destroy(Kind::Sem, name)?,
            Kind::Jsem => self.semaphores.destroy(Kind::Jsem, name)?,
            Kind::Latch => self.latches.destroy(name),
            Kind::Map => self.maps.destroy(name),
        }
        Ok(())
    }

    /// The name is taken for good, where there is room, and gives whether there is.
    fn add_gone(&mut self, kind: Kind, name: &Name) -> Result<bool, NoMemory>
        ensures room { IfOk result (λ added. added ≡ has_room object_cmp most self.old.gone (name.now, kind)) }
        ensures state { IfOk result (λ added. self.new ≡ (if added then add_gone (name.now, kind) self.old else self.old)) }
    {
        let added = self.gone.add(kind, name)?;
        Ok(added)
    }

    /// An object goes, its waiters end, and its name is taken for good.
    #[tactic(auto, using(crate::proofs::RuleCases::gone_last))]
    pub(crate) fn destroy_rule(
        &mut self,
        kind: Kind,
        name: &Name,
        out: &mut Items<(Invocation, Answer)>,
    ) -> Result<Answer, NoMemory>
        ensures state { OnOk result (self.new ≡ (destroy_rule kind name.now self.old).change.state) }
        ensures told { OnOk result (out.new ≡ out.old ++ told (destroy_rule kind name.now self.old).change.ended) }
        ensures reply { IfOk result (λ answer. (destroy_rule kind name.now self.old).reply ≡ Answered answer) }
    {
        if !self.add_gone(kind, name)? {
            return Ok(Answer::TableFull(MOST_ROWS));
        }
        self.drop_rows(kind, name)?;
        self.end_on_object(kind, name, Ending::ObjectDestroyed, out)?;
        Ok(Answer::Ok)
    }
}
