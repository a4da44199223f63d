//! The world of a schedule without members.
ghost use Rattle.std.specs.Prelude.{◌≡◌, IfOk, OnOk};
ghost use Rattle.cp_world_rules.specs.World.{World as Rules, new_world};
ghost use Rattle.cp_world.specs.Following.{Follows, IsStep};
ghost use Rattle.cp_world.specs.Rooms.{IsReached};

use crate::event;
use crate::turn::Turn;
use cp_answers::Answer;
use cp_base::{Invocation, Items, NoMemory};
use cp_client::{Client, ClientOut};
use cp_events::{Event, Plan};
use cp_group_tables::GroupTables;
use std::alloc::Global;
use std::collections::BTreeMap;
use std::mem;

/// Clients, and the one group, whose history each request enters at once. After want of memory in a step, it is only
/// dropped.
#[derive(Drop)]
pub struct World {
    pub(crate) alloc: Global,
    /// By number.
    pub(crate) clients: BTreeMap<u8, Client>,
    pub(crate) tables: GroupTables,
    /// How many entries the history has.
    pub(crate) entries: u64,
    /// How many events are over.
    pub(crate) events: u64,
    /// The answers that wait to be handed on.
    pub(crate) queue: Items<(Invocation, Answer)>,
    /// Memory for the next queue, of no items.
    pub(crate) spare: Items<(Invocation, Answer)>,
    /// Memory for what the next step of a client gives.
    pub(crate) given: ClientOut,
}

impl World {
    /// The world before the first event.
    pub fn new(alloc: Global) -> Result<World, NoMemory>
        ensures { IfOk result (λ world. Follows new_world world) }
    {
        Ok(World {
            alloc,
            clients: BTreeMap::new(alloc),
            tables: GroupTables::new(alloc)?,
            entries: 0,
            events: 0,
            queue: Items::new(alloc),
            spare: Items::new(alloc),
            given: ClientOut::new(alloc),
        })
    }

    /// The next event. What it shows and the entries that it committed stand in the turn afterwards.
    pub fn step(&mut self, plan: &Plan, event: &Event, turn: &mut Turn) -> Result<(), NoMemory>
        requires { IsReached plan.now self.old }
        ensures { OnOk result ((w : Rules) → Follows w self.old → IsStep plan.now event.now w self.new turn.new) }
    {
        let mut given = mem::replace(&mut self.given, ClientOut::new(self.alloc));
        event::step(self, plan, event, &mut given, turn)?;
        self.given = given;
        Ok(())
    }
}
