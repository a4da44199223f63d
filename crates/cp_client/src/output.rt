//! What the steps of a client give.
ghost use Rattle.std.specs.Prelude.{◌≡◌, []};
ghost use Rattle.cp_ops.specs.declared.entry.Entry.TheVariants as entry;

use cp_base::{GroupId, Invocation, Items};
use cp_events::{Opened, Return};
use cp_ops::{Entry, Op};
use std::alloc::Global;
use std::marker::Model;

/// A request that begins, which contracts see as the definitions' request.
#[derive(Drop)]
pub struct Asked {
    pub group: GroupId,
    pub call: Invocation,
    pub op: Op,
}

impl Model for Asked {
    ghost use Rattle.cp_client_rules.specs.Clients as rules;

    ghost Value = { rules.Asked };

    ghost view = { λ asked. record { group = asked.group; call = asked.call; op = asked.op } };
}

impl Asked {
    /// The request as an entry of its group's log.
    pub fn into_entry(self) -> Entry
        ensures { result ≡ entry.Call self.call self.op }
    {
        let Asked { group: _, call, op } = self;
        Entry::Call(call, op)
    }
}

/// What the steps of a client gave so far: the requests that began, the sessions that it opened, and the calls that
/// returned.
#[derive(Drop)]
pub struct ClientOut {
    pub asked: Items<Asked>,
    pub opened: Items<Opened>,
    pub returns: Items<Return>,
}

impl ClientOut {
    /// Nothing.
    pub fn new(alloc: Global) -> ClientOut
        ensures { result ≡ record { asked = []; opened = []; returns = [] } }
    {
        ClientOut {
            asked: Items::new(alloc),
            opened: Items::new(alloc),
            returns: Items::new(alloc),
        }
    }

    /// Nothing again, in the memory that there is.
    pub fn clear(&mut self)
        ensures { self.new ≡ record { asked = []; opened = []; returns = [] } }
    {
        self.asked.clear();
        self.opened.clear();
        self.returns.clear();
    }
}
