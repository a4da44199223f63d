//! What an event shows and commits.
ghost use Rattle.std.specs.Prelude.{◌≡◌, [], None};

use cp_base::{ClientNo, Items};
use cp_events::{Ignored, Opened, Return};
use cp_ops::Entry;
use std::alloc::Global;

/// What an event shows besides itself, and the entries that it committed.
#[derive(Drop)]
pub struct Turn {
    /// The event's number.
    pub number: u64,
    pub ignored: Option<Ignored>,
    pub opened: Items<(ClientNo, Opened)>,
    pub returns: Items<(ClientNo, Return)>,
    pub entries: Items<Entry>,
}

impl Turn {
    /// Nothing.
    pub fn new(alloc: Global) -> Turn
        ensures { result ≡ record { number = 0; ignored = None; opened = []; returns = []; entries = [] } }
    {
        Turn {
            number: 0,
            ignored: None,
            opened: Items::new(alloc),
            returns: Items::new(alloc),
            entries: Items::new(alloc),
        }
    }

    /// The event of this number begins.
    pub(crate) fn start(&mut self, number: u64)
        ensures { self.new ≡ record { number = number; ignored = None; opened = []; returns = []; entries = [] } }
    {
        self.number = number;
        self.ignored = None;
        self.opened.clear();
        self.returns.clear();
        self.entries.clear();
    }
}
