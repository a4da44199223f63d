//! What a step hands to its caller.
ghost use Rattle.std.specs.Prelude.{◌≡◌, ◌≤◌, false, [], OnOk};
ghost use Rattle.cp_raft_state.specs.Room.{spare};

use cp_base::NoMemory;
use cp_message::Message;
use cp_raft_state::Look;
use std::alloc::Global;

/// What a step hands to its caller: its messages, and what it did.
#[derive(Debug, Drop)]
pub struct RaftOut {
    pub messages: Vec<Message>,
    /// The member's commit after the step.
    pub commit: u64,
    pub stepped_down: bool,
    pub took_office: bool,
    /// Whether a snapshot of another was installed.
    pub installed: bool,
    pub wrote: bool,
    /// The reads that can be answered after the step.
    pub looks: Vec<Look>,
    /// The reads that were lost in the step.
    pub lost: Vec<Look>,
}

impl RaftOut {
    ghost use Rattle.cp_raft.specs.Outs.{IsUntouched};

    pub fn new(alloc: Global) -> RaftOut
        ensures messages { result.messages.items ≡ [] }
        ensures commit { result.commit ≡ 0 }
        ensures flags { (result.stepped_down ≡ false) × (result.took_office ≡ false) × (result.installed ≡ false) × (result.wrote ≡ false) }
        ensures reads { (result.looks.items ≡ []) × (result.lost.items ≡ []) }
    {
        RaftOut {
            messages: Vec::new(alloc),
            commit: 0,
            stepped_down: false,
            took_office: false,
            installed: false,
            wrote: false,
            looks: Vec::new(alloc),
            lost: Vec::new(alloc),
        }
    }

    /// Makes room for so many messages.
    pub fn reserve(&mut self, n: usize) -> Result<(), NoMemory>
        ensures room { OnOk result (n ≤ spare self.new.messages) }
        ensures untouched { IsUntouched self.old self.new }
    {
        match self.messages.reserve(n) {
            Ok(()) => Ok(()),
            Err(_) => Err(NoMemory),
        }
    }
}
