//! Calls in the order in which they came.
ghost use Rattle.std.specs.Prelude.{◌≡◌, ◌==◌, [], length, OnOk, OnErr};
ghost use Rattle.cp_wait.specs.Arrivals.{with_call, without_call};

use cp_base::{Invocation, NoMemory};
use indexmap::IndexSet;
use std::alloc::Global;
use std::marker::Model;

/// Calls in the order in which they came, each once. Contracts see their list.
#[derive(Drop)]
pub(crate) struct Calls {
    calls: IndexSet<Invocation>,
}

impl Model for Calls {
    ghost use Rattle.std.specs.Prelude.{List};
    ghost use Rattle.cp_base.specs.declared.identifier.Invocation.{Invocation};

    ghost Value = { List Invocation };

    ghost view = { λ c. c.calls.keys };
}

impl Calls {
    /// No call.
    pub(crate) fn new(alloc: Global) -> Calls
        ensures { result ≡ [] }
    {
        Calls {
            calls: IndexSet::new(alloc),
        }
    }

    /// The calls, lent.
    pub(crate) fn as_slice(&self) -> &[Invocation]
        ensures { result.now ≡ self.now }
    {
        self.calls.as_slice()
    }

    /// Whether there is no call.
    pub(crate) fn is_empty(&self) -> bool
        ensures { result ≡ (length self.now == 0) }
    {
        self.calls.is_empty()
    }

    /// A call comes last, unless it is there. Where memory runs out, the calls stay.
    pub(crate) fn add(&mut self, call: Invocation) -> Result<(), NoMemory>
        ensures ok { OnOk result (self.new ≡ with_call self.old call) }
        ensures err { OnErr result (self.new ≡ self.old) }
    {
        self.calls.insert(call)?;
        Ok(())
    }

    /// A call leaves, where it is there.
    pub(crate) fn remove(&mut self, call: &Invocation)
        ensures { self.new ≡ without_call self.old call.now }
    {
        self.calls.shift_remove(call);
    }
}
