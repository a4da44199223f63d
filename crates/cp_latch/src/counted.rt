//! The calls that were counted in a round of a latch.
ghost use Rattle.std.specs.Prelude.{◌≡◌, ◌<◌, ◌||◌, [], ◌∷◌, ◌++◌, IfOk, OnOk, OnErr, length, vec_len, vec_capacity};
ghost use Rattle.cp_base.specs.declared.identifier.Invocation.{Invocation};
ghost use Rattle.cp_group_state.specs.Waiters.{same_call};
ghost use Rattle.cp_latch.specs.Counted.{is_among, Knows};

use cp_base::{Invocation, Items, NoMemory};
use std::alloc::Global;
use std::collections::HashSet;
use std::marker::Model;

/// The calls that were counted, which contracts see as their list in order of arrival. A set of the same calls serves
/// to find one.
#[derive(Debug, Drop)]
pub struct Counted {
    calls: Vec<Invocation>,
    known: HashSet<Invocation>,
}

impl Model for Counted {
    ghost use Rattle.std.specs.Prelude.{List};
    ghost use Rattle.cp_base.specs.declared.identifier.Invocation.{Invocation};
    ghost use Rattle.cp_latch.specs.Counted.{Knows};

    ghost Value = { List Invocation };

    ghost view = { λ counted. counted.calls.items };

    ghost invariant = { λ counted. Knows counted.known.keys counted.calls.items };
}

/// Whether a set has a call.
fn has(known: &HashSet<Invocation>, call: &Invocation) -> bool
    ensures { result ≡ is_among call.now known.now.keys }
{
    known.contains(call)
}

/// Puts a call into a set, or leaves the set.
fn learn(known: &mut HashSet<Invocation>, call: &Invocation) -> Result<(), NoMemory>
    ensures ok { OnOk result ((other : Invocation) → is_among other
        known.new.keys ≡ (is_among other known.old.keys || same_call other call.now)) }
    ensures err { OnErr result (known.new.keys ≡ known.old.keys) }
{
    known.insert(*call)?;
    Ok(())
}

/// Puts a call at the end of a list that has room.
fn put(calls: &mut Vec<Invocation>, call: &Invocation)
    requires { vec_len calls.old < vec_capacity calls.old }
    ensures { calls.new.items ≡ calls.old.items ++ call.now ∷ [] }
{
    match calls.push(*call) {
        Ok(()) => {}
        Err(_full) => unreachable!(),
    }
}

/// Puts a call at the end of a list and into the set of its calls, or leaves both.
#[tactic(auto, using(crate::proofs::Known::knows_more))]
fn count(
    calls: &mut Vec<Invocation>,
    known: &mut HashSet<Invocation>,
    call: &Invocation,
) -> Result<(), NoMemory>
    requires { Knows known.old.keys calls.old.items }
    ensures ok { OnOk result (calls.new.items ≡ calls.old.items ++ call.now ∷ []) }
    ensures err { OnErr result (calls.new.items ≡ calls.old.items) }
    ensures known { Knows known.new.keys calls.new.items }
{
    calls.reserve(1)?;
    learn(known, call)?;
    put(calls, call);
    Ok(())
}

/// The set of these calls.
#[tactic(auto, using(crate::proofs::Known::knows_all, crate::proofs::Known::knows_next, crate::proofs::Known::knows_none))]
fn set_of(alloc: Global, calls: &[Invocation]) -> Result<HashSet<Invocation>, NoMemory>
    ensures { IfOk result (λ known. Knows known.keys calls.now) }
{
    let mut known = HashSet::new(alloc);
    let mut rest = calls;
    while let [call, after @ ..] = rest {
        learn(&mut known, call)?;
        rest = after;
    }
    Ok(known)
}

impl Counted {
    /// No calls.
    pub fn new(alloc: Global) -> Counted
        ensures { result ≡ [] }
    {
        Counted {
            calls: Vec::new(alloc),
            known: HashSet::new(alloc),
        }
    }

    /// These calls, in order of arrival.
    pub fn from_calls(alloc: Global, calls: Items<Invocation>) -> Result<Counted, NoMemory>
        ensures { IfOk result (λ counted. counted ≡ calls) }
    {
        let known = set_of(alloc, calls.as_slice())?;
        Ok(Counted {
            calls: calls.into_vec(),
            known,
        })
    }

    /// The calls, in order of arrival.
    pub fn calls(&self) -> &[Invocation]
        ensures { result.now ≡ self.now }
    {
        &self.calls
    }

    /// Whether a call was counted.
    pub fn has(&self, call: &Invocation) -> bool
        ensures { result ≡ is_among call.now self.now }
    {
        has(&self.known, call)
    }

    /// Counts a call, or leaves the calls.
    pub fn push(&mut self, call: &Invocation) -> Result<(), NoMemory>
        ensures ok { OnOk result (self.new ≡ self.old ++ call.now ∷ []) }
        ensures err { OnErr result (self.new ≡ self.old) }
    {
        count(&mut self.calls, &mut self.known, call)
    }
}
