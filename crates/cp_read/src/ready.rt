//! Which reads a leader can answer.
ghost use Rattle.std.specs.Prelude.{◌≡◌, [], filter, not, position, IfOk, IsOk, OnOk};
ghost use Rattle.std.specs.List.{find, list_any};
ghost use Rattle.std.specs.Option.{option_copied};
ghost use Rattle.cp_read.specs.Looks.{ready, without_first};
ghost use Rattle.cp_replicate.specs.Decisions.{is_ready};

use crate::look::Look;
use cp_base::NoMemory;
use cp_replicate::is_ready;
use std::alloc::Global;
use std::mem;

/// So many reads that wait make a leader refuse another.
pub const MOST_LOOKS: u32 = 100;

/// Whether a read is ready.
fn is_ready_now(me: u8, members: &[u8], confirmed: &[u64; 10], applied: u64, look: &Look) -> bool
    ensures { result ≡ ready me members.now confirmed.now applied look.now }
{
    is_ready(me, members, confirmed, applied, look.index(), look.round())
}

/// The place of the first read that is ready.
fn place_of_ready(
    me: u8,
    members: &[u8],
    confirmed: &[u64; 10],
    applied: u64,
    looks: &[Look],
) -> Option<usize>
    ensures { result ≡ position (ready me members.now confirmed.now applied) looks.now }
{
    looks
        .iter()
        .position(|look| is_ready_now(me, members, confirmed, applied, look))
}

/// The first read that is ready.
#[tactic(auto, using(crate::proofs::First::found_there, crate::proofs::First::none_there))]
pub fn first_ready<'a>(
    me: u8,
    members: &[u8],
    confirmed: &[u64; 10],
    applied: u64,
    looks: &'a [Look],
) -> Option<&'a Look>
    ensures { option_copied result ≡ find (ready me members.now confirmed.now applied) looks.now }
{
    match place_of_ready(me, members, confirmed, applied, looks) {
        Some(place) => Some(&looks[place]),
        None => None,
    }
}

/// Takes out the first read that is ready.
#[tactic(auto, using(crate::proofs::First::found_there, crate::proofs::First::none_there))]
pub fn drop_first(
    me: u8,
    members: &[u8],
    confirmed: &[u64; 10],
    applied: u64,
    looks: &mut Vec<Look>,
) -> Option<Look>
    ensures look { result ≡ find (ready me members.now confirmed.now applied) looks.old.items }
    ensures rest { looks.new.items ≡ without_first (ready me members.now confirmed.now applied) looks.old.items }
{
    match place_of_ready(me, members, confirmed, applied, looks) {
        Some(place) => Some(looks.remove(place)),
        None => None,
    }
}

/// Whether any of these reads is ready.
fn has_ready(me: u8, members: &[u8], confirmed: &[u64; 10], applied: u64, looks: &[Look]) -> bool
    ensures { result ≡ list_any (ready me members.now confirmed.now applied) looks.now }
{
    looks
        .iter()
        .any(|look| is_ready_now(me, members, confirmed, applied, look))
}

/// Takes out the reads that are ready, in their order.
fn split_ready(
    alloc: Global,
    me: u8,
    members: &[u8],
    confirmed: &[u64; 10],
    applied: u64,
    looks: &mut Vec<Look>,
) -> Result<Vec<Look>, NoMemory>
    ensures ready { IfOk result (λ taken. taken.items ≡ filter (ready me members.now confirmed.now applied) looks.old.items) }
    ensures waiting { OnOk result (looks.new.items ≡ filter
        (λ look. not (ready me members.now confirmed.now applied look)) looks.old.items) }
{
    let mut taken = Vec::new(alloc);
    let mut waiting = Vec::new(alloc);
    let all = mem::replace(looks, Vec::new(alloc));
    for look in all {
        if is_ready_now(me, members, confirmed, applied, &look) {
            taken.push(look)?;
        } else {
            waiting.push(look)?;
        }
    }
    *looks = waiting;
    Ok(taken)
}

/// Takes out the reads that are ready, in their order. Where none is, it takes no memory.
#[tactic(auto, using(crate::proofs::Passing::none_passes, crate::proofs::Passing::passes_none))]
pub fn take_ready(
    alloc: Global,
    me: u8,
    members: &[u8],
    confirmed: &[u64; 10],
    applied: u64,
    looks: &mut Vec<Look>,
) -> Result<Vec<Look>, NoMemory>
    ensures ready { IfOk result (λ taken. taken.items ≡ filter (ready me members.now confirmed.now applied) looks.old.items) }
    ensures waiting { OnOk result (looks.new.items ≡ filter
        (λ look. not (ready me members.now confirmed.now applied look)) looks.old.items) }
    ensures frugal { filter (ready me members.now confirmed.now applied) looks.old.items ≡ [] → IsOk result }
{
    if has_ready(me, members, confirmed, applied, looks) {
        split_ready(alloc, me, members, confirmed, applied, looks)
    } else {
        Ok(Vec::new(alloc))
    }
}
