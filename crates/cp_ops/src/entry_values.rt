//! Values that entries hold: invocations, and the lists of what expired.
ghost use Rattle.std.specs.Prelude.{◌≡◌, ◌++◌, OnOk};
ghost use Rattle.cp_base.specs.Text.{Grew};
ghost use Rattle.cp_grammar.specs.Readers.{Reads};
ghost use Rattle.cp_ops.specs.EntryValues.{session_list, optional_invocation, invocation_text, for_text, pairs_text, wait_text, waits_text};

use cp_base::limits::MOST_EXPIRED;
use cp_base::{Invocation, Items, NoMemory, write_decimal};
use cp_grammar::{Spelled, Stop, append_list, append_u8, take_list, take_u8};
use std::alloc::Global;

/// From 1 to 100 sessions with their versions.
#[tactic(auto, unfolding(crate::specs::EntryValues::session_list))]
pub fn take_sessions(alloc: Global, bytes: &[u8]) -> Result<(Items<(u64, u64)>, &[u8]), Stop>
    ensures { Reads result (session_list.reading bytes.now) }
{
    let (pairs, rest) = take_list(alloc, 1, MOST_EXPIRED, bytes)?;
    Ok((Items::from_vec(pairs), rest))
}

/// Appends sessions with their versions.
#[tactic(auto, unfolding(crate::specs::EntryValues::session_list))]
pub fn append_sessions(list: &Items<(u64, u64)>, out: &mut Vec<u8>) -> Result<(), NoMemory>
    requires { session_list.Fits list.now }
    ensures { OnOk result (out.new.items ≡ out.old.items ++ session_list.spelling list.now) }
{
    append_list(list.as_slice(), out)
}

/// An invocation, or none.
#[tactic(auto, unfolding(crate::specs::EntryValues::optional_invocation))]
pub fn take_optional_invocation(
    alloc: Global,
    bytes: &[u8],
) -> Result<(Option<Invocation>, &[u8]), Stop>
    ensures { Reads result (optional_invocation.reading bytes.now) }
{
    let (flag, rest) = take_u8(bytes, 1)?;
    match flag {
        0 => Ok((None, rest)),
        1 => match Invocation::take(alloc, rest) {
            Ok((call, rest)) => Ok((Some(call), rest)),
            Err(stop) => Err(stop),
        },
        _ => Err(Stop::Left(rest.len())),
    }
}

/// Appends an invocation, or none.
#[tactic(auto, unfolding(crate::specs::EntryValues::optional_invocation))]
pub fn append_optional_invocation(
    call: &Option<Invocation>,
    out: &mut Vec<u8>,
) -> Result<(), NoMemory>
    requires { optional_invocation.Fits call.now }
    ensures { OnOk result (out.new.items ≡ out.old.items ++ optional_invocation.spelling call.now) }
{
    match call {
        None => append_u8(0, out)?,
        Some(call) => {
            append_u8(1, out)?;
            call.append(out)?;
        }
    }
    Ok(())
}

/// Appends `C T N`.
pub fn append_invocation_text(call: &Invocation, out: &mut Vec<u8>) -> Result<(), NoMemory>
    ensures ok { OnOk result (out.new.items ≡ out.old.items ++ invocation_text call.now) }
    ensures grew { Grew out.old.items out.new.items }
{
    write_decimal(u64::from(call.client.number()), out)?;
    out.push(b' ')?;
    write_decimal(u64::from(call.thread.0), out)?;
    out.push(b' ')?;
    write_decimal(call.number, out)?;
    Ok(())
}

/// Appends ` for C T N`, or nothing.
pub fn append_for_text(call: &Option<Invocation>, out: &mut Vec<u8>) -> Result<(), NoMemory>
    ensures ok { OnOk result (out.new.items ≡ out.old.items ++ for_text call.now) }
    ensures grew { Grew out.old.items out.new.items }
{
    if let Some(call) = call {
        out.extend_from_slice(b" for ")?;
        append_invocation_text(call, out)?;
    }
    Ok(())
}

/// Appends `S:V` for each session after a space.
pub fn append_pairs_text(pairs: &[(u64, u64)], out: &mut Vec<u8>) -> Result<(), NoMemory>
    ensures ok { OnOk result (out.new.items ≡ out.old.items ++ pairs_text pairs.now) }
    ensures grew { Grew out.old.items out.new.items }
{
    let mut rest = pairs;
    while let [pair, after @ ..] = rest {
        out.push(b' ')?;
        write_decimal(pair.0, out)?;
        out.push(b':')?;
        write_decimal(pair.1, out)?;
        rest = after;
    }
    Ok(())
}

fn append_wait_text(call: &Invocation, out: &mut Vec<u8>) -> Result<(), NoMemory>
    ensures ok { OnOk result (out.new.items ≡ out.old.items ++ wait_text call.now) }
    ensures grew { Grew out.old.items out.new.items }
{
    out.push(b' ')?;
    write_decimal(u64::from(call.client.number()), out)?;
    out.push(b'/')?;
    write_decimal(u64::from(call.thread.0), out)?;
    out.push(b'/')?;
    write_decimal(call.number, out)?;
    Ok(())
}

/// Appends `C/T/N` for each invocation after a space.
#[tactic(auto, unfolding(crate::specs::EntryValues::waits_text))]
fn append_waits_text(calls: &[Invocation], out: &mut Vec<u8>) -> Result<(), NoMemory>
    ensures ok { OnOk result (out.new.items ≡ out.old.items ++ waits_text calls.now) }
    ensures grew { Grew out.old.items out.new.items }
{
    let mut rest = calls;
    while let [call, after @ ..] = rest {
        append_wait_text(call, out)?;
        rest = after;
    }
    Ok(())
}

/// Appends words, and `C/T/N` for each invocation after a space.
pub fn append_worded_waits(
    words: &[u8],
    calls: &Items<Invocation>,
    out: &mut Vec<u8>,
) -> Result<(), NoMemory>
    ensures ok { OnOk result (out.new.items ≡ out.old.items ++ (words.now ++ waits_text calls.now)) }
    ensures grew { Grew out.old.items out.new.items }
{
    out.extend_from_slice(words)?;
    append_waits_text(calls.as_slice(), out)?;
    Ok(())
}
