//! Reads the header, line by line.
ghost use Rattle.std.specs.Prelude.{◌≡◌, ◌≤◌, IfOk};
ghost use Rattle.cp_grammar.specs.Lists.{until};
ghost use Rattle.cp_grammar.specs.Readers.{Reads, Gives};
ghost use Rattle.cp_schedule.specs.Header.{opening, size_line, clients_line, snapshot_line, groups_words, which_groups, groups_line, is_limited, may_follow, limit_line, limit_lines, reads_words, which_reads, reads_line, header_behind, header, is_size};

use crate::fronts::behind;
use cp_base::{Items, Name};
use cp_call_words::{take_between_word, take_name_word};
use cp_events::{Groups, HoldLimit, Plan};
use cp_grammar::{LINE, SPACE, Stop, is_token, take_number_word, take_token};
use std::alloc::Global;

const MOST_MEMBERS: u64 = 9;

const MOST_SIZE: u64 = 7;

const MOST_CLIENTS: u64 = 16;

const MOST_SNAPSHOT: u64 = 1_000_000;

const MOST_LIMITS: usize = 16;

const MOST_HOLDS: u64 = 0x7fff_ffff;

/// The number of members, which the first two lines tell, and the bytes behind them.
#[tactic(auto, unfolding(crate::specs::Header::opening))]
pub fn take_opening(bytes: &[u8]) -> Result<(u64, &[u8]), Stop>
    ensures reads { Reads result (opening.reading bytes.now) }
    ensures bound { IfOk result (λ x. x.0 ≤ 9) }
{
    let Some(rest) = behind(b"cp 1\n", bytes) else {
        return Err(Stop::Left(bytes.len()));
    };
    let Some(number) = behind(b"members ", rest) else {
        return Err(Stop::Left(rest.len()));
    };
    take_number_word(number, LINE, MOST_MEMBERS)
}

fn is_size(members: u64, size: u64) -> bool
    ensures { result ≡ is_size members size }
{
    matches!(size, 1 | 3 | 5 | 7) && size <= members.max(1)
}

#[tactic(auto, unfolding(crate::specs::Header::size_line))]
fn take_size(members: u64, bytes: &[u8]) -> Result<(u64, &[u8]), Stop>
    ensures reads { Reads result ((size_line members).reading bytes.now) }
    ensures bound { IfOk result (λ x. x.0 ≤ 7) }
{
    let Some(number) = behind(b"size ", bytes) else {
        return Err(Stop::Left(bytes.len()));
    };
    let (size, rest) = take_number_word(number, LINE, MOST_SIZE)?;
    if is_size(members, size) {
        Ok((size, rest))
    } else {
        Err(Stop::Left(number.len()))
    }
}

#[tactic(auto, unfolding(crate::specs::Header::clients_line))]
fn take_clients(bytes: &[u8]) -> Result<(u64, &[u8]), Stop>
    ensures reads { Reads result (clients_line.reading bytes.now) }
    ensures bound { IfOk result (λ x. x.0 ≤ 16) }
{
    match behind(b"clients ", bytes) {
        Some(number) => take_between_word(number, LINE, 1, MOST_CLIENTS),
        None => Err(Stop::Left(bytes.len())),
    }
}

#[tactic(auto, unfolding(crate::specs::Header::snapshot_line))]
fn take_snapshot(bytes: &[u8]) -> Result<(Option<u32>, &[u8]), Stop>
    ensures { Reads result (snapshot_line.reading bytes.now) }
{
    let Some(number) = behind(b"snapshot ", bytes) else {
        return Ok((None, bytes));
    };
    let (distance, rest) = take_between_word(number, LINE, 1, MOST_SNAPSHOT)?;
    Ok((Some(distance as u32), rest))
}

#[tactic(auto, unfolding(crate::specs::Header::groups_words))]
fn take_groups_words(bytes: &[u8]) -> Result<(Groups, &[u8]), Stop>
    ensures { Reads result (groups_words.reading bytes.now) }
{
    let (word, end, rest) = take_token(bytes)?;
    if is_token(word, end, b"fixed", LINE) {
        return Ok((Groups::Fixed, rest));
    }
    if is_token(word, end, b"managed", LINE) {
        return Ok((Groups::Managed, rest));
    }
    Err(Stop::Left(rest.len()))
}

/// A word that is not known fails where it begins, and not behind its line feed.
#[tactic(auto, unfolding(crate::specs::Header::which_groups))]
fn take_which_groups(bytes: &[u8]) -> Result<(Groups, &[u8]), Stop>
    ensures { Reads result (which_groups.reading bytes.now) }
{
    match take_groups_words(bytes) {
        Ok(groups) => Ok(groups),
        Err(Stop::Left(_)) => Err(Stop::Left(bytes.len())),
        Err(Stop::NoMemory) => Err(Stop::NoMemory),
    }
}

#[tactic(auto, unfolding(crate::specs::Header::groups_line))]
fn take_groups(members: u64, bytes: &[u8]) -> Result<(Option<Groups>, &[u8]), Stop>
    ensures { Reads result ((groups_line members).reading bytes.now) }
{
    let Some(word) = behind(b"groups ", bytes) else {
        return Ok((None, bytes));
    };
    let (groups, rest) = take_which_groups(word)?;
    match groups {
        Groups::Managed if members == 0 => Err(Stop::Left(word.len())),
        _ => Ok((Some(groups), rest)),
    }
}

fn is_limited(before: &[HoldLimit], lock: &Name) -> bool
    ensures { result ≡ is_limited before.now lock.now }
{
    before.iter().any(|other| other.lock == *lock)
}

fn may_follow(before: &[HoldLimit], limit: &HoldLimit) -> bool
    ensures { result ≡ may_follow before.now limit.now }
{
    before.len() < MOST_LIMITS && !is_limited(before, &limit.lock)
}

#[tactic(auto, unfolding(crate::specs::Header::limit_line))]
fn take_limit<'a>(
    alloc: Global,
    before: &[HoldLimit],
    bytes: &'a [u8],
) -> Result<(Option<HoldLimit>, &'a [u8]), Stop>
    ensures { Reads result ((limit_line before.now).reading bytes.now) }
{
    let Some(words) = behind(b"limit ", bytes) else {
        return Ok((None, bytes));
    };
    let (lock, rest) = take_name_word(alloc, words, SPACE)?;
    let (holds, rest) = take_between_word(rest, LINE, 1, MOST_HOLDS)?;
    let limit = HoldLimit {
        lock,
        holds: holds as u32,
    };
    if may_follow(before, &limit) {
        Ok((Some(limit), rest))
    } else {
        Err(Stop::Left(words.len()))
    }
}

fn take_limit_rows(alloc: Global, bytes: &[u8]) -> Result<(Vec<HoldLimit>, &[u8]), Stop>
    ensures { Gives (λ x. (x.0.items, x.1.now)) result ((until limit_line).reading bytes.now) }
{
    let mut limits = Vec::new(alloc);
    let mut rest = bytes;
    let turns = bytes.len() + 1;
    for _ in 0..turns {
        let (limit, after) = take_limit(alloc, &limits, rest)?;
        match limit {
            Some(limit) => limits.push(limit)?,
            None => return Ok((limits, after)),
        }
        rest = after;
    }
    Err(Stop::Left(rest.len()))
}

#[tactic(auto, unfolding(crate::specs::Header::limit_lines))]
fn take_limits(alloc: Global, bytes: &[u8]) -> Result<(Items<HoldLimit>, &[u8]), Stop>
    ensures { Reads result (limit_lines.reading bytes.now) }
{
    let (limits, rest) = take_limit_rows(alloc, bytes)?;
    Ok((Items::from_vec(limits), rest))
}

#[tactic(auto, unfolding(crate::specs::Header::reads_words))]
fn take_reads_words(bytes: &[u8]) -> Result<(cp_events::ReadsBy, &[u8]), Stop>
    ensures { Reads result (reads_words.reading bytes.now) }
{
    let (word, end, rest) = take_token(bytes)?;
    if is_token(word, end, b"entry", LINE) {
        return Ok((cp_events::ReadsBy::Entry, rest));
    }
    if is_token(word, end, b"round", LINE) {
        return Ok((cp_events::ReadsBy::Round, rest));
    }
    Err(Stop::Left(rest.len()))
}

#[tactic(auto, unfolding(crate::specs::Header::which_reads))]
fn take_which_reads(bytes: &[u8]) -> Result<(cp_events::ReadsBy, &[u8]), Stop>
    ensures { Reads result (which_reads.reading bytes.now) }
{
    match take_reads_words(bytes) {
        Ok(reads) => Ok(reads),
        Err(Stop::Left(_)) => Err(Stop::Left(bytes.len())),
        Err(Stop::NoMemory) => Err(Stop::NoMemory),
    }
}

#[tactic(auto, unfolding(crate::specs::Header::reads_line))]
fn take_reads(bytes: &[u8]) -> Result<(Option<cp_events::ReadsBy>, &[u8]), Stop>
    ensures { Reads result (reads_line.reading bytes.now) }
{
    let Some(word) = behind(b"reads ", bytes) else {
        return Ok((None, bytes));
    };
    let (reads, rest) = take_which_reads(word)?;
    Ok((Some(reads), rest))
}

/// The header, and the bytes behind it.
#[tactic(auto, unfolding(crate::specs::Header::header, crate::specs::Header::header_behind))]
pub fn take_header(alloc: Global, bytes: &[u8]) -> Result<(Plan, &[u8]), Stop>
    ensures { Reads result (header.reading bytes.now) }
{
    let (members, rest) = take_opening(bytes)?;
    let (size, rest) = take_size(members, rest)?;
    let (clients, rest) = take_clients(rest)?;
    let (snapshot, rest) = take_snapshot(rest)?;
    let (groups, rest) = take_groups(members, rest)?;
    let (limits, rest) = take_limits(alloc, rest)?;
    let (reads, rest) = take_reads(rest)?;
    let plan = Plan {
        members: members as u8,
        size: size as u8,
        clients: clients as u8,
        snapshot,
        groups,
        limits,
        reads,
    };
    Ok((plan, rest))
}
