//! Reads the lines behind the header.
ghost use Rattle.std.specs.Prelude.{◌≡◌, ◌≤◌, IfOk};
ghost use Rattle.cp_grammar.specs.Lists.{until};
ghost use Rattle.cp_grammar.specs.Readers.{Reads, Gives};
ghost use Rattle.cp_schedule.specs.Events.{client_word, thread_word, stop_words, crash_cases, crashing, crash_words, crash_of, line_words, event_line, any_line, event_lines};

use crate::fronts::{behind, take_ended_number};
use cp_base::{ClientNo, Items, MemberNo, ThreadNo};
use cp_call_words::{
    Context, take_between_word, take_member_word, take_milliseconds, take_user_op,
};
use cp_events::{Event, Line};
use cp_grammar::{LINE, SPACE, Stop, is_token, take_number_word, take_token};
use std::alloc::Global;

const MOST_MEMBERS: u64 = 9;

const MOST_CLIENTS: u64 = 16;

const MOST_THREADS: u64 = 8;

const MOST_SETTLED: u64 = 100_000;

const MOST_NUMBER: u64 = 0x7fff_ffff_ffff_ffff;

#[tactic(auto, unfolding(crate::specs::Events::client_word))]
fn take_client(bytes: &[u8], end: u8) -> Result<(ClientNo, &[u8]), Stop>
    ensures { Reads result ((client_word end).reading bytes.now) }
{
    let (number, rest) = take_between_word(bytes, end, 1, MOST_CLIENTS)?;
    Ok((ClientNo(number as u8), rest))
}

#[tactic(auto, unfolding(crate::specs::Events::thread_word))]
fn take_thread(bytes: &[u8], end: u8) -> Result<(ThreadNo, &[u8]), Stop>
    ensures { Reads result ((thread_word end).reading bytes.now) }
{
    let (number, rest) = take_between_word(bytes, end, 1, MOST_THREADS)?;
    Ok((ThreadNo(number as u8), rest))
}

/// After how many calls of the disk a member crashes, and what chooses what is left of the disk.
#[tactic(auto, unfolding(crate::specs::Events::stop_words))]
fn take_stop_words(bytes: &[u8]) -> Result<((u64, u64), &[u8]), Stop>
    ensures { Reads result (stop_words.reading bytes.now) }
{
    let Some(number) = behind(b"after ", bytes) else {
        return Err(Stop::Left(bytes.len()));
    };
    let (calls, rest) = take_number_word(number, SPACE, MOST_NUMBER)?;
    let Some(number) = behind(b"choice ", rest) else {
        return Err(Stop::Left(rest.len()));
    };
    let (choice, rest) = take_number_word(number, LINE, MOST_NUMBER)?;
    Ok(((calls, choice), rest))
}

/// What follows the member that crashes, by the end after its number.
fn take_stop(end: u8, bytes: &[u8]) -> Result<(Option<(u64, u64)>, &[u8]), Stop>
    ensures { Reads result ((crash_cases end).reading bytes.now) }
{
    if end == LINE {
        return Ok((None, bytes));
    }
    if end == SPACE {
        let (stop, rest) = take_stop_words(bytes)?;
        return Ok((Some(stop), rest));
    }
    Err(Stop::Left(bytes.len()))
}

fn take_crashing(bytes: &[u8]) -> Result<(u64, u8, &[u8]), Stop>
    ensures reads { Gives (λ x. ((x.0, x.1), x.2.now)) result (crashing.reading bytes.now) }
    ensures bound { IfOk result (λ x. x.0 ≤ 9) }
{
    let (member, end, rest) = take_ended_number(bytes, MOST_MEMBERS)?;
    if member < 1 {
        return Err(Stop::Left(bytes.len()));
    }
    Ok((member, end, rest))
}

#[tactic(auto, unfolding(crate::specs::Events::crash_words))]
fn take_crash(bytes: &[u8]) -> Result<((u64, Option<(u64, u64)>), &[u8]), Stop>
    ensures reads { Reads result (crash_words.reading bytes.now) }
    ensures bound { IfOk result (λ x. x.0.0 ≤ 9) }
{
    let (member, end, rest) = take_crashing(bytes)?;
    let (stop, rest) = take_stop(end, rest)?;
    Ok(((member, stop), rest))
}

fn crash_of(member: u8, stop: Option<(u64, u64)>) -> Event
    ensures { result ≡ crash_of member stop }
{
    match stop {
        None => Event::Crash(MemberNo(member)),
        Some((calls, choice)) => Event::CrashAfter(MemberNo(member), calls, choice),
    }
}

/// The words of a line, or none for `end`, and the bytes behind them.
#[tactic(auto, unfolding(crate::specs::Events::line_words))]
fn take_line_words(
    alloc: Global,
    context: Context,
    bytes: &[u8],
) -> Result<(Option<Line>, &[u8]), Stop>
    ensures { Reads result ((line_words context).reading bytes.now) }
{
    let (word, end, rest) = take_token(bytes)?;
    if is_token(word, end, b"call", SPACE) {
        let (client, rest) = take_client(rest, SPACE)?;
        let (thread, rest) = take_thread(rest, SPACE)?;
        let (op, rest) = take_user_op(alloc, context, rest)?;
        return Ok((Some(Line::One(Event::Call(client, thread, op))), rest));
    }
    if is_token(word, end, b"tick", SPACE) {
        let (member, rest) = take_member_word(rest, SPACE)?;
        let (time, rest) = take_milliseconds(rest, LINE)?;
        return Ok((Some(Line::One(Event::Tick(member, time))), rest));
    }
    if is_token(word, end, b"ctick", SPACE) {
        let (client, rest) = take_client(rest, SPACE)?;
        let (time, rest) = take_milliseconds(rest, LINE)?;
        return Ok((Some(Line::One(Event::ClientTick(client, time))), rest));
    }
    if is_token(word, end, b"deliver", SPACE) {
        let (message, rest) = take_between_word(rest, LINE, 1, MOST_NUMBER)?;
        return Ok((Some(Line::One(Event::Deliver(message))), rest));
    }
    if is_token(word, end, b"settle", SPACE) {
        let (times, rest) = take_between_word(rest, LINE, 1, MOST_SETTLED)?;
        return Ok((Some(Line::Settle(times as u32)), rest));
    }
    if is_token(word, end, b"crash", SPACE) {
        let ((member, stop), rest) = take_crash(rest)?;
        return Ok((Some(Line::One(crash_of(member as u8, stop))), rest));
    }
    if is_token(word, end, b"start", SPACE) {
        let (member, rest) = take_member_word(rest, LINE)?;
        return Ok((Some(Line::One(Event::Start(member))), rest));
    }
    if is_token(word, end, b"end", LINE) {
        return Ok((None, rest));
    }
    Err(Stop::Left(rest.len()))
}

/// A line, or none for `end`, and the bytes behind it. Whatever is wrong in it, it fails where it begins.
#[tactic(auto, unfolding(crate::specs::Events::event_line))]
fn take_event_line(
    alloc: Global,
    context: Context,
    bytes: &[u8],
) -> Result<(Option<Line>, &[u8]), Stop>
    ensures { Reads result ((event_line context).reading bytes.now) }
{
    match take_line_words(alloc, context, bytes) {
        Ok(line) => Ok(line),
        Err(Stop::Left(_)) => Err(Stop::Left(bytes.len())),
        Err(Stop::NoMemory) => Err(Stop::NoMemory),
    }
}

fn take_event_rows(
    alloc: Global,
    context: Context,
    bytes: &[u8],
) -> Result<(Vec<Line>, &[u8]), Stop>
    ensures { Gives (λ x. (x.0.items, x.1.now)) result ((until (any_line context)).reading bytes.now) }
{
    let mut lines = Vec::new(alloc);
    let mut rest = bytes;
    let turns = bytes.len() + 1;
    for _ in 0..turns {
        let (line, after) = take_event_line(alloc, context, rest)?;
        match line {
            Some(line) => lines.push(line)?,
            None => return Ok((lines, after)),
        }
        rest = after;
    }
    Err(Stop::Left(rest.len()))
}

/// The lines behind the header, up to `end`, and the bytes behind that.
#[tactic(auto, unfolding(crate::specs::Events::event_lines))]
pub fn take_event_lines(
    alloc: Global,
    context: Context,
    bytes: &[u8],
) -> Result<(Items<Line>, &[u8]), Stop>
    ensures { Reads result ((event_lines context).reading bytes.now) }
{
    let (lines, rest) = take_event_rows(alloc, context, bytes)?;
    Ok((Items::from_vec(lines), rest))
}
