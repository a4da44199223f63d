//! Reads a schedule, or finds the first line that is none.
ghost use Rattle.cp_base.specs.declared.limits.TheConstants.{LAST_NUMBER};
ghost use Rattle.std.specs.Prelude.{◌≡◌, ◌≤◌, ◌<◌, ◌==◌, length, count_by, Ok, IfOk};
ghost use Rattle.cp_grammar.specs.Grammar.{whole};
ghost use Rattle.cp_grammar.specs.Words.{line_of};
ghost use Rattle.cp_grammar.specs.Readers.{Reads, Tells};
ghost use Rattle.cp_events.specs.declared.schedule.Schedule.{Schedule as Written};
ghost use Rattle.cp_schedule.specs.Header.{opening};
ghost use Rattle.cp_schedule.specs.Schedules.{schedule, context_of, is_managed};
ghost use Rattle.cp_schedule.specs.Reading.{Answers, IsRead, schedule_of, at_line, header_lines, line_of_event};

use crate::event::take_event_lines;
use crate::header::{take_header, take_opening};
use cp_call_words::Context;
use cp_events::{Groups, Plan, Schedule};
use cp_grammar::{LINE, ReadError, Stop};
use std::alloc::Global;
use thiserror::Error;

/// Why a text is no schedule that can be run. Lines are numbered from 1.
#[derive(Clone, Copy, Debug, PartialEq, Eq, Error)]
pub enum ScheduleError {
    /// This line is the first that is not in the grammar.
    #[error("line {0}: bad")]
    BadSchedule(u64),
    /// This line is in the grammar, as all before it are, and is of a form that is not built yet.
    #[error("line {0}: not built")]
    NotBuilt(u64),
    /// There was no memory.
    #[error("no memory")]
    NoMemory,
}

fn is_managed(groups: Option<Groups>) -> bool
    ensures { result ≡ is_managed groups }
{
    match groups {
        Some(Groups::Managed) => true,
        Some(Groups::Fixed) | None => false,
    }
}

/// What a header says of the calls that may follow it.
fn context_of(plan: &Plan) -> Context
    ensures { result ≡ context_of plan.now }
{
    Context {
        managed: is_managed(plan.groups),
        members: plan.members > 0,
    }
}

#[tactic(auto, unfolding(crate::specs::Schedules::schedule))]
fn take_schedule(alloc: Global, bytes: &[u8]) -> Result<(Schedule, &[u8]), Stop>
    ensures { Reads result (schedule.reading bytes.now) }
{
    let (plan, rest) = take_header(alloc, bytes)?;
    let context = context_of(&plan);
    let (lines, rest) = take_event_lines(alloc, context, rest)?;
    Ok((Schedule { plan, lines }, rest))
}

/// The schedule that the whole text spells, else the place that fails.
#[tactic(auto, unfolding(cp_grammar::specs::Grammar::whole))]
fn read_whole(alloc: Global, bytes: &[u8]) -> Result<Schedule, ReadError>
    ensures { Tells result (whole schedule bytes.now) }
{
    match take_schedule(alloc, bytes) {
        Ok((schedule, rest)) => {
            if rest.is_empty() {
                Ok(schedule)
            } else {
                let place = bytes.len().saturating_sub(rest.len());
                Err(ReadError::NotInGrammar(place))
            }
        }
        Err(Stop::Left(left)) => Err(ReadError::NotInGrammar(bytes.len().saturating_sub(left))),
        Err(Stop::NoMemory) => Err(ReadError::NoMemory),
    }
}

fn ends_in(bytes: &[u8]) -> usize
    ensures ends { result ≡ count_by (λ b. b == 10) bytes.now }
    ensures bound { result ≤ length bytes.now }
{
    bytes.iter().filter(|b| **b == LINE).count()
}

/// The line of a place, counted from 1.
#[tactic(auto, using(std::proofs::lemmas::List::take_all))]
fn line_of(bytes: &[u8], place: usize) -> u64
    ensures { result ≡ line_of bytes.now place }
{
    if place > bytes.len() {
        return ends_in(bytes) as u64 + 1;
    }
    ends_in(&bytes[..place]) as u64 + 1
}

fn read_any(alloc: Global, bytes: &[u8]) -> Result<Schedule, ScheduleError>
    ensures { Answers result (at_line bytes.now (whole schedule bytes.now)) }
{
    match read_whole(alloc, bytes) {
        Ok(schedule) => Ok(schedule),
        Err(ReadError::NotInGrammar(place)) => {
            Err(ScheduleError::BadSchedule(line_of(bytes, place)))
        }
        Err(ReadError::NoMemory) => Err(ScheduleError::NoMemory),
    }
}

fn read_told(alloc: Global, bytes: &[u8]) -> Result<Schedule, ScheduleError>
    ensures { Answers result (schedule_of bytes.now) }
{
    match take_opening(bytes) {
        Ok((members, _)) if members > 0 => Err(ScheduleError::NotBuilt(2)),
        Err(Stop::NoMemory) => Err(ScheduleError::NoMemory),
        _ => read_any(alloc, bytes),
    }
}

/// The schedule that a text spells. Its lines are stated in docs/schedules.md.
pub fn read(alloc: Global, bytes: &[u8]) -> Result<Schedule, ScheduleError>
    // Which schedule it is, and else the first line that is bad or not built.
    ensures exact { Answers result (schedule_of bytes.now) }
    // What is read is spelled so, and has no members.
    ensures found { IfOk result (λ s. IsRead bytes.now s) }
    // What is spelled so is read, unless memory runs out.
    ensures only { (s : Written) → IsRead bytes.now s → Answers result (Ok s) }
    ensures few { IfOk result (λ s. length s.lines ≤ length bytes.now) }
    ensures limits { IfOk result (λ s. length s.plan.limits ≤ 16) }
{
    read_told(alloc, bytes)
}

/// How many lines the header has.
fn header_lines(plan: &Plan) -> u64
    requires { length plan.now.limits ≤ 16 }
    ensures value { result ≡ header_lines plan.now }
    ensures bound { result ≤ 23 }
{
    4 + u64::from(plan.snapshot.is_some())
        + u64::from(plan.groups.is_some())
        + plan.limits.len() as u64
        + u64::from(plan.reads.is_some())
}

/// The line of the n-th line behind the header, where n counts from 0, and lines from 1.
pub fn line_of_event(plan: &Plan, n: u64) -> u64
    requires limits { length plan.now.limits ≤ 16 }
    requires place { n < LAST_NUMBER }
    ensures { result ≡ line_of_event plan.now n }
{
    header_lines(plan) + n + 1
}
