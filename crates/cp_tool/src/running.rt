//! Runs a schedule event by event, and makes its transcript.
ghost use Rattle.cp_base.specs.declared.limits.TheConstants.{LAST_NUMBER};
ghost use Rattle.std.specs.Prelude.{◌≡◌, ◌≤◌, ◌<◌, ◌+◌, ◌++◌, ◌∷◌, List, [], length, IfErr, IfOk, MatchResult, OnOk};
ghost use Rattle.cp_events.specs.declared.effects.Effects.{Effects};
ghost use Rattle.cp_events.specs.declared.event.Event.{Event};
ghost use Rattle.cp_events.specs.declared.plan.Plan.{Plan};
ghost use Rattle.cp_world_rules.specs.Execution.{events_of};
ghost use Rattle.cp_world_rules.specs.Rows.{Committed};
ghost use Rattle.cp_transcript.specs.Telling.{Tells, committed_at};
ghost use Rattle.cp_world.specs.Following.{effects_of};
ghost use Rattle.cp_tool.specs.Limits.{KeepsLimits, beyond, text_of};
ghost use Rattle.cp_tool.specs.Running.{Follows, GoesOn, Halts, IsRunning, IsWhole, Runs, StopCause};

use crate::status::LimitName;
use cp_base::NoMemory;
use cp_events::{Event, Line, Plan, Schedule};
use cp_schedule::line_of_event;
use cp_transcript::TranscriptWriter;
use cp_world::{Turn, World};
use std::alloc::Global;

/// The most events of a run.
const MOST_EVENTS: u64 = 100_000;

/// The most bytes of a transcript: 256 MiB.
const MOST_TEXT: u128 = 268_435_456;

/// A run so far.
#[derive(Drop)]
pub struct Running {
    pub world: World,
    /// What the last event did.
    pub turn: Turn,
    pub transcript: TranscriptWriter,
    /// How many events there were.
    pub events: u64,
}

/// Why an event ends a run.
#[derive(Clone, Copy, Debug, PartialEq, Eq)]
pub enum Halt {
    /// A quantity passed its limit.
    Limit(LimitName),
    NoMemory,
}

/// Why a schedule was not run to its end.
#[derive(Clone, Copy, Debug, PartialEq, Eq)]
pub enum Stop {
    /// At the event of this line a quantity passed its limit.
    Limit(u64, LimitName),
    NoMemory,
}

/// Before the first event.
fn open(alloc: Global) -> Result<Running, NoMemory>
    ensures { IfOk result (λ running. (plan : Plan) → Runs plan [] running) }
{
    Ok(Running {
        world: World::new(alloc)?,
        turn: Turn::new(alloc),
        transcript: TranscriptWriter::new(alloc)?,
        events: 0,
    })
}

/// What an event shows, and the entries that it committed.
fn print(transcript: &mut TranscriptWriter, event: &Event, turn: &Turn) -> Result<(), NoMemory>
    requires { transcript.old.rows + length turn.now.entries < LAST_NUMBER }
    ensures { OnOk result ((shown : List Effects) (history : List Committed) → Tells shown history transcript.old
        → Tells (shown ++ effects_of event.now turn.now ∷ []) (history ++ committed_at turn.now.number turn.now.entries) transcript.new) }
{
    transcript.add_effects(
        turn.number,
        event,
        &turn.ignored,
        turn.opened.as_slice(),
        turn.returns.as_slice(),
    )?;
    transcript.add_all_committed(turn.number, turn.entries.as_slice())?;
    Ok(())
}

/// An event happens, and is printed.
fn show(running: &mut Running, plan: &Plan, event: &Event) -> Result<(), NoMemory>
    requires { IsRunning plan.now running.old }
    ensures { OnOk result ((events : List Event) → Follows plan.now events running.old
        → Follows plan.now (events ++ event.now ∷ []) running.new) }
{
    running.world.step(plan, event, &mut running.turn)?;
    print(&mut running.transcript, event, &running.turn)?;
    running.events += 1;
    Ok(())
}

/// The first quantity that is beyond its limit, if any is.
fn beyond(events: u64, bytes: u128) -> Option<LimitName>
    ensures { result ≡ beyond events bytes }
{
    if events > MOST_EVENTS {
        return Some(LimitName::Events);
    }
    if bytes > MOST_TEXT {
        return Some(LimitName::Transcript);
    }
    None
}

/// An event, unless a quantity passes its limit there.
fn step(running: &mut Running, plan: &Plan, event: &Event) -> Result<(), Halt>
    requires { IsRunning plan.now running.old }
    ensures ok { OnOk result (GoesOn plan.now (event.now ∷ []) running.old running.new) }
    ensures err { IfErr result (λ why. Halts why plan.now (event.now ∷ []) running.old) }
{
    match show(running, plan, event) {
        Ok(()) => {}
        Err(NoMemory) => return Err(Halt::NoMemory),
    }
    match beyond(running.events, running.transcript.len()) {
        None => Ok(()),
        Some(name) => Err(Halt::Limit(name)),
    }
}

/// A line behind the header. Nothing is ever sent, so nothing is settled.
fn run_line(running: &mut Running, plan: &Plan, line: &Line) -> Result<(), Halt>
    requires { IsRunning plan.now running.old }
    ensures ok { OnOk result (GoesOn plan.now (events_of (line.now ∷ [])) running.old running.new) }
    ensures err { IfErr result (λ why. Halts why plan.now (events_of (line.now ∷ [])) running.old) }
{
    match line {
        Line::Settle(_) => Ok(()),
        Line::One(event) => step(running, plan, event),
    }
}

fn run_lines(running: &mut Running, plan: &Plan, lines: &[Line]) -> Result<(), Stop>
    requires begun { Runs plan.now [] running.old }
    requires few { length lines.now < LAST_NUMBER }
    requires limits { length plan.now.limits ≤ 16 }
    ensures ok { OnOk result (Runs plan.now (events_of lines.now) running.new) }
    ensures kept { OnOk result (KeepsLimits plan.now lines.now (length lines.now)) }
    ensures err { IfErr result (StopCause plan.now lines.now) }
{
    let mut place: u64 = 0;
    for line in lines {
        match run_line(running, plan, line) {
            Ok(()) => place += 1,
            Err(Halt::Limit(name)) => return Err(Stop::Limit(line_of_event(plan, place), name)),
            Err(Halt::NoMemory) => return Err(Stop::NoMemory),
        }
    }
    Ok(())
}

/// The transcript of a schedule, or why it has none.
pub fn transcript(alloc: Global, schedule: Schedule) -> Result<Vec<u8>, Stop>
    requires few { length schedule.lines < LAST_NUMBER }
    requires limits { length schedule.plan.limits ≤ 16 }
    ensures { MatchResult result (λ text. IsWhole schedule.plan schedule.lines text.items) (StopCause schedule.plan schedule.lines) }
{
    let Schedule { plan, lines } = schedule;
    let Ok(mut running) = open(alloc) else {
        return Err(Stop::NoMemory);
    };
    match run_lines(&mut running, &plan, lines.as_slice()) {
        Ok(()) => {}
        Err(stop) => return Err(stop),
    }
    match close(running) {
        Ok(text) => Ok(text),
        Err(NoMemory) => Err(Stop::NoMemory),
    }
}

fn close(running: Running) -> Result<Vec<u8>, NoMemory>
    ensures { IfOk result (λ text. (plan : Plan) (events : List Event) → Runs plan events running → text.items ≡ text_of plan events) }
{
    let Running {
        world: _,
        turn: _,
        transcript,
        events: _,
    } = running;
    let text = transcript.into_text()?;
    Ok(text)
}
