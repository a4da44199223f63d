//! What a client decides of an open request: by its age, by a refusal, and by a restart number that a member tells.
ghost use Rattle.std.specs.Prelude.{◌≡◌};
ghost use Rattle.cp_try_rules.specs.Refusals.{turn_of};
ghost use Rattle.cp_try_rules.specs.Retries.{by_age, is_aged, is_over, rule_of};
ghost use Rattle.cp_try_rules.specs.Welcomes.{is_older, waits_for};

use cp_answers::Refusal;
use cp_try_rules::{Rule, Tried, Try, Turn};

/// How long a pause is, in milliseconds.
const PAUSE_TIME: u64 = 1_000;

/// How old a try gets, in milliseconds.
const TRY_TIME: u64 = 5_000;

fn is_aged(time: u64, since: u64, clock: u64) -> bool
    ensures { result ≡ is_aged time since clock }
{
    clock.saturating_sub(since) >= time
}

/// What the age of its last try has an open request do.
fn by_age(clock: u64, again: bool, last: Option<Try>) -> Rule
    ensures { result ≡ by_age clock again last }
{
    match last {
        Some(Try::Hello(_, since)) => if is_aged(TRY_TIME, since, clock) {
            Rule::Moves
        } else {
            Rule::Rests
        },
        Some(Try::Attempt(member, restart, since)) => if !is_aged(TRY_TIME, since, clock) {
            Rule::Rests
        } else if again {
            Rule::Moves
        } else {
            Rule::Knocks(member, restart)
        },
        None => Rule::Rests,
    }
}

fn is_over(clock: u64, paused: Option<u64>) -> bool
    ensures { result ≡ is_over clock paused }
{
    match paused {
        Some(since) => is_aged(PAUSE_TIME, since, clock),
        None => false,
    }
}

/// The first that holds: a pause is over; the last try is old.
pub fn rule_of(clock: u64, again: bool, row: Tried) -> Rule
    ensures { result ≡ rule_of clock again row }
{
    if is_over(clock, row.paused) {
        Rule::Tries
    } else {
        by_age(clock, again, row.last)
    }
}

/// What a refusal has its request do.
pub fn turn_of(why: Refusal) -> Turn
    ensures { result ≡ turn_of why }
{
    match why {
        Refusal::NotLeader(0) => Turn::Moves,
        Refusal::NotLeader(member) => Turn::Follows(member),
        Refusal::NoGroup => Turn::Moves,
        Refusal::Overloaded(_) | Refusal::IndexEnd(_) => Turn::Waits,
        Refusal::Lost => Turn::Loses,
        _ => Turn::Ends,
    }
}

/// Whether the last try asked this member for its number.
pub fn waits_for(member: u8, last: Option<Try>) -> bool
    ensures { result ≡ waits_for member last }
{
    match last {
        Some(Try::Hello(to, _)) => to == member,
        _ => false,
    }
}

/// Whether the last try is an attempt at an older start of this member than that of this number.
pub fn is_older(member: u8, number: u64, last: Option<Try>) -> bool
    ensures { result ≡ is_older member number last }
{
    match last {
        Some(Try::Attempt(to, restart, _)) => to == member && restart < number,
        _ => false,
    }
}
