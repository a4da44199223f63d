//! Cases of the tables of waiters and of objects: semaphores, latches, longs, references, maps. Each line of the standard input is
//! a call of one table, and is answered by one line. There is one table of each kind; the line `new` empties all.
#![tactic(auto)]

mod latches;
mod operations;
mod outcomes;
mod semaphores;
mod tables;
mod values;
mod waits;

use cp_case_lines::{End, answer_lines, status_of};
use cp_io::{Reading, Writing};
use std::process::ExitCode;
use tables::ObjectTables;

/// Answers the lines of the standard input.
fn answer(rt: &HostRuntime) -> Result<(), End> {
    let mut tables = ObjectTables::new(rt.alloc())?;
    let mut source = Reading::new(rt.stdin());
    let mut sink = Writing::new(rt.stdout());
    answer_lines(rt.alloc(), &mut tables, &mut source, &mut sink)
}

fn main(rt: HostRuntime) -> ExitCode {
    ExitCode::from(status_of(answer(&rt)))
}
