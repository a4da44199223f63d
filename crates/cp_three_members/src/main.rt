//! Three members of one group in one process, whose messages are handed over in their order; and the decisions that their rules are
//! made of, one by one.
//!
//! With no word, the rows of the standard input are answered. `run` and a name is a run of one group, and shows what is sent and
//! committed: `elect`, the first member is elected, and one entry is committed; `remove`, the third member is removed after the
//! election; `repeat`, a follower is handed an entry twice; `install`, a follower is handed pieces of two snapshots, where what is
//! written is shown too. Any other row asks for one decision, and is shown with its answer behind a colon: `elections.rt`,
//! `replies.rt`, `changes.rt` and `chunks.rt` say which there are. Numbers of one word have commas between them, and `-` is none.
//! Behind the rows `new` and `clear` no piece of a snapshot is received yet. A line that is no row gives status 1, and then
//! nothing is printed.
//!
//! With `bench` and a number: so many entries are committed at all three.
#![tactic(auto)]

mod changes;
mod chunks;
mod coming;
mod elections;
mod following;
mod group;
mod lines;
mod member;
mod replies;
mod rows;
mod running;
mod words;

use cp_base::read_decimal;
use cp_io::{Reading, Writing};
use rows::{RowsEnd, show_rows};
use running::bench;
use std::alloc::Global;
use std::env;
use std::process::ExitCode;
use std::rt::Env;

/// What the words ask for.
enum Task {
    Show,
    Bench(u64),
    Nothing,
}

/// What the words ask for.
fn task_of(words: &[String]) -> Task {
    match words {
        [] => Task::Show,
        [word, count] if word.as_str() == "bench" => match read_decimal(count.as_bytes()) {
            Some(count) => Task::Bench(count),
            None => Task::Nothing,
        },
        _ => Task::Nothing,
    }
}

/// The words behind the program's name.
fn words_of(rt: &(impl Env + AllocGlobal)) -> Option<Vec<String>> {
    let mut words = Vec::new(rt.alloc());
    let Ok(all) = env::args(rt) else {
        return None;
    };
    for word in all.skip(1) {
        if words.push(word).is_err() {
            return None;
        }
    }
    Some(words)
}

/// The exit status of a task that was done or not.
fn status(done: bool) -> ExitCode {
    if done {
        ExitCode::from(0)
    } else {
        ExitCode::from(1)
    }
}

/// The exit status of rows that were shown, or not to their end.
fn status_of(shown: Result<(), RowsEnd>) -> ExitCode {
    match shown {
        Ok(()) => ExitCode::from(0),
        Err(RowsEnd::BadInput) => ExitCode::from(1),
        Err(RowsEnd::NoMemory) => ExitCode::from(4),
        Err(RowsEnd::WriteFault) => ExitCode::from(5),
    }
}

fn main(rt: HostRuntime) -> ExitCode {
    let alloc: Global = rt.alloc();
    let Some(words) = words_of(&rt) else {
        return ExitCode::from(3);
    };
    match task_of(&words) {
        Task::Show => {
            let mut source = Reading::new(rt.stdin());
            let mut sink = Writing::new(rt.stdout());
            status_of(show_rows(alloc, &mut source, &mut sink))
        }
        Task::Bench(count) => status(bench(alloc, count)),
        Task::Nothing => ExitCode::from(2),
    }
}
