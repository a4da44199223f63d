//! Does cases with sources and sinks, disks, journals and stores, all in memory, and tells what comes out.
//!
//! Each line of the standard input is a case: steps with `;` between them, as `disk new 616263; disk write 2 58595a; disk bytes`. It
//! gives one line, with what each step told. `verb.rt` lists them. A line that is empty or begins with `#` is told as it stands. A
//! line that is no case gives status 1, and then nothing is told.
//!
//! With `bench-appends`, `bench-parts` or `bench-opens` and a number: so many appends to a journal, or to a store, which is opened again
//! in the last; the status is 0 where all were done.
#![tactic(auto)]

mod asking;
mod case;
mod disk;
mod end;
mod journal;
mod many_appends;
mod many_parts;
mod store;
mod streams;
mod verb;
mod words;

use case::tell_cases;
use cp_base::read_decimal;
use cp_io::{Reading, Writing};
use end::CaseEnd;
use many_appends::append_many;
use many_parts::write_many;
use std::alloc::Global;
use std::env;
use std::process::ExitCode;
use std::rt::Env;

/// What the words ask for.
enum Task {
    Cases,
    Appends(u64),
    Parts(u64),
    Opens(u64),
    Nothing,
}

/// The task that a word and a count ask for.
fn bench_of(word: &str, count: u64) -> Task {
    match word.as_bytes() {
        b"bench-appends" => Task::Appends(count),
        b"bench-parts" => Task::Parts(count),
        b"bench-opens" => Task::Opens(count),
        _ => Task::Nothing,
    }
}

/// What the words ask for.
fn task_of(words: &[String]) -> Task {
    match words {
        [] => Task::Cases,
        [word, count] => match read_decimal(count.as_bytes()) {
            Some(count) => bench_of(word, count),
            None => Task::Nothing,
        },
        _ => Task::Nothing,
    }
}

/// The words behind the program's name.
fn words_of(rt: &(impl Env + AllocGlobal)) -> Option<Vec<String>> {
    let mut words = Vec::new(rt.alloc());
    let Ok(all) = env::args(rt) else {
        return None;
    };
    for word in all.skip(1) {
        if words.push(word).is_err() {
            return None;
        }
    }
    Some(words)
}

/// The status of cases that were told, or not to their end.
fn status_of(told: Result<(), CaseEnd>) -> u8 {
    match told {
        Ok(()) => 0,
        Err(CaseEnd::BadInput) => 1,
        Err(CaseEnd::NoMemory) => 4,
        Err(CaseEnd::WriteFault) => 5,
    }
}

/// The status of appends that were all done or not.
fn bench_status(done: bool) -> ExitCode {
    ExitCode::from(if done { 0 } else { 2 })
}

fn main(rt: HostRuntime) -> ExitCode {
    let alloc: Global = rt.alloc();
    let Some(words) = words_of(&rt) else {
        return ExitCode::from(3);
    };
    match task_of(&words) {
        Task::Cases => {
            let mut source = Reading::new(rt.stdin());
            let mut sink = Writing::new(rt.stdout());
            ExitCode::from(status_of(tell_cases(alloc, &mut source, &mut sink)))
        }
        Task::Appends(count) => bench_status(append_many(alloc, count)),
        Task::Parts(count) => bench_status(write_many(alloc, count, false)),
        Task::Opens(count) => bench_status(write_many(alloc, count, true)),
        Task::Nothing => ExitCode::from(1),
    }
}
