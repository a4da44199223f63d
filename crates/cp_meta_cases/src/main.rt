//! Applies as many times 100,000 entries of METADATA, with 64 groups standing, as it is given words; the status is 0 where all are
//! applied. Where the first word is `check`, the rows of the standard input are applied to METADATA's machine instead, and what they
//! show is printed. Each row is one line: the index of an entry and the entry's bytes, as hexadecimal digits that spaces may part;
//! `new N SIZE` for a new machine of so many members; `show`, which shows the lists, and `group G`, which shows one group; `restore`
//! and the bytes of a state, with which the machine goes on where they spell one; `snapshot`, which shows the bytes of the machine's
//! state. Lines that begin with `#` are comments. A line that is no row gives status 1, and then nothing is printed.
#![tactic(auto)]

ghost use Rattle.std.specs.Prelude.{◌≤◌, ◌^◌};

mod lists;
mod loads;
mod rows;

use cp_answers::Answer;
use cp_base::{Invocation, Items, NoMemory};
use cp_io::{Reading, Writing};
use cp_meta::MetaMachine;
use loads::apply_all;
use rows::{RowsEnd, show_rows};
use std::alloc::Global;
use std::env;
use std::process::ExitCode;
use std::rt::Env;

/// Applies the entry of an index, and gives its answers.
pub(crate) fn answers(
    alloc: Global,
    machine: &mut MetaMachine,
    index: u64,
    entry: &[u8],
) -> Result<Items<(Invocation, Answer)>, NoMemory>
    requires { index ≤ 2 ^ 62 }
{
    let mut out = Items::new(alloc);
    machine.apply_bytes(index, entry, &mut out)?;
    Ok(out)
}

/// Whether the first word is `check`.
fn is_check(words: &[String]) -> bool {
    match words {
        [word, ..] => word.as_str() == "check",
        [] => false,
    }
}

/// The words behind the program's name.
fn words_of(rt: &(impl Env + AllocGlobal)) -> Option<Vec<String>> {
    let mut words = Vec::new(rt.alloc());
    let Ok(all) = env::args(rt) else {
        return None;
    };
    for word in all.skip(1).take(100) {
        if words.push(word).is_err() {
            return None;
        }
    }
    Some(words)
}

/// The status of rows that were shown, or not to their end.
fn status_of(shown: Result<(), RowsEnd>) -> u8 {
    match shown {
        Ok(()) => 0,
        Err(RowsEnd::BadInput) => 1,
        Err(RowsEnd::NoMemory) => 4,
        Err(RowsEnd::WriteFault) => 5,
    }
}

fn main(rt: HostRuntime) -> ExitCode {
    let alloc = rt.alloc();
    let Some(words) = words_of(&rt) else {
        return ExitCode::from(1);
    };
    if is_check(&words) {
        let mut source = Reading::new(rt.stdin());
        let mut sink = Writing::new(rt.stdout());
        return ExitCode::from(status_of(show_rows(alloc, &mut source, &mut sink)));
    }
    let count = 100000 * words.len().min(100) as u64;
    match apply_all(alloc, count) {
        Ok(()) => ExitCode::from(0),
        Err(NoMemory) => ExitCode::from(4),
    }
}
