//! The program `cp`.
#![tactic(auto)]

mod run;
mod running;
mod status;

use cp_base::NoMemory;
use cp_disk::MemoryDisk;
use cp_io::{Reading, Writing};
use run::run;
use status::Status;
use std::alloc::Global;
use std::env;
use std::io::ErrorKind;
use std::process::ExitCode;
use std::rt::Env;

/// Members are numbered from 1 to this.
const MOST_MEMBERS: u8 = 9;

/// The words behind the program's name, or why there are none: a word is no UTF-8, or there was no memory.
fn words_of(rt: &(impl Env + AllocGlobal)) -> Result<Vec<String>, Status> {
    let all = match env::args(rt) {
        Ok(all) => all,
        Err(error) if error.kind() == ErrorKind::InvalidData => return Err(Status::Usage),
        Err(_) => return Err(Status::NoMemory),
    };
    let mut words = Vec::new(rt.alloc());
    for word in all.skip(1) {
        if words.push(word).is_err() {
            return Err(Status::NoMemory);
        }
    }
    Ok(words)
}

/// A disk in memory for each member that there may be.
fn member_disks(alloc: Global) -> Result<Vec<MemoryDisk>, NoMemory> {
    let mut disks = Vec::new(alloc);
    for _ in 0..MOST_MEMBERS {
        match MemoryDisk::new(alloc, &[], &[]) {
            Ok(disk) => disks.push(disk)?,
            Err(_) => return Err(NoMemory),
        }
    }
    Ok(disks)
}

/// Runs what the words say over standard input and output.
fn run_on(rt: &HostRuntime) -> Result<Status, Status> {
    let alloc = rt.alloc();
    let words = words_of(rt)?;
    let Ok(mut disks) = member_disks(alloc) else {
        return Err(Status::NoMemory);
    };
    let mut source = Reading::new(rt.stdin());
    let mut sink = Writing::new(rt.stdout());
    Ok(run(alloc, &words, &mut source, &mut sink, &mut disks))
}

fn main(rt: HostRuntime) -> ExitCode {
    let status = match run_on(&rt) {
        Ok(status) | Err(status) => status,
    };
    if status != Status::Done {
        let _ = eprintln!(rt; "{status}");
    }
    ExitCode::from(status.number())
}
