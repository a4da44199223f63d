//! Shows what comes of cases that stand on standard input, one a line: a kind, and what it is tried on. Each line is written
//! again with what comes of it. Empty lines and lines that begin with `#` are written as they are. The status is 1, and
//! nothing is written, where a line is no case.
#![tactic(auto)]

mod basics;
mod ending;
mod fields;
mod notation;
mod parts;
mod values;
mod words;

use cp_io::{Reading, Sink, Source, Writing, read_all, write_all};
use ending::CaseEnd;
use notation::split;
use std::alloc::Global;
use std::process::ExitCode;

/// Shows a case of any kind.
fn show_case(alloc: Global, line: &str, out: &mut Vec<u8>) -> Result<(), CaseEnd> {
    let (kind, words) = split(line);
    out.extend_from_slice(b" -> ")?;
    if basics::show(alloc, kind, words, out)?
        || fields::show(alloc, kind, words, out)?
        || values::show(alloc, kind, words, out)?
        || parts::show(alloc, kind, words, out)?
        || words::show(alloc, kind, words, out)?
    {
        Ok(())
    } else {
        Err(CaseEnd::BadInput)
    }
}

/// Whether a line is a case.
fn is_case(line: &str) -> bool {
    !line.is_empty() && !line.starts_with('#')
}

/// Shows a line.
fn show_line(alloc: Global, line: &str, out: &mut Vec<u8>) -> Result<(), CaseEnd> {
    out.extend_from_slice(line.as_bytes())?;
    if is_case(line) {
        show_case(alloc, line, out)?;
    }
    Ok(out.push(b'\n')?)
}

/// What the lines of a text show.
fn shown(alloc: Global, text: &str) -> Result<Vec<u8>, CaseEnd> {
    let mut out = Vec::new(alloc);
    for line in text.lines() {
        show_line(alloc, line, &mut out)?;
    }
    Ok(out)
}

/// Shows the cases that a source gives to a sink.
fn show_cases<S: Source, K: Sink>(
    alloc: Global,
    source: &mut S,
    sink: &mut K,
) -> Result<(), CaseEnd> {
    let bytes = read_all(alloc, source)?;
    let Ok(text) = str::from_utf8(&bytes) else {
        return Err(CaseEnd::BadInput);
    };
    let out = shown(alloc, text)?;
    write_all(sink, &out)?;
    Ok(())
}

fn main(rt: HostRuntime) -> ExitCode {
    let mut source = Reading::new(rt.stdin());
    let mut sink = Writing::new(rt.stdout());
    match show_cases(rt.alloc(), &mut source, &mut sink) {
        Ok(()) => ExitCode::from(0),
        Err(CaseEnd::BadInput) => ExitCode::from(1),
        Err(CaseEnd::WriteFault) => ExitCode::from(2),
        Err(CaseEnd::NoMemory) => ExitCode::from(3),
    }
}
