//! The lines of a history.
ghost use Rattle.std.specs.Prelude.{◌≡◌, ◌++◌, OnErr, OnOk};
ghost use Rattle.cp_base.specs.Text.{Grew};
ghost use Rattle.cp_transcript.specs.Histories.{committed_line};

use cp_base::{NoMemory, Text, write_decimal};
use cp_ops::Entry;

fn append_committed(
    index: u64,
    event: u64,
    entry: &Entry,
    out: &mut Vec<u8>,
) -> Result<(), NoMemory>
    ensures ok { OnOk result (out.new.items ≡ out.old.items ++ committed_line index (record { event = event; entry = entry.now })) }
    ensures grew { Grew out.old.items out.new.items }
{
    write_decimal(index, out)?;
    out.push(b' ')?;
    write_decimal(event, out)?;
    out.push(b' ')?;
    entry.append_text(out)?;
    out.push(b'\n')?;
    Ok(())
}

/// Appends the line of a committed entry: its index, the number of the event that committed it, and its text. Where memory
/// runs out, `out` is left.
pub fn write_committed(
    index: u64,
    event: u64,
    entry: &Entry,
    out: &mut Vec<u8>,
) -> Result<(), NoMemory>
    ensures ok { OnOk result (out.new.items ≡ out.old.items ++ committed_line index (record { event = event; entry = entry.now })) }
    ensures err { OnErr result (out.new.items ≡ out.old.items) }
{
    let mark = out.len();
    let written = append_committed(index, event, entry, out);
    if written.is_err() {
        out.truncate(mark);
    }
    written
}
