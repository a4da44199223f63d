//! A transcript that grows event by event.
ghost use Rattle.cp_base.specs.declared.limits.TheConstants.{LAST_NUMBER};
ghost use Rattle.std.specs.Prelude.{◌≡◌, ◌+◌, ◌<◌, ◌^◌, ◌++◌, ◌∷◌, List, [], length, IfOk, OnOk};
ghost use Rattle.cp_events.specs.declared.effects.Effects.{Effects};
ghost use Rattle.cp_world_rules.specs.Execution.{histories_of};
ghost use Rattle.cp_world_rules.specs.Rows.{Committed};
ghost use Rattle.cp_transcript.specs.Telling.{Tells, committed_at, history_text};
ghost use Rattle.cp_transcript.specs.Transcripts.{lines_of, opening};

use crate::effects::write_effects;
use crate::history::write_committed;
use cp_base::{ClientNo, NoMemory};
use cp_events::{Event, Ignored, Opened, Return};
use cp_ops::Entry;
use std::alloc::Global;

const HISTORY: &[u8] = b"history 1\n";

const END: &[u8] = b"end\n";

/// The lines so far: those of the events, and those of the history of the group `default`, which come behind them at the
/// end.
#[derive(Drop)]
pub struct TranscriptWriter {
    pub text: Vec<u8>,
    /// How many lines the history has.
    pub rows: u64,
    pub history: Vec<u8>,
    /// Memory for the text of a call.
    pub scratch: Vec<u8>,
}

impl TranscriptWriter {
    /// The lines before the first event of a schedule: the heading, and event 0.
    pub fn new(alloc: Global) -> Result<TranscriptWriter, NoMemory>
        ensures { IfOk result (λ transcript. Tells (opening ∷ []) [] transcript) }
    {
        Ok(TranscriptWriter {
            text: Vec::from_slice(alloc, b"cp 1 transcript\n0 open\n")?,
            rows: 0,
            history: Vec::new(alloc),
            scratch: Vec::new(alloc),
        })
    }

    /// Appends what an event did. Where memory runs out, the lines are left.
    pub fn add_effects(
        &mut self,
        number: u64,
        event: &Event,
        ignored: &Option<Ignored>,
        opened: &[(ClientNo, Opened)],
        returns: &[(ClientNo, Return)],
    ) -> Result<(), NoMemory>
        ensures rows { self.new.rows ≡ self.old.rows }
        ensures tells { OnOk result ((shown : List Effects) (history : List Committed) → Tells shown history self.old
            → Tells (shown ++ record {
              number = number;
              event = event.now;
              ignored = ignored.now;
              opened = opened.now;
              returns = returns.now;
            } ∷ []) history self.new) }
    {
        write_effects(
            number,
            event,
            ignored,
            opened,
            returns,
            &mut self.scratch,
            &mut self.text,
        )?;
        Ok(())
    }

    /// Appends an entry that an event committed. Where memory runs out, the lines are left.
    pub fn add_committed(&mut self, event: u64, entry: &Entry) -> Result<(), NoMemory>
        requires { self.old.rows < LAST_NUMBER }
        ensures rows { OnOk result (self.new.rows ≡ self.old.rows + 1) }
        ensures tells { OnOk result ((shown : List Effects) (history : List Committed) → Tells shown history self.old
            → Tells shown (history ++ record { event = event; entry = entry.now } ∷ []) self.new) }
    {
        write_committed(self.rows + 1, event, entry, &mut self.history)?;
        self.rows += 1;
        Ok(())
    }

    /// Appends the entries that an event committed.
    pub fn add_all_committed(&mut self, event: u64, entries: &[Entry]) -> Result<(), NoMemory>
        requires { self.old.rows + length entries.now < LAST_NUMBER }
        ensures { OnOk result ((shown : List Effects) (history : List Committed) → Tells shown history self.old
            → Tells shown (history ++ committed_at event entries.now) self.new) }
    {
        for entry in entries {
            self.add_committed(event, entry)?;
        }
        Ok(())
    }

    /// How many bytes the whole text has if it ends here. The sum of two lengths may have more than 64 bits.
    pub fn len(&self) -> u128
        ensures { (shown : List Effects) (history : List Committed) → Tells shown history self.now → result
            ≡ length (lines_of shown (histories_of history)) }
    {
        let history = history_len(self.rows, &self.history);
        whole_len(&self.text, history)
    }

    /// The whole text: the lines of the events, those of the history, and the last line.
    pub fn into_text(self) -> Result<Vec<u8>, NoMemory>
        ensures { IfOk result (λ text. (shown : List Effects) (history : List Committed) → Tells shown history self
            → text.items ≡ lines_of shown (histories_of history)) }
    {
        let TranscriptWriter {
            mut text,
            rows,
            history,
            scratch: _,
        } = self;
        append_history(rows, &history, &mut text)?;
        text.extend_from_slice(END)?;
        Ok(text)
    }
}

fn history_len(rows: u64, lines: &[u8]) -> u128
    ensures value { result ≡ length (history_text rows lines.now) }
    ensures bound { result < 2 ^ 64 }
{
    if rows == 0 {
        return 0;
    }
    HISTORY.len() as u128 + lines.len() as u128
}

fn whole_len(text: &[u8], history: u128) -> u128
    requires { history < 2 ^ 64 }
    ensures { result ≡ length text.now + history + 4 }
{
    text.len() as u128 + history + END.len() as u128
}

fn append_history(rows: u64, lines: &[u8], out: &mut Vec<u8>) -> Result<(), NoMemory>
    ensures { OnOk result (out.new.items ≡ out.old.items ++ history_text rows lines.now) }
{
    if rows > 0 {
        out.extend_from_slice(HISTORY)?;
        out.extend_from_slice(lines)?;
    }
    Ok(())
}
