//! Writes the lines of events as a transcript shows them.
ghost use Rattle.std.specs.Prelude.{◌≡◌, ◌++◌, OnOk};
ghost use Rattle.cp_base.specs.Text.{Grew};
ghost use Rattle.cp_call_words.specs.Calls.{call_text};
ghost use Rattle.cp_call_words.specs.Shown.{shown};
ghost use Rattle.cp_schedule.specs.Shown.{shown_event_line};

use cp_base::NoMemory;
use cp_call_words::put_shown_user_op;
use cp_events::{Event, UserOp};
use cp_op_values::append_numbered;

/// Appends a call as it is shown, with its line feed.
fn append_call(op: &UserOp, scratch: &mut Vec<u8>, out: &mut Vec<u8>) -> Result<(), NoMemory>
    ensures ok { OnOk result (out.new.items ≡ out.old.items ++ call_text (shown op.now)) }
    ensures grew { Grew out.old.items out.new.items }
{
    scratch.clear();
    put_shown_user_op(op, scratch)?;
    out.extend_from_slice(scratch)?;
    Ok(())
}

/// Appends the line of an event as a transcript shows it behind the event's number, with its line feed; where memory
/// runs out, a front of it may stand in `out`. What stood in `scratch` is lost.
#[tactic(auto, unfolding(crate::specs::Events::event_line, crate::specs::Events::line_words, cp_call_words::specs::Values::member_word, crate::specs::Events::client_word, crate::specs::Events::thread_word, crate::specs::Events::crash_words, crate::specs::Events::stop_words))]
pub fn append_event_line(
    event: &Event,
    scratch: &mut Vec<u8>,
    out: &mut Vec<u8>,
) -> Result<(), NoMemory>
    ensures ok { OnOk result (out.new.items ≡ out.old.items ++ shown_event_line event.now) }
    ensures grew { Grew out.old.items out.new.items }
{
    match event {
        Event::Open => out.extend_from_slice(b"open\n")?,
        Event::Tick(member, time) => {
            append_numbered(b"tick ", u64::from(member.0), out)?;
            append_numbered(b" ", u64::from(*time), out)?;
            out.push(b'\n')?;
        }
        Event::ClientTick(client, time) => {
            append_numbered(b"ctick ", u64::from(client.0), out)?;
            append_numbered(b" ", u64::from(*time), out)?;
            out.push(b'\n')?;
        }
        Event::Call(client, thread, op) => {
            append_numbered(b"call ", u64::from(client.0), out)?;
            append_numbered(b" ", u64::from(thread.0), out)?;
            out.push(b' ')?;
            append_call(op, scratch, out)?;
        }
        Event::Deliver(message) => {
            append_numbered(b"deliver ", *message, out)?;
            out.push(b'\n')?;
        }
        Event::Crash(member) => {
            append_numbered(b"crash ", u64::from(member.0), out)?;
            out.push(b'\n')?;
        }
        Event::CrashAfter(member, calls, choice) => {
            append_numbered(b"crash ", u64::from(member.0), out)?;
            append_numbered(b" after ", *calls, out)?;
            append_numbered(b" choice ", *choice, out)?;
            out.push(b'\n')?;
        }
        Event::Start(member) => {
            append_numbered(b"start ", u64::from(member.0), out)?;
            out.push(b'\n')?;
        }
    }
    Ok(())
}
