//! The lines of an event.
ghost use Rattle.std.specs.Prelude.{◌≡◌, ◌++◌, ◌∷◌, OnErr, OnOk};
ghost use Rattle.std.specs.Fmt.{decimal};
ghost use Rattle.std.specs.List.{flat_map};
ghost use Rattle.cp_base.specs.Text.{Grew};
ghost use Rattle.cp_transcript.specs.Effects.{cause_text, effects_lines, ending_text, event_line, ignored_lines, opened_line, return_line};

use cp_base::{ClientNo, NoMemory, Text, write_decimal};
use cp_events::{Ending, Event, Ignored, Opened, Return};
use cp_op_values::append_numbered;
use cp_schedule::append_event_line;

fn append_event(
    number: u64,
    event: &Event,
    scratch: &mut Vec<u8>,
    out: &mut Vec<u8>,
) -> Result<(), NoMemory>
    ensures ok { OnOk result (out.new.items ≡ out.old.items ++ event_line number event.now) }
    ensures grew { Grew out.old.items out.new.items }
{
    write_decimal(number, out)?;
    out.push(b' ')?;
    append_event_line(event, scratch, out)?;
    Ok(())
}

fn append_cause(cause: &Ignored, out: &mut Vec<u8>) -> Result<(), NoMemory>
    ensures ok { OnOk result (out.new.items ≡ out.old.items ++ cause_text cause.now) }
    ensures grew { Grew out.old.items out.new.items }
{
    match cause {
        Ignored::NoMessage(sent) => append_numbered(b"no-message ", *sent, out)?,
        Ignored::MemberDown => out.extend_from_slice(b"member-down")?,
        Ignored::MemberUp => out.extend_from_slice(b"member-up")?,
        Ignored::ThreadBusy(number) => append_numbered(b"thread-busy ", *number, out)?,
        Ignored::NoSuchMember => out.extend_from_slice(b"no-such-member")?,
        Ignored::NoSuchClient => out.extend_from_slice(b"no-such-client")?,
        Ignored::ClockEnd(clock) => append_numbered(b"clock-end ", *clock, out)?,
    }
    Ok(())
}

fn append_ignored(ignored: &Option<Ignored>, out: &mut Vec<u8>) -> Result<(), NoMemory>
    ensures ok { OnOk result (out.new.items ≡ out.old.items ++ ignored_lines ignored.now) }
    ensures grew { Grew out.old.items out.new.items }
{
    if let Some(cause) = ignored {
        out.extend_from_slice(b"ignored ")?;
        append_cause(cause, out)?;
        out.push(b'\n')?;
    }
    Ok(())
}

fn append_opened(opened: &(ClientNo, Opened), out: &mut Vec<u8>) -> Result<(), NoMemory>
    ensures ok { OnOk result (out.new.items ≡ out.old.items ++ opened_line opened.now) }
    ensures grew { Grew out.old.items out.new.items }
{
    let (client, opened) = opened;
    out.extend_from_slice(b"opened ")?;
    write_decimal(u64::from(client.0), out)?;
    out.push(b' ')?;
    write_decimal(opened.group.0, out)?;
    out.push(b' ')?;
    write_decimal(opened.session, out)?;
    out.push(b'\n')?;
    Ok(())
}

fn append_all_opened(opened: &[(ClientNo, Opened)], out: &mut Vec<u8>) -> Result<(), NoMemory>
    ensures ok { OnOk result (out.new.items ≡ out.old.items ++ flat_map opened_line opened.now) }
    ensures grew { Grew out.old.items out.new.items }
{
    let mut rest = opened;
    while let [first, after @ ..] = rest {
        append_opened(first, out)?;
        rest = after;
    }
    Ok(())
}

fn append_ending(ending: &Ending, out: &mut Vec<u8>) -> Result<(), NoMemory>
    ensures ok { OnOk result (out.new.items ≡ out.old.items ++ ending_text ending.now) }
    ensures grew { Grew out.old.items out.new.items }
{
    match ending {
        Ending::Answered(answer) => answer.append_text(out)?,
        Ending::Refused(refusal) => {
            out.extend_from_slice(b"refused ")?;
            refusal.append_text(out)?;
        }
    }
    Ok(())
}

/// A client, its thread, and the number of the thread's request.
fn append_request(client: ClientNo, what: &Return, out: &mut Vec<u8>) -> Result<(), NoMemory>
    ensures ok { OnOk result (out.new.items ≡ out.old.items
        ++ (decimal client.0 ++ 32 ∷ decimal what.now.thread.0 ++ 32 ∷ decimal what.now.number)) }
    ensures grew { Grew out.old.items out.new.items }
{
    write_decimal(u64::from(client.0), out)?;
    out.push(b' ')?;
    write_decimal(u64::from(what.thread.0), out)?;
    out.push(b' ')?;
    write_decimal(what.number, out)?;
    Ok(())
}

fn append_return(returned: &(ClientNo, Return), out: &mut Vec<u8>) -> Result<(), NoMemory>
    ensures ok { OnOk result (out.new.items ≡ out.old.items ++ return_line returned.now) }
    ensures grew { Grew out.old.items out.new.items }
{
    let (client, what) = returned;
    out.extend_from_slice(b"return ")?;
    append_request(*client, what, out)?;
    out.push(b' ')?;
    append_ending(&what.ending, out)?;
    out.push(b'\n')?;
    Ok(())
}

fn append_returns(returns: &[(ClientNo, Return)], out: &mut Vec<u8>) -> Result<(), NoMemory>
    ensures ok { OnOk result (out.new.items ≡ out.old.items ++ flat_map return_line returns.now) }
    ensures grew { Grew out.old.items out.new.items }
{
    let mut rest = returns;
    while let [first, after @ ..] = rest {
        append_return(first, out)?;
        rest = after;
    }
    Ok(())
}

fn append_effects(
    number: u64,
    event: &Event,
    ignored: &Option<Ignored>,
    opened: &[(ClientNo, Opened)],
    returns: &[(ClientNo, Return)],
    scratch: &mut Vec<u8>,
    out: &mut Vec<u8>,
) -> Result<(), NoMemory>
    ensures ok { OnOk result (out.new.items ≡ out.old.items
        ++ effects_lines (record {
          number = number;
          event = event.now;
          ignored = ignored.now;
          opened = opened.now;
          returns = returns.now;
        })) }
    ensures grew { Grew out.old.items out.new.items }
{
    append_event(number, event, scratch, out)?;
    append_ignored(ignored, out)?;
    append_all_opened(opened, out)?;
    append_returns(returns, out)?;
    Ok(())
}

/// Appends the lines of an event: its number and text, and what it did. Where memory runs out, `out` is left. What stood
/// in `scratch` is lost.
pub fn write_effects(
    number: u64,
    event: &Event,
    ignored: &Option<Ignored>,
    opened: &[(ClientNo, Opened)],
    returns: &[(ClientNo, Return)],
    scratch: &mut Vec<u8>,
    out: &mut Vec<u8>,
) -> Result<(), NoMemory>
    ensures ok { OnOk result (out.new.items ≡ out.old.items
        ++ effects_lines (record {
          number = number;
          event = event.now;
          ignored = ignored.now;
          opened = opened.now;
          returns = returns.now;
        })) }
    ensures err { OnErr result (out.new.items ≡ out.old.items) }
{
    let mark = out.len();
    let written = append_effects(number, event, ignored, opened, returns, scratch, out);
    if written.is_err() {
        out.truncate(mark);
    }
    written
}
