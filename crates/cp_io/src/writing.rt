//! Writing a whole text to a sink.
ghost use Rattle.std.specs.Prelude.{◌≡◌, ◌≤◌, OnOk, OnErr, IfErr};
ghost use Rattle.std.specs.Io.KnownBytes.{Appends};
ghost use Rattle.cp_base.specs.Faults.{AppendsFront};
ghost use Rattle.cp_io.specs.Causes.{WriteCause};

use crate::traits::{Fault, Sink};

/// Writes the whole text, in as many calls as the sink wants. After an error a front of the text is written; `Failed`
/// comes only where the count of the sink's faults rose.
#[tactic(auto, using(crate::proofs::Appending::appends_more))]
pub fn write_all<K: Sink>(sink: &mut K, text: &[u8]) -> Result<(), Fault>
    ensures ok { OnOk result (Appends (K.written sink.old) (K.written sink.new) text.now) }
    ensures front { OnErr result (AppendsFront (K.written sink.old) (K.written sink.new) text.now) }
    ensures err { IfErr result (WriteCause (K.faults sink.old) (K.faults sink.new)) }
    ensures later { K.faults sink.old ≤ K.faults sink.new }
{
    let mut at = 0;
    while at < text.len() {
        match sink.write(&text[at..]) {
            Ok(0) => return Err(Fault::Failed),
            Ok(count) => at += count,
            Err(fault) => return Err(fault),
        }
    }
    Ok(())
}
