// A text, written whole.
ghost use Rattle.std.specs.Prelude.{◌≤◌, OnOk, OnErr};
ghost use Rattle.tool_ends.specs.Outside.{Appends, AppendsFront, Rose};

use crate::sink::Sink;
use crate::source::Failed;

/// Writes all of a text.
///
/// `Failed` where a write failed; a front of the text was written then.
pub fn write_whole<K: Sink>(sink: &mut K, text: &[u8]) -> Result<(), Failed>
    ensures whole { OnOk result (Appends (K.written sink.old) text.now (K.written sink.new)) }
    ensures front { OnErr result (AppendsFront (K.written sink.old) text.now (K.written sink.new)) }
    ensures failed { OnErr result (Rose (K.faults sink.old) (K.faults sink.new)) }
    ensures counted { K.faults sink.old ≤ K.faults sink.new }
{
    let mut done = 0;
    'pieces: while done < text.len() {
        done += sink.write(&text[done..])?;
    }
    Ok(())
}
