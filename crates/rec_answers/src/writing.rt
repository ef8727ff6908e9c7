// What a run writes.
ghost use Rattle.std.specs.Prelude.{◌++◌, OnOk, OnErr};
ghost use Rattle.std.specs.Io.KnownBytes.{Appends};
ghost use Rattle.std.specs.List.{flat_map};
ghost use Rattle.faults.specs.Count.{HasCause};
ghost use Rattle.ends.specs.Bytes.{TookFront};
ghost use Rattle.rec_answers.specs.Logged.{log_bytes};

use ends::{Sink, WriteFault, write_all};
use log_text::LogText;

// Writes the parts of a text, one after the other.
fn write_parts<O: Sink>(out: &mut O, parts: &[Vec<u8>]) -> Result<(), WriteFault>
    ensures whole { OnOk result (Appends (O.taken out.old) (O.taken out.new)
        (flat_map (λ part. part.items) parts.now)) }
    ensures front { OnErr result (TookFront (O.taken out.old) (O.taken out.new)
        (flat_map (λ part. part.items) parts.now)) }
    ensures fault_only_where_count_rose { HasCause (O.faults out.old) (O.faults out.new) result }
{
    for part in parts {
        write_all(out, part)?;
    }
    Ok(())
}

/// Writes an output, and the log behind it, where there is one.
pub fn write_both<O: Sink>(
    out: &mut O,
    output: &[u8],
    log: &Option<LogText>,
) -> Result<(), WriteFault>
    ensures whole { OnOk result
        (Appends (O.taken out.old) (O.taken out.new) (output.now ++ log_bytes log.now)) }
    ensures front { OnErr result
        (TookFront (O.taken out.old) (O.taken out.new) (output.now ++ log_bytes log.now)) }
    ensures fault_only_where_count_rose { HasCause (O.faults out.old) (O.faults out.new) result }
{
    write_all(out, output)?;
    match log {
        Some(log) => write_parts(out, log.parts()),
        None => Ok(()),
    }
}
