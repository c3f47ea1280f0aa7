//! Lines into a sink.
ghost use Rattle.std.specs.Prelude.{◌≡◌, ◌<◌, ◌≤◌, length, OnOk, OnErr, IsErrOf};
ghost use Rattle.input_output.specs.Faults.{Rose};
ghost use Rattle.input_output.specs.Bytes.{Gains, GainsFront};

use input_output::{Sink, SinkFault};

/// Writes the bytes, each line with its end by one call.
pub fn put_lines<K: Sink>(out: &mut K, bytes: &[u8]) -> Result<(), SinkFault>
    ensures ok { OnOk result (Gains (K.written out.old) (K.written out.new) bytes.now) }
    ensures front { OnErr result (GainsFront (K.written out.old) (K.written out.new) bytes.now) }
    ensures failed { IsErrOf result SinkFault.Failed → Rose (K.faults out.old) (K.faults out.new) }
{
    let mut rest = bytes;
    while !rest.is_empty() {
        let (line, later) = rest.split_at(line_len(rest));
        match out.put(line) {
            Ok(()) => rest = later,
            Err(fault) => return Err(fault),
        }
    }
    Ok(())
}

/// The length of the first line, its end included.
fn line_len(bytes: &[u8]) -> usize
    requires { 0 < length bytes.now }
    ensures some { 0 < result }
    ensures within { result ≤ length bytes.now }
{
    let end = bytes.iter().position(|byte| *byte == b'\n');
    end.map_or(bytes.len(), |at| at + 1)
}
