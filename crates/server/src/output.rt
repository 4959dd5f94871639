//! Writing bytes.

ghost use Rattle.std.specs.Prelude.{◌≡◌, IfErr, OnOk};
ghost use Rattle.std.specs.Io.KnownBytes.{Appends};

use crate::fault::Fault;
use std::io::Write;

/// Writes all of the bytes.
pub(crate) fn write_out<W: Write>(writer: &mut W, bytes: &[u8]) -> Result<(), Fault>
    ensures written { OnOk result (Appends (W.contents writer.old) (W.contents writer.new) bytes.now) }
    ensures fault { IfErr result (λ e. e ≡ Fault.Output) }
{
    match writer.write_all(bytes) {
        Ok(()) => Ok(()),
        Err(_) => Err(Fault::Output),
    }
}
