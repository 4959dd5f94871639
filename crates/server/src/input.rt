//! One datagram from a reader, and all that a reader has.

ghost use Rattle.std.specs.Prelude.{◌≡◌, ◌≤◌, ◌++◌, take, length, vec_len, IfOk, IfErr, OnOk};
ghost use Rattle.std.specs.Io.KnownBytes.{ReadConsumes};
ghost use Rattle.server.specs.Input.{max_kept, Reads, ReadsAll};
ghost use Rattle.server.specs.Leaves.{IsOfReading};

use crate::fault::Fault;
use std::alloc::{AllocError, Global};
use std::io::Read;

/// How many reads are made before an input counts as endless.
const MAX_READS: u32 = 1_048_576;

/// Bytes that are kept: one more than a datagram may have.
const MAX_KEPT: usize = 16_385;

/// Appends as many of the bytes to the kept ones as there is room for.
fn keep(whole: &mut Vec<u8>, bytes: &[u8]) -> Result<(), AllocError>
    requires { vec_len whole.old ≤ max_kept }
    ensures ok { OnOk result (whole.new.items ≡ take max_kept (whole.old.items ++ bytes.now)) }
    ensures room { OnOk result (vec_len whole.new ≤ max_kept) }
{
    let room = MAX_KEPT - whole.len();
    if bytes.len() <= room {
        whole.extend_from_slice(bytes)?;
        return Ok(());
    }
    whole.extend_from_slice(&bytes[..room])?;
    Ok(())
}

/// Some bytes of the reader: none only at its end.
pub(crate) fn read_some<R: Read>(reader: &mut R, chunk: &mut [u8]) -> Result<usize, Fault>
    ensures bound { IfOk result (λ n. n ≤ length chunk.new) }
    ensures bytes { ReadConsumes (R.remaining reader.old) (R.remaining reader.new) result chunk.new }
    ensures fault { IfErr result (λ e. e ≡ Fault.Input) }
{
    match reader.read(chunk) {
        Ok(count) => Ok(count),
        Err(_) => Err(Fault::Input),
    }
}

/// Reads to the end, and keeps the first bytes. An input that has not ended after `MAX_READS` reads is a fault.
pub fn read_datagram<R: Read>(alloc: Global, reader: &mut R) -> Result<Vec<u8>, Fault>
    ensures read { IfOk result (λ v. Reads (R.remaining reader.old) (R.remaining reader.new) v.items) }
    ensures fault { IfErr result IsOfReading }
{
    let mut whole = Vec::new(alloc);
    let mut chunk = [0u8; 4096];
    for _ in 0..MAX_READS {
        let count = read_some(reader, &mut chunk)?;
        if count == 0 {
            return Ok(whole);
        }
        keep(&mut whole, &chunk[..count])?;
    }
    Err(Fault::Input)
}

/// Reads to the end, and keeps all of it. An input that has not ended after `MAX_READS` reads is a fault.
pub(crate) fn read_whole<R: Read>(alloc: Global, reader: &mut R) -> Result<Vec<u8>, Fault>
    ensures read { IfOk result (λ v. ReadsAll (R.remaining reader.old) (R.remaining reader.new) v.items) }
    ensures fault { IfErr result IsOfReading }
{
    let mut whole = Vec::new(alloc);
    let mut chunk = [0u8; 4096];
    for _ in 0..MAX_READS {
        let count = read_some(reader, &mut chunk)?;
        if count == 0 {
            return Ok(whole);
        }
        whole.extend_from_slice(&chunk[..count])?;
    }
    Err(Fault::Input)
}
