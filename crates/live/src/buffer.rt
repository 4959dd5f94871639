//! The buffer that receives datagrams.

ghost use Rattle.std.specs.Prelude.{◌≡◌, IfOk, length};
ghost use Rattle.live.specs.Arrivals.{buffer_length};

use std::alloc::{AllocError, Global};
use std::marker::Model;

/// One byte more than a datagram may have, so that a longer one is seen to be too long.
const BUFFER: usize = 16_385;

/// Room for one datagram and one byte more.
#[derive(Drop)]
pub struct DatagramBuffer {
    pub(crate) bytes: Vec<u8>,
}

impl Model for DatagramBuffer {
    ghost use Rattle.std.specs.Prelude.{◌≡◌, length, List, ℕ};
    ghost use Rattle.live.specs.Arrivals.{buffer_length};

    ghost Value = { List ℕ };

    ghost view = { λ b. b.bytes.items };

    ghost invariant = { λ b. length b.bytes.items ≡ buffer_length };
}

/// A buffer of zeros.
pub fn datagram_buffer(alloc: Global) -> Result<DatagramBuffer, AllocError>
    ensures { IfOk result (λ buffer. length buffer ≡ buffer_length) }
{
    Ok(DatagramBuffer {
        bytes: vec![in alloc; 0; BUFFER]?,
    })
}
