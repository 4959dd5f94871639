//! Tokens: texts that no other call, dialog or transaction has.

ghost use Rattle.std.specs.Prelude.{◌≡◌, IfOk};
ghost use Rattle.responses.specs.Tokens.{token};

use std::alloc::{AllocError, Global};
use text::{Room, Text};

/// The token of this salt, with this number among the agent's: sixteen hexadecimal digits, a full stop and the
/// number.
#[tactic(auto, unfolding(crate::specs::Tokens::token))]
pub fn token(alloc: Global, salt: u64, count: u64) -> Result<Text<'static>, AllocError>
    ensures { IfOk result (λ t. t ≡ token salt count) }
{
    let mut digits = [0u8; 16];
    let Ok(()) = hex::encode_to_slice(salt.to_be_bytes(), &mut digits) else {
        unreachable!()
    };
    let mut room = Room::new();
    room.put(&digits);
    room.put_byte(b'.');
    room.put_number(count);
    room.text(alloc)
}
