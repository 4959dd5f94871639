//! The ACKs of 2xx that are sent again.

ghost use Rattle.std.specs.Prelude.{◌≡◌, ◌<◌, ◌≤◌, ◌-◌, vec_len};
ghost use Rattle.std.specs.Vec.{vec_capacity};
ghost use Rattle.plans.specs.Effect.{acks_after, without_ack};

use plans::{AckChange, KeptAck};

/// Removes the ACK that is kept for this transaction. Takes no memory.
fn without_ack(acks: &mut Vec<KeptAck>, id: usize)
    ensures acks { acks.new.items ≡ without_ack id acks.old.items }
    ensures room { vec_capacity acks.old - vec_len acks.old ≤ vec_capacity acks.new - vec_len acks.new }
{
    acks.retain(|ack| ack.id != id)
}

/// Makes the change, for which there is room. Takes no memory.
pub(crate) fn keep(acks: &mut Vec<KeptAck>, change: AckChange)
    requires { vec_len acks.old < vec_capacity acks.old }
    ensures { acks.new.items ≡ acks_after acks.old.items change }
{
    match change {
        AckChange::Stay => {}
        AckChange::Keeps(ack) => {
            without_ack(acks, ack.id);
            let pushed = acks.push(ack);
            prove!(pushed.is_ok());
            drop(pushed);
        }
        AckChange::Ends(id) => without_ack(acks, id),
    }
}
