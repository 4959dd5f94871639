//! An address and a port as text.

ghost use Rattle.std.specs.Prelude.{◌≡◌, ◌≤◌, ◌+◌, ◌++◌, Some, decimal, length};
ghost use Rattle.sip_uri.specs.Writing.{ip4_text};
ghost use Rattle.text.specs.Cut.{led_by};
ghost use Rattle.text.specs.Limits.{max_in_room};

use sip_uri::Addr;
use text::Room;

/// Appends an octet in plain decimals.
fn put_octet(room: &mut Room, octet: u8)
    requires { length room.old + 20 ≤ max_in_room }
    ensures octet { room.new ≡ room.old ++ decimal octet }
    ensures short { length room.new ≤ length room.old + 3 }
{
    room.put_number(u64::from(octet));
}

/// Appends a port in plain decimals.
fn put_port(room: &mut Room, port: u16)
    requires { length room.old + 20 ≤ max_in_room }
    ensures port { room.new ≡ room.old ++ decimal port }
    ensures short { length room.new ≤ length room.old + 5 }
{
    room.put_number(u64::from(port));
}

/// Appends an address and its port, `ADDRESS:PORT`, with room for 36 bytes more. Takes no memory.
pub fn put_socket_address(room: &mut Room, address: Addr)
    requires { length room.old + 36 ≤ max_in_room }
    ensures address { room.new ≡ room.old ++ ip4_text address.ip ++ led_by 58 (Some (decimal address.port)) }
    ensures short { length room.new ≤ length room.old + 21 }
{
    let [a, b, c, d] = address.ip;
    put_octet(room, a);
    room.put_byte(b'.');
    put_octet(room, b);
    room.put_byte(b'.');
    put_octet(room, c);
    room.put_byte(b'.');
    put_octet(room, d);
    room.put_byte(b':');
    put_port(room, address.port);
}
