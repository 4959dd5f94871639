//! Where datagrams wait until the signalling takes them.

use libc::net::{SO_RCVBUF, SOL_SOCKET, setsockopt};
use mio::net::UdpSocket;
use std::os::fd::AsRawFd;

/// The bytes of room that the system is asked for.
const ROOM: i32 = 1 << 20;

/// Asks the system for room in which datagrams wait, so that more of them survive a burst. The system gives what its
/// limit allows, and a refusal leaves the socket as it is.
pub(crate) fn ask_for_room(socket: &UdpSocket) {
    let mut value = [0u8; 16];
    value[..4].copy_from_slice(&ROOM.to_ne_bytes());
    let _status = unsafe { setsockopt(socket.as_raw_fd(), SOL_SOCKET, SO_RCVBUF, &value, 4) };
}
