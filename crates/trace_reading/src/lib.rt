//! Datagrams as messages of a trace: what `call_trace` sees of the bytes that came or went. Which response replies to
//! which request, which dialog a datagram names, which method it has and what its body describes are the same there
//! as where messages, transactions, dialogs and descriptions are read. Nothing here knows about the server.
#![tactic(auto)]

mod body;
mod laws;
mod message;
mod read;

pub use laws::{bodies_describe, bytes_say_all, dialogs_agree, methods_agree, replies_agree};
pub use read::read_trace_message;
