//! A server of three pages over HTTP/1.1, which one thread runs. It knows nothing of what it serves: its caller
//! provides that. It reads only the heads of requests, answers one request per connection, and keeps no connection
//! long.
#![tactic(auto)]

mod answer;
mod connection;
mod connections;
mod flow;
mod head;
mod moments;
mod path;
mod refusal;
mod request;
mod response;
mod server;
mod source;
mod stages;

pub use head::{Head, judge};
pub use path::Path;
pub use refusal::Refusal;
pub use response::{put_page, put_refusal};
pub use server::PageServer;
pub use source::PageSource;
