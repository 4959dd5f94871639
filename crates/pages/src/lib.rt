//! What the status page's paths answer: the page for a browser, and the same as JSON and in Prometheus' text form.
//! Each is written from the values of `status`; nothing here opens a socket. A text from outside appears in them only
//! escaped.
#![tactic(auto)]

mod escape;
mod json;
mod json_calls;
mod json_users;
mod metric_calls;
mod metrics;
mod page;
mod page_calls;
mod page_limits;
mod page_users;
mod piece;
mod start;
mod words;

pub use json::put_json;
pub use metrics::put_metrics;
pub use page::put_page;
