//! The lines of a message and its header fields (RFC 3261 sections 7 and 7.3.1). Reading is specified for every text:
//! header fields are found exactly if the lines are well formed. Nothing here knows of start lines, or of what the
//! value of a field means.
#![tactic(auto)]

mod field;
mod field_value;
mod folds;
mod head;
mod header_names;
pub mod headers;
mod lines;
mod lookup;
mod readable;

pub use field_value::FieldValue;
pub use head::{HeadError, read_head};
pub use headers::{Header, Headers};
pub use lines::{ended_lines, first_line, is_clean, next_line};
pub use lookup::{first_value, is_named, values_named};
pub use readable::readable_headers;
