//! Descriptions of sessions (RFC 4566): what bytes say of media, the bytes of a description, and where and which way
//! each medium goes. Reading is specified for every text: a description is found exactly if the bytes are one, and a
//! refusal names the first fault. Nothing here knows of SIP, offers or answers.
#![tactic(auto)]

mod address;
mod class;
mod connection;
mod description;
mod error;
mod judge;
mod keep;
mod laws;
mod line;
mod medium_line;
mod order;
mod origin_line;
mod place;
mod read;
mod split;
mod value;
mod way;
mod write;

pub use address::Address;
pub use description::{Description, Media, MediaList, Origin};
pub use error::DescriptionError;
pub use keep::keep_formats;
pub use laws::one_description;
pub use line::{Line, Lines};
pub use place::{Place, place_of};
pub use read::read_description;
pub use way::{Way, way_of};
pub use write::write_description;
