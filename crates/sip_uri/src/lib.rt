//! URIs of the scheme `sip`, and the names and addresses that headers are made of (RFC 3261 sections 19.1 and 20.10).
#![tactic(auto)]

mod address;
mod class;
mod contact_equality;
mod error;
mod field_params;
mod hosts;
mod keep;
mod laws;
mod name_addr;
mod name_parts;
mod parts;
mod quotes;
mod read;
mod room;
mod uri;
mod write;

pub use address::{address_of, port_or_default};
pub use contact_equality::{param_named, same_binding, same_host, same_text};
pub use error::UriError;
pub use field_params::read_field_params;
pub use hosts::{ip4, is_host};
pub use keep::keep_text;
pub use laws::{binding_is_equivalence, one_value};
pub use name_addr::{put_display_and_uri, put_name_addr, read_name_addr, write_name_addr};
pub use quotes::is_quoted;
pub use read::{read_host, read_uri};
pub use uri::{Addr, Host, NameAddr, Param, Params, Uri};
pub use write::{put_host, put_ip4, put_param, put_params, put_uri, write_uri};
