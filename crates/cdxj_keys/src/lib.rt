//! The keys of captures in an index, in the manner of SURT; docs/CDXJ.md has the rules.
//!
//! The definitions are in `specs/Key.antt`: the key of a URL, and of its host.
#![tactic(auto)]

mod fault;
mod host;
mod key;
mod laws;
mod plain_url;

pub use crate::fault::KeyFault;
pub use crate::key::{host_key, parsed_url_key, url_key, url_key_with_room};
pub use crate::laws::host_key_begins_key;
