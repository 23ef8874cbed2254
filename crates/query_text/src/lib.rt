//! What the text of a query says, and which lines it selects; docs/QUERY.md has the rules.
//!
//! The definitions begin in `specs/Matching.antt`: which lines a query selects. `specs/Queries.antt` has what its text
//! says.
#![tactic(auto)]

mod address;
mod collapse;
mod fault;
mod fields;
mod filter;
mod laws;
mod limit;
mod output;
mod parameter;
mod parameters;
mod parts;
mod query;
mod resume;
mod resuming;
mod stamp;
mod target;

pub use crate::collapse::Collapse;
pub use crate::fault::QueryFault;
pub use crate::laws::matching_keys_are_in_one_range;
pub use crate::output::OutputFormat;
pub use crate::parameter::is_parameter;
pub use crate::query::{QUERY_LIMIT, Query};
pub use crate::resuming::resume_key_is_put_into_query;
pub use crate::target::{MatchKind, Target};
