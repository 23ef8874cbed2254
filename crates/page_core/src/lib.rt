//! Pages of captures: their laws, and their text in the three outputs; docs/QUERY.md has the rules.
//!
//! The definitions begin in `specs/Pages.antt`: what a page is, and what a chain of pages is.
#![tactic(auto)]

mod escaping;
mod form;
mod hidden;
mod json_rows;
mod laws;
mod page_output;
mod text_rows;
mod values;

pub use crate::form::PageForm;
pub use crate::laws::{begun_page_is_front, page_is_its_pieces, pages_join};
pub use crate::page_output::PageOutput;
