//! The form in which a page is written.
ghost use Rattle.std.specs.Prelude.{◌≡◌, ◌++◌, IfOk, option_map};
ghost use Rattle.page_core.specs.PageText.{page_start, page_end};
ghost use Rattle.page_core.specs.FormView.{form_view};

use crate::json_rows::{push_json_end, push_names};
use crate::text_rows::push_key_lines;
use cdxj_core::Field;
use std::alloc::{AllocError, Global};

/// The output of a query, with the fields that it prints.
#[derive(Clone, Copy)]
pub enum PageForm<'f> {
    /// The values of these fields, one line for each capture.
    Text(&'f [Field]),
    /// The lines as they stand in their indexes.
    Cdxj,
    /// One JSON array of rows. The first row has the names of these fields.
    Json(&'f [Field]),
}

impl PageForm<'_> {
    /// Appends to the text what precedes the first capture of a page.
    pub(crate) fn push_start(self, text: &mut Vec<u8>, alloc: Global) -> Result<(), AllocError>
        ensures { IfOk result (λ _. text.new.items
            ≡ text.old.items ++ page_start (form_view self.entry)) }
    {
        match self {
            PageForm::Text(_) | PageForm::Cdxj => Ok(()),
            PageForm::Json(fields) => {
                text.extend_from_slice(b"[")?;
                push_names(text, alloc, fields)
            }
        }
    }

    /// Appends to the text what follows the last capture of a page, with the resume key if there is
    /// one.
    pub(crate) fn push_end(
        self,
        text: &mut Vec<u8>,
        alloc: Global,
        key: Option<&str>,
    ) -> Result<(), AllocError>
        ensures { IfOk result (λ _. text.new.items
            ≡ text.old.items
            ++ page_end (form_view self.entry) (option_map (λ k. k.now) key.entry)) }
    {
        match self {
            PageForm::Text(_) | PageForm::Cdxj => push_key_lines(text, key),
            PageForm::Json(_) => push_json_end(text, alloc, key),
        }
    }
}
