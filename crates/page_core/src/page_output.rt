//! The text of a page, written piece by piece.
ghost use Rattle.std.specs.Prelude.{◌≡◌, ◌++◌, IfOk, option_map};
ghost use Rattle.cdxj_core.specs.Members.{line_row};
ghost use Rattle.devices.specs.Writing.{WritesText};
ghost use Rattle.devices.specs.WriteFaults.{CountsWriteFault};
ghost use Rattle.page_core.specs.FormView.{form_view};
ghost use Rattle.page_core.specs.PageText.{page_start, row_text, page_end};

use crate::form::PageForm;
use crate::json_rows::push_json_row;
use crate::text_rows::push_text_row;
use cdxj_core::Line;
use devices::{Output, WriteFault, put};
use std::alloc::{AllocError, Global};
use std::marker::Model;

/// Appends a line as it stands in its index to the text, with a line feed.
fn push_line(text: &mut Vec<u8>, line: &Line) -> Result<(), AllocError>
    ensures { IfOk result (λ _. text.new.items ≡ text.old.items ++ line_row line.now) }
{
    text.extend_from_slice(line.line())?;
    text.extend_from_slice(b"\n")
}

/// Writes a page in one form: its start, a row for each capture, and its end. Each piece is built
/// in one buffer, which is reused, and written whole.
#[derive(Drop)]
pub struct PageOutput<'f> {
    alloc: Global,
    form: PageForm<'f>,
    text: Vec<u8>,
}

impl<'f> Model for PageOutput<'f> {
    ghost use Rattle.page_core.specs.Form.{FormValue};
    ghost use Rattle.page_core.specs.FormView.{form_view};

    ghost Value = { FormValue };

    ghost view = { λ page. form_view page.form };
}

impl<'f> PageOutput<'f> {
    /// Creates the output of a page in this form, of which nothing is written yet.
    pub fn new(alloc: Global, form: PageForm<'f>) -> PageOutput<'f>
        ensures { result ≡ form_view form.entry }
    {
        PageOutput {
            alloc,
            form,
            text: Vec::new(alloc),
        }
    }

    /// Writes what precedes the first capture.
    /// Errors are `Memory`, and `Write` if the output failed. A prefix of it was then written.
    #[tactic(auto, using(devices::proofs::WritingLemmas::writes_nothing))]
    pub fn put_start<O: Output>(&mut self, out: &mut O) -> Result<(), WriteFault>
        ensures form { self.new ≡ self.old }
        ensures text { WritesText result (O.written out.old) (O.written out.new)
            (page_start self.old) }
        ensures failures { CountsWriteFault result (O.failures out.old) (O.failures out.new) }
    {
        self.text.clear();
        self.form.push_start(&mut self.text, self.alloc)?;
        put(out, &self.text)?;
        Ok(())
    }

    /// Writes the row of a capture.
    /// Errors are `Memory`, and `Write` if the output failed. A prefix of it was then written.
    #[tactic(auto, using(devices::proofs::WritingLemmas::writes_nothing))]
    pub fn put_row<O: Output>(&mut self, line: &Line, out: &mut O) -> Result<(), WriteFault>
        ensures form { self.new ≡ self.old }
        ensures text { WritesText result (O.written out.old) (O.written out.new)
            (row_text self.old line.now) }
        ensures failures { CountsWriteFault result (O.failures out.old) (O.failures out.new) }
    {
        self.text.clear();
        match self.form {
            PageForm::Text(fields) => push_text_row(&mut self.text, self.alloc, fields, line)?,
            PageForm::Json(fields) => push_json_row(&mut self.text, self.alloc, fields, line)?,
            PageForm::Cdxj => push_line(&mut self.text, line)?,
        }
        put(out, &self.text)?;
        Ok(())
    }

    /// Writes what follows the last capture, with the resume key if there is one.
    /// Errors are `Memory`, and `Write` if the output failed. A prefix of it was then written.
    #[tactic(auto, using(devices::proofs::WritingLemmas::writes_nothing))]
    pub fn put_end<O: Output>(&mut self, key: Option<&str>, out: &mut O) -> Result<(), WriteFault>
        ensures form { self.new ≡ self.old }
        ensures text { WritesText result (O.written out.old) (O.written out.new)
            (page_end self.old (option_map (λ k. k.now) key.entry)) }
        ensures failures { CountsWriteFault result (O.failures out.old) (O.failures out.new) }
    {
        self.text.clear();
        self.form.push_end(&mut self.text, self.alloc, key)?;
        put(out, &self.text)?;
        Ok(())
    }
}
