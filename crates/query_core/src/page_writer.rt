//! The writing of pages.
ghost use Rattle.std.specs.Prelude.{◌≡◌, ◌++◌, ◌∷◌, [], List, Option, None, Some, ℕ, OnOk, IfOk};
ghost use Rattle.std.specs.Prelude.{MatchResult, IfSome, option_map, string_bytes};
ghost use Rattle.cdxj_core.specs.Members.{Member, member_place};
ghost use Rattle.page_core.specs.FormView.{form_view};
ghost use Rattle.devices.specs.WriteFaults.{CountsWriteFault};
ghost use Rattle.page_core.specs.PageText.{page_end};
ghost use Rattle.devices.specs.Writing.{WritesText};
ghost use Rattle.query_core.specs.WrittenPages.{IsReadBack};
ghost use Rattle.query_core.specs.QueryPages.{form_of, shown_key};

use crate::selection::Selection;
use crate::sizes::{first_size, later_sizes};
use cdxj_core::{HasPlace, Line, OwnedPlace, place_is_good, resume_key_is_read, resume_text};
use devices::{Output, WriteFault};
use merge_core::Sink;
use page_core::{PageForm, PageOutput};
use query_text::{OutputFormat, Query};
use std::alloc::{AllocError, Global};

/// Returns the form of the query's pages.
fn form_of(query: &Query) -> PageForm<'_>
    ensures { form_view result ≡ form_of query.now }
{
    match query.output() {
        OutputFormat::Text => PageForm::Text(query.fields()),
        OutputFormat::Json => PageForm::Json(query.fields()),
        OutputFormat::Cdxj => PageForm::Cdxj,
    }
}

/// Returns the resume key of a place, if it is to be shown and there is one.
fn key_text(
    alloc: Global,
    shows: bool,
    next: Option<&OwnedPlace>,
) -> Result<Option<String>, AllocError>
    ensures { IfOk result (λ key. option_map string_bytes key
        ≡ shown_key shows (option_map (λ p. p.now) next.entry)) }
{
    if !shows {
        return Ok(None);
    }
    let Some(place) = next else {
        return Ok(None);
    };
    match resume_text(alloc, place.place()) {
        Ok(text) => Ok(Some(text)),
        Err(_) => Err(AllocError),
    }
}

/// Shows that the resume key of this place, if there is one, is read as the place. Nothing else is
/// done.
fn key_is_read(place: Option<&OwnedPlace>)
    ensures { IfSome (option_map (λ p. p.now) place.entry) IsReadBack }
{
    match place {
        Some(place) => {
            place_is_good(place.place());
            resume_key_is_read();
        }
        None => {}
    }
}

/// Writes what follows the last capture of a page, with the resume key of this place if it is to be
/// shown and there is one.
#[tactic(auto, using(devices::proofs::WritingLemmas::writes_nothing))]
fn put_end<O: Output>(
    alloc: Global,
    output: &mut PageOutput<'_>,
    shows: bool,
    next: Option<&OwnedPlace>,
    out: &mut O,
) -> Result<(), WriteFault>
    ensures form { output.new ≡ output.old }
    ensures text { WritesText result (O.written out.old) (O.written out.new)
        (page_end output.old (shown_key shows (option_map (λ p. p.now) next.entry))) }
    ensures failures { CountsWriteFault result (O.failures out.old) (O.failures out.new) }
{
    let key = key_text(alloc, shows, next)?;
    output.put_end(key.as_deref(), out)?;
    Ok(())
}

/// The result of writing pages.
#[derive(Drop)]
pub(crate) struct PageEnd {
    /// The number of captures of the last page. It saturates at 2^64 - 1.
    pub given: u64,
    /// The place after which a further page begins, if there is one.
    pub next: Option<OwnedPlace>,
    /// The number of pages. It saturates at 2^64 - 1.
    pub count: u64,
}

/// Writes one page of a query, or all, from the lines that it takes in the order of places. If it
/// writes all, a page ends where a further capture follows, with which the next page begins.
#[derive(Drop)]
pub(crate) struct PageWriter<'q> {
    selection: Selection<'q>,
    output: PageOutput<'q>,
    /// The maximum number of captures of the page that is being written, if there is one.
    limit: Option<u64>,
    /// That number, and those of the pages after it. If only one page is written, there are none.
    sizes: &'q [u64],
    /// The number of captures of the page.
    given: u64,
    /// Whether a further capture follows the only page.
    more: bool,
    /// The place of the last capture that the page has room for.
    last: Option<OwnedPlace>,
    /// The number of pages before it. It saturates at 2^64 - 1.
    count: u64,
    pub ghost output_rule: { output ≡ form_of selection.query.now },
}

impl<'q> PageWriter<'q> {
    ghost use Rattle.std.specs.Prelude.{false, IsOkAnd};
    ghost use Rattle.devices.specs.Device.{AppendsPrefix, Grows};
    ghost use Rattle.page_core.specs.PageText.{page_start, row_text};
    ghost use Rattle.merge_core.specs.Sinks.{TakesOrBreaks};
    ghost use Rattle.query_text.specs.Queries.{QueryValue};
    ghost use Rattle.query_core.specs.PageWriting.{is_full, next_of, FitsWord};
    ghost use Rattle.query_core.specs.PagesWriting.{PagesSoFar, text_so_far, with_room};
    ghost use Rattle.query_core.specs.WriterView.{Broke, GaveOne, HasRoom, IsEndOf, IsWriterOf};
    ghost use Rattle.query_core.specs.WriterView.{KeepsLines, SamePage, TakesMore, Wrote};

    /// Writes what precedes the first capture of a page of at most `limit` captures, or of pages of
    /// these sizes if there are any. Then `limit` is the first of them. Errors are `Memory`, and
    /// `Write` if the output failed.
    #[tactic(auto, using(devices::proofs::WritingLemmas::wrote_nothing))]
    pub fn begin<O: Output>(
        alloc: Global,
        query: &'q Query,
        limit: Option<u64>,
        sizes: &'q [u64],
        out: &mut O,
    ) -> Result<PageWriter<'q>, WriteFault>
        ensures wrote { IfOk result (λ writer.
            Wrote writer writer [] (O.written out.old) (O.written out.new)) }
        ensures begins { MatchResult result (IsWriterOf query.now limit sizes.now) (λ _.
            AppendsPrefix (O.written out.old) (O.written out.new)
            (page_start (form_of query.now))) }
        ensures failures { CountsWriteFault result (O.failures out.old) (O.failures out.new) }
    {
        let selection = Selection::begin(alloc, query)?;
        let mut output = PageOutput::new(alloc, form_of(query));
        output.put_start(out)?;
        Ok(PageWriter {
            selection,
            output,
            limit,
            sizes,
            given: 0,
            more: false,
            last: None,
            count: 0,
        })
    }

    fn is_full(&self) -> bool
        ensures full { result ≡ is_full self.now.limit self.now.given }
        ensures fits { FitsWord self.now.limit }
    {
        match self.limit {
            Some(limit) => limit == self.given,
            None => false,
        }
    }

    /// Ends the page if it is full, and begins the next.
    fn make_room<O: Output>(&mut self, alloc: Global, out: &mut O) -> Result<(), WriteFault>
        ensures pages { (q : QueryValue) → (s : PagesSoFar) → (start : Option (List ℕ))
            → TakesMore q s self.old start (O.written out.old)
            → MatchResult result (λ _. HasRoom q s self.new start (O.written out.new)) (λ _.
            AppendsPrefix start (O.written out.new) (text_so_far q (with_room s))) }
        ensures room { is_full self.old.limit self.old.given ≡ false
            → IsOkAnd result (λ _. (self.new ≡ self.old) × (out.new ≡ out.old)) }
        ensures lines { KeepsLines self.old self.new }
        ensures grows { Grows (O.written out.old) (O.written out.new) }
        ensures failures { CountsWriteFault result (O.failures out.old) (O.failures out.new) }
    {
        if self.is_full() {
            key_is_read(self.last.as_ref());
            put_end(alloc, &mut self.output, true, self.last.as_ref(), out)?;
            self.output.put_start(out)?;
            self.sizes = later_sizes(self.sizes);
            self.limit = Some(first_size(self.sizes));
            self.given = 0;
            self.count = self.count.saturating_add(1);
        }
        Ok(())
    }

    fn put_capture<O: Output>(
        &mut self,
        alloc: Global,
        line: &Line,
        out: &mut O,
    ) -> Result<(), WriteFault>
        ensures text { WritesText result (O.written out.old) (O.written out.new)
            (row_text (form_of self.old.selection.query.now) line.now) }
        ensures same { SamePage self.old self.new }
        ensures gave { OnOk result (GaveOne self.old self.new (member_place line.now)) }
        ensures failures { CountsWriteFault result (O.failures out.old) (O.failures out.new) }
    {
        self.output.put_row(line, out)?;
        self.given = self.given.saturating_add(1);
        if self.is_full() {
            match OwnedPlace::new(alloc, line.place()) {
                Ok(place) => self.last = Some(place),
                Err(_) => return Err(WriteFault::Memory),
            }
        }
        Ok(())
    }

    #[inline(never)]
    #[tactic(auto, using(crate::proofs::PagesLemmas::growing))]
    fn take_line<O: Output>(
        &mut self,
        alloc: Global,
        line: &Line,
        out: &mut O,
    ) -> Result<(), WriteFault>
        ensures wrote { TakesOrBreaks Wrote Broke result (line.now ∷ []) self.old self.new
            (O.written out.old) (O.written out.new) }
        ensures grows { Grows (O.written out.old) (O.written out.new) }
        ensures failures { CountsWriteFault result (O.failures out.old) (O.failures out.new) }
    {
        if self.more {
            return Ok(());
        }
        if !self.selection.takes(line)? {
            return Ok(());
        }
        if self.sizes.is_empty() && self.is_full() {
            // No page follows.
            self.more = self.last.is_some();
            return Ok(());
        }
        self.make_room(alloc, out)?;
        self.put_capture(alloc, line, out)?;
        Ok(())
    }

    /// Writes what follows the last capture, with the resume key if the query shows it and a
    /// further page follows. Errors are `Memory`, and `Write` if the output failed.
    pub fn end<O: Output>(&mut self, alloc: Global, out: &mut O) -> Result<PageEnd, WriteFault>
        ensures text { WritesText result (O.written out.old) (O.written out.new)
            (page_end (form_of self.old.selection.query.now)
            (shown_key self.old.selection.query.now.show_resume_key
            (next_of self.old.more self.old.last))) }
        ensures end { IfOk result (IsEndOf self.old) }
        ensures failures { CountsWriteFault result (O.failures out.old) (O.failures out.new) }
    {
        let next = if self.more { self.last.take() } else { None };
        let shows = self.selection.query.shows_resume_key();
        put_end(alloc, &mut self.output, shows, next.as_ref(), out)?;
        Ok(PageEnd {
            given: self.given,
            next,
            count: self.count.saturating_add(1),
        })
    }
}

impl Sink for PageWriter<'_> {
    ghost use Rattle.std.specs.Prelude.{◌≡◌, true};
    ghost use Rattle.query_core.specs.WriterView.{Wrote, Broke};

    ghost Wrote = { λ first writer taken start now. Wrote first writer taken start now };

    ghost Broke = { λ first taken start now. Broke first taken start now };

    ghost Enough = { λ writer. writer.more ≡ true };

    fn take<O: Output>(
        &mut self,
        alloc: Global,
        lines: &[&Line],
        out: &mut O,
    ) -> Result<bool, WriteFault> {
        for line in lines {
            self.take_line(alloc, line, out)?;
        }
        Ok(!self.more)
    }
}
