//! Which of the lines of a merge are captures of a query.
ghost use Rattle.std.specs.Prelude.{◌≡◌, [], List, Option, IfOk, OnOk};
ghost use Rattle.cdxj_core.specs.Members.{Member, member_place};
ghost use Rattle.query_core.specs.PageWriting.{is_wanted};

use crate::collapsing::Collapsing;
use cdxj_core::{HasPlace, Line, Place};
use query_text::Query;
use std::alloc::{AllocError, Global};

/// Selects the captures of a query from lines that rise by place.
#[derive(Drop)]
pub(crate) struct Selection<'q> {
    pub query: &'q Query,
    /// The place after which the captures begin.
    pub from: Option<Place<'q>>,
    /// What the next line is compared with, if captures are collapsed.
    collapsing: Option<Collapsing>,
}

impl<'q> Selection<'q> {
    ghost use Rattle.query_core.specs.Collapsings.{collapsing_after, repeats_part};
    ghost use Rattle.query_core.specs.WriterView.{Selects, IsSame, TookNext, from_view};

    /// Begins after the place of the query's resume key, if it has one.
    /// The only error is refused memory.
    pub fn begin(alloc: Global, query: &'q Query) -> Result<Selection<'q>, AllocError>
        ensures selects { IfOk result (λ s. Selects s []) }
        ensures query { IfOk result (λ s.
            (s.query.now ≡ query.now) × (from_view s.from ≡ query.now.resume)) }
    {
        let from = query.resume();
        let collapsing = Collapsing::begin(alloc, query.collapse(), from)?;
        Ok(Selection {
            query,
            from,
            collapsing,
        })
    }

    fn wants(&self, line: &Line) -> bool
        ensures { result ≡ is_wanted self.now.query.now (from_view self.now.from) line.now }
    {
        if !self.query.matches_kept(line) {
            return false;
        }
        match self.from {
            Some(place) => line.compare_to(&place).is_gt(),
            None => true,
        }
    }

    /// Returns `true` if the line is left out because of the capture before it.
    fn repeats(&self, line: &Line) -> bool
        ensures { result ≡ repeats_part self.now.collapsing (member_place line.now) }
    {
        match &self.collapsing {
            Some(collapsing) => collapsing.repeats(line.pair()),
            None => false,
        }
    }

    /// Stores what the lines after this one are compared with.
    fn keep_part(&mut self, line: &Line) -> Result<(), AllocError>
        ensures part { OnOk result
            (self.new.collapsing ≡ collapsing_after self.old.collapsing (member_place line.now)) }
        ensures same { IsSame self.old self.new }
    {
        match &mut self.collapsing {
            Some(collapsing) => collapsing.keep(line.pair()),
            None => Ok(()),
        }
    }

    /// Takes the next line. Returns `true` if it is a capture of the query.
    /// The only error is refused memory.
    #[tactic(auto, using(crate::proofs::WriterLemmas::selection_rules))]
    pub fn takes(&mut self, line: &Line) -> Result<bool, AllocError>
        ensures took { (taken : List Member) → Selects self.old taken
            → IfOk result (TookNext self.old self.new taken line.now) }
        ensures same { IsSame self.old self.new }
    {
        if !self.wants(line) {
            return Ok(false);
        }
        if self.repeats(line) {
            return Ok(false);
        }
        self.keep_part(line)?;
        Ok(true)
    }
}
