//! A line that waits to be merged.
ghost use Rattle.std.specs.Prelude.{◌≡◌};
ghost use Rattle.std.specs.Cmp.{partial_order_from_agreeing_total, partial_equiv_from_equiv};
ghost use Rattle.std.specs.Ordering.{eq_by_cmp, as_partial_cmp};
ghost use Rattle.std.proofs.Common.{refl};
ghost use Rattle.std.proofs.lemmas.Cmp.{eq_by_cmp_equiv};
ghost use Rattle.merge_core.specs.WaitingLines.{WaitingLine, waiting_cmp};
ghost use Rattle.merge_core.specs.TurnOrder.{waiting_cmp_total};

use crate::keyed_line::KeyedLine;
use crate::pair_start::{PairStart, pair_start};
use cdxj_core::Line;
use std::cmp::Ordering;
use std::marker::Model;

/// The next line of a source. The greatest is merged first: the one with the least pair, and of
/// equal pairs the one whose source has the least number.
#[derive(Drop)]
pub struct QueuedLine {
    /// Decides most comparisons without access to the line.
    pub pair_start: PairStart,
    pub line: Box<Line>,
    pub source: usize,
}

impl Model for QueuedLine {
    ghost use Rattle.cdxj_core.specs.Members.{member_pair};
    ghost use Rattle.merge_core.specs.PairStarts.{IsStart};
    ghost use Rattle.merge_core.specs.WaitingLines.{WaitingLine};

    ghost Value = { WaitingLine };

    ghost view = { λ w. record { member = w.line.value; source = w.source } };

    ghost invariant = { λ w. IsStart w.pair_start (member_pair w.line.value) };
}

impl QueuedLine {
    /// Creates the value for a line of the source with this number.
    pub fn new(line: Box<Line>, source: usize) -> QueuedLine
        ensures { result ≡ record { member = line.value; source = source } }
    {
        QueuedLine {
            pair_start: pair_start(&line),
            line,
            source,
        }
    }

    /// Returns the line with the start of its pair.
    pub fn keyed(&self) -> KeyedLine<'_>
        ensures { result ≡ self.now.member }
    {
        KeyedLine::with_start(self.pair_start, &self.line)
    }
}

impl PartialEq for QueuedLine {
    ghost eq = { eq_by_cmp waiting_cmp };

    ghost laws = { partial_equiv_from_equiv (eq_by_cmp_equiv waiting_cmp_total) };

    fn eq(&self, other: &QueuedLine) -> bool {
        self.cmp(other).is_eq()
    }
}

impl Eq for QueuedLine {
    ghost laws = { eq_by_cmp_equiv waiting_cmp_total };
}

impl PartialOrd for QueuedLine {
    ghost partial_cmp = { as_partial_cmp waiting_cmp };

    ghost laws = { partial_order_from_agreeing_total waiting_cmp waiting_cmp_total (λ _ _. refl)
        (λ _ _. refl) };

    fn partial_cmp(&self, other: &QueuedLine) -> Option<Ordering> {
        Some(self.cmp(other))
    }
}

impl Ord for QueuedLine {
    ghost cmp = { waiting_cmp };

    ghost total = { waiting_cmp_total };

    ghost matches_partial_cmp = { λ _ _. refl };

    ghost matches_eq = { λ _ _. refl };

    fn cmp(&self, other: &QueuedLine) -> Ordering {
        other
            .keyed()
            .compare_pair(&self.keyed())
            .then_with(|| other.source.cmp(&self.source))
    }
}
