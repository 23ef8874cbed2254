//! Leaving out captures that have a part in common with the one directly before.
ghost use Rattle.std.specs.Prelude.{◌≡◌, Some, IfOk, OnOk};
ghost use Rattle.query_text.specs.Collapses.{part_of};
ghost use Rattle.query_core.specs.Collapsings.{collapsing_at, has_part};
ghost use Rattle.query_core.specs.WriterView.{from_view};

use cdxj_core::{Pair, Place};
use query_text::Collapse;
use std::alloc::{AllocError, Global};
use std::marker::Model;

/// What captures are collapsed by, and what is compared of the capture directly before.
#[derive(Drop)]
pub(crate) struct Collapsing {
    by: Collapse,
    /// The key of the capture before, if captures are collapsed by key.
    key: String,
    /// The stamp of the capture before, if there was one.
    stamp: Option<[u8; 14]>,
}

impl Model for Collapsing {
    ghost use Rattle.std.specs.Prelude.{option_map, string_bytes};
    ghost use Rattle.query_text.specs.Collapses.{part_of};
    ghost use Rattle.query_core.specs.Collapsings.{CollapsingValue};

    ghost Value = { CollapsingValue };

    ghost view = { λ c. record {
      by = c.by;
      part = option_map
          (λ stamp. part_of c.by (string_bytes c.key) stamp) c.stamp;
    } };
}

impl Collapsing {
    /// Begins after a place, if there is one. Returns `None` if captures aren't collapsed.
    pub(crate) fn begin(
        alloc: Global,
        by: Option<Collapse>,
        from: Option<Place<'_>>,
    ) -> Result<Option<Collapsing>, AllocError>
        ensures { IfOk result (λ begun. begun ≡ collapsing_at by (from_view from.entry)) }
    {
        let Some(by) = by else {
            return Ok(None);
        };
        let mut begun = Collapsing {
            by,
            key: String::new(alloc),
            stamp: None,
        };
        match from {
            Some(place) => {
                begun.keep(place.pair())?;
                Ok(Some(begun))
            }
            None => Ok(Some(begun)),
        }
    }

    /// Returns `true` if a capture of this pair has its part in common with the one before.
    pub(crate) fn repeats(&self, pair: Pair<'_>) -> bool
        ensures { result
            ≡ has_part self.now.part (part_of self.now.by pair.entry.key.now pair.entry.stamp) }
    {
        match self.stamp {
            Some(stamp) => {
                let before = Pair {
                    key: self.key.as_str(),
                    stamp,
                };
                self.by.part(&before) == self.by.part(&pair)
            }
            None => false,
        }
    }

    /// Stores what is compared of a capture of this pair.
    pub(crate) fn keep(&mut self, pair: Pair<'_>) -> Result<(), AllocError>
        ensures { OnOk result
            (self.new ≡ record {
              by = self.old.by;
              part = Some
                  (part_of self.old.by pair.entry.key.now pair.entry.stamp);
            }) }
    {
        match self.by {
            Collapse::Urlkey => {
                self.key.clear();
                self.key.push_str(pair.key)?;
            }
            Collapse::Timestamp(_) => {}
        }
        self.stamp = Some(pair.stamp);
        Ok(())
    }
}
