//! What a record gives to its capture, before its place is known.
use crate::block_parts::BlockParts;
use crate::entry_line::{EntryFrame, LineRefused, RawTexts, entry_line};
use crate::fault::CaptureFault;
use crate::held_line::HeldLine;
use crate::place::Place;
use crate::status::status;
use std::alloc::Global;
use std::marker::Model;
use warc_core::{Cause, Fault};

/// What a record gives to its capture: all but its place and the archive's name.
#[derive(Drop)]
pub struct CaptureParts<'a> {
    pub(crate) stamp: [u8; 14],
    pub(crate) url: &'a [u8],
    pub(crate) mime: &'a [u8],
    pub(crate) block: BlockParts<'a>,
}

impl<'a> Model for CaptureParts<'a> {
    ghost use Rattle.std.specs.Prelude.{◌≡◌, ◌<◌, true, length};
    ghost use Rattle.cdxj_places.specs.Pair.{is_stamp};
    ghost use Rattle.capture_core.specs.Capture.{IsFilled, PartsValue};
    ghost use Rattle.capture_core.specs.BlockParts.{block_view, digest_text};

    ghost Value = { PartsValue };

    ghost view = { λ p. record {
      stamp = p.stamp;
      url = p.url.now;
      mime = p.mime.now;
      code = p.block.code;
      digest = digest_text p.block.digest;
    } };

    ghost invariant = { λ p. (is_stamp p.stamp ≡ true) × (0 < length p.url.now)
        × IsFilled (block_view p.mime.now p.block) };
}

impl<'a> CaptureParts<'a> {
    ghost use Rattle.std.specs.Prelude.{◌≡◌, ◌<◌, ◌^◌, length, Ok, IfOk, IfErr};
    ghost use Rattle.cdxj_core.specs.declared.limit.TheConstants.{LINE_LIMIT};
    ghost use Rattle.cdxj_core.specs.Entries.{HasLine};
    ghost use Rattle.capture_core.specs.Capture.{entry_from};
    ghost use Rattle.capture_core.specs.CaptureAnswer.{AnswersEntry};
    ghost use Rattle.capture_core.specs.RecordReading.{IsCaptureFaultAt, reading_of};

    /// Returns the line of the record's capture, if it is within the limit of a line. The record
    /// stands at this place of the archive of this name.
    ///
    /// Errors are `KeyTooLong`, `LineTooLong` and `Memory`, at the place's offset.
    pub fn line(&self, alloc: Global, name: &str, place: Place) -> Result<HeldLine, CaptureFault>
        requires named { 0 < length name.now }
        requires offset { place.offset < 2 ^ 63 }
        requires size { place.length < 2 ^ 63 }
        ensures answers { AnswersEntry LINE_LIMIT (entry_from place name.now self.now) result }
        ensures line { IfOk result (HasLine LINE_LIMIT) }
        ensures fault { IfErr result (IsCaptureFaultAt place.offset) }
        ensures own { reading_of result ≡ Ok tt }
    {
        let status = status(self.block.code);
        let frame = EntryFrame {
            stamp: self.stamp,
            name,
            place,
        };
        let raw = RawTexts {
            url: self.url,
            mime: self.mime,
            status: status.as_str(),
            digest: self.block.digest.text(),
        };
        match entry_line(alloc, frame, raw) {
            Ok(line) => Ok(line),
            Err(LineRefused::Memory) => Err(CaptureFault::Archive(Fault {
                offset: place.offset,
                cause: Cause::Memory,
            })),
            Err(LineRefused::KeyTooLong) => Err(CaptureFault::KeyTooLong(place.offset)),
            Err(LineRefused::LineTooLong) => Err(CaptureFault::LineTooLong(place.offset)),
        }
    }
}
