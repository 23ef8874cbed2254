//! Where the texts of members stand in a text.
ghost use Rattle.std.specs.Prelude.{◌≡◌};
ghost use Rattle.cdxj_objects.specs.Spans.{AreSpans, IsSpan, span_text, span_texts};
ghost use Rattle.cdxj_objects.specs.Texts.{borrowed_view};

use crate::members::Members;

/// Where a text begins and ends, as offsets in bytes from the start of the text that has it.
#[derive(Clone, Copy, Debug, Drop)]
pub struct Span {
    pub start: usize,
    pub end: usize,
}

/// Returns the text that stands there.
#[inline(always)]
pub(crate) fn text_of(text: &str, span: Span) -> &str
    requires { IsSpan text.now span }
    ensures { result.now ≡ span_text text.now span }
{
    &text[span.start..span.end]
}

/// Returns the texts of the members that stand there.
#[inline(always)]
pub fn texts_at<'a>(text: &'a str, spans: &Members<Span>) -> Members<&'a str>
    requires { AreSpans text.now spans.now }
    ensures { borrowed_view result ≡ span_texts text.now spans.now }
{
    Members {
        url: text_of(text, spans.url),
        mime: text_of(text, spans.mime),
        status: text_of(text, spans.status),
        digest: text_of(text, spans.digest),
        length: text_of(text, spans.length),
        offset: text_of(text, spans.offset),
        filename: text_of(text, spans.filename),
    }
}
