//! The parts of an HTTP head.
ghost use Rattle.std.specs.Prelude.{◌<◌};

/// The parts of an HTTP head that a capture uses.
#[derive(Clone, Copy)]
pub(crate) struct HttpHead<'a> {
    pub code: u16,
    /// The value of the first `Content-Type`.
    pub content_type: Option<&'a [u8]>,
    /// The length of the head in bytes. The payload follows it.
    pub len: usize,
    pub ghost three_digits: { code < 1000 },
}
