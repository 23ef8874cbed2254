//! What standard input is.

/// What standard input is.
#[derive(Clone, Copy, Debug, Drop, PartialEq, Eq)]
pub enum StandardInput {
    /// A terminal, at which somebody may wait for a reply.
    Terminal,
    /// A file, a pipe, or something else.
    Other,
}
