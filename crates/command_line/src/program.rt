//! The programs that share this command line.

/// A program with these commands.
#[derive(Clone, Copy, Debug, PartialEq, Eq)]
pub enum Program {
    /// `warcdx`, whose archives are plain.
    Warcdx,
    /// `warcdx-gz`, whose archives may be compressed.
    WarcdxGz,
}

impl Program {
    /// Returns the program's name, as messages begin with it.
    pub fn name(self) -> &'static str {
        match self {
            Program::Warcdx => "warcdx",
            Program::WarcdxGz => "warcdx-gz",
        }
    }
}
