//! The seven members of a line's object. Here alone the code spells their names.
ghost use Rattle.std.specs.Prelude.{◌≡◌, length, min, sum_by};
ghost use Rattle.std.specs.Bool.{⊤};
ghost use Rattle.cdxj_objects.specs.ObjectMembers.{all_members, each, with_named};
ghost use Rattle.cdxj_objects.specs.Texts.{borrowed_view};

use crate::lanes::Front;
use std::alloc::AllocError;

/// What each of the seven members has, in the order of a written line.
#[derive(Debug)]
pub struct Members<T> {
    pub url: T,
    pub mime: T,
    pub status: T,
    pub digest: T,
    pub length: T,
    pub offset: T,
    pub filename: T,
}

/// What stands before the text of each in a plain object, behind the text before it. A function
/// copies it once, as each use of the constant is a copy of the whole.
pub(crate) const BEFORE: Members<&str> = Members {
    url: "{\"url\": \"",
    mime: "\", \"mime\": \"",
    status: "\", \"status\": \"",
    digest: "\", \"digest\": \"",
    length: "\", \"length\": \"",
    offset: "\", \"offset\": \"",
    filename: "\", \"filename\": \"",
};

/// What stands behind the last text.
pub(crate) const AFTER: &str = "\"}";

/// The length of what a plain object has beside its texts.
pub const FRAME: usize = BEFORE.url.len()
    + BEFORE.mime.len()
    + BEFORE.status.len()
    + BEFORE.digest.len()
    + BEFORE.length.len()
    + BEFORE.offset.len()
    + BEFORE.filename.len()
    + AFTER.len();

/// What stands before each text, filled up: a vector of 16 bytes is compared with each.
pub(crate) const FRONTS: Members<Front> = Members {
    url: Front {
        bytes: *b"{\"url\": \"       ",
        length: BEFORE.url.len(),
    },
    mime: Front {
        bytes: *b"\", \"mime\": \"    ",
        length: BEFORE.mime.len(),
    },
    status: Front {
        bytes: *b"\", \"status\": \"  ",
        length: BEFORE.status.len(),
    },
    digest: Front {
        bytes: *b"\", \"digest\": \"  ",
        length: BEFORE.digest.len(),
    },
    length: Front {
        bytes: *b"\", \"length\": \"  ",
        length: BEFORE.length.len(),
    },
    offset: Front {
        bytes: *b"\", \"offset\": \"  ",
        length: BEFORE.offset.len(),
    },
    filename: Front {
        bytes: *b"\", \"filename\": \"",
        length: BEFORE.filename.len(),
    },
};

/// Each name between its quotes, and a colon, filled up likewise.
pub(crate) const QUOTED: Members<Front> = Members {
    url: Front {
        bytes: *b"\"url\":          ",
        length: 6,
    },
    mime: Front {
        bytes: *b"\"mime\":         ",
        length: 7,
    },
    status: Front {
        bytes: *b"\"status\":       ",
        length: 9,
    },
    digest: Front {
        bytes: *b"\"digest\":       ",
        length: 9,
    },
    length: Front {
        bytes: *b"\"length\":       ",
        length: 9,
    },
    offset: Front {
        bytes: *b"\"offset\":       ",
        length: 9,
    },
    filename: Front {
        bytes: *b"\"filename\":     ",
        length: 11,
    },
};

impl<T: Copy> Copy for Members<T> {}

impl<T: Copy> Clone for Members<T> {
    ghost is_clone = { λ members copy. copy ≡ members };

    ghost is_infallible = { λ _. ⊤ };

    fn clone(&self) -> Result<Members<T>, AllocError> {
        Ok(*self)
    }
}

impl<T: Copy> Members<T> {
    /// Returns the members that all have this value.
    pub(crate) fn all(value: T) -> Members<T>
        ensures { result ≡ all_members value }
    {
        Members {
            url: value,
            mime: value,
            status: value,
            digest: value,
            length: value,
            offset: value,
            filename: value,
        }
    }

    /// Gives the member of this name a value, if there is one.
    pub(crate) fn put(&mut self, name: &str, value: T)
        ensures { self.new ≡ with_named name.now value self.old }
    {
        match name {
            "url" => self.url = value,
            "mime" => self.mime = value,
            "status" => self.status = value,
            "digest" => self.digest = value,
            "length" => self.length = value,
            "offset" => self.offset = value,
            "filename" => self.filename = value,
            _ => {}
        }
    }
}

impl Members<&str> {
    /// Returns the length of all texts in bytes, or `usize::MAX` if it is larger.
    pub fn total_length(&self) -> usize
        ensures { result ≡ min (sum_by length (each (borrowed_view self.now))) usize.MAX }
    {
        self.url
            .len()
            .saturating_add(self.mime.len())
            .saturating_add(self.status.len())
            .saturating_add(self.digest.len())
            .saturating_add(self.length.len())
            .saturating_add(self.offset.len())
            .saturating_add(self.filename.len())
    }
}
