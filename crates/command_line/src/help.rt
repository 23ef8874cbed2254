//! The help texts, at most 80 columns wide.
pub mod archives;
pub mod compressed;
pub mod indexes;

/// A command's page.
#[derive(Clone, Copy)]
pub struct Page<'a> {
    /// The command's line in the list of commands.
    pub about: &'a str,
    /// The text after the command's usage.
    pub details: &'a str,
}

/// What `--version` prints.
pub const VERSION: &str = "warcdx 0.1.0\n";

/// The program's page.
pub const PROGRAM: Page = Page {
    about: "warcdx 0.1.0: indexes web archives, answers queries, and fetches records",
    details: "\
An archive is an uncompressed WARC file, version 1.0 or 1.1. The name - is
standard input. Without a command, warcdx lists the archive on standard input.

Examples:
  warcdx list crawl.warc
  warcdx verify crawl-1.warc crawl-2.warc
  warcdx index crawl-1.warc crawl-2.warc > crawl.cdxj
  warcdx merge crawl-1.cdxj crawl-2.cdxj > crawls.cdxj
  warcdx check crawl.cdxj
  warcdx query 'url=*.example.com&from=2016&limit=100' crawl.cdxj
  warcdx pages 100 'url=example.com/*' crawl-1.cdxj crawl-2.cdxj
  warcdx serve crawl.cdxj < queries
  warcdx get 4096 crawl.warc
  warcdx scan 100 'url=example.com/*' crawl-1.warc crawl-2.warc
  ssh host cat crawl.warc | warcdx verify -

Other commands:
  warcdx-gz       all of this, of .warc.gz files too
  warcdx-update   keeps one index of the archives in a folder
  warcdx-fetch    writes a page by its URL, or all that a query selects
  warcdx-verify   checks the digests of payloads too
  warcdx-cdx      converts CDX files to indexes, and back
  warcdx-gateway  answers queries over HTTP, and shows captures in a browser

Exit status:
  0  success, and no digest differs; or help was printed
  1  an archive is damaged, a digest differs, an archive's file name or a record
     can't be indexed, an index is not in order, a query is refused, there are
     too many indexes or archives, or no record begins at the offset
  2  usage error
  3  a file can't be opened, or memory, an input or the output failed

'warcdx COMMAND --help' explains a command.",
};

/// An operand of a command.
#[derive(Clone, Copy)]
pub struct Operand<'a> {
    /// Its name in the usage.
    pub name: &'a str,
    /// Its line in the help.
    pub help: &'a str,
}

/// The operand `WARC`.
pub const ARCHIVE: Operand = Operand {
    name: "WARC",
    help: "A WARC file, or - for standard input",
};

/// The operand `INDEX`.
pub const CDXJ: Operand = Operand {
    name: "INDEX",
    help: "A file with a CDXJ index",
};

/// The operand `QUERY`.
pub const QUERY_TEXT: Operand = Operand {
    name: "QUERY",
    help: "The captures to select, such as 'url=example.com&limit=5'",
};

/// The operand `SIZES`.
pub const SIZES: Operand = Operand {
    name: "SIZES",
    help: "The number of captures on each page, such as 100 or 10,100,1000",
};

/// The operand `TYPES`.
pub const TYPES: Operand = Operand {
    name: "TYPES",
    help: "Types of records to index, such as response,metadata",
};

/// The operand `NAME`.
pub const NAME: Operand = Operand {
    name: "NAME",
    help: "The name of the archive -, such as crawl.warc",
};

/// The operand `OFFSET`.
pub const OFFSET: Operand = Operand {
    name: "OFFSET",
    help: "Where the record begins, in bytes from the archive's start",
};

/// The operand `LENGTH`.
pub const LENGTH: Operand = Operand {
    name: "LENGTH",
    help: "The record's length in bytes, to read it alone",
};
