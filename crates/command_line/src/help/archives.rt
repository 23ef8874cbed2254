//! Help for the commands that read archives.
use super::Page;

/// The page of `warcdx list`.
pub const LIST: Page = Page {
    about: "Lists the records of archives",
    details: "\
Prints a line for each record:

  OFFSET LENGTH KIND

OFFSET is the byte at which the record begins, and LENGTH its number of bytes.
KIND is its type: warcinfo, response, resource, request, metadata, revisit,
conversion, continuation, or other.

A damaged archive is listed up to the damage. The last line is then

  fault OFFSET CAUSE

with the offset of the record at fault. CAUSE is one of these:

  Version       the record doesn't begin with WARC/1.0 or WARC/1.1
  ShortHead     the archive ends inside the record's header
  HeadTooLong   the record's header has more than 1,048,576 bytes
  FieldLine     a line of the header is not a named field
  Missing       a mandatory field is missing
  Repeated      a mandatory field is repeated
  BadLength     Content-Length is not a length
  BadDate       WARC-Date is not a date
  ShortBlock    the archive ends inside the record's block
  Closing       the record doesn't end with two line breaks
  TooFar        the record would end past byte 2^63 - 1
  Memory, Read  memory or the input failed: the archive may be whole

With more than one archive, a line NAME: precedes each listing.

Examples:
  warcdx list crawl.warc
  warcdx list crawl-1.warc crawl-2.warc
  ssh host cat crawl.warc | warcdx list -

Exit status:
  0  everything was read
  1  an archive is damaged
  2  usage error
  3  a file can't be opened, or memory, an input or the output failed",
};

/// The page of `warcdx verify`.
pub const VERIFY: Page = Page {
    about: "Checks the digests of the records of archives",
    details: "\
Compares each record's block with its WARC-Block-Digest, and prints a line for
each record:

  OFFSET VERDICT

OFFSET is the byte at which the record begins. VERDICT is one of these:

  same      the digest is the block's
  differs   the digest isn't the block's: one of them was changed
  not-sha1  the digest isn't a SHA-1 in base 32, and wasn't compared
  absent    the record has no digest

A damaged archive is checked up to the damage. The last line is then

  fault OFFSET CAUSE

with the offset of the record at fault. 'warcdx list --help' has the causes.

With more than one archive, a line NAME: precedes the lines of each.

Examples:
  warcdx verify crawl.warc
  warcdx verify crawl-1.warc crawl-2.warc
  ssh host cat crawl.warc | warcdx verify -

Exit status:
  0  everything was read, and no digest differs
  1  an archive is damaged, or a digest differs
  2  usage error
  3  a file can't be opened, or memory, an input or the output failed",
};

/// The page of `warcdx index`.
pub const INDEX: Page = Page {
    about: "Writes an index of the captures of archives",
    details: "\
Writes one sorted CDXJ index of all the archives: a line for each record of one
of the TYPES with a WARC-Target-URI.

  KEY TIMESTAMP JSON

KEY is the URL key of the record's URL, which begins with the host in reverse
(SURT), and TIMESTAMP its date in 14 digits. JSON is an object with the members
url, mime, status, digest, length, offset and filename. Length and offset are in
bytes. 'warcdx get' writes the record at an offset.
docs/CDXJ.md has the rules.

TYPES are one or more of these, separated by commas, none twice: response,
resource, revisit, conversion, metadata. Without --types, response, resource and
revisit records are indexed, and so none of a WET or WAT file: their records are
conversions or metadata. --types follows the command's name directly, and --name
follows the command's name, or --types and its TYPES.

An archive's file name in the index is the part of its argument after the last
/, 1 to 255 bytes. For standard input it is that part of NAME, or - without
--name. An archive with another file name is left out, and so is one whose file
name an earlier archive has. That is reported on standard error as BadName or
DuplicateName.

A damaged archive is indexed up to the damage. This is reported on standard
error, with the offset of the record at fault:

  warcdx: NAME: fault OFFSET CAUSE

'warcdx list --help' has the causes. Two more are for a whole record that can't
be indexed; the archive is indexed up to it:

  KeyTooLong    the record's URL is too long for the URL parser
  LineTooLong   the record's line would be longer than 16,777,216 bytes

Examples:
  warcdx index crawl.warc > crawl.cdxj
  warcdx index crawl-1.warc crawl-2.warc > crawl.cdxj
  warcdx index --types response,metadata crawl.warc > crawl.cdxj
  ssh host cat crawl.warc | warcdx index --name crawl.warc - > crawl.cdxj

Exit status:
  0  everything was indexed
  1  an archive is damaged, or its file name or a record can't be indexed
  2  usage error
  3  a file can't be opened, or memory, an input or the output failed",
};

/// The page of `warcdx get`.
pub const GET: Page = Page {
    about: "Writes the record at an offset of an archive",
    details: "\
Writes the record that begins at OFFSET as it is stored, from its version line
through the two line breaks after its block. An index contains the offset of
each record, and 'warcdx list' prints it.

The archive is read from its start. With --length, nothing before OFFSET is
read, and the record is written only if it has LENGTH bytes. An index contains
this length too. Over an archive that isn't damaged, both forms write the same.

If no record begins at OFFSET, or none of LENGTH bytes, nothing is written, and
this is reported on standard error:

  warcdx: NAME: NoRecord

If the archive is damaged at OFFSET or before it, this is reported, with the
offset of the record at fault. With --length, damage before OFFSET isn't
noticed. 'warcdx list --help' has the causes:

  warcdx: NAME: fault OFFSET CAUSE

If the fault is in the record at OFFSET, its first part may be written.
Otherwise nothing is written.

Examples:
  warcdx get 0 crawl.warc
  warcdx get 4096 crawl.warc > record.warc
  warcdx get --length 1042 4096 crawl.warc
  ssh host cat crawl.warc | warcdx get 4096 -

Exit status:
  0  the record was written
  1  no record begins at OFFSET, or the archive is damaged there or before it
  2  usage error
  3  the file can't be opened, or memory, an input or the output failed",
};

/// The page of `warcdx scan`.
pub const SCAN: Page = Page {
    about: "Writes the captures of archives that a query selects",
    details: "\
Indexes the archives in memory, and writes the captures that the query selects,
page by page, as 'warcdx pages' does with an index of each. 'warcdx index
--help' explains captures, and 'warcdx query --help' queries.

TYPES are one or more of these, separated by commas, none twice: response,
resource, revisit, conversion, metadata. Without --types, response, resource and
revisit records are indexed. --types follows the command's name directly, and
--name follows the command's name, or --types and its TYPES.

The query is read first. Then all archives are opened, at most 1,024. The first
fault ends the command, and is reported on standard error. Nothing is written
before all archives are indexed:

  warcdx: query: CAUSE
  warcdx: NAME: cannot open
  warcdx: TooManySources
  warcdx: NAME: BadName
  warcdx: NAME: DuplicateName
  warcdx: NAME: fault OFFSET CAUSE

'warcdx query --help' lists the causes for queries, and 'warcdx list --help'
those for archives. OFFSET is the byte at which the record at fault begins. An
archive's file name is the part of its argument after the last /, 1 to 255 bytes
that no earlier archive has. For standard input it is that part of NAME, or -
without --name.

Examples:
  warcdx scan 100 'url=example.com/*' crawl-1.warc crawl-2.warc
  warcdx scan --types metadata 100 'url=example.com/*' crawl.warc
  ssh host cat crawl.warc | warcdx scan 1000 'url=*.example.com' -

Exit status:
  0  the captures were written
  1  the query is refused, an archive is damaged, its file name or a record
     can't be indexed, or there are too many archives
  2  usage error
  3  a file can't be opened, or memory, an input or the output failed",
};
