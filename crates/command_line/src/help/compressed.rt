//! Help for `warcdx-gz`: its page, and those of the commands that read archives.
use super::Page;

/// What `--version` prints.
pub const VERSION: &str = "warcdx-gz 0.1.0\n";

/// The program's page.
pub const PROGRAM: Page = Page {
    about: "warcdx-gz 0.1.0: warcdx over archives that may be compressed",
    details: "\
An archive is a WARC file, version 1.0 or 1.1, in either form: compressed, with
each record a member of gzip of its own, as crawlers write .warc.gz; or plain.
Its first two bytes say which, and not its name. The name - is standard input.
Without a command, warcdx-gz lists the archive on standard input.

In a compressed archive an offset is that of a member in the file, and a length
the number of bytes of the member. All else is as in warcdx.

Examples:
  warcdx-gz list crawl.warc.gz
  warcdx-gz verify crawl-1.warc.gz crawl-2.warc
  warcdx-gz index crawl-1.warc.gz crawl-2.warc.gz > crawl.cdxj
  warcdx-gz query 'url=*.example.com&from=2016&limit=100' crawl.cdxj
  warcdx-gz get --length 1042 4096 crawl.warc.gz > record.warc
  warcdx-gz scan 100 'url=example.com/*' crawl-1.warc.gz crawl-2.warc

'warcdx --help' names the other commands.

Exit status:
  0  success, and no digest differs; or help was printed
  1  an archive is damaged, a digest differs, an archive's file name or a record
     can't be indexed, an index is not in order, a query is refused, there are
     too many indexes or archives, or no record begins at the offset
  2  usage error
  3  a file can't be opened, or memory, an input or the output failed

'warcdx-gz COMMAND --help' explains a command.",
};

/// The page of `warcdx-gz list`.
pub const LIST: Page = Page {
    about: "Lists the records of archives",
    details: "\
Prints a line for each record:

  OFFSET LENGTH KIND

In a compressed archive, OFFSET is the byte at which the record's member begins,
and LENGTH the number of bytes of the member. A member without text is passed
over. In a plain archive they are those of the record. KIND is its type:
warcinfo, response, resource, request, metadata, revisit, conversion,
continuation, or other.

A damaged archive is listed up to the damage. The last line is then

  fault OFFSET CAUSE

with the offset of the record or member at fault. CAUSE is one of these:

  NoMember        no member begins there
  BadMember       the member is damaged: its data or its checksum is wrong
  CutMember       the archive ends inside the member
  SeveralRecords  the member holds more than one record
  Version         the record doesn't begin with WARC/1.0 or WARC/1.1
  ShortHead       the archive or the member ends inside the record's header
  HeadTooLong     the record's header has more than 1,048,576 bytes
  FieldLine       a line of the header is not a named field
  Missing         a mandatory field is missing
  Repeated        a mandatory field is repeated
  BadLength       Content-Length is not a length
  BadDate         WARC-Date is not a date
  ShortBlock      the archive or the member ends inside the record's block
  Closing         the record doesn't end with two line breaks
  TooFar          the record would end past byte 2^63 - 1
  Memory, Read    memory or the input failed: the archive may be whole

With more than one archive, a line NAME: precedes each listing.

Examples:
  warcdx-gz list crawl.warc.gz
  warcdx-gz list crawl-1.warc.gz crawl-2.warc
  ssh host cat crawl.warc.gz | warcdx-gz list -

Exit status:
  0  everything was read
  1  an archive is damaged
  2  usage error
  3  a file can't be opened, or memory, an input or the output failed",
};

/// The page of `warcdx-gz verify`.
pub const VERIFY: Page = Page {
    about: "Checks the digests of the records of archives",
    details: "\
Compares each record's block with its WARC-Block-Digest, and prints a line for
each record:

  OFFSET VERDICT

OFFSET is the byte at which the record begins, or its member in a compressed
archive. The checksum of each member is compared too. VERDICT is one of these:

  same      the digest is the block's
  differs   the digest isn't the block's: one of them was changed
  not-sha1  the digest isn't a SHA-1 in base 32, and wasn't compared
  absent    the record has no digest

A damaged archive is checked up to the damage. The last line is then

  fault OFFSET CAUSE

with the offset of the record or member at fault. 'warcdx-gz list --help' has
the causes.

With more than one archive, a line NAME: precedes the lines of each.

Examples:
  warcdx-gz verify crawl.warc.gz
  warcdx-gz verify crawl-1.warc.gz crawl-2.warc

Exit status:
  0  everything was read, and no digest differs
  1  an archive is damaged, or a digest differs
  2  usage error
  3  a file can't be opened, or memory, an input or the output failed",
};

/// The page of `warcdx-gz index`.
pub const INDEX: Page = Page {
    about: "Writes an index of the captures of archives",
    details: "\
Writes one sorted CDXJ index of all the archives, as 'warcdx index' does: a line
for each record of one of the TYPES with a WARC-Target-URI. In the line of a
record of a compressed archive, offset and length are those of its member, in
bytes of the file. 'warcdx-gz get' writes the record at an offset.

TYPES are one or more of these, separated by commas, none twice: response,
resource, revisit, conversion, metadata. Without --types, response, resource and
revisit records are indexed, and so none of a WET or WAT file: their records are
conversions or metadata. --types follows the command's name directly, and --name
follows the command's name, or --types and its TYPES.

An archive's file name in the index is the part of its argument after the last
/, 1 to 255 bytes. For standard input it is that part of NAME, or - without
--name. An archive with another file name is left out, and so is one whose file
name an earlier archive has. That is reported on standard error as BadName or
DuplicateName.

A damaged archive is indexed up to the damage. This is reported on standard
error, with the offset of the record or member at fault:

  warcdx-gz: NAME: fault OFFSET CAUSE

'warcdx-gz list --help' has the causes. Two more are for a whole record that
can't be indexed; the archive is indexed up to it:

  KeyTooLong    the record's URL is too long for the URL parser
  LineTooLong   the record's line would be longer than 16,777,216 bytes

Examples:
  warcdx-gz index crawl.warc.gz > crawl.cdxj
  warcdx-gz index crawl-1.warc.gz crawl-2.warc > crawl.cdxj
  warcdx-gz index --types response,metadata crawl.warc.gz > crawl.cdxj
  ssh host cat a.warc.gz | warcdx-gz index --name a.warc.gz - > a.cdxj

Exit status:
  0  everything was indexed
  1  an archive is damaged, or its file name or a record can't be indexed
  2  usage error
  3  a file can't be opened, or memory, an input or the output failed",
};

/// The page of `warcdx-gz get`.
pub const GET: Page = Page {
    about: "Writes the record at an offset of an archive",
    details: "\
Writes the record that begins at OFFSET, from its version line through the two
line breaks after its block. In a compressed archive it is unpacked. An index
contains the offset of each record, and 'warcdx-gz list' prints it.

A plain archive is read from its start, unless --length is given. In a
compressed one nothing before OFFSET is read. With --length, the record is
written only if it, or its member, has LENGTH bytes. An index contains this
length too.

If no record or member begins at OFFSET, or none of LENGTH bytes, this is
reported on standard error:

  warcdx-gz: NAME: NoRecord

If the archive is damaged at OFFSET, or a plain one before it, this is reported,
with the offset of the record or member at fault. 'warcdx-gz list --help' has
the causes:

  warcdx-gz: NAME: fault OFFSET CAUSE

A record is written as it is unpacked. So if its member is damaged or has
another length, its first part may be written.

Examples:
  warcdx-gz get 0 crawl.warc.gz
  warcdx-gz get 4096 crawl.warc.gz > record.warc
  warcdx-gz get --length 1042 4096 crawl.warc.gz

Exit status:
  0  the record was written
  1  no record begins at OFFSET, or the archive is damaged
  2  usage error
  3  the file can't be opened, or memory, an input or the output failed",
};

/// The page of `warcdx-gz scan`.
pub const SCAN: Page = Page {
    about: "Writes the captures of archives that a query selects",
    details: "\
Indexes the archives in memory, and writes the captures that the query selects,
page by page, as 'warcdx-gz pages' does with an index of each. Some of the
archives may be compressed, and others plain. 'warcdx-gz index --help' explains
captures, and 'warcdx-gz query --help' queries.

TYPES are one or more of these, separated by commas, none twice: response,
resource, revisit, conversion, metadata. Without --types, response, resource and
revisit records are indexed. --types follows the command's name directly, and
--name follows the command's name, or --types and its TYPES.

The query is read first. Then all archives are opened, at most 1,024. The first
fault ends the command, and is reported on standard error. Nothing is written
before all archives are indexed:

  warcdx-gz: query: CAUSE
  warcdx-gz: NAME: cannot open
  warcdx-gz: TooManySources
  warcdx-gz: NAME: BadName
  warcdx-gz: NAME: DuplicateName
  warcdx-gz: NAME: fault OFFSET CAUSE

'warcdx-gz query --help' lists the causes for queries, and 'warcdx-gz list
--help' those for archives. OFFSET is the byte at which the record or member at
fault begins. An archive's file name is the part of its argument after the last
/, 1 to 255 bytes that no earlier archive has. For standard input it is that
part of NAME, or - without --name.

Examples:
  warcdx-gz scan 100 'url=example.com/*' crawl-1.warc.gz crawl-2.warc
  warcdx-gz scan --types metadata 100 'url=example.com/*' crawl.warc.gz

Exit status:
  0  the captures were written
  1  the query is refused, an archive is damaged, its file name or a record
     can't be indexed, or there are too many archives
  2  usage error
  3  a file can't be opened, or memory, an input or the output failed",
};
