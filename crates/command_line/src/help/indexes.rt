//! Help for the commands that read indexes. The pages of both programs differ in the name alone.
use super::Page;

macro_rules! merge_page {
    ($program:literal) => {
        Page {
            about: "Merges indexes into one",
            details: concat!("\
Writes the lines of all indexes to standard output, in the order of URL key,
timestamp, file name and offset. Each line is written as it is in its index. If
several lines have all four in common, only the first is written: that of the
index that you name first.

The indexes must be sorted; '", $program, " check' checks it. At most 1,024 are
merged. One line of each is held in memory, and the lines of one URL key and
timestamp.

All indexes are opened before the first is read. The first fault ends the
command, and is reported on standard error. The output until then remains:

  ", $program, ": NAME: cannot open
  ", $program, ": NAME: Read
  ", $program, ": NAME: BadLine OFFSET
  ", $program, ": NAME: OutOfOrder OFFSET
  ", $program, ": TooManySources

OFFSET is the byte at which the line at fault begins. '", $program, " check --help'
explains the causes.

Examples:
  ", $program, " merge crawl-1.cdxj crawl-2.cdxj > crawls.cdxj
  ", $program, " merge *.cdxj > all

Exit status:
  0  the indexes were merged
  1  an index has a bad line, or one out of order, or there are too many
  2  usage error
  3  a file can't be opened or read, or memory or the output failed"),
        }
    };
}

/// The page of `warcdx merge`.
pub const MERGE: Page = merge_page!("warcdx");

/// The page of `warcdx-gz merge`.
pub const COMPRESSED_MERGE: Page = merge_page!("warcdx-gz");

macro_rules! check_page {
    ($program:literal) => {
        Page {
            about: "Checks that indexes are sorted, and counts their lines",
            details: concat!("\
Reads each index from its start. If it is in order, this line is printed:

  NAME COUNT

COUNT is the number of its lines. An index is in order if every line is one of a
capture, and no line has a URL key and timestamp below those of the line before
it, by bytes. '", $program, " index' writes such indexes, and so does LC_ALL=C sort.
docs/CDXJ.md has the rules.

For any other index the first line at fault is reported on standard error, with
the byte at which it begins:

  ", $program, ": NAME: CAUSE OFFSET

CAUSE is one of these:

  BadLine     the line is not one of a capture, or it is longer than 16,777,216
              bytes, line feed included
  OutOfOrder  the line's URL key and timestamp are below those of the line
              before it

The indexes after it are checked too. An index that can't be read, or that is
cut while it is checked, is reported:

  ", $program, ": NAME: Read

Example:
  ", $program, " check crawl-1.cdxj crawl-2.cdxj

Exit status:
  0  all the indexes are in order
  1  an index has a bad line, or one out of order
  2  usage error
  3  a file can't be opened or read, or memory or the output failed"),
        }
    };
}

/// The page of `warcdx check`.
pub const CHECK: Page = check_page!("warcdx");

/// The page of `warcdx-gz check`.
pub const COMPRESSED_CHECK: Page = check_page!("warcdx-gz");

macro_rules! query_page {
    ($program:literal) => {
        Page {
            about: "Writes the captures that a query selects",
            details: concat!("\
Writes the captures of the indexes that the query selects, in the order of URL
key, timestamp, file name and offset. If lines of several indexes have all four
in common, only the first counts: that of the index that you name first.

QUERY has parameters separated by &. Quote it, because & is special to the
shell:

  url=ADDRESS        *.example.com includes subdomains; example.com/a* matches
                     every address that begins with example.com/a
  key=KEY            in place of url: a URL key, as it is in an index
  matchType=         exact, prefix, host or domain
  from=, to=         the first digits of a time: 2016, 201609, ...
  filter=FIELD:TEXT  the field is TEXT, or isn't, with ! before FIELD
  is=, isnot=        the same, for any TEXT
  has=, hasnot=      the field has TEXT somewhere, or nowhere
  fl=FIELD,FIELD     urlkey, timestamp, original, mimetype, statuscode, digest,
                     length, offset, filename
  output=            text, json, or cdxj: the lines of the indexes
  collapse=          urlkey, timestamp or timestamp:N: only the first of
                     consecutive captures with the same key, time, or first N
                     digits of the time
  limit=NUMBER       at most NUMBER captures
  showResumeKey=true if captures follow, print the key to continue with
  resumeKey=KEY      continue from a printed key

docs/QUERY.md has the rules. The indexes must be sorted; '", $program, " check'
checks it. Only the lines that a query needs are read and checked.

The query is read first. Then all indexes are opened, at most 1,024. The first
fault ends the command, and is reported on standard error. The output until
then remains:

  ", $program, ": query: CAUSE
  ", $program, ": NAME: cannot open
  ", $program, ": NAME: Read
  ", $program, ": NAME: BadLine OFFSET
  ", $program, ": NAME: OutOfOrder OFFSET
  ", $program, ": TooManySources

CAUSE is one of these:

  QueryTooLong       the query has more than 65,536 bytes
  Unknown            a parameter has another name: write url= before an address
  RepeatedParameter  only filter, is, isnot, has and hasnot can be repeated
  BadMatch           matchType has another value
  BadStamp           from or to isn't 1 to 14 digits
  BadFilter          a filter has no colon, or an unknown field before it
  NotLiteral         filter takes no patterns: write is= or has= for the TEXT
  BadLimit           limit isn't a number from 1 to 1,000,000
  BadResume          resumeKey isn't a printed key: copy it unchanged
  BadFlag            showResumeKey isn't true or false
  BadField           fl has an unknown field, or an empty one
  BadOutput          output has another value
  BadCollapse        collapse has another value, or N isn't 1 to 14
  NoUrl              give url or key
  UrlAndKey          give url or key, not both
  BadUrl             url isn't a URL, or has to be one of http or https for
                     matchType host and domain

Examples:
  ", $program, " query 'url=example.com' crawl.cdxj
  ", $program, " query 'url=*.example.com&filter=statuscode:200&output=json' *.cdxj
  ", $program, " query 'key=com,example)/a&fl=offset,filename' crawl.cdxj

Exit status:
  0  the captures were written
  1  the query is refused, an index has a bad line or one out of order, or
     there are too many
  2  usage error
  3  a file can't be opened or read, or memory or the output failed"),
        }
    };
}

/// The page of `warcdx query`.
pub const QUERY: Page = query_page!("warcdx");

/// The page of `warcdx-gz query`.
pub const COMPRESSED_QUERY: Page = query_page!("warcdx-gz");

macro_rules! pages_page {
    ($program:literal) => {
        Page {
            about: "Writes the captures that a query selects, page by page",
            details: concat!("\
Writes all captures that the query selects, as '", $program, " query' does, in pages
of the given sizes. SIZES are 1 to 1,000 numbers from 1 to 1,000,000, separated
by commas: the size of the first page, of the second and so on. The last size is
repeated. Each page but the last ends with the resume key of the next one. The
query's limit and showResumeKey have no effect. The first page begins after the
place of its resumeKey.

'", $program, " query --help' explains queries, what is reported, and what to do.

Examples:
  ", $program, " pages 100 'url=example.com/*' crawl.cdxj
  ", $program, " pages 10,100,1000 'url=*.example.com&output=json' *.cdxj

Exit status:
  0  the captures were written
  1  the query is refused, an index has a bad line or one out of order, or
     there are too many
  2  usage error
  3  a file can't be opened or read, or memory or the output failed"),
        }
    };
}

/// The page of `warcdx pages`.
pub const PAGES: Page = pages_page!("warcdx");

/// The page of `warcdx-gz pages`.
pub const COMPRESSED_PAGES: Page = pages_page!("warcdx-gz");

macro_rules! serve_page {
    ($program:literal) => {
        Page {
            about: "Answers queries line by line",
            details: concat!("\
Reads queries from standard input, one per line, and writes a reply to each:
what '", $program, " query' writes for it, and then a line with only a period. Each
reply is flushed before the next line is read.

The reply to a query that is refused is

  refused CAUSE

with a cause that '", $program, " query --help' lists, or NotText for a query that
isn't UTF-8. If an index has a bad line, or one out of order, the reply is the
page up to that line, a line feed and

  fault CAUSE NUMBER OFFSET

with the number of the index, from 0, and the offset of the line in bytes. Then
the next query is read. docs/QUERY.md has the rules.

All indexes are opened first. Any other fault ends the command, and is reported
on standard error:

  ", $program, ": NAME: cannot open
  ", $program, ": NAME: Read
  ", $program, ": TooManySources
  ", $program, ": Input

Examples:
  ", $program, " serve crawl.cdxj < queries
  socat -t 60 TCP-LISTEN:8080,bind=127.0.0.1,fork \\
    EXEC:'", $program, " serve crawl.cdxj'

Exit status:
  0  the input ended
  1  there are too many indexes
  2  usage error
  3  a file can't be opened or read, or memory, the input or the output failed"),
        }
    };
}

/// The page of `warcdx serve`.
pub const SERVE: Page = serve_page!("warcdx");

/// The page of `warcdx-gz serve`.
pub const COMPRESSED_SERVE: Page = serve_page!("warcdx-gz");
