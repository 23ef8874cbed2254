//! What the program is asked to do.
use capture_core::Types;

/// What the program is asked to do. Names are the arguments as they were given. The archive `-` is standard input.
#[derive(Drop)]
pub enum Task {
    /// List the records of each archive.
    List(Vec<String>),
    /// Check the digests of each archive's records.
    Verify(Vec<String>),
    /// Index the captures of the archives: the records of these types. `input` is the name of standard input.
    Index {
        types: Types,
        input: Option<String>,
        names: Vec<String>,
    },
    /// Merge the indexes into one.
    Merge(Vec<String>),
    /// Check the lines of each index, and count them.
    Check(Vec<String>),
    /// Answer the query over the indexes.
    Query {
        query: String,
        names: Vec<String>,
    },
    /// Answer the query over the indexes page by page. The sizes are in captures, and the last size is repeated.
    Pages {
        sizes: Vec<u64>,
        query: String,
        names: Vec<String>,
    },
    /// Answer the queries on standard input over the indexes.
    Serve(Vec<String>),
    /// Write the record that begins at the offset, in bytes from the archive's start. With a length, only a record of
    /// this length in bytes, and without reading what precedes it.
    Get {
        length: Option<u64>,
        offset: u64,
        name: String,
    },
    /// Answer the query over the captures of the archives, page by page: the records of these types. `input` is the
    /// name of standard input.
    Scan {
        types: Types,
        input: Option<String>,
        sizes: Vec<u64>,
        query: String,
        names: Vec<String>,
    },
}
