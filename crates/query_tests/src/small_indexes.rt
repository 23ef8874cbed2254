//! Small indexes, and sources over them.
use fixtures::{FIRST_OF_2016, Rows, index_text};
use query_core::{FileSource, SliceSource, SystemFile};
use std::alloc::{AllocError, Global};
use std::fs::{self, File};
use std::rt::Runtime;
use std::test::Fail;

/// Three indexes of one line each, with the same key and stamp.
pub const APART: &[Rows] = &[
    &[("com,example)/", FIRST_OF_2016, "b.warc", 10)],
    &[("com,example)/", FIRST_OF_2016, "a.warc", 20)],
    &[("com,example)/", FIRST_OF_2016, "a.warc", 5)],
];

/// Returns the texts of indexes.
pub fn index_texts(alloc: Global, indexes: &[Rows]) -> Result<Vec<Vec<u8>>, Fail> {
    let mut texts = Vec::new(alloc);
    for rows in indexes {
        texts.push(index_text(alloc, rows)?)?;
    }
    Ok(texts)
}

/// Returns sources over these texts.
pub fn slices(alloc: Global, texts: &[Vec<u8>]) -> Result<Vec<SliceSource<'_>>, Fail> {
    let mut sources = Vec::new(alloc);
    for text in texts {
        sources.push(SliceSource::new(text))?;
    }
    Ok(sources)
}

/// Returns this many sources without a line.
pub fn empty_sources(alloc: Global, count: usize) -> Result<Vec<SliceSource<'static>>, AllocError> {
    let mut sources = Vec::new(alloc);
    for _ in 0..count {
        sources.push(SliceSource::new(b""))?;
    }
    Ok(sources)
}

/// Writes a text to a file, and returns a source over the file.
pub fn file_of<R: Runtime<File = File>>(
    rt: &R,
    name: &str,
    text: &[u8],
) -> Result<FileSource<SystemFile<File>>, Fail> {
    fs::write(rt, name, text)?;
    Ok(FileSource::new(SystemFile(File::open(rt, name)?))?)
}

/// Returns sources over files that are newly written.
pub fn files<R: Runtime<File = File> + AllocGlobal>(
    rt: &R,
    texts: &[Vec<u8>],
) -> Result<Vec<FileSource<SystemFile<File>>>, Fail> {
    let mut sources = Vec::new(rt.alloc());
    for (number, text) in texts.iter().enumerate() {
        let name = format!(in rt.alloc(); "{number}.cdxj")?;
        sources.push(file_of(rt, name.as_str(), text)?)?;
    }
    Ok(sources)
}
