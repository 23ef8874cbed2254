//! The fetching of a record of an archive whose form the type doesn't say.

use crate::fault::IndexFault;
use crate::fetch::Fetch;
use archives::EitherArchive;
use warc_core::Output;

impl<P: Fetch, Q: Fetch, F: Fetch> Fetch for EitherArchive<P, Q, F> {
    fn get<O: Output>(&mut self, offset: u64, out: &mut O) -> Result<u64, IndexFault> {
        match self {
            EitherArchive::Plain(archive) => archive.get(offset, out),
            EitherArchive::Packed(archive) => archive.get(offset, out),
            EitherArchive::Failed(archive) => archive.get(offset, out),
        }
    }

    fn get_at<O: Output>(
        &mut self,
        offset: u64,
        length: u64,
        out: &mut O,
    ) -> Result<u64, IndexFault> {
        match self {
            EitherArchive::Plain(archive) => archive.get_at(offset, length, out),
            EitherArchive::Packed(archive) => archive.get_at(offset, length, out),
            EitherArchive::Failed(archive) => archive.get_at(offset, length, out),
        }
    }
}
