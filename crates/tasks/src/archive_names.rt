//! The names of archives in an index.
ghost use Rattle.std.specs.Prelude.{◌≡◌};
ghost use Rattle.tasks.specs.Indexing.{archive_name, bytes_of_name, file_name};

/// Returns the name under which an archive is indexed: its file name, or for standard input that of
/// the name that is given to it.
pub fn archive_name<'a>(input: Option<&'a str>, name: &'a str) -> &'a str
    ensures { result.now ≡ archive_name (bytes_of_name input.entry) name.now }
{
    match input {
        Some(given) if name == "-" => file_name(given),
        _ => file_name(name),
    }
}

/// Returns the part of a name after the last `/`.
fn file_name(name: &str) -> &str
    ensures { result.now ≡ file_name name.now }
{
    match name.rsplit_once('/') {
        Some((_folder, file)) => file,
        None => name,
    }
}
