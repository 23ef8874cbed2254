//! What joins the program to the system: its files, its arguments, its standard output.
//!
//! The contracts say nothing of these. What the program does with any files, arguments and output
//! is `run_on`.
ghost use Rattle.std.specs.Prelude.{◌≡◌, None, ⊤, IfErr};
ghost use Rattle.tasks.specs.Opening.{IsUnopened};

use crate::buffered::Buffered;
use crate::opening::{ArchiveOver, Opener};
use crate::program::{run_on, say_memory};
use crate::standard_input::StandardInput;
use command_line::Program;
use either::Either;
use index_core::{AnyArchive, IndexFault, PlainArchive};
use outcomes::{Console, Outcome, missing_advice, unopened_advice, unread_advice};
use query_core::{AnswerFault, FileSource};
use std::env::{self, Env, FillError};
use std::fs::{File, Files};
use std::io::{self, BufWriter, ErrorKind};
use std::marker::PhantomData;
use std::rt::Runtime;
use warc_core::{FromFile, FromRead, SystemFile};

// The bytes of output that are written at once.
const OUTPUT_ROOM: usize = 65_536;

// The bytes of an argument that are looked at: Linux has no longer file names.
const ARGUMENT_ROOM: usize = 4_096;

/// Runs `warcdx` with the arguments of the system, over its files and standard output. Returns the
/// exit status.
pub fn run_warcdx<R: Runtime<File = File> + AllocGlobal>(rt: &R, input: StandardInput) -> u8 {
    run::<R, PlainArchive<SystemInput<R>>>(&Console::new(rt, Program::Warcdx), input)
}

/// Runs `warcdx-gz` so. It opens archives of either form.
pub fn run_warcdx_gz<R: Runtime<File = File> + AllocGlobal>(rt: &R, input: StandardInput) -> u8 {
    run::<R, AnyArchive<SystemInput<R>>>(&Console::new(rt, Program::WarcdxGz), input)
}

fn run<R: Runtime<File = File> + AllocGlobal, A: ArchiveOver<SystemInput<R>>>(
    console: &Console<R>,
    input: StandardInput,
) -> u8 {
    match words(console.rt) {
        Ok(words) => run_words::<R, A>(console, &words, input),
        Err(error) if error.kind() == ErrorKind::OutOfMemory => say_memory(console),
        Err(_error) => {
            say_not_utf8(console.rt);
            2
        }
    }
}

fn run_words<R: Runtime<File = File> + AllocGlobal, A: ArchiveOver<SystemInput<R>>>(
    console: &Console<R>,
    words: &[String],
    input: StandardInput,
) -> u8 {
    let files: System<R, A> = System::new(console);
    match BufWriter::with_capacity(console.alloc(), OUTPUT_ROOM, io::writer(console.rt)) {
        Ok(writer) => run_on(console, words, &files, input, &mut Buffered::new(writer)),
        Err(_refused) => say_memory(console),
    }
}

/// Reports on standard error that an argument isn't UTF-8.
fn say_not_utf8<R: Runtime>(rt: &R) {
    let _ = match first_not_utf8(rt) {
        Some(number) => eprint!(rt; "error: argument {number} isn't UTF-8"),
        None => eprint!(rt; "error: an argument isn't UTF-8"),
    };
    let _ = eprintln!(rt; "\n\nFor more information, try '--help'.");
}

/// Returns the number of the first argument that isn't UTF-8, counted from 1. Arguments longer than
/// the buffer are passed over.
fn first_not_utf8<R: Runtime>(rt: &R) -> Option<usize> {
    let mut buffer = [0; ARGUMENT_ROOM];
    for number in 1..usize::MAX {
        match rt.arg(number, &mut buffer) {
            Ok(length) if !is_utf8(&buffer, length) => return Some(number),
            Err(FillError::NotPresent) => return None,
            _ => {}
        }
    }
    None
}

fn is_utf8(buffer: &[u8], length: usize) -> bool {
    str::from_utf8(buffer.get(..length).unwrap_or(buffer)).is_ok()
}

/// Returns the arguments after the program's name.
fn words<R: Runtime + AllocGlobal>(rt: &R) -> io::Result<Vec<String>> {
    Ok(env::args(rt)?.skip(1).collect(rt.alloc())?)
}

/// An archive of the system, as it is read: standard input, or a file. The reader of standard input
/// has a large buffer. It is apart, so that an archive is small where it is moved.
pub type SystemInput<R> = Either<
    FromRead<Box<<R as io::Input>::Reader>>,
    FromFile<SystemFile<<R as Files>::File>>,
>;

/// The files of the system, with archives of this type. The contracts don't know their bytes, nor
/// what becomes of an opening.
#[derive(Drop)]
pub struct System<'a, R, A> {
    console: &'a Console<'a, R>,
    archives: PhantomData<A>,
}

impl<'a, R, A> System<'a, R, A> {
    /// Creates what opens the files of the system.
    pub fn new(console: &'a Console<'a, R>) -> System<'a, R, A> {
        System {
            console,
            archives: PhantomData,
        }
    }
}

impl<R: Runtime<File = File> + AllocGlobal, A: ArchiveOver<SystemInput<R>>> Opener
    for System<'_, R, A> {
    type Archive = A;

    type Index = FileSource<SystemFile<File>>;

    type Lines = FromRead<<R as io::Input>::Reader>;

    ghost tells_archive = { λ _ _. A.may_be };

    ghost index_bytes = { λ _ _. None };

    ghost tells_input = { λ _ _. ⊤ };

    ghost archive_failed = { λ _ _. ⊤ };

    ghost index_failed = { λ _ _. ⊤ };

    fn open_archive(&self, name: &str) -> Result<Self::Archive, Outcome> {
        Ok(A::over(self.console.alloc(), open_input(self.console, name)?))
    }

    fn open_index(&self, name: &str) -> Result<Self::Index, Outcome> {
        match FileSource::new(SystemFile(open_file(self.console, name)?)) {
            Ok(source) => Ok(source),
            Err(_fault) => {
                let program = self.console.program();
                let _ = eprintln!(self.console.rt; "{program}: {name}: Read");
                let advice = unread_advice(self.console.rt, name);
                let _ = eprintln!(self.console.rt; "  {advice}");
                Err(Outcome::Answer(AnswerFault::Read(0)))
            }
        }
    }

    fn input(&self) -> Self::Lines {
        FromRead::new(self.console.rt.reader())
    }
}

/// Opens the input of an archive of this name; `-` is standard input.
fn open_input<R: Runtime + AllocGlobal>(
    console: &Console<R>,
    name: &str,
) -> Result<SystemInput<R>, Outcome>
    ensures { IfErr result (IsUnopened ⊤) }
{
    if name == "-" {
        return match Box::new(console.alloc(), console.rt.reader()) {
            Ok(reader) => Ok(Either::Left(FromRead::new(reader))),
            Err(_) => Err(Outcome::Index(IndexFault::Memory)),
        };
    }
    match FromFile::new(SystemFile(open_file(console, name)?)) {
        Ok(file) => Ok(Either::Right(file)),
        Err(_fault) => Err(cannot_open(console, name)),
    }
}

fn open_file<R: Runtime + AllocGlobal>(
    console: &Console<R>,
    name: &str,
) -> Result<<R as Files>::File, Outcome>
    ensures { IfErr result (IsUnopened ⊤) }
{
    match File::open(console.rt, name) {
        Ok(file) => Ok(file),
        Err(error) if error.kind() == ErrorKind::OutOfMemory => {
            Err(Outcome::Index(IndexFault::Memory))
        }
        Err(error) => {
            let outcome = cannot_open(console, name);
            say_why(console.rt, name, &error);
            Err(outcome)
        }
    }
}

/// Reports on standard error why a file can't be opened.
fn say_why<R: Runtime>(rt: &R, name: &str, error: &io::Error) {
    let _ = match unopened_advice(name) {
        Some(advice) => eprintln!(rt; "  {advice}"),
        None if error.kind() == ErrorKind::NotFound => {
            let advice = missing_advice(name);
            eprintln!(rt; "  {advice}{error}")
        }
        None => eprintln!(rt; "  {error}"),
    };
}

/// Reports on standard error that a file can't be opened.
fn cannot_open<R: Runtime + AllocGlobal>(console: &Console<R>, name: &str) -> Outcome
    ensures { result ≡ Outcome.CannotOpen }
{
    let program = console.program();
    let _ = eprintln!(console.rt; "{program}: {name}: cannot open");
    Outcome::CannotOpen
}
