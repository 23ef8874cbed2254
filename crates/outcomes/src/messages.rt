//! The faults of archives and indexes, and how they are reported on standard error.
ghost use Rattle.std.specs.Prelude.{◌≡◌};
ghost use Rattle.outcomes.specs.Outcome.{outcome_of};
ghost use Rattle.outcomes.specs.Outcome.{answered_outcome};

use crate::advice::{answer_advice, index_advice, is_plain, pasted_advice, query_advice};
use crate::console::Console;
use crate::outcome::{Outcome, outcome_of};
use crate::refused_part::{RefusedPart, refused_part};
use index_core::IndexFault;
use query_core::{AnswerFault, QueryFault};
use scan_core::ScanFault;
use std::rt::Runtime;

/// Returns the outcome of a call on the archive of this name. A fault is reported on standard
/// error.
pub fn said_outcome<R: Runtime>(
    console: &Console<R>,
    name: &str,
    answer: Result<u64, IndexFault>,
) -> Outcome
    ensures { result ≡ outcome_of answer }
{
    if let Err(fault) = answer {
        say_fault(console, name, fault);
    }
    outcome_of(answer)
}

/// Reports a fault of an archive. Memory and a failed output are reported at the command's end.
fn say_fault<R: Runtime>(console: &Console<R>, name: &str, fault: IndexFault) {
    let program = console.program();
    match fault {
        IndexFault::Capture(fault) => {
            let (offset, cause) = (fault.offset(), fault.name());
            let _ = eprintln!(console.rt; "{program}: {name}: fault {offset} {cause}");
        }
        IndexFault::BadName | IndexFault::DuplicateName | IndexFault::NoRecord => {
            let cause = fault.name();
            let _ = eprintln!(console.rt; "{program}: {name}: {cause}");
        }
        IndexFault::Memory | IndexFault::Write => {}
    }
    say_advice(console, index_advice(console, name, fault));
}

/// Adds a line to a message, if there is more to say.
pub fn say_advice<R: Runtime>(console: &Console<R>, advice: Option<&str>) {
    if let Some(advice) = advice {
        let _ = eprintln!(console.rt; "  {advice}");
    }
}

/// Reports why a query is refused. Memory is reported at the command's end.
fn say_query_fault<R: Runtime>(console: &Console<R>, fault: QueryFault) {
    if fault != QueryFault::Memory {
        let (program, cause) = (console.program(), fault.name());
        let _ = eprintln!(console.rt; "{program}: query: {cause}");
        say_advice(console, Some(query_advice(fault)));
    }
}

/// Reports why a query of this text is refused, with the part that is at fault.
pub fn say_refusal<R: Runtime>(console: &Console<R>, text: &str, fault: QueryFault) {
    match refused_part(text, fault) {
        Some(part) => say_part(console, part, fault),
        None => say_query_fault(console, fault),
    }
}

/// Reports that a part of a query is at fault.
fn say_part<R: Runtime>(console: &Console<R>, part: RefusedPart<'_>, fault: QueryFault) {
    let program = console.program();
    let (cause, advice) = (fault.name(), query_advice(fault));
    let (name, what) = (part.name, part.what);
    let _ = eprintln!(console.rt; "{program}: query: {cause}");
    let _ = if is_plain(name) {
        eprintln!(console.rt; "  '{name}' {what}. {advice}")
    } else if let Some(pasted) = pasted_advice(name, fault) {
        eprintln!(console.rt; "  {pasted} {advice}")
    } else {
        eprintln!(console.rt; "  {advice}")
    };
}

/// Returns the outcome of a call on indexes of these names. A fault of an index is reported on
/// standard error.
pub fn answered_outcome<R: Runtime, T: Drop>(
    console: &Console<R>,
    names: &[String],
    answer: Result<T, AnswerFault>,
) -> Outcome
    ensures { result ≡ answered_outcome answer }
{
    match answer {
        Ok(_) => Outcome::Done,
        Err(fault) => {
            say_source_fault(console, names, fault);
            Outcome::Answer(fault)
        }
    }
}

/// Reports a fault of a call on several indexes under the name of the index concerned, if there is
/// one.
fn say_source_fault<R: Runtime>(console: &Console<R>, names: &[String], fault: AnswerFault) {
    let source = match fault {
        AnswerFault::Read(source) => source,
        AnswerFault::BadLine(source, _offset) => source,
        AnswerFault::OutOfOrder(source, _offset) => source,
        _ => return,
    };
    if let Some(name) = names.get(source) {
        say_answer_fault(console, name, fault);
    }
}

/// Reports a fault of the index of this name. Memory and a failed output are reported at the
/// command's end.
pub fn say_answer_fault<R: Runtime>(console: &Console<R>, name: &str, fault: AnswerFault) {
    let (program, cause) = (console.program(), fault.name());
    match fault {
        AnswerFault::Read(_source) => {
            let _ = eprintln!(console.rt; "{program}: {name}: {cause}");
        }
        AnswerFault::BadLine(_source, offset) | AnswerFault::OutOfOrder(_source, offset) => {
            let _ = eprintln!(console.rt; "{program}: {name}: {cause} {offset}");
        }
        _ => {}
    }
    say_advice(console, answer_advice(console.rt, name, fault));
}

/// Reports why archives of these names couldn't be scanned. A fault of no single archive is
/// reported at the command's end.
pub fn say_scan_fault<R: Runtime>(console: &Console<R>, names: &[String], fault: ScanFault) {
    match fault {
        ScanFault::Query(fault) => say_query_fault(console, fault),
        ScanFault::Archive(archive, fault) => {
            if let Some(name) = names.get(archive) {
                say_fault(console, name, fault);
            }
        }
        ScanFault::Answer(_fault) => {}
    }
}
