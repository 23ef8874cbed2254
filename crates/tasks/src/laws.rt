//! Laws of the definitions that the contracts cite. These functions do nothing: each law is a
//! contract.
ghost use Rattle.std.specs.Io.KnownBytes.{Appends};
ghost use Rattle.std.specs.Prelude.{◌≡◌, ◌<◌, ℕ, List, Option, Some, Result, Ok, Err, length, map};
ghost use Rattle.std.specs.Prelude.{true};
ghost use Rattle.warc_core.specs.declared.next.TheConstants.{HEAD_LIMIT};
ghost use Rattle.command_line.specs.Commands.{Meaning, Refusal, ToGet, Usage};
ghost use Rattle.outcomes.specs.declared.outcome.Outcome.{Outcome};
ghost use Rattle.outcomes.specs.declared.outcome.Outcome.TheVariants as outcomes;
ghost use Rattle.query_text.specs.declared.fault.QueryFault.{QueryFault};
ghost use Rattle.index_core.specs.Indexing.{Held, IsName, is_among};
ghost use Rattle.index_core.specs.OneRecord.{IsOneRecord, WritesPart};
ghost use Rattle.index_core.specs.OneText.{HasFront};
ghost use Rattle.tasks.specs.Indexing.{AddsOne, archive_name};
ghost use Rattle.query_core.specs.IndexFaults.{IsAnswerFaultOf};
ghost use Rattle.query_core.specs.declared.fault.AnswerFault.{AnswerFault};
ghost use Rattle.query_core.specs.declared.merging.TheConstants.{SOURCES_LIMIT};
ghost use Rattle.tasks.specs.OneText.{AreKnown, EndsAs, IsDone, IsNoConversation, indexes_of};
ghost use Rattle.tasks.specs.OpeningLaws.{AllOpen, OpensAllFirst};
ghost use Rattle.tasks.specs.Performing.{openings, Performs, untold};
ghost use Rattle.tasks.specs.Running.{EndsWith0, RunsWords};
ghost use Rattle.tasks.specs.Writes.{CountsWrites};

use crate::opening::Opener;
use index_core::{
    get_writes_one_text, index_writes_one_text, list_writes_one_text, verify_writes_one_text,
};
use outcomes::status_zero_is_done;
use query_core::{
    answer_writes_one_text, conversation_over_indexes_writes_one_text, faults_leave_a_front,
    merge_writes_one_text, pages_write_one_text,
};
use scan_core::{faults_of_scans_leave_a_front, scan_writes_one_text};

/// What a task promises over the bytes that its archives and standard input may have, it also
/// promises if no bytes of them are told.
#[tactic(auto, using(crate::proofs::UntoldLemmas::performs_untold))]
pub fn promises_hold_untold<F: Opener, O>(files: &F)
    ensures { (task : Meaning) → (outcome : Outcome) → (written : O → Option (List ℕ))
        → (old new : O)
        → Performs (openings F.tells_archive F.index_bytes F.archive_failed F.index_failed
        F.tells_input files.now) (written old) (written new) (new ≡ old) outcome task
        → Performs (untold (openings F.tells_archive F.index_bytes F.archive_failed F.index_failed
        F.tells_input files.now)) (written old) (written new) (new ≡ old) outcome task }
{}

/// A task whose files can all be opened doesn't end as one of which a file can't be.
#[tactic(auto, using(crate::proofs::AllOpenLemmas::all_open))]
pub fn opened_files_are_no_fault<F: Opener, O>(files: &F)
    ensures { AllOpen (openings F.tells_archive F.index_bytes F.archive_failed F.index_failed
        F.tells_input files.now)
        → (task : Meaning) → (written : O → Option (List ℕ)) → (old new : O)
        → Performs (openings F.tells_archive F.index_bytes F.archive_failed F.index_failed
        F.tells_input files.now) (written old) (written new) (new ≡ old) outcomes.CannotOpen task
        → ⊥ }
{}

/// A task over files that are all opened first writes nothing if one of them can't be opened, or if
/// more indexes are given than a call takes, and isn't done then. No task writes anything if its
/// query is refused.
pub fn refused_tasks_write_nothing<F: Opener, O>(files: &F)
    ensures unopened { (task : Meaning) → (written : O → Option (List ℕ)) → (old new : O)
        → OpensAllFirst task
        → Performs (openings F.tells_archive F.index_bytes F.archive_failed F.index_failed
        F.tells_input files.now) (written old) (written new) (new ≡ old) outcomes.CannotOpen task
        → written new ≡ written old }
    ensures many { (task : Meaning) → (outcome : Outcome) → (written : O → Option (List ℕ))
        → (old new : O) → OpensAllFirst task → SOURCES_LIMIT < length (indexes_of task)
        → Performs (openings F.tells_archive F.index_bytes F.archive_failed F.index_failed
        F.tells_input files.now) (written old) (written new) (new ≡ old) outcome task
        → (outcome ≡ outcomes.Done → ⊥) × (written new ≡ written old) }
    ensures refused { (task : Meaning) → (fault : QueryFault) → (written : O → Option (List ℕ))
        → (old new : O)
        → Performs (openings F.tells_archive F.index_bytes F.archive_failed F.index_failed
        F.tells_input files.now) (written old) (written new) (new ≡ old) (outcomes.Query fault) task
        → written new ≡ written old }
{}

/// A line of an index that a task names at its end, if it opens all its files first and is no
/// conversation, is a line at fault of that index, as far as the index's bytes are known. A scan
/// names none.
#[tactic(auto, using(crate::proofs::AllOpenLemmas::named_at_fault))]
pub fn named_lines_are_at_fault<F: Opener, O>(files: &F)
    ensures { (task : Meaning) → (fault : AnswerFault) → (written : O → Option (List ℕ))
        → (old new : O) → OpensAllFirst task → IsNoConversation task
        → Performs (openings F.tells_archive F.index_bytes F.archive_failed F.index_failed
        F.tells_input files.now) (written old) (written new) (new ≡ old) (outcomes.Answer fault)
        task → IsAnswerFaultOf (map (F.index_bytes files.now) (indexes_of task)) fault }
{}

/// The files decide what a task that is done has written, if their bytes are known, and what it
/// reads as indexes are indexes. So whoever runs it again over them, and sees it done, has the same
/// bytes. That is said of the exit status 0 too, but for a conversation, which hands on each reply.
pub fn done_tasks_write_one_text<F: Opener, O>(files: &F)
    ensures done { (task : Meaning) → (written : O → Option (List ℕ)) → (before : List ℕ)
        → (here this there that : O)
        → AreKnown (openings F.tells_archive F.index_bytes F.archive_failed F.index_failed
        F.tells_input files.now) task
        → IsDone (openings F.tells_archive F.index_bytes F.archive_failed F.index_failed
        F.tells_input files.now) task written before here this
        → IsDone (openings F.tells_archive F.index_bytes F.archive_failed F.index_failed
        F.tells_input files.now) task written before there that → written this ≡ written that }
    ensures exit { (task : Meaning) → (written flushed : O → Option (List ℕ)) → (failures : O → ℕ)
        → (before : List ℕ) → (old this that : O)
        → AreKnown (openings F.tells_archive F.index_bytes F.archive_failed F.index_failed
        F.tells_input files.now) task → IsNoConversation task → written old ≡ Some before
        → EndsWith0 written flushed failures (openings F.tells_archive F.index_bytes
        F.archive_failed F.index_failed F.tells_input files.now) (Ok task) old this
        → EndsWith0 written flushed failures (openings F.tells_archive F.index_bytes
        F.archive_failed F.index_failed F.tells_input files.now) (Ok task) old that
        → written this ≡ written that }
{
    status_zero_is_done();
    list_writes_one_text();
    verify_writes_one_text();
    index_writes_one_text();
    merge_writes_one_text();
    answer_writes_one_text();
    pages_write_one_text();
    conversation_over_indexes_writes_one_text();
    get_writes_one_text();
    scan_writes_one_text();
}

/// However a task ends that opens all its files first, it has written a front of what one writes
/// that is done, over files whose bytes are known, and indexes that are indexes: of a merge, a page,
/// all pages, replies, a record and a scan. So has the program, whatever its exit status is, but for
/// a conversation, which hands on each reply.
pub fn failed_tasks_leave_a_front<F: Opener, O>(files: &F)
    ensures ended { (task : Meaning) → (outcome : Outcome) → (written : O → Option (List ℕ))
        → (before : List ℕ) → (here this there that : O)
        → AreKnown (openings F.tells_archive F.index_bytes F.archive_failed F.index_failed
        F.tells_input files.now) task → OpensAllFirst task
        → IsDone (openings F.tells_archive F.index_bytes F.archive_failed F.index_failed
        F.tells_input files.now) task written before here this
        → EndsAs (openings F.tells_archive F.index_bytes F.archive_failed F.index_failed
        F.tells_input files.now) task written before outcome there that
        → HasFront before (written this) (written that) }
    ensures exit { (task : Meaning) → (written flushed : O → Option (List ℕ)) → (failures : O → ℕ)
        → (before : List ℕ) → (old this that : O) → (status : ℕ)
        → AreKnown (openings F.tells_archive F.index_bytes F.archive_failed F.index_failed
        F.tells_input files.now) task → OpensAllFirst task → IsNoConversation task
        → written old ≡ Some before
        → EndsWith0 written flushed failures (openings F.tells_archive F.index_bytes
        F.archive_failed F.index_failed F.tells_input files.now) (Ok task) old this
        → RunsWords written flushed failures (openings F.tells_archive F.index_bytes
        F.archive_failed F.index_failed F.tells_input files.now) (Ok task) old that status
        → HasFront before (written this) (written that) }
{
    merge_writes_one_text();
    answer_writes_one_text();
    pages_write_one_text();
    conversation_over_indexes_writes_one_text();
    get_writes_one_text();
    scan_writes_one_text();
    faults_leave_a_front();
    faults_of_scans_leave_a_front();
}

/// Whatever an archive's bytes are, `get` writes one record if it ends as done, and otherwise a front
/// of one, or nothing.
pub fn get_writes_one_record<F: Opener, O>(files: &F)
    ensures whole { (len : Option ℕ) → (offset : ℕ) → (name : List ℕ)
        → (written : O → Option (List ℕ)) → (before : List ℕ) → (old new : O)
        → IsDone (openings F.tells_archive F.index_bytes F.archive_failed F.index_failed
        F.tells_input files.now) (ToGet len offset name) written before old new
        → (text : List ℕ) × IsOneRecord HEAD_LIMIT text × Appends (Some before) (written new) text }
    ensures front { (len : Option ℕ) → (offset : ℕ) → (name : List ℕ) → (outcome : Outcome)
        → (written : O → Option (List ℕ)) → (before : List ℕ) → (old new : O)
        → EndsAs (openings F.tells_archive F.index_bytes F.archive_failed F.index_failed
        F.tells_input files.now) (ToGet len offset name) written before outcome old new
        → (outcome ≡ outcomes.Done → ⊥) → WritesPart HEAD_LIMIT (Some before) (written new) }
{}

/// An archive whose name is bad, or is that of an archive that was added before, adds nothing, and
/// the command isn't done.
pub fn refused_names_add_nothing<F: Opener>(files: &F)
    ensures bad { (input : Option (List ℕ)) → (name : List ℕ) → (outcome : Outcome)
        → (old new : Held) → (IsName (archive_name input name) → ⊥)
        → AddsOne (F.tells_archive files.now) (F.archive_failed files.now) input old name outcome new
        → (new ≡ old) × (outcome ≡ outcomes.Done → ⊥) }
    ensures used { (input : Option (List ℕ)) → (name : List ℕ) → (outcome : Outcome)
        → (old new : Held) → IsName (archive_name input name)
        → is_among old.names (archive_name input name) ≡ true
        → AddsOne (F.tells_archive files.now) (F.archive_failed files.now) input old name outcome new
        → (new ≡ old) × (outcome ≡ outcomes.Done → ⊥) }
{}

/// The exit status 0 says that what was asked was done, and flushed. Arguments that can't be read
/// never end with it, and write nothing. Unless the status is 3, no write has failed.
pub fn exit_status_says_what_was_done<F: Opener, O>(files: &F)
    ensures zero { (words : Result Meaning Refusal) → (written flushed : O → Option (List ℕ))
        → (failures : O → ℕ) → (old new : O)
        → RunsWords written flushed failures (openings F.tells_archive F.index_bytes
        F.archive_failed F.index_failed F.tells_input files.now) words old new 0
        → EndsWith0 written flushed failures (openings F.tells_archive F.index_bytes
        F.archive_failed F.index_failed F.tells_input files.now) words old new }
    ensures usage { (written flushed : O → Option (List ℕ)) → (failures : O → ℕ) → (old new : O)
        → (status : ℕ) → RunsWords written flushed failures (openings F.tells_archive F.index_bytes
        F.archive_failed F.index_failed F.tells_input files.now) (Err Usage) old new status
        → (new ≡ old) × (status ≡ 0 → ⊥) }
    ensures failed { (task : Meaning) → (written flushed : O → Option (List ℕ))
        → (failures : O → ℕ) → (old new : O) → (status : ℕ)
        → RunsWords written flushed failures (openings F.tells_archive F.index_bytes
        F.archive_failed F.index_failed F.tells_input files.now) (Ok task) old new status
        → (status ≡ 3 → ⊥) → failures new ≡ failures old }
    ensures counts { (outcome : Outcome) → (old this that : ℕ) → CountsWrites outcome old this
        → CountsWrites outcome old that → this ≡ that }
{}
