//! The tasks of the command line: what each command does, over anything that opens files by name.
//!
//! The definitions begin in `specs/Performing.antt`: what the program does for each task.
#![tactic(auto)]

mod archive_names;
mod buffered;
mod checks;
mod conversing;
mod each;
mod fetching;
mod flush;
mod indexing;
mod laws;
mod merging;
mod opening;
mod program;
mod queries;
mod reports;
mod scanning;
mod standard_input;
mod system;

pub use crate::buffered::Buffered;
pub use crate::flush::Flush;
pub use crate::laws::{
    done_tasks_write_one_text, exit_status_says_what_was_done, failed_tasks_leave_a_front,
    get_writes_one_record, named_lines_are_at_fault, opened_files_are_no_fault,
    promises_hold_untold, refused_names_add_nothing, refused_tasks_write_nothing,
};
pub use crate::opening::{ArchiveOver, Opener};
pub use crate::program::{perform, run_on};
pub use crate::standard_input::StandardInput;
pub use crate::system::{System, SystemInput, run_warcdx, run_warcdx_gz};
pub use command_line::Program;
pub use outcomes::{Console, Outcome, status, status_zero_is_done};
