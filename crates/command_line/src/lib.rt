//! The command line of `warcdx` and of `warcdx-gz`: what its arguments ask for, read by clap.
//!
//! The definitions begin in `specs/Commands.antt`: the forms of the command line, and the task of each.
#![tactic(auto)]

mod command;
mod fault;
mod help;
mod matches;
mod options;
mod program;
mod sizes;
mod task;
mod usage_errors;
mod words;

pub use fault::WordsFault;
pub use program::Program;
pub use task::Task;
pub use words::read_words;
