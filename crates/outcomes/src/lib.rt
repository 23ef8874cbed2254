//! How a command ends: its outcome, its exit status, and what it says on standard error.
//!
//! The definitions are in `specs/Outcome.antt`. The messages have no contracts: that they are the
//! right ones is tested.
#![tactic(auto)]

mod advice;
mod console;
mod exit_status;
mod file_kind;
mod messages;
mod outcome;
mod refused_part;

pub use crate::advice::{end_advice, missing_advice, unopened_advice, unread_advice};
pub use crate::console::Console;
pub use crate::exit_status::{ends_command, status, status_zero_is_done, worse};
pub use crate::messages::{
    answered_outcome, said_outcome, say_advice, say_answer_fault, say_refusal, say_scan_fault,
};
pub use crate::outcome::{Outcome, flushed_outcome, message, outcome_of, verification_outcome};
