//! Where bytes come from and where they go: inputs and outputs that count the calls that failed.
//!
//! An [`Input`] or an [`Output`] is a slice or a list in memory, a reader or a writer of `std`, or a [`Fuse`] around
//! another device, which fails at one of its calls.
//!
//! The definitions begin in `specs/Device.antt`: what a call of a device does to its bytes.
#![tactic(auto)]

mod buffer;
mod device;
mod file;
mod fuse;
mod input_lines;
mod line_cuts;
mod memory;
mod positioned;
mod prompt;
mod standard;
mod two_inputs;
mod write_fault;

pub use crate::buffer::{Buffer, PIECE};
pub use crate::device::{DeviceFault, Input, Output, put};
pub use crate::file::{FromFile, LEAST_SKIP};
pub use crate::fuse::Fuse;
pub use crate::input_lines::{INPUT_LIMIT, InputLineFault, InputLines};
pub use crate::memory::{Gather, Slice};
pub use crate::positioned::{Positioned, SystemFile};
pub use crate::prompt::Prompt;
pub use crate::standard::{FromRead, FromWrite};
pub use crate::write_fault::WriteFault;
