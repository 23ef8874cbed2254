//! Callers of the library's doors. Each module uses one crate alone, and its contracts follow from
//! the contracts of that crate. `records::count_records` and `scans::in_memory` have no contract.
//! `witnesses` shows what the definitions of all of them say of small archives, and `shelf` what
//! the tasks of the program write of files in memory. `disk` has the same of files that are read at
//! a position.
#![tactic(auto)]

pub mod captures;
pub mod disk;
pub mod indexes;
pub mod lines;
pub mod queries;
pub mod records;
pub mod scans;
pub mod shelf;
pub mod witnesses;
