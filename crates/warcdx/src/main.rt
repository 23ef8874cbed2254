//! `warcdx`: indexes web archives, answers queries, and fetches records.
//!
//! The program is `run_warcdx` of `tasks`. Its definitions begin there.
#![tactic(auto)]

use std::io::IsTerminal;
use std::process::ExitCode;
use tasks::{StandardInput, run_warcdx};

fn main(rt: HostRuntime) -> ExitCode {
    let input = if rt.stdin().is_terminal() {
        StandardInput::Terminal
    } else {
        StandardInput::Other
    };
    ExitCode::from(run_warcdx(&rt, input))
}
