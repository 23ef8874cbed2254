//! `warcdx-gz`: all of `warcdx` over archives that may be compressed.
//!
//! The program is `run_warcdx_gz` of `tasks`. Its definitions begin there.
#![tactic(auto)]

use std::io::IsTerminal;
use std::process::ExitCode;
use tasks::{StandardInput, run_warcdx_gz};

fn main(rt: HostRuntime) -> ExitCode {
    let input = if rt.stdin().is_terminal() {
        StandardInput::Terminal
    } else {
        StandardInput::Other
    };
    ExitCode::from(run_warcdx_gz(&rt, input))
}
