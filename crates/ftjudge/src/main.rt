//! The program `ftjudge`: judges a log over standard input and output.
//!
//! Proved, in [`judge_app::run_program`]: with each status the program has read and written what is said
//! of it there, and nothing else. Only tried on the built program: that there is a word if it was started
//! with one, and that the status is its exit status.
#![tactic(auto)]

use ft_io::{StdSink, StdSource};
use judge_app::run_program;
use std::process::ExitCode;

fn main(rt: HostRuntime) -> ExitCode {
    let mut source = StdSource::new(rt.stdin());
    let mut sink = StdSink::new(rt.stdout());
    ExitCode::from(run_program(&rt, &mut source, &mut sink))
}
