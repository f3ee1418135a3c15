//! The program `ftcore`: the top call over standard input and output.
//!
//! Proved, in [`ft_app::run_program`]: with each status the program has read and written what the top
//! call says of it, and nothing else. With running threads it may wait, and then it has no status. Only
//! tried on the built program: that its arguments are the words, and that the status is its exit
//! status.
#![tactic(auto)]

use ft_app::run_program;
use ft_io::{StdSink, StdSource};
use std::process::ExitCode;

fn main(rt: HostRuntime) -> ExitCode {
    let mut source = StdSource::new(rt.stdin());
    let mut sink = StdSink::new(rt.stdout());
    ExitCode::from(run_program(&rt, &mut source, &mut sink))
}
