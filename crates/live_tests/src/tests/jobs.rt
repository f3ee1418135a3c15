//! The jobs of the tests, which are read from scripts.

use ft_base::limits;
use ft_base::limits::INPUT_BYTES;
use ft_job::Job;
use ft_script::read_script;
use std::alloc::{AllocError, Global};
use std::test::Fail;

/// Commands that change call sites, and no CPU.
pub const COMMANDS: &str = "ftrace 1
func a
func b
user t function
user gr graph
ctl register t
ctl filter gr > b
ctl register gr
ctl unregister t
";

/// Two CPUs with a task of three calls each, and control registers one user.
pub const THREE_AT_ONCE: &str = "ftrace 1
func a
user t function
cpu 0 quantum 100
cpu 1 quantum 100
task 10 cpu 0
call a
ret
call a
ret
call a
ret
task 11 cpu 1
call a
ret
call a
ret
call a
ret
ctl register t
";

/// Two CPUs, one with a task of three calls and one with two of them, and no command.
pub const CALLS: &str = "ftrace 1
func a
user t function
cpu 0 quantum 100
cpu 1 quantum 100
task 10 cpu 0
call a
ret
call a
ret
call a
ret
task 11 cpu 1
call a
ret
call a
ret
call a
ret
task 12 cpu 1
call a
ret
call a
ret
call a
ret
";

/// Two users of which one is registered and unregistered by one lane, and the other registered by
/// another. There is no CPU.
pub const LANES: &str = "ftrace 1
func a
user t function
user s function
lane 0
ctl register t
ctl unregister t
lane 1
ctl register s
";

/// The same, and a call on each of two CPUs. One of them waits until two commands have returned.
pub const LANES_AND_CALLS: &str = "ftrace 1
func a
user t function
user s function
cpu 0 quantum 100
cpu 1 quantum 100
task 10 cpu 0
after 2
call a
ret
task 11 cpu 1
call a
ret
lane 0
ctl register t
ctl unregister t
lane 1
ctl register s
";

/// The job of a text; none if it is refused. The texts here are short enough.
fn read(alloc: Global, text: &str) -> Option<Job> {
    if text.len() > INPUT_BYTES as usize {
        return None;
    }
    read_script(alloc, text.as_bytes()).ok()
}

/// The job of a text that isn't refused.
pub fn job_of(alloc: Global, text: &str) -> Result<Job, Fail> {
    match read(alloc, text) {
        Some(job) => Ok(job),
        None => Err("refused")?,
    }
}

/// These two commands again and again: half of all that there may be.
fn add_pairs(text: &mut String, pair: &str) -> Result<(), AllocError> {
    for _ in 0..limits::COMMANDS / 4 {
        text.push_str(pair)?;
    }
    Ok(())
}

/// Two lanes that each register and unregister a user of their own, again and again: as many commands
/// as there may be.
fn two_full_lanes(alloc: Global) -> Result<String, AllocError> {
    let mut text = String::new(alloc);
    text.push_str("ftrace 1\nfunc a\nuser t function\nuser s function\nlane 0\n")?;
    add_pairs(&mut text, "ctl register t\nctl unregister t\n")?;
    text.push_str("lane 1\n")?;
    add_pairs(&mut text, "ctl register s\nctl unregister s\n")?;
    Ok(text)
}

/// The job of as many commands as there may be, in two lanes.
pub fn lanes_with_most_commands(alloc: Global) -> Result<Job, Fail> {
    let text = two_full_lanes(alloc)?;
    job_of(alloc, text.as_str())
}
