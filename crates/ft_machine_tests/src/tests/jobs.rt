//! The jobs of the tests, which are read from scripts.

use ft_base::FuncNo;
use ft_base::limits::INPUT_BYTES;
use ft_job::Job;
use ft_script::read_script;
use std::alloc::Global;
use std::test::Fail;

pub const D: FuncNo = FuncNo(3);

/// Four functions, a user that is registered twice and unregistered twice, and five CPUs: three whose
/// tasks make calls, one whose task has no acts, and one without a task. Control waits for the second
/// task before the first command, and for the first task before the last one; the first and the third
/// task wait for commands.
const BUSY: &str = "ftrace 1
func a
func b
func c m
func d
user t function
cpu 0 quantum 9
cpu 1 quantum 1
cpu 2 quantum 2
cpu 3 quantum 3
cpu 4 quantum 4
task 10 cpu 0
after 1
call a
call b
ret
ret
task 11 cpu 1
call b
ret
task 12 cpu 2
call c
call d
after 2
ret
ret
task 13 cpu 3
ctl until 11 2
ctl register t
ctl register t
ctl unregister t
ctl until 10 5
ctl unregister t
";

/// The job of a text; none if it is refused. The texts here are short enough.
fn read(alloc: Global, text: &str) -> Option<Job> {
    if text.len() > INPUT_BYTES as usize {
        return None;
    }
    read_script(alloc, text.as_bytes()).ok()
}

/// The job of a text that isn't refused.
pub fn job_of(alloc: Global, text: &str) -> Result<Job, Fail> {
    match read(alloc, text) {
        Some(job) => Ok(job),
        None => Err("refused")?,
    }
}

/// The busy job.
pub fn busy_job(alloc: Global) -> Result<Job, Fail> {
    job_of(alloc, BUSY)
}
