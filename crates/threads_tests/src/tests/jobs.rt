//! [`trace_rings::fold_rings`] of a replay. Its job has no trigger and rings of the usual length.

use super::is_ring;
use ft_base::limits::INPUT_BYTES;
use ft_job::Job;
use ft_machine::replay;
use ft_script::read_script;
use std::alloc::Global;
use std::test::Fail;
use trace_rings::fold_rings;

/// Two users, of whom one is of kind function, and one call.
const SCRIPT: &str = "ftrace 1
func a
user g graph
user t function
cpu 0 quantum 9
cpu 1 quantum 9
task 10 cpu 1
after 2
call a
ret
ctl register g
ctl register t
";

/// The job of a text; none if it is refused.
fn read(alloc: Global, text: &str) -> Option<Job> {
    if text.len() > INPUT_BYTES as usize {
        return None;
    }
    read_script(alloc, text.as_bytes()).ok()
}

#[test]
fn of_a_replay(rt: HostRuntime) -> Result<(), Fail> {
    let alloc = rt.alloc();
    let job = read(alloc, SCRIPT);
    assert!(rt; job.is_some());
    if let Some(job) = job {
        let history = replay(alloc, &job)?.history;
        let rings = fold_rings(alloc, &job, &history)?;
        // The function user's callback is the sixth item, and the graph user's the eighth.
        assert!(rt; is_ring(&rings, 0, 0, &[]) && is_ring(&rings, 1, 1, &[5]));
        assert!(rt; rings.triggers() == 0);
    }
    Ok(())
}
