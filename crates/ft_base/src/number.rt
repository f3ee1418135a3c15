//! Numbers that name things. Each counts from 0 in the order of the script's lines, but for the
//! number of a call.

/// The number of a traceable function.
#[derive(Clone, Copy, Debug, PartialEq, Eq)]
pub struct FuncNo(pub u32);

/// The number of a user of the tracer (a `struct ftrace_ops` of the kernel).
#[derive(Clone, Copy, Debug, PartialEq, Eq)]
pub struct UserNo(pub u32);

/// The number of a CPU.
#[derive(Clone, Copy, PartialEq, Eq)]
pub struct CpuNo(pub u32);

/// The number of a task, over all CPUs. It is not the task's pid.
#[derive(Clone, Copy, Debug, PartialEq, Eq)]
pub struct TaskNo(pub u32);

/// A call of a traceable function: its task, and its number among that task's calls, from 1.
/// Calls that callbacks make are counted too.
#[derive(Clone, Copy, Debug, PartialEq, Eq)]
pub struct CallNo {
    pub task: TaskNo,
    pub n: u32,
}
