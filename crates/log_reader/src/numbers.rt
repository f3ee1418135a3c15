//! The numbers of a job's functions and users, found by name, and those of its tasks, found by pid.

ghost use Rattle.std.specs.Prelude.{◌≡◌, IfOk, OnOk};
ghost use Rattle.log_reader.specs.Lookups.{AreFunctions, AreUsers, AreTasks, ArePidsShort, AreLookupsOf};
ghost use Rattle.log_reader.specs.Found.{found_by_name, found_by_pid, lookups};

use ft_base::{FuncNo, NoMemory, TaskNo, UserNo};
use std::alloc::Global;
use std::collections::HashMap;
use trace_views::Named;

/// A job's numbers. Where two functions, users or tasks are named alike, one of them is found.
#[derive(Drop)]
pub(crate) struct Numbers<'a> {
    functions: HashMap<&'a str, FuncNo>,
    users: HashMap<&'a str, UserNo>,
    tasks: HashMap<u32, TaskNo>,
}

/// The functions of a job, by name.
fn functions_by_name<'a, N: Named>(
    alloc: Global,
    names: &'a N,
) -> Result<HashMap<&'a str, FuncNo>, NoMemory>
    ensures { IfOk result (λ m. AreFunctions (N.job names.entry.now) (found_by_name m)) }
{
    let mut found = HashMap::new(alloc);
    for n in 0..names.functions() {
        let function = FuncNo(n);
        if found.insert(names.function(function), function).is_err() {
            return Err(NoMemory);
        }
    }
    Ok(found)
}

/// The users of a job, by name.
fn users_by_name<'a, N: Named>(
    alloc: Global,
    names: &'a N,
) -> Result<HashMap<&'a str, UserNo>, NoMemory>
    ensures { IfOk result (λ m. AreUsers (N.job names.entry.now) (found_by_name m)) }
{
    let mut found = HashMap::new(alloc);
    for n in 0..names.users() {
        let user = UserNo(n);
        if found.insert(names.user(user), user).is_err() {
            return Err(NoMemory);
        }
    }
    Ok(found)
}

/// The tasks of a job, by pid.
fn tasks_by_pid<N: Named>(alloc: Global, names: &N) -> Result<HashMap<u32, TaskNo>, NoMemory>
    ensures found { IfOk result (λ m. AreTasks (N.job names.now) (found_by_pid m)) }
    ensures pids { OnOk result (ArePidsShort (N.job names.now)) }
{
    let mut found = HashMap::new(alloc);
    for n in 0..names.tasks() {
        let task = TaskNo(n);
        if found.insert(names.task(task).pid, task).is_err() {
            return Err(NoMemory);
        }
    }
    Ok(found)
}

impl<'a> Numbers<'a> {
    /// The numbers of a job.
    pub(crate) fn new<N: Named>(alloc: Global, names: &'a N) -> Result<Numbers<'a>, NoMemory>
        ensures { IfOk result (λ numbers. AreLookupsOf (N.job names.entry.now) (lookups numbers)) }
    {
        Ok(Numbers {
            functions: functions_by_name(alloc, names)?,
            users: users_by_name(alloc, names)?,
            tasks: tasks_by_pid(alloc, names)?,
        })
    }

    /// The function of a name.
    pub(crate) fn function(&self, name: &str) -> Option<FuncNo>
        ensures { result ≡ (lookups self.now).function name.now }
    {
        self.functions.get(name).copied()
    }

    /// The user of a name.
    pub(crate) fn user(&self, name: &str) -> Option<UserNo>
        ensures { result ≡ (lookups self.now).user name.now }
    {
        self.users.get(name).copied()
    }

    /// The task of a pid.
    pub(crate) fn task(&self, pid: u32) -> Option<TaskNo>
        ensures { result ≡ (lookups self.now).task pid }
    {
        self.tasks.get(&pid).copied()
    }
}
