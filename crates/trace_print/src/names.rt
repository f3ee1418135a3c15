//! A job's names, those of its modules among them, and the pid and the CPU of each task, found by number in constant time.

ghost use Rattle.std.specs.Prelude.{◌≡◌, ◌+◌, ◌*◌, ◌≤◌, get_or, length, IfOk};
ghost use Rattle.ft_base.specs.declared.limits.TheConstants.{ACTS};
ghost use Rattle.ft_base.specs.Job.{no_task};
ghost use Rattle.ft_base.specs.Versions.{levels};
ghost use Rattle.history_laws.specs.Bound.{calls_of};
ghost use Rattle.trace_print.specs.TaskNames.{name_at};
ghost use Rattle.word_machine.specs.Limits.{IsLimited};

use ft_base::limits::Limits;
use ft_base::{FuncNo, Kind, NoMemory, TaskNo, UserNo};
use ft_job::Job;
use module_table::ModuleNames;
use std::alloc::Global;
use std::marker::Model;
use trace_views::{Named, TaskName};

/// The names of a job's functions, modules and users, and its tasks by number. Contracts see the job. A job
/// keeps each task at its CPU, so that one would have to be looked for at each line.
#[derive(Drop)]
pub struct Names<'a> {
    job: &'a Job,
    modules: ModuleNames,
    tasks: Vec<TaskName>,
}

impl<'a> Model for Names<'a> {
    ghost use Rattle.ft_base.specs.Job.{Job as PlainJob};
    ghost use Rattle.func_table.specs.Modules.{modules_in};
    ghost use Rattle.trace_print.specs.TaskNames.{names_of};
    ghost use Rattle.std.specs.Prelude.{◌≡◌};

    ghost Value = { PlainJob };

    ghost view = { λ n. n.job.now };

    ghost invariant = { λ n. (n.modules ≡ modules_in n.job.now.functions) × (n.tasks.items ≡ names_of n.job.now) };
}

impl<'a> Names<'a> {
    /// The names of a job. The error says that memory ran out.
    pub fn new(alloc: Global, job: &'a Job) -> Result<Names<'a>, NoMemory>
        ensures { IfOk result (λ names. names ≡ job.entry.now) }
    {
        let modules = ModuleNames::new(alloc, job.table())?;
        let mut tasks = Vec::with_capacity(alloc, job.tasks() as usize).map_err(|_| NoMemory)?;
        for t in 0..job.tasks() {
            tasks.push_reserved(task_name(job, TaskNo(t)));
        }
        Ok(Names {
            job,
            modules,
            tasks,
        })
    }

    /// The job.
    pub fn job(&self) -> &Job
        ensures { result.now ≡ self.now }
    {
        self.job
    }
}

impl<'a> Named for Names<'a> {
    ghost job = { λ n. n };

    fn function(&self, function: FuncNo) -> &str {
        let table = self.job.table();
        if function.0 < table.len() {
            table.name(function)
        } else {
            ""
        }
    }

    fn module(&self, number: u32) -> &str {
        if number < self.modules.len() {
            self.modules.name(number)
        } else {
            ""
        }
    }

    fn user(&self, user: UserNo) -> &str {
        match self.job.specs().get(user.0 as usize) {
            Some(spec) => spec.name.as_str(),
            None => "",
        }
    }

    fn functions(&self) -> u32 {
        self.job.table().len()
    }

    fn kind(&self, user: UserNo) -> Kind {
        match self.job.specs().get(user.0 as usize) {
            Some(spec) => spec.kind,
            None => Kind::Function,
        }
    }

    fn task(&self, task: TaskNo) -> TaskName {
        match self.tasks.get(task.0 as usize) {
            Some(name) => *name,
            None => TaskName { pid: 0, cpu: 0 },
        }
    }

    fn lane(&self, command: u32) -> Option<u32> {
        if command == 0 {
            None
        } else {
            self.job.lanes().get(command as usize - 1).copied()
        }
    }

    fn users(&self) -> u32 {
        self.job.users()
    }

    fn tasks(&self) -> u32 {
        self.job.tasks()
    }

    fn deepest(&self, task: TaskNo) -> u32 {
        let limits = Limits::of(self.job.version());
        acts_of(self.job, task) + 2 * u32::from(limits.levels)
    }
}

/// How many acts the script of a task of the job has, none if the job doesn't have the task. Of these
/// no more can be calls.
fn acts_of(job: &Job, task: TaskNo) -> u32
    ensures calls { calls_of job.now task.0 ≤ result }
    ensures acts { result ≡ length (get_or job.now.tasks task.0 no_task).acts }
    ensures few { result ≤ ACTS }
{
    // A job that tells its shape is within the limits of scripts.
    if task.0 >= job.shape().tasks {
        return 0;
    }
    match job.acts(task) {
        Some(acts) => acts.len() as u32,
        None => 0,
    }
}

/// The pid and the CPU of a task of the job.
fn task_name(job: &Job, task: TaskNo) -> TaskName
    ensures { result ≡ name_at job.now task.0 }
{
    TaskName {
        pid: job.pid(task).unwrap_or(0),
        cpu: match job.cpu(task) {
            Some(cpu) => cpu.0,
            None => 0,
        },
    }
}
