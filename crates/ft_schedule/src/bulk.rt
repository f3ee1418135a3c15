//! The script that a number generates, a load for tests and measurements.

ghost use Rattle.std.specs.Prelude.{◌≡◌, ◌<◌, ◌≤◌, ◌++◌, length, IfOk, OnOk, string_bytes};
ghost use Rattle.ft_schedule.specs.Bulk.{next_state, drawn, several, function_line, function_lines, user_lines};
ghost use Rattle.ft_schedule.specs.Bulk.{cpu_part, group_part, task_part, command_of, command_part, bulk_text};

use ft_base::NoMemory;
use ft_base::limits::INPUT_BYTES;
use std::alloc::{AllocError, Global};
use std::fmt::Write;

/// The functions, over all modules.
const BULK_FUNCTIONS: u32 = 256;

/// The modules to which the functions belong in turn. The first of them is the kernel proper, which
/// has no name.
const BULK_MODULES: u32 = 4;

/// The users: one for each line that [`push_users`] adds.
const BULK_USERS: u32 = 6;

/// The CPUs.
const BULK_CPUS: u32 = 4;

/// The least quantum of a CPU.
const LEAST_QUANTUM: u32 = 5;

/// How many quanta there are to draw from: the least one, and those after it.
const QUANTA: u32 = 20;

/// The tasks, which go to the CPUs in turn.
const BULK_TASKS: u32 = 16;

/// The pid of the first task. The pids of the others follow it.
const FIRST_PID: u32 = 100;

/// The groups of calls that a task makes.
const BULK_GROUPS: u32 = 200;

/// The commands.
const BULK_COMMANDS: u32 = 100;

/// The numbers to draw a kind of command from. A user is registered by three of them.
const COMMAND_KINDS: u32 = 8;

/// The numbers to draw a filter text from. The text selects the functions whose own numbers begin
/// with the digits of the one that is drawn.
const PREFIXES: u32 = 26;

/// What a state of the generator is multiplied by for the next one.
const MULTIPLIER: u64 = 6_364_136_223_846_793_005;

/// What is added to the product.
const INCREMENT: u64 = 1_442_695_040_888_963_407;

/// The low bits of a state that a draw leaves out, since they repeat after few draws.
const LOW_BITS: u32 = 33;

/// Numbers that are drawn one after the other, the same ones from the same state on: the linear
/// congruential generator of 64 bits with Knuth's constants for MMIX.
#[derive(Drop)]
struct Draws {
    state: u64,
}

impl Draws {
    /// The next number below the bound.
    fn draw(&mut self, bound: u32) -> u32
        requires { 0 < bound }
        ensures value { result ≡ drawn bound self.new.state }
        ensures state { self.new.state ≡ next_state self.old.state }
    {
        self.state = self.state.wrapping_mul(MULTIPLIER).wrapping_add(INCREMENT);
        ((self.state >> LOW_BITS) % bound as u64) as u32
    }
}

/// Adds a function.
fn push_function(text: &mut String, function: u32) -> Result<(), AllocError>
    ensures { OnOk result (string_bytes text.new
        ≡ string_bytes text.old ++ function_line function) }
{
    let module = function % BULK_MODULES;
    if module == 0 {
        writeln!(text, "func f{function}")
    } else {
        writeln!(text, "func f{function} m{module}")
    }
}

/// Adds the functions.
fn push_functions(text: &mut String) -> Result<(), AllocError>
    ensures { OnOk result (string_bytes text.new
        ≡ string_bytes text.old ++ function_lines BULK_FUNCTIONS) }
{
    for function in 0..BULK_FUNCTIONS {
        push_function(text, function)?;
    }
    Ok(())
}

/// Adds the users, of all kinds.
fn push_users(text: &mut String) -> Result<(), AllocError>
    ensures { OnOk result (string_bytes text.new ≡ string_bytes text.old ++ user_lines) }
{
    text.push_str(
        "user u0 function\n\
         user u1 function pid\n\
         user u2 graph\n\
         user u3 fprobe exit\n\
         user u4 fprobe exit cancel\n\
         user u5 profile\n",
    )
}

/// Adds a CPU. Its quantum is drawn.
fn push_cpu(text: &mut String, draws: &mut Draws, cpu: u32) -> Result<(), AllocError>
    ensures text { OnOk result (string_bytes text.new
        ≡ string_bytes text.old ++ (cpu_part cpu draws.old.state).text) }
    ensures state { OnOk result (draws.new.state ≡ (cpu_part cpu draws.old.state).state) }
{
    let quantum = LEAST_QUANTUM + draws.draw(QUANTA);
    writeln!(text, "cpu {cpu} quantum {quantum}")
}

/// Adds the CPUs.
fn push_cpus(text: &mut String, draws: &mut Draws) -> Result<(), AllocError>
    ensures text { OnOk result (string_bytes text.new
        ≡ string_bytes text.old ++ (several cpu_part BULK_CPUS draws.old.state).text) }
    ensures state { OnOk result
        (draws.new.state ≡ (several cpu_part BULK_CPUS draws.old.state).state) }
{
    for cpu in 0..BULK_CPUS {
        push_cpu(text, draws, cpu)?;
    }
    Ok(())
}

/// Adds a call with two calls in it, one after the other. The three functions are drawn.
fn push_group(text: &mut String, draws: &mut Draws) -> Result<(), AllocError>
    ensures text { OnOk result (string_bytes text.new
        ≡ string_bytes text.old ++ (group_part draws.old.state).text) }
    ensures state { OnOk result (draws.new.state ≡ (group_part draws.old.state).state) }
{
    let outer = draws.draw(BULK_FUNCTIONS);
    let first = draws.draw(BULK_FUNCTIONS);
    let second = draws.draw(BULK_FUNCTIONS);
    write!(
        text,
        "call f{outer}\ncall f{first}\nret\ncall f{second}\nret\nret\n"
    )
}

/// Adds the groups of a task.
fn push_groups(text: &mut String, draws: &mut Draws) -> Result<(), AllocError>
    ensures text { OnOk result (string_bytes text.new
        ≡ string_bytes text.old ++ (several (λ _. group_part) BULK_GROUPS draws.old.state).text) }
    ensures state { OnOk result
        (draws.new.state ≡ (several (λ _. group_part) BULK_GROUPS draws.old.state).state) }
{
    for _group in 0..BULK_GROUPS {
        push_group(text, draws)?;
    }
    Ok(())
}

/// Adds a task and what it calls.
fn push_task(text: &mut String, draws: &mut Draws, task: u32) -> Result<(), AllocError>
    requires { task < BULK_TASKS }
    ensures text { OnOk result (string_bytes text.new
        ≡ string_bytes text.old ++ (task_part task draws.old.state).text) }
    ensures state { OnOk result (draws.new.state ≡ (task_part task draws.old.state).state) }
{
    let pid = FIRST_PID + task;
    let cpu = task % BULK_CPUS;
    writeln!(text, "task {pid} cpu {cpu}")?;
    push_groups(text, draws)
}

/// Adds the tasks.
fn push_tasks(text: &mut String, draws: &mut Draws) -> Result<(), AllocError>
    ensures text { OnOk result (string_bytes text.new
        ≡ string_bytes text.old ++ (several task_part BULK_TASKS draws.old.state).text) }
    ensures state { OnOk result
        (draws.new.state ≡ (several task_part BULK_TASKS draws.old.state).state) }
{
    for task in 0..BULK_TASKS {
        push_task(text, draws, task)?;
    }
    Ok(())
}

/// Adds a command of a kind. It names the user, or a task; a task or a filter text is drawn.
fn push_command_of(
    text: &mut String,
    draws: &mut Draws,
    kind: u32,
    user: u32,
) -> Result<(), AllocError>
    ensures text { OnOk result (string_bytes text.new
        ≡ string_bytes text.old ++ (command_of kind user draws.old.state).text) }
    ensures state { OnOk result
        (draws.new.state ≡ (command_of kind user draws.old.state).state) }
{
    match kind {
        0 | 1 | 2 => writeln!(text, "ctl register u{user}"),
        3 => writeln!(text, "ctl unregister u{user}"),
        4 => {
            let prefix = draws.draw(PREFIXES);
            writeln!(text, "ctl filter u{user} > f{prefix}*")
        }
        5 => {
            let prefix = draws.draw(PREFIXES);
            writeln!(text, "ctl notrace u{user} > f{prefix}*")
        }
        6 => writeln!(text, "ctl filter u{user} >"),
        _ => {
            let pid = FIRST_PID + draws.draw(BULK_TASKS);
            writeln!(text, "ctl pid {pid}")
        }
    }
}

/// Adds a command. Its kind is drawn first and then a user, also for a command that names none.
fn push_command(text: &mut String, draws: &mut Draws) -> Result<(), AllocError>
    ensures text { OnOk result (string_bytes text.new
        ≡ string_bytes text.old ++ (command_part draws.old.state).text) }
    ensures state { OnOk result (draws.new.state ≡ (command_part draws.old.state).state) }
{
    let kind = draws.draw(COMMAND_KINDS);
    let user = draws.draw(BULK_USERS);
    push_command_of(text, draws, kind, user)
}

/// Adds the commands.
fn push_commands(text: &mut String, draws: &mut Draws) -> Result<(), AllocError>
    ensures text { OnOk result (string_bytes text.new
        ≡ string_bytes text.old
        ++ (several (λ _. command_part) BULK_COMMANDS draws.old.state).text) }
{
    for _command in 0..BULK_COMMANDS {
        push_command(text, draws)?;
    }
    Ok(())
}

/// The script of a number, or the error of an allocation.
fn write_script(alloc: Global, n: u32) -> Result<String, AllocError>
    ensures { IfOk result (λ script. string_bytes script ≡ bulk_text n) }
{
    let mut text = String::from_str(alloc, "ftrace 1\n")?;
    let mut draws = Draws { state: n as u64 };
    push_functions(&mut text)?;
    push_users(&mut text)?;
    push_cpus(&mut text, &mut draws)?;
    push_tasks(&mut text, &mut draws)?;
    push_commands(&mut text, &mut draws)?;
    Ok(text)
}

/// The script that a number generates, the same one each time: a load for tests and measurements.
/// 16 tasks on four CPUs make 9,600 calls of 256 functions, and meanwhile control gives 100
/// commands, which register, unregister and filter six users of all kinds. The number decides which
/// functions are called, which commands are given and how long the quanta of the CPUs are.
///
/// The script is within the limit of scripts, [`INPUT_BYTES`].
///
/// `NoMemory` says that the program is out of memory.
pub fn bulk_script(alloc: Global, n: u32) -> Result<Vec<u8>, NoMemory>
    ensures text { IfOk result (λ script. script.items ≡ bulk_text n) }
    ensures short { IfOk result (λ script. length script.items ≤ INPUT_BYTES) }
{
    let script = write_script(alloc, n).map_err(|_| NoMemory)?;
    Ok(script.into_bytes())
}
