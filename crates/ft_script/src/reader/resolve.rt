//! What a line declares, or the first cause for which it is refused.

ghost use Rattle.std.specs.Prelude.{◌≡◌, ℕ, option_map, Ok, IfOk, IfErr};
ghost use Rattle.ft_desk.specs.Commands.{command_of};
ghost use Rattle.script_form.specs.Read.{form_read};
ghost use Rattle.ft_script.specs.Causes.{a_command, first_line};
ghost use Rattle.ft_script.specs.Script.{IsRefused};
ghost use Rattle.ft_script.specs.ReaderInvariant.{declaration_of, resolved_of};

use crate::declaration::{Declaration, Resolved, ScriptCtl};
use crate::faults::Cause;
use crate::form::rank_of;
use crate::reader::Reader;
use crate::reader::find::{pid_mask, task_number, user_number};
use filter_commands::{EditFault, Trigger, TriggerFault, read_edit, read_trigger};
use ft_base::limits::{TASKS, USERS};
use ft_base::{Act, FuncNo, Half, TaskAct, TaskNo, Turn, UserNo};
use ft_job::Command;
use ft_schedule::{SchedItem, has_unknown, push_turns, steps_with};
use module_table::ModLine;
use script_form::{LineForm, UserAct, UserLine};
use site_set::Edit;
use std::alloc::Global;
use user_specs::Spec;

/// A line of control that is a command.
fn command<'a>(command: Command) -> Declaration<'a>
    ensures { (tasks : ℕ) → declaration_of tasks result ≡ a_command (command_of tasks command) }
{
    Declaration::Ctl(ScriptCtl::Run(ModLine::Plain(command)))
}

/// Line 1, which says the version.
fn first_line<'a>(form: &Option<LineForm<'a>>) -> Result<Resolved<'a>, Cause>
    ensures ok { IfOk result (λ line. (tasks : ℕ) → first_line (option_map form_read form.now) ≡ Ok (resolved_of tasks line)) }
    ensures err { IfErr result (IsRefused (first_line (option_map form_read form.now))) }
{
    match form {
        Some(LineForm::Version { number }) => Ok(Resolved {
            rank: 0,
            what: Declaration::Version(*number),
        }),
        _ => Err(Cause::Version),
    }
}

impl Reader {
    ghost use Rattle.std.specs.Prelude.{◌≡◌, ◌≤◌, ◌<◌, ◌^◌, false, length, option_map, Some, Ok, IfOk, IfErr, IfSome};
    ghost use Rattle.std.specs.Option.{option_copied};
    ghost use Rattle.ft_desk.specs.Commands.{command_of};
    ghost use Rattle.script_form.specs.Read.{form_read, act_read, user_read};
    ghost use Rattle.script_text.specs.Lines.{lines_of};
    ghost use Rattle.site_set.specs.Edits.{plain_edit};
    ghost use Rattle.filter_commands.specs.Meanings.{plain_trigger};
    ghost use Rattle.user_specs.specs.Plain.{spec_of};
    ghost use Rattle.ft_script.specs.Above.{more_turns};
    ghost use Rattle.ft_script.specs.Causes.{is_past_limit, made, function_in, function_or_none, module_named, module_in, user_in, task_in, cpu_in, act_in, spec_in, edit_in, trigger_in, write_with, pids_in, turns_in, named, resolved, resolved_line};
    ghost use Rattle.ft_script.specs.Script.{IsRefused};
    ghost use Rattle.ft_script.specs.Within.{IsWithinLimits};
    ghost use Rattle.func_table.specs.Modules.{modules_in};
    ghost use Rattle.ft_script.specs.ReaderInvariant.{above_of, declaration_of, resolved_of, ReaderInvariant, HasNames};

    // ## what a line names

    fn function(&self, name: &str) -> Result<FuncNo, Cause>
        ensures { result ≡ function_in (above_of self.now) name.now }
    {
        match self.functions.find(name) {
            Some(number) => Ok(number),
            None => Err(Cause::Unknown),
        }
    }

    /// The number of the function that is named, if one is.
    fn function_or_none(&self, name: Option<&str>) -> Result<Option<FuncNo>, Cause>
        ensures { result ≡ function_or_none (above_of self.now) (option_copied name.entry) }
    {
        match name {
            None => Ok(None),
            Some(name) => Ok(Some(self.function(name)?)),
        }
    }

    /// The number of the module of this name, if there is one.
    pub fn module_number(&self, name: &str) -> Option<u32>
        requires { self.now.names ≡ Some (modules_in self.now.functions.functions) }
        ensures { result ≡ module_named (above_of self.now) name.now }
    {
        match &self.names {
            Some(names) => names.find(name),
            None => None,
        }
    }

    fn module(&self, name: &str) -> Result<u32, Cause>
        requires { self.now.names ≡ Some (modules_in self.now.functions.functions) }
        ensures { result ≡ module_in (above_of self.now) name.now }
    {
        match self.module_number(name) {
            Some(number) => Ok(number),
            None => Err(Cause::Unknown),
        }
    }

    fn user(&self, name: &str) -> Result<UserNo, Cause>
        requires { length self.now.users.items ≤ USERS }
        ensures { made (λ u. u.0) result ≡ user_in (above_of self.now) name.now }
    {
        match user_number(self.users.as_slice(), name) {
            Some(number) => Ok(UserNo(number as u32)),
            None => Err(Cause::Unknown),
        }
    }

    fn task(&self, pid: u64) -> Result<TaskNo, Cause>
        requires { length self.now.tasks.items ≤ TASKS }
        ensures { made (λ t. t.0) result ≡ task_in (above_of self.now) pid }
    {
        match task_number(self.tasks.as_slice(), pid) {
            Some(number) => Ok(TaskNo(number as u32)),
            None => Err(Cause::Unknown),
        }
    }

    fn cpu(&self, cpu: u64) -> Result<u32, Cause>
        requires { cpu < 2 ^ 32 }
        ensures { result ≡ cpu_in (above_of self.now) cpu }
    {
        if self.quanta.len() as u64 <= cpu {
            return Err(Cause::Unknown);
        }
        Ok(cpu as u32)
    }

    // ## what a line is about

    /// What a user does at its callbacks.
    fn own_act(&self, act: Option<UserAct>) -> Result<Option<Act>, Cause>
        ensures { result ≡ act_in (above_of self.now) (option_map act_read act.entry) }
    {
        match act {
            None => Ok(None),
            Some(UserAct::Call { function }) => Ok(Some(Act::CallIn(self.function(function)?))),
            Some(UserAct::Irq { function }) => Ok(Some(Act::IrqIn(self.function(function)?))),
        }
    }

    fn spec(&self, alloc: Global, line: &UserLine) -> Result<Spec, Cause>
        ensures ok { IfOk result (λ spec. spec_in (above_of self.now) (user_read line.now) ≡ Ok (spec_of spec)) }
        ensures err { IfErr result (IsRefused (spec_in (above_of self.now) (user_read line.now))) }
    {
        let ipmodify = self.function_or_none(line.ipmodify)?;
        let act = self.own_act(line.act)?;
        let name = String::from_str(alloc, line.name)?;
        Ok(Spec {
            name,
            kind: line.kind,
            regs: line.regs,
            ipmodify,
            pid: line.pid,
            act,
        })
    }

    /// The edit of a filter text.
    fn edit(&self, alloc: Global, append: bool, text: &str) -> Result<Edit, Cause>
        ensures ok { IfOk result (λ edit. edit_in (above_of self.now) append text.now ≡ Ok (plain_edit edit)) }
        ensures err { IfErr result (IsRefused (edit_in (above_of self.now) append text.now)) }
    {
        match read_edit(alloc, text, append, &self.functions) {
            Ok(edit) => Ok(edit),
            Err(EditFault::NoMemory) => Err(Cause::NoMemory),
            Err(_) => Err(Cause::Pattern),
        }
    }

    /// The trigger of a text.
    fn trigger(&self, alloc: Global, text: &str) -> Result<Trigger, Cause>
        ensures ok { IfOk result (λ trigger. trigger_in (above_of self.now) text.now ≡ Ok (plain_trigger trigger)) }
        ensures err { IfErr result (IsRefused (trigger_in (above_of self.now) text.now)) }
    {
        match read_trigger(alloc, text, &self.functions) {
            Ok(trigger) => Ok(trigger),
            Err(TriggerFault::NoMemory) => Err(Cause::NoMemory),
            Err(TriggerFault::Command | TriggerFault::Pattern) => Err(Cause::Pattern),
        }
    }

    /// A write to one of a user's two sets.
    fn write(
        &self,
        alloc: Global,
        half: Half,
        append: bool,
        user: &str,
        text: &str,
    ) -> Result<Command, Cause>
        requires { length self.now.users.items ≤ USERS }
        ensures ok { IfOk result (λ command. write_with half (user_in (above_of self.now) user.now) (edit_in (above_of self.now) append text.now) ≡ Ok (command_of (length self.now.tasks.items) command)) }
        ensures err { IfErr result (IsRefused (write_with half (user_in (above_of self.now) user.now) (edit_in (above_of self.now) append text.now))) }
    {
        let user = self.user(user)?;
        let edit = self.edit(alloc, append, text)?;
        Ok(match half {
            Half::Filter => Command::Filter(user, edit),
            Half::Notrace => Command::Notrace(user, edit),
        })
    }

    /// Only the tasks of these pids are traced, or if `excluded` all others.
    fn pids(&self, excluded: bool, list: &[u64]) -> Result<Command, Cause>
        requires { length self.now.tasks.items ≤ TASKS }
        ensures { made (command_of (length self.now.tasks.items)) result ≡ pids_in (above_of self.now) excluded list.now }
    {
        if self.lacks_pid(list) {
            return Err(Cause::Unknown);
        }
        let mask = pid_mask(self.tasks.as_slice(), list);
        Ok(if excluded {
            Command::NoPid(mask)
        } else {
            Command::Pid(mask)
        })
    }

    /// The turns of the items, and how many steps the schedule has with them.
    fn turns(&self, alloc: Global, items: &[SchedItem]) -> Result<(Vec<Turn>, u32), Cause>
        requires { IsWithinLimits (above_of self.now) }
        ensures ok { IfOk result (λ r. turns_in (above_of self.now) items.now ≡ Ok (more_turns r.0.items r.1)) }
        ensures err { IfErr result (IsRefused (turns_in (above_of self.now) items.now)) }
    {
        let cpus = self.quanta.len() as u32;
        let Some(steps) = steps_with(self.steps, items, cpus) else {
            return Err(Cause::Limit);
        };
        if has_unknown(items, cpus) {
            return Err(Cause::Unknown);
        }
        let mut turns = Vec::new(alloc);
        push_turns(&mut turns, items)?;
        Ok((turns, steps))
    }

    // ## what a line declares

    /// What a line of this form declares: what it names is looked up, and its filter or trigger text
    /// is read.
    fn named<'a>(&self, alloc: Global, form: &LineForm<'a>) -> Result<Declaration<'a>, Cause>
        requires within { IsWithinLimits (above_of self.now) }
        requires limit { is_past_limit (above_of self.now) (form_read form.now) ≡ false }
        requires names { HasNames self.now (form_read form.now) }
        ensures ok { IfOk result (λ what. named (above_of self.now) (form_read form.now) ≡ Ok (declaration_of (length self.now.tasks.items) what)) }
        ensures err { IfErr result (IsRefused (named (above_of self.now) (form_read form.now))) }
    {
        Ok(match form {
            LineForm::Skip => Declaration::Nothing,
            LineForm::Version { number } => Declaration::Version(*number),
            LineForm::Func { name, owner } => Declaration::Function {
                name: *name,
                owner: *owner,
            },
            LineForm::Depth { frames } => Declaration::Frames(*frames as u32),
            LineForm::Tramps { slots } => Declaration::Slots(*slots as u32),
            LineForm::Absent { owner } => Declaration::Absence(self.module(owner)?),
            LineForm::Ring { entries } => Declaration::Entries(*entries as u32),
            LineForm::TracingOff => Declaration::NoTracing,
            LineForm::Trigger { text } => Declaration::Trigger(self.trigger(alloc, text)?),
            LineForm::User(line) => Declaration::User(self.spec(alloc, line)?),
            LineForm::NewCpu { quantum, .. } => Declaration::Cpu {
                quantum: *quantum as u32,
            },
            LineForm::NewTask { pid, cpu } => Declaration::Task {
                pid: *pid as u32,
                cpu: self.cpu(*cpu)?,
            },
            LineForm::NewLane { .. } => Declaration::Lane,
            LineForm::Call { function } => {
                Declaration::Act(TaskAct::Call(self.function(function)?))
            }
            LineForm::Ret => Declaration::Act(TaskAct::Ret),
            LineForm::Raise { to } => Declaration::Act(TaskAct::Raise(*to)),
            LineForm::Lower => Declaration::Act(TaskAct::Lower),
            LineForm::After { commands } => Declaration::Act(TaskAct::After(*commands as u32)),
            LineForm::Register { user } => command(Command::Register(self.user(user)?)),
            LineForm::Unregister { user } => command(Command::Unregister(self.user(user)?)),
            LineForm::Write {
                half,
                append,
                user,
                text,
            } => command(self.write(alloc, *half, *append, user, text)?),
            LineForm::Pids { excluded, pids } => command(self.pids(*excluded, pids)?),
            LineForm::Enable { user } => command(Command::Enable(self.user(user)?)),
            LineForm::Disable { user } => command(Command::Disable(self.user(user)?)),
            LineForm::MaxDepth { depth } => command(Command::MaxDepth(*depth as u32)),
            LineForm::Until { pid, acts } => Declaration::Ctl(ScriptCtl::Until {
                task: self.task(*pid)?,
                acts: *acts as u32,
            }),
            LineForm::Load { owner } => {
                Declaration::Ctl(ScriptCtl::Run(ModLine::Load(self.module(owner)?)))
            }
            LineForm::Unload { owner } => {
                Declaration::Ctl(ScriptCtl::Run(ModLine::Unload(self.module(owner)?)))
            }
            LineForm::Sched { items } => {
                let (turns, steps) = self.turns(alloc, items)?;
                Declaration::Turns { turns, steps }
            }
        })
    }

    /// What a line of this form that isn't line 1 declares, or its first cause; `below` is the text
    /// below it.
    fn resolve<'a>(
        &self,
        alloc: Global,
        form: &LineForm<'a>,
        below: &[u8],
    ) -> Result<Resolved<'a>, Cause>
        requires within { IsWithinLimits (above_of self.now) }
        requires kept { ReaderInvariant self.now }
        requires names { HasNames self.now (form_read form.now) }
        ensures ok { IfOk result (λ line. resolved (above_of self.now) (form_read form.now) (lines_of below.now) ≡ Ok (resolved_of (length self.now.tasks.items) line)) }
        ensures err { IfErr result (IsRefused (resolved (above_of self.now) (form_read form.now) (lines_of below.now))) }
    {
        if self.is_misplaced(form) {
            return Err(Cause::Syntax);
        }
        if self.is_past_limit(form) {
            return Err(Cause::Limit);
        }
        if self.is_duplicate(form) {
            return Err(Cause::Duplicate);
        }
        let what = self.named(alloc, form)?;
        if self.is_unbalanced(alloc, &what, below)? {
            return Err(Cause::Unbalanced);
        }
        Ok(Resolved {
            rank: rank_of(form, self.rank),
            what,
        })
    }

    /// What a line declares, or its first cause. `ended` says whether a line feed ends it, and `below`
    /// is the text below it.
    pub fn resolve_line<'a>(
        &self,
        alloc: Global,
        form: &Option<LineForm<'a>>,
        ended: bool,
        below: &[u8],
    ) -> Result<Resolved<'a>, Cause>
        requires within { IsWithinLimits (above_of self.now) }
        requires kept { ReaderInvariant self.now }
        requires names { IfSome form.now (λ form. HasNames self.now (form_read form)) }
        ensures ok { IfOk result (λ line. resolved_line (above_of self.now) ended (option_map form_read form.now) (lines_of below.now) ≡ Ok (resolved_of (length self.now.tasks.items) line)) }
        ensures err { IfErr result (IsRefused (resolved_line (above_of self.now) ended (option_map form_read form.now) (lines_of below.now))) }
    {
        if !ended {
            return Err(Cause::Syntax);
        }
        if self.lines == 0 {
            return first_line(form);
        }
        match form {
            None => Err(Cause::Syntax),
            Some(form) => self.resolve(alloc, form, below),
        }
    }
}
