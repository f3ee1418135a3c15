//! What a line that isn't refused adds to what is declared.

ghost use Rattle.std.specs.Prelude.{◌≡◌, map, length, OnOk};
ghost use Rattle.script_waits.specs.Tasks.{lined_task};
ghost use Rattle.ft_script.specs.Above.{push_act};

use crate::declaration::{Declaration, Resolved, ScriptCtl};
use crate::expansion::Expansion;
use crate::faults::Cause;
use crate::levels::Levels;
use crate::reader::parts::slots;
use crate::reader::{LinedCtl, Reader};
use filter_commands::Trigger;
use ft_base::limits::{COMMANDS, FUNCS};
use ft_base::{TaskAct, Turn};
use script_waits::{LinedAct, LinedTask};
use std::alloc::{AllocError, Global};
use user_specs::Spec;
use word_map::Shape;

/// Adds an act to the last task.
fn push_act(tasks: &mut Vec<LinedTask>, act: LinedAct) -> Result<(), AllocError>
    ensures pushed { OnOk result (map lined_task tasks.new.items ≡ push_act (map lined_task tasks.old.items) act) }
    ensures count { OnOk result (length tasks.new.items ≡ length tasks.old.items) }
{
    let count = tasks.len();
    if count == 0 {
        return Ok(());
    }
    tasks[count - 1].acts.push(act)?;
    Ok(())
}

impl Reader {
    ghost use Rattle.std.specs.Prelude.{◌<◌, ◌≤◌, ◌⊎◌, [], true, false, is_some, Ok, None, IfErr, IfSome};
    ghost use Rattle.ft_base.specs.declared.limits.TheConstants.{COMMANDS};
    ghost use Rattle.std.specs.Option.{option_copied};
    ghost use Rattle.ft_base.specs.Name.{is_name_text};
    ghost use Rattle.func_table.specs.Rows.{is_name_or_none};
    ghost use Rattle.user_specs.specs.Plain.{spec_of};
    ghost use Rattle.filter_commands.specs.Meanings.{plain_trigger};
    ghost use Rattle.ft_script.specs.declared.faults.Cause.TheVariants.{Limit, NoMemory};
    ghost use Rattle.ft_script.specs.Above.{declared, slots_of, with_what, with_user, with_act, with_ctl, lanes_with, a_function, an_absence, a_trigger, a_cpu, a_task, a_ctl, more_turns};
    ghost use Rattle.ft_script.specs.Expansion.{expanded, expansion_of, command_count};
    ghost use Rattle.ft_script.specs.Causes.{function_names, is_among, has_too_many_commands, carried_out};
    ghost use Rattle.ft_script.specs.Script.{IsRefused};
    ghost use Rattle.ft_script.specs.Within.{IsWithinLimits, IsSmall};
    ghost use Rattle.ft_script.specs.Holds.{IsLine};
    ghost use Rattle.ft_script.specs.LineConditions.{Fits, FitsAs};
    ghost use Rattle.ft_script.specs.ReaderInvariant.{above_of, script_ctl_of, expansion_in, declaration_of, resolved_of, names_with, IsOther, KeepsRest, ReaderInvariant, IsOpen};

    fn add_function(
        &mut self,
        alloc: Global,
        name: &str,
        owner: Option<&str>,
    ) -> Result<(), AllocError>
        requires name { is_name_text name.now ≡ true }
        requires owner { is_name_or_none (option_copied owner) ≡ true }
        requires new { is_among (function_names (above_of self.old)) name.now ≡ false }
        requires room { length self.old.functions.functions < FUNCS }
        ensures above { OnOk result (above_of self.new ≡ with_what (above_of self.old) (a_function (record { name = name.now; owner = option_copied owner.entry }))) }
        ensures names { OnOk result (self.new.names ≡ None) }
        ensures expansion { OnOk result (self.new.expansion ≡ self.old.expansion) }
    {
        // The names of modules aren't those of the functions any more.
        self.names = None;
        // The name is new, and there is room.
        self.functions
            .add(alloc, name, owner)
            .map_err(|_| AllocError)?;
        Ok(())
    }

    fn add_user(&mut self, spec: Spec) -> Result<(), AllocError>
        requires { IsSmall (above_of self.old) }
        ensures above { OnOk result (above_of self.new ≡ with_user (above_of self.old) (spec_of spec)) }
        ensures rest { OnOk result (KeepsRest self.old self.new) }
    {
        self.users.push(spec)?;
        self.user_lines.push(self.lines + 1)?;
        Ok(())
    }

    fn add_absence(&mut self, owner: u32) -> Result<(), AllocError>
        ensures above { OnOk result (above_of self.new ≡ with_what (above_of self.old) (an_absence owner)) }
        ensures rest { OnOk result (KeepsRest self.old self.new) }
    {
        self.absent.push(owner)?;
        Ok(())
    }

    fn add_trigger(&mut self, trigger: Trigger) -> Result<(), AllocError>
        ensures above { OnOk result (above_of self.new ≡ with_what (above_of self.old) (a_trigger (plain_trigger trigger))) }
        ensures rest { OnOk result (KeepsRest self.old self.new) }
    {
        self.triggers.push(trigger)?;
        Ok(())
    }

    fn add_cpu(&mut self, quantum: u32) -> Result<(), AllocError>
        ensures above { OnOk result (above_of self.new ≡ with_what (above_of self.old) (a_cpu quantum)) }
        ensures rest { OnOk result (KeepsRest self.old self.new) }
    {
        self.quanta.push(quantum)?;
        Ok(())
    }

    fn add_task(&mut self, alloc: Global, pid: u32, cpu: u32) -> Result<(), AllocError>
        requires { (above_of self.old).ctls ≡ [] }
        ensures above { OnOk result (above_of self.new ≡ with_what (above_of self.old) (a_task pid cpu)) }
        ensures rest { OnOk result (KeepsRest self.old self.new) }
    {
        self.tasks.push(LinedTask {
            pid,
            cpu,
            acts: Vec::new(alloc),
        })?;
        self.levels = Levels::GROUND;
        Ok(())
    }

    fn add_act(&mut self, act: TaskAct) -> Result<(), AllocError>
        requires { IsSmall (above_of self.old) }
        ensures above { OnOk result (above_of self.new ≡ with_act (above_of self.old) act) }
        ensures rest { OnOk result (KeepsRest self.old self.new) }
    {
        let levels = self.levels.after(act);
        let line = self.lines + 1;
        push_act(&mut self.tasks, LinedAct { act, line })?;
        self.levels = levels;
        self.acts += 1;
        if let TaskAct::Call(_) = act {
            self.calls += 1;
        }
        Ok(())
    }

    /// Puts one more line of control into the last lane, if there is one.
    fn put_in_lane(&mut self) -> Result<(), AllocError>
        ensures above { OnOk result (above_of self.new ≡ record (above_of self.old) { lanes = lanes_with self.old.lane_count self.old.lanes.items }) }
        ensures rest { OnOk result (KeepsRest self.old self.new) }
    {
        if self.lane_count > 0 {
            self.lanes.push(self.lane_count - 1)?;
        }
        Ok(())
    }

    /// How many there are of each thing that has words in the machine.
    fn shape(&self) -> Shape
        requires { IsWithinLimits (above_of self.now) }
        ensures { result ≡ record {
          funcs = length self.now.functions.functions;
          users = length self.now.users.items;
          cpus = length self.now.quanta.items;
          tasks = length self.now.tasks.items;
          tramps = slots_of (above_of self.now);
        } }
    {
        Shape {
            funcs: self.functions.len(),
            users: self.users.len() as u32,
            cpus: self.quanta.len() as u32,
            tasks: self.tasks.len() as u32,
            tramps: slots(self.version, self.tramps),
        }
    }

    /// Control opens: from here on there is what its lines come to, if they have no lanes.
    pub fn open(&mut self, alloc: Global) -> Result<(), AllocError>
        requires within { IsWithinLimits (above_of self.old) }
        requires kept { ReaderInvariant self.old }
        ensures above { OnOk result (above_of self.new ≡ above_of self.old) }
        ensures names { OnOk result (self.new.names ≡ self.old.names) }
        ensures open { OnOk result (IsOpen self.new) }
    {
        if self.lane_count > 0 || self.expansion.is_some() {
            return Ok(());
        }
        let shape = self.shape();
        let expansion = Expansion::new(
            alloc,
            &self.functions,
            self.users.as_slice(),
            shape,
            self.absent.as_slice(),
        )?;
        self.expansion = Some(expansion);
        Ok(())
    }

    /// Adds what a line of control comes to, if it has no lane.
    fn expand(&mut self, alloc: Global, ctl: &ScriptCtl) -> Result<(), AllocError>
        requires small { IsSmall (above_of self.old) }
        requires line { IsLine (above_of self.old) (script_ctl_of (length self.old.tasks.items) ctl.now) }
        requires kept { ReaderInvariant self.old }
        ensures above { OnOk result (above_of self.new ≡ above_of self.old) }
        ensures names { OnOk result (self.new.names ≡ self.old.names) }
        ensures expansion { OnOk result (IfSome self.new.expansion (λ x. (self.old.lane_count ≡ 0) × (expansion_in (length self.old.tasks.items) x
            ≡ expanded (expansion_of (above_of self.old)) (script_ctl_of (length self.old.tasks.items) ctl.now)))) }
        ensures open { OnOk result (self.old.lane_count ≡ 0 → is_some self.new.expansion ≡ true) }
    {
        self.open(alloc)?;
        match &mut self.expansion {
            Some(expansion) => expansion.add(alloc, ctl),
            None => Ok(()),
        }
    }

    /// Adds a line to those of control, in the last lane if there is one.
    fn push_ctl(&mut self, ctl: ScriptCtl) -> Result<(), AllocError>
        requires { IsSmall (above_of self.old) }
        ensures above { OnOk result (above_of self.new ≡ with_ctl (above_of self.old) (script_ctl_of (length self.old.tasks.items) ctl)) }
        ensures rest { OnOk result (KeepsRest self.old self.new) }
    {
        let line = self.lines + 1;
        if let ScriptCtl::Until { .. } = &ctl {
            self.waits += 1;
        }
        self.ctls.push(LinedCtl { ctl, line })?;
        self.put_in_lane()
    }

    /// Adds a line of control, and what it comes to.
    fn add_ctl(&mut self, alloc: Global, ctl: ScriptCtl) -> Result<(), Cause>
        requires small { IsSmall (above_of self.old) }
        requires fits { FitsAs (above_of self.old) (a_ctl (script_ctl_of (length self.old.tasks.items) ctl)) }
        requires kept { ReaderInvariant self.old }
        ensures ok { OnOk result (above_of self.new ≡ with_ctl (above_of self.old) (script_ctl_of (length self.old.tasks.items) ctl)) }
        ensures few { OnOk result (has_too_many_commands (above_of self.old) (a_ctl (script_ctl_of (length self.old.tasks.items) ctl)) ≡ false) }
        ensures kept { OnOk result (ReaderInvariant self.new) }
        ensures err { IfErr result (λ cause. (cause ≡ NoMemory) ⊎ ((cause ≡ Limit)
            × (COMMANDS < command_count (with_ctl (above_of self.old) (script_ctl_of (length self.old.tasks.items) ctl))))) }
    {
        self.expand(alloc, &ctl)?;
        self.push_ctl(ctl)?;
        if self.command_count() > COMMANDS {
            return Err(Cause::Limit);
        }
        Ok(())
    }

    fn add_turns(&mut self, turns: Vec<Turn>, steps: u32) -> Result<(), AllocError>
        ensures above { OnOk result (above_of self.new ≡ with_what (above_of self.old) (more_turns turns.items steps)) }
        ensures rest { OnOk result (KeepsRest self.old self.new) }
    {
        self.turns.extend_from_slice(turns.as_slice())?;
        self.steps = steps;
        Ok(())
    }

    /// Adds what a line that isn't one of control declares, but for its number and its rank.
    fn add_other(&mut self, alloc: Global, what: Declaration) -> Result<(), AllocError>
        requires small { IsSmall (above_of self.old) }
        requires fits { FitsAs (above_of self.old) (declaration_of (length self.old.tasks.items) what) }
        requires other { IsOther (declaration_of (length self.old.tasks.items) what) }
        ensures ok { OnOk result (above_of self.new ≡ with_what (above_of self.old) (declaration_of (length self.old.tasks.items) what.entry)) }
        ensures names { OnOk result (self.new.names ≡ names_with (declaration_of (length self.old.tasks.items) what.entry) self.old.names) }
        ensures expansion { OnOk result (self.new.expansion ≡ self.old.expansion) }
    {
        match what {
            Declaration::Nothing => {}
            Declaration::Version(number) => self.version = number,
            Declaration::Function { name, owner } => self.add_function(alloc, name, owner)?,
            Declaration::Frames(frames) => self.frames = Some(frames),
            Declaration::Slots(slots) => self.tramps = Some(slots),
            Declaration::Absence(owner) => self.add_absence(owner)?,
            Declaration::Entries(entries) => self.ring = Some(entries),
            Declaration::NoTracing => self.tracing = false,
            Declaration::Trigger(trigger) => self.add_trigger(trigger)?,
            Declaration::User(spec) => self.add_user(spec)?,
            Declaration::Cpu { quantum } => self.add_cpu(quantum)?,
            Declaration::Task { pid, cpu } => self.add_task(alloc, pid, cpu)?,
            Declaration::Act(act) => self.add_act(act)?,
            Declaration::Lane => self.lane_count += 1,
            Declaration::Ctl(_) => unreachable!(),
            Declaration::Turns { turns, steps } => self.add_turns(turns, steps)?,
        }
        Ok(())
    }

    /// Adds what the line declares, but for its number and its rank.
    fn add(&mut self, alloc: Global, what: Declaration) -> Result<(), Cause>
        requires small { IsSmall (above_of self.old) }
        requires fits { FitsAs (above_of self.old) (declaration_of (length self.old.tasks.items) what) }
        requires kept { ReaderInvariant self.old }
        ensures ok { OnOk result (above_of self.new ≡ with_what (above_of self.old) (declaration_of (length self.old.tasks.items) what.entry)) }
        ensures few { OnOk result (has_too_many_commands (above_of self.old) (declaration_of (length self.old.tasks.items) what.entry) ≡ false) }
        ensures kept { OnOk result (ReaderInvariant self.new) }
        ensures err { IfErr result (λ cause. (cause ≡ NoMemory) ⊎ ((cause ≡ Limit)
            × (has_too_many_commands (above_of self.old) (declaration_of (length self.old.tasks.items) what.entry) ≡ true))) }
    {
        match what {
            Declaration::Ctl(ctl) => self.add_ctl(alloc, ctl),
            other => Ok(self.add_other(alloc, other)?),
        }
    }

    /// Adds the line. The cause is that there are too many commands with it, or want of memory.
    pub fn declare(&mut self, alloc: Global, line: Resolved) -> Result<(), Cause>
        requires small { IsSmall (above_of self.old) }
        requires fits { Fits (above_of self.old) (resolved_of (length self.old.tasks.items) line) }
        requires kept { ReaderInvariant self.old }
        ensures ok { OnOk result (above_of self.new ≡ declared (above_of self.old) (resolved_of (length self.old.tasks.items) line.entry)) }
        ensures few { OnOk result (has_too_many_commands (above_of self.old) (resolved_of (length self.old.tasks.items) line.entry).what ≡ false) }
        ensures kept { OnOk result (ReaderInvariant self.new) }
        ensures err { IfErr result (IsRefused (carried_out (above_of self.old) (Ok (resolved_of (length self.old.tasks.items) line.entry)))) }
    {
        let Resolved { rank, what } = line;
        let lines = self.lines + 1;
        self.add(alloc, what)?;
        self.lines = lines;
        self.rank = rank;
        Ok(())
    }
}
