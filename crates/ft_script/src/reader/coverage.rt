//! Whether the functions of modules are there when they are needed.

ghost use Rattle.std.specs.Option.{option_to_list};
ghost use Rattle.std.specs.List.{list_any};
ghost use Rattle.std.specs.Prelude.{◌≡◌, ◌==◌, [], ◌∷◌, map, length, IfOk};
ghost use Rattle.ft_desk.specs.Commands.{ctl_of};
ghost use Rattle.ft_job.specs.Plans.{row_of};
ghost use Rattle.module_coverage.specs.Reading.{wait_of, changes_of};
ghost use Rattle.ft_script.specs.Script.{called_by};

use crate::expansion::Expansion;
use crate::reader::Reader;
use ft_base::{Act, Answer, FuncNo};
use ft_job::{Ctl, ModRow};
use func_table::FuncTable;
use module_coverage::{Change, lowest_uncovered};
use module_table::{ModuleNames, owners_of};
use script_waits::{ControlLine, LinedTask, Wait, lower};
use std::alloc::{AllocError, Global};
use user_specs::Spec;

/// What a line of control of the job is for those that wait. It has no line of the script.
fn control_line(ctl: &Ctl) -> ControlLine
    ensures { result ≡ record { wait = wait_of (ctl_of 0 ctl.now); line = 0 } }
{
    let wait = match ctl {
        Ctl::Run(_) => Wait::Command,
        Ctl::Until { task, acts } => Wait::Until {
            task: *task,
            acts: *acts,
        },
    };
    ControlLine { wait, line: 0 }
}

fn control_lines(alloc: Global, ctls: &[Ctl]) -> Result<Vec<ControlLine>, AllocError>
    ensures { IfOk result (λ v. v.items ≡ map (λ c. record { wait = wait_of (ctl_of 0 c); line = 0 }) ctls.now) }
{
    ctls.iter().map(|ctl| control_line(ctl)).collect(alloc)
}

/// What a load or an unload changes, if it is accepted.
fn change(row: &ModRow) -> Option<Change>
    ensures { option_to_list result ≡ changes_of (row_of row.now ∷ []) }
{
    match row.answer {
        Answer::Accepted => Some(Change {
            module: row.module,
            load: row.load,
            at: row.last,
        }),
        _ => None,
    }
}

/// What the loads and unloads change.
fn changes(alloc: Global, rows: &[ModRow]) -> Result<Vec<Change>, AllocError>
    ensures { IfOk result (λ v. v.items ≡ changes_of (map row_of rows.now)) }
{
    let mut changes = Vec::new(alloc);
    for row in rows {
        if let Some(change) = change(row) {
            changes.push(change)?;
        }
    }
    Ok(changes)
}

/// The function that the act calls, if there is an act.
fn called_by(act: Option<Act>) -> Option<FuncNo>
    ensures { result ≡ called_by act }
{
    match act {
        None => None,
        Some(Act::CallIn(function) | Act::IrqIn(function)) => Some(function),
    }
}

/// Whether the number is one of these.
fn is_among(numbers: &[u32], number: u32) -> bool
    ensures { result ≡ list_any (λ other. other == number) numbers.now }
{
    numbers.iter().any(|other| *other == number)
}

/// Whether one of these loads or unloads the module.
fn are_of(rows: &[ModRow], number: u32) -> bool
    ensures { result ≡ list_any (λ row. row.«module» == number) rows.now }
{
    rows.iter().any(|row| row.module == number)
}

/// The modules of a job that lines name, and the module of each function.
#[derive(Clone, Copy)]
pub struct NamedModules<'a> {
    owners: &'a [Option<u32>],
    absent: &'a [u32],
    rows: &'a [ModRow],
}

impl<'a> NamedModules<'a> {
    ghost use Rattle.ft_base.specs.Job.{Job};
    ghost use Rattle.user_specs.specs.Plain.{spec_of};
    ghost use Rattle.module_coverage.specs.Loaded.{is_changing};
    ghost use Rattle.ft_script.specs.ReaderInvariant.{AreOf};
    ghost use Rattle.ft_script.specs.Script.{lies_in_named, needs_named};

    /// Whether a line names the module.
    fn has(&self, number: u32) -> bool
        ensures { (job : Job) → AreOf self.now job → result ≡ is_changing job.lines number }
    {
        is_among(self.absent, number) || are_of(self.rows, number)
    }

    /// Whether the function, if there is one, lies in such a module.
    fn has_module_of(&self, function: Option<FuncNo>) -> bool
        ensures { (job : Job) → AreOf self.now job → result ≡ lies_in_named job function }
    {
        let Some(function) = function else {
            return false;
        };
        match self.owners.get(function.0 as usize) {
            Some(Some(number)) => self.has(*number),
            _ => false,
        }
    }

    /// Whether a user calls a function of such a module at its callbacks, or puts one in the place of
    /// others.
    fn are_needed_by(&self, spec: &Spec) -> bool
        ensures { (job : Job) → AreOf self.now job → result ≡ needs_named job (spec_of spec.now) }
    {
        self.has_module_of(called_by(spec.act)) || self.has_module_of(spec.ipmodify)
    }
}

impl Reader {
    ghost use Rattle.std.specs.Prelude.{Some};
    ghost use Rattle.ft_base.specs.Job.{Job};
    ghost use Rattle.script_waits.specs.Tasks.{lined_task};
    ghost use Rattle.script_waits.specs.Greedy.{IsLeast};
    ghost use Rattle.ft_script.specs.Holds.{Holds};
    ghost use Rattle.ft_script.specs.ReaderInvariant.{above_of, AreOf, IsOpen};
    ghost use Rattle.ft_script.specs.Script.{job_tasks_of, IsLineOfNeed, MayFindUnloaded};

    /// The lowest line of a user that needs a function of one of these modules.
    fn lowest_user(&self, named: &NamedModules) -> Option<u32>
        requires { length self.now.user_lines.items ≡ length self.now.users.items }
        ensures { (job : Job) → AreOf named.now job → IsLeast (IsLineOfNeed job (above_of self.now)) result }
    {
        let mut low = None;
        for u in 0..self.users.len() {
            if named.are_needed_by(&self.users[u]) {
                low = lower(low, Some(self.user_lines[u]));
            }
        }
        low
    }

    /// The lowest line that may find a module unloaded, if control's lines come to this.
    fn lowest_unloaded(
        &self,
        alloc: Global,
        tasks: &[LinedTask],
        expansion: &Expansion,
    ) -> Result<Option<u32>, AllocError>
        requires holds { Holds (above_of self.now) }
        requires open { IsOpen self.now }
        requires expansion { self.now.expansion ≡ Some expansion.now }
        requires tasks { map lined_task tasks.now ≡ job_tasks_of (above_of self.now) }
        ensures { IfOk result (IsLeast (MayFindUnloaded (above_of self.now))) }
    {
        let names = ModuleNames::new(alloc, &self.functions).map_err(|_| AllocError)?;
        let owners = owners_of(alloc, &self.functions, &names).map_err(|_| AllocError)?;
        let control = control_lines(alloc, expansion.ctls())?;
        let changes = changes(alloc, expansion.rows())?;
        let call = lowest_uncovered(
            alloc,
            tasks,
            control.as_slice(),
            owners.as_slice(),
            self.absent.as_slice(),
            changes.as_slice(),
        )
        .map_err(|_| AllocError)?;
        let named = NamedModules {
            owners: owners.as_slice(),
            absent: self.absent.as_slice(),
            rows: expansion.rows(),
        };
        Ok(lower(self.lowest_user(&named), call))
    }

    /// The lowest line that may find a module unloaded whose function it needs, if there is one: that of
    /// a call that isn't covered, or of a user. The tasks are those of the job.
    pub fn unloaded(&self, alloc: Global, tasks: &[LinedTask]) -> Result<Option<u32>, AllocError>
        requires holds { Holds (above_of self.now) }
        requires open { IsOpen self.now }
        requires tasks { map lined_task tasks.now ≡ job_tasks_of (above_of self.now) }
        ensures { IfOk result (IsLeast (MayFindUnloaded (above_of self.now))) }
    {
        match &self.expansion {
            Some(expansion) => self.lowest_unloaded(alloc, tasks, expansion),
            // In a script with lanes no line names a module.
            None => Ok(None),
        }
    }
}
