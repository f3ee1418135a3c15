//! What control's lines come to: the commands that carry out commands, loads and unloads, and the waits.

ghost use Rattle.std.specs.Prelude.{◌≡◌, ◌++◌, ℕ, [], length, map, OnOk, IfOk};
ghost use Rattle.ft_desk.specs.Commands.{command_of};
ghost use Rattle.ft_desk.specs.Lines.{lines_of};
ghost use Rattle.ft_job.specs.Plans.{row_of};
ghost use Rattle.module_table.specs.Lines.{opening_of};
ghost use Rattle.ft_script.specs.Expansion.{runs_of};

use crate::declaration::ScriptCtl;
use crate::late::LateModules;
use ft_base::Answer;
use ft_desk::Command;
use ft_job::{Ctl, ModRow};
use func_table::FuncTable;
use module_table::{ModLine, Modules};
use std::alloc::{AllocError, Global};
use user_specs::Spec;
use word_map::Shape;

/// What the lines of control so far come to in the job.
#[derive(Drop)]
pub struct Expansion {
    /// What is known after them: which modules are loaded, and the desk.
    modules: LateModules,
    /// The lines of control that they come to.
    ctls: Vec<Ctl>,
    /// The loads and unloads.
    rows: Vec<ModRow>,
    /// How many commands there are after each command, load and unload.
    ends: Vec<u32>,
}

/// Adds the commands as lines of control.
fn push_runs(ctls: &mut Vec<Ctl>, commands: Vec<Command>) -> Result<(), AllocError>
    ensures { OnOk result ((tasks : ℕ) → lines_of tasks ctls.new.items ≡ lines_of tasks ctls.old.items ++ runs_of (map (command_of tasks) commands.items)) }
{
    for command in commands {
        ctls.push(Ctl::Run(command))?;
    }
    Ok(())
}

/// The commands with which control opens, as lines of control.
fn opening_lines(alloc: Global, modules: &Modules) -> Result<Vec<Ctl>, AllocError>
    ensures { IfOk result (λ v. lines_of modules.now.declared.tasks v.items ≡ runs_of (opening_of modules.now.declared modules.now.first)) }
{
    let mut ctls = Vec::new(alloc);
    let opening = modules.opening(alloc).map_err(|_| AllocError)?;
    push_runs(&mut ctls, opening)?;
    Ok(ctls)
}

impl Expansion {
    ghost use Rattle.std.specs.Prelude.{◌+◌, ◌<◌, ◌^◌, All};
    ghost use Rattle.word_map.specs.Shapes.{IsShape};
    ghost use Rattle.ft_desk.specs.Declarations.{declared_by};
    ghost use Rattle.module_table.specs.Lines.{at_first};
    ghost use Rattle.module_table.specs.Made.{line_of};
    ghost use Rattle.func_table.specs.Modules.{modules_in};
    ghost use Rattle.module_table.specs.Reached.{IsLineIn};
    ghost use Rattle.ft_script.specs.Expansion.{rows_with, with_line, expanded};
    ghost use Rattle.ft_script.specs.Late.{rows_told};
    ghost use Rattle.ft_script.specs.ReaderInvariant.{expansion_in, script_ctl_of, IsCtlIn};

    /// What there is before the first line, with these modules absent.
    pub fn new(
        alloc: Global,
        table: &FuncTable,
        specs: &[Spec],
        shape: Shape,
        absent: &[u32],
    ) -> Result<Expansion, AllocError>
        requires shape { IsShape shape }
        requires functions { length table.now.functions ≡ shape.funcs }
        requires users { length specs.now ≡ shape.users }
        requires absent { All (λ m. m < length (modules_in table.now.functions)) absent.now }
        ensures known { IfOk result (λ x. x.modules ≡ at_first (declared_by specs.now shape) table.now.functions absent.now) }
        ensures ctls { IfOk result (λ x. lines_of shape.tasks x.ctls.items ≡ runs_of (opening_of x.modules.declared x.modules.first)) }
        ensures rows { IfOk result (λ x. x.rows.items ≡ []) }
        ensures ends { IfOk result (λ x. x.ends.items ≡ []) }
    {
        let modules = Modules::new(alloc, table, specs, shape, absent).map_err(|_| AllocError)?;
        let ctls = opening_lines(alloc, &modules)?;
        Ok(Expansion {
            modules: LateModules::new(alloc, modules),
            ctls,
            rows: Vec::new(alloc),
            ends: Vec::new(alloc),
        })
    }

    /// How many commands there are.
    pub fn commands(&self) -> u32
        ensures { result ≡ self.now.modules.commands }
    {
        self.modules.commands()
    }

    /// The lines of control.
    pub fn ctls(&self) -> &[Ctl]
        ensures { result.now ≡ self.now.ctls.items }
    {
        self.ctls.as_slice()
    }

    /// The loads and unloads.
    pub fn rows(&self) -> &[ModRow]
        ensures { result.now ≡ self.now.rows.items }
    {
        self.rows.as_slice()
    }

    /// How many commands there are after each command, load and unload.
    pub fn ends(&self) -> &[u32]
        ensures { result.now ≡ self.now.ends.items }
    {
        self.ends.as_slice()
    }

    /// The lines of control, and the loads and unloads.
    pub fn into_lines(self) -> (Vec<Ctl>, Vec<ModRow>)
        ensures ctls { result.0.items ≡ self.ctls.items }
        ensures rows { result.1.items ≡ self.rows.items }
    {
        (self.ctls, self.rows)
    }

    /// Adds the row of a line, if it loads or unloads a module.
    fn add_row(
        &mut self,
        line: &ModLine,
        answer: Answer,
        first: u32,
        last: u32,
    ) -> Result<(), AllocError>
        ensures rows { OnOk result (map row_of self.new.rows.items ≡ map row_of self.old.rows.items
            ++ rows_with (line_of 0 line.now) answer first last) }
        ensures rest { OnOk result (self.new ≡ record self.old { rows = self.new.rows }) }
    {
        let (load, module) = match line {
            ModLine::Plain(_) => return Ok(()),
            ModLine::Load(module) => (true, *module),
            ModLine::Unload(module) => (false, *module),
        };
        self.rows.push(ModRow {
            load,
            module,
            answer,
            first,
            last,
        })?;
        Ok(())
    }

    /// Adds the row of a line whose answer is told, if it loads or unloads a module.
    fn add_row_told(
        &mut self,
        line: &ModLine,
        answer: Option<Answer>,
        first: u32,
        last: u32,
    ) -> Result<(), AllocError>
        ensures rows { OnOk result (map row_of self.new.rows.items ≡ map row_of self.old.rows.items
            ++ rows_told (line_of 0 line.now) answer first last) }
        ensures rest { OnOk result (self.new ≡ record self.old { rows = self.new.rows }) }
    {
        match answer {
            Some(answer) => self.add_row(line, answer, first, last),
            None => Ok(()),
        }
    }

    /// Adds a command, a load or an unload.
    fn add_line(&mut self, alloc: Global, line: &ModLine) -> Result<(), AllocError>
        requires line { IsLineIn self.old.modules.declared (length self.old.modules.loaded) (line_of self.old.modules.declared.tasks line.now) }
        requires room { self.old.modules.commands + length self.old.modules.declared.specs + 1 < 2 ^ 32 }
        ensures { OnOk result (expansion_in self.old.modules.declared.tasks self.new
            ≡ with_line (expansion_in self.old.modules.declared.tasks self.old) (line_of self.old.modules.declared.tasks line.now)) }
    {
        let first = self.modules.commands() + 1;
        let mut commands = Vec::new(alloc);
        let answer = self.modules.expand(line, &mut commands)?;
        let last = self.modules.commands();
        push_runs(&mut self.ctls, commands)?;
        self.add_row_told(line, answer, first, last)?;
        self.ends.push(last)?;
        Ok(())
    }

    /// Adds a line of control.
    pub fn add(&mut self, alloc: Global, ctl: &ScriptCtl) -> Result<(), AllocError>
        requires line { IsCtlIn self.old ctl.now }
        requires room { self.old.modules.commands + length self.old.modules.declared.specs + 1 < 2 ^ 32 }
        ensures { OnOk result (expansion_in self.old.modules.declared.tasks self.new
            ≡ expanded (expansion_in self.old.modules.declared.tasks self.old) (script_ctl_of self.old.modules.declared.tasks ctl.now)) }
    {
        match ctl {
            ScriptCtl::Run(line) => self.add_line(alloc, line)?,
            ScriptCtl::Until { task, acts } => self.ctls.push(Ctl::Until {
                task: *task,
                acts: *acts,
            })?,
        }
        Ok(())
    }
}
