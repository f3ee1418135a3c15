//! Modules whose commands are planned late.

ghost use Rattle.std.specs.Prelude.{◌≡◌, ℕ, ◌+◌, ◌<◌, ◌^◌, false, length, OnOk, IfOk};
ghost use Rattle.std.specs.List.{AllByRecursion as Each};
ghost use Rattle.ft_desk.specs.Commands.{command_of, IsInShape};
ghost use Rattle.module_table.specs.Lines.{Plain, after_line, after_lines, answer_to, commands_for};
ghost use Rattle.module_table.specs.Made.{Appends, is_masking, line_of};
ghost use Rattle.module_table.specs.Reached.{IsLineIn};
ghost use Rattle.ft_script.specs.Late.{lines_with, HasRoom, IsRowAnswer};

use ft_base::Answer;
use ft_desk::Command;
use module_table::{ModLine, Modules};
use std::alloc::{AllocError, Global};
use std::marker::Model;
use std::mem;

/// What is known after the lines of control so far. What a line comes to depends on the desk only if it
/// loads or unloads a module or edits a notrace set. So other commands are kept until there is
/// such a line, and are never planned if there is none.
#[derive(Drop)]
pub struct LateModules {
    alloc: Global,
    /// What was known before the commands that are kept.
    modules: Modules,
    /// The commands that aren't planned yet.
    later: Vec<Command>,
}

impl Model for LateModules {
    ghost use Rattle.module_table.specs.Lines.{Between};
    ghost use Rattle.ft_script.specs.Late.{known, LateInvariant};

    ghost Value = { Between };

    ghost view = { known };

    ghost invariant = { LateInvariant };
}

impl LateModules {
    /// The same as these modules; no command is kept.
    pub fn new(alloc: Global, modules: Modules) -> LateModules
        ensures { result ≡ modules }
    {
        LateModules {
            alloc,
            modules,
            later: Vec::new(alloc),
        }
    }

    /// How many commands there were so far, those of the opening included.
    pub fn commands(&self) -> u32
        ensures { result ≡ self.now.commands }
    {
        self.modules.commands() + self.later.len() as u32
    }

    /// Adds the commands that carry out a line at the end of `out`. The answer is that of a line that is
    /// planned, and a load or an unload is.
    pub fn expand(
        &mut self,
        line: &ModLine,
        out: &mut Vec<Command>,
    ) -> Result<Option<Answer>, AllocError>
        requires line { IsLineIn self.old.declared (length self.old.loaded) (line_of self.old.declared.tasks line.now) }
        requires room { self.old.commands + length self.old.declared.specs + 1 < 2 ^ 32 }
        ensures answer { IfOk result (λ answer. IsRowAnswer self.old (line_of self.old.declared.tasks line.now) answer) }
        ensures added { OnOk result (Appends self.old.declared out.old.items out.new.items (commands_for self.old (line_of self.old.declared.tasks line.now))) }
        ensures after { OnOk result (self.new ≡ after_line self.old (line_of self.old.declared.tasks line.now)) }
    {
        if let ModLine::Plain(command) = line {
            if !edits_notrace(command) {
                self.keep(command, out)?;
                return Ok(None);
            }
        }
        let answer = self.plan(line, out)?;
        Ok(Some(answer))
    }

    /// Adds a command, which isn't planned yet.
    fn keep(&mut self, command: &Command, out: &mut Vec<Command>) -> Result<(), AllocError>
        requires line { IsInShape self.old.declared command.now }
        requires plain { is_masking command.now ≡ false }
        requires room { self.old.commands + length self.old.declared.specs + 1 < 2 ^ 32 }
        ensures added { OnOk result (Appends self.old.declared out.old.items out.new.items (commands_for self.old (Plain (command_of self.old.declared.tasks command.now)))) }
        ensures after { OnOk result (self.new ≡ after_line self.old (Plain (command_of self.old.declared.tasks command.now))) }
    {
        let copy = command.copy().map_err(|_| AllocError)?;
        let other = command.copy().map_err(|_| AllocError)?;
        out.push(copy)?;
        self.later.push(other)?;
        Ok(())
    }

    /// Plans a line, after the commands that are kept.
    fn plan(&mut self, line: &ModLine, out: &mut Vec<Command>) -> Result<Answer, AllocError>
        requires line { IsLineIn self.old.declared (length self.old.loaded) (line_of self.old.declared.tasks line.now) }
        requires room { self.old.commands + length self.old.declared.specs + 1 < 2 ^ 32 }
        ensures answer { IfOk result (λ answer. answer ≡ answer_to self.old (line_of self.old.declared.tasks line.now)) }
        ensures added { OnOk result (Appends self.old.declared out.old.items out.new.items (commands_for self.old (line_of self.old.declared.tasks line.now))) }
        ensures after { OnOk result (self.new ≡ after_line self.old (line_of self.old.declared.tasks line.now)) }
    {
        let later = mem::replace(&mut self.later, Vec::new(self.alloc));
        plan_all(self.alloc, &mut self.modules, later)?;
        let answer = self.modules.expand(line, out).map_err(|_| AllocError)?;
        Ok(answer)
    }
}

/// Plans commands one after the other.
fn plan_all(alloc: Global, modules: &mut Modules, commands: Vec<Command>) -> Result<(), AllocError>
    requires numbers { Each (IsInShape modules.old.declared) commands.items }
    requires room { HasRoom modules.old (length commands.items) }
    ensures { OnOk result (modules.new ≡ after_lines modules.old (lines_with modules.old.declared.tasks commands.items)) }
{
    for command in commands {
        plan_one(alloc, modules, command)?;
    }
    Ok(())
}

/// Plans a command.
fn plan_one(alloc: Global, modules: &mut Modules, command: Command) -> Result<(), AllocError>
    requires numbers { IsInShape modules.old.declared command }
    requires room { modules.old.commands + length modules.old.declared.specs + 1 < 2 ^ 32 }
    ensures { OnOk result (modules.new ≡ after_line modules.old (Plain (command_of modules.old.declared.tasks command))) }
{
    // The commands that carry it out are in the job already.
    let mut made = Vec::new(alloc);
    let line = ModLine::Plain(command);
    modules.expand(&line, &mut made).map_err(|_| AllocError)?;
    Ok(())
}

/// Whether the command edits a notrace set, which is carried out by a mask.
fn edits_notrace(command: &Command) -> bool
    ensures { result ≡ false → is_masking command.now ≡ false }
{
    match command {
        Command::Notrace(_, _) => true,
        Command::Register(_)
        | Command::Unregister(_)
        | Command::Filter(_, _)
        | Command::Pid(_)
        | Command::NoPid(_)
        | Command::Enable(_)
        | Command::Disable(_)
        | Command::MaxDepth(_) => false,
    }
}
