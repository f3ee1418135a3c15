//! The reader of scripts, which takes one line after the other.
//!
//! `resolve` turns what a line says into what it declares, or into the first cause for which it is
//! refused: `causes` and `past_limit` have its tests, and `find` looks up names and pids. `declare`
//! adds what a line declares; what may hinder that, besides want of memory, is that the commands of a
//! load or an unload are too many. `coverage` asks whether modules are there when they are needed, and
//! `parts` makes the job.

mod causes;
mod coverage;
mod declare;
mod find;
mod parts;
mod past_limit;
mod resolve;

ghost use Rattle.std.specs.Prelude.{◌≡◌, ◌≢◌};
ghost use Rattle.ft_script.specs.declared.faults.Cause.TheVariants.{NoMemory};
ghost use Rattle.ft_script.specs.Script.{no_memory};
ghost use Rattle.ft_base.specs.declared.limits.TheConstants.{FUNCS};

use crate::declaration::ScriptCtl;
use crate::expansion::Expansion;
use crate::faults::{Cause, ScriptFault};
use crate::form::names_module;
use crate::levels::Levels;
use filter_commands::Trigger;
use ft_base::Turn;
use ft_base::limits::FUNCS;
use func_table::FuncTable;
use module_table::ModuleNames;
use script_form::{LineForm, read_line};
use script_waits::LinedTask;
use std::alloc::{AllocError, Global};
use user_specs::Spec;

/// A line of control, and its number in the script.
#[derive(Drop)]
pub struct LinedCtl {
    pub ctl: ScriptCtl,
    pub line: u32,
}

/// What the lines above have declared.
#[derive(Drop)]
pub struct Reader {
    /// The version of the language.
    version: u8,
    /// How many lines there are above.
    lines: u32,
    /// The rank of the last of them that has one.
    rank: u8,
    /// The frames of a shadow stack, if the script says.
    frames: Option<u32>,
    /// The trampoline slots, if the script says.
    tramps: Option<u32>,
    functions: FuncTable,
    /// The names of the functions' modules, once a line has named a module.
    names: Option<ModuleNames>,
    /// The modules that aren't loaded at first.
    absent: Vec<u32>,
    /// The entries of each CPU's trace ring, if the script says.
    ring: Option<u32>,
    /// Whether tracing is on at first, and what switches it.
    tracing: bool,
    triggers: Vec<Trigger>,
    users: Vec<Spec>,
    /// The line of each user.
    user_lines: Vec<u32>,
    /// The quantum of each CPU.
    quanta: Vec<u32>,
    tasks: Vec<LinedTask>,
    /// The open calls of the last task.
    levels: Levels,
    /// How many acts there are, over all tasks, and how many of them are calls.
    acts: u32,
    calls: u32,
    /// The lines of control, and how many of them are waits.
    ctls: Vec<LinedCtl>,
    waits: u32,
    /// What they come to, from the first of them on. In a script with lanes they stay as they are.
    expansion: Option<Expansion>,
    /// How many lanes there are, and the lane of each command, if there are lanes.
    lane_count: u32,
    lanes: Vec<u32>,
    /// The schedule, and how many steps it has.
    turns: Vec<Turn>,
    steps: u32,
    ghost table: { functions.limit ≡ FUNCS },
}

/// The fault of the line of this number, which is refused for this cause.
fn fault_at(number: u32, cause: Cause) -> ScriptFault
    ensures memory { cause ≡ NoMemory → result ≡ no_memory }
    ensures other { cause ≢ NoMemory → result ≡ record { line = number; cause = cause } }
{
    match cause {
        Cause::NoMemory => ScriptFault::from(AllocError),
        other => ScriptFault {
            line: number,
            cause: other,
        },
    }
}

impl Reader {
    ghost use Rattle.std.specs.Prelude.{ℕ, List, None, option_map, IfErr, IfSome, OnOk};
    ghost use Rattle.script_text.specs.Lines.{lines_of};
    ghost use Rattle.ft_script.specs.Above.{none_above};
    ghost use Rattle.script_form.specs.Lines.{line_form};
    ghost use Rattle.script_form.specs.Read.{form_read};
    ghost use Rattle.ft_script.specs.Above.{declared};
    ghost use Rattle.ft_script.specs.Causes.{cause_of, cause_in, carried_out, resolved_line};
    ghost use Rattle.ft_script.specs.Script.{said, with_line, IsFaultAt, IsRefused};
    ghost use Rattle.ft_script.specs.Within.{IsSmall};
    ghost use Rattle.ft_script.specs.ReaderInvariant.{above_of, ReaderInvariant, HasNames};

    /// Nothing is declared above the first line, which says the version.
    pub fn new(alloc: Global) -> Reader
        ensures above { above_of result ≡ none_above }
        ensures kept { ReaderInvariant result }
    {
        Reader {
            version: 1,
            lines: 0,
            rank: 0,
            frames: None,
            tramps: None,
            functions: FuncTable::new(alloc, FUNCS),
            names: None,
            absent: Vec::new(alloc),
            ring: None,
            tracing: true,
            triggers: Vec::new(alloc),
            users: Vec::new(alloc),
            user_lines: Vec::new(alloc),
            quanta: Vec::new(alloc),
            tasks: Vec::new(alloc),
            levels: Levels::GROUND,
            acts: 0,
            calls: 0,
            ctls: Vec::new(alloc),
            waits: 0,
            expansion: None,
            lane_count: 0,
            lanes: Vec::new(alloc),
            turns: Vec::new(alloc),
            steps: 0,
        }
    }

    /// Sees to it that the names of modules are at hand, if the line needs them.
    fn name_modules(&mut self, alloc: Global, form: &Option<LineForm>) -> Result<(), AllocError>
        requires { ReaderInvariant self.old }
        ensures above { above_of self.new ≡ above_of self.old }
        ensures kept { OnOk result (ReaderInvariant self.new) }
        ensures names { OnOk result (IfSome form.now (λ form. HasNames self.new (form_read form))) }
    {
        let needs = match form {
            Some(form) => names_module(form),
            None => false,
        };
        if needs && self.names.is_none() {
            self.names = Some(ModuleNames::new(alloc, &self.functions).map_err(|_| AllocError)?);
        }
        Ok(())
    }

    /// Reads the next line, whose form this is.
    #[tactic(auto, unfolding(crate::specs::Causes::cause_of, crate::specs::Script::with_line))]
    fn read_form(
        &mut self,
        alloc: Global,
        form: &Option<LineForm>,
        ended: bool,
        below: &[u8],
    ) -> Result<(), Cause>
        requires small { IsSmall (above_of self.old) }
        requires kept { ReaderInvariant self.old }
        requires line { (bytes : List ℕ) × (option_map form_read form.now ≡ line_form bytes) }
        requires names { IfSome form.now (λ form. HasNames self.old (form_read form)) }
        ensures clear { OnOk result (cause_in (carried_out (above_of self.old) (resolved_line (above_of self.old) ended (option_map form_read form.now) (lines_of below.now))) ≡ None) }
        ensures declared { OnOk result (above_of self.new ≡ declared (above_of self.old) (said (above_of self.old) (option_map form_read form.now))) }
        ensures kept { OnOk result (ReaderInvariant self.new) }
        ensures err { IfErr result (IsRefused (carried_out (above_of self.old) (resolved_line (above_of self.old) ended (option_map form_read form.now) (lines_of below.now)))) }
    {
        let resolved = self.resolve_line(alloc, form, ended, below)?;
        self.declare(alloc, resolved)
    }

    /// Reads the next line. `ended` says whether a line feed ends it, and `below` is the text below.
    #[tactic(auto, unfolding(crate::specs::Causes::cause_of, crate::specs::Script::with_line))]
    pub fn read(
        &mut self,
        alloc: Global,
        line: &[u8],
        ended: bool,
        below: &[u8],
    ) -> Result<(), ScriptFault>
        requires small { IsSmall (above_of self.old) }
        requires kept { ReaderInvariant self.old }
        ensures clear { OnOk result (cause_of (above_of self.old) (record { bytes = line.now; ended = ended }) (lines_of below.now) ≡ None) }
        ensures declared { OnOk result (above_of self.new ≡ with_line (above_of self.old) (record { bytes = line.now; ended = ended })) }
        ensures kept { OnOk result (ReaderInvariant self.new) }
        ensures err { IfErr result (IsFaultAt (above_of self.old) (cause_of (above_of self.old) (record { bytes = line.now; ended = ended }) (lines_of below.now))) }
    {
        let number = self.lines + 1;
        let form = read_line(alloc, line)?;
        self.name_modules(alloc, &form)?;
        self.read_form(alloc, &form, ended, below)
            .map_err(|cause| fault_at(number, cause))
    }
}
