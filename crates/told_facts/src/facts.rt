//! All facts of a script.

ghost use Rattle.std.specs.Prelude.{◌≡◌, ◌≤◌, length, IfOk};
ghost use Rattle.ft_base.specs.declared.limits.TheConstants.{INPUT_BYTES};
ghost use Rattle.ft_io.specs.Pieces.{Puts};
ghost use Rattle.told_facts.specs.Commands.{controls_text};
ghost use Rattle.told_facts.specs.Facts.{AreNew};
ghost use Rattle.told_facts.specs.Lines.{line_in};

use crate::commands::put_controls;
use crate::declared::put_declared;
use crate::lines::{CommandLines, put_lines};
use ft_base::NoMemory;
use ft_desk::{Ctl, Desk};
use ft_io::{Pieces, Sink};
use ft_job::Job;
use module_table::ModuleNames;
use std::alloc::Global;
use trace_print::Names;

/// What there is to be told of a script: all that takes memory.
#[derive(Drop)]
pub struct Facts<'a> {
    names: Names<'a>,
    modules: ModuleNames,
    lines: CommandLines<'a>,
    ctls: &'a [Ctl],
    /// The desk before the next command.
    before: Desk,
    /// The desk after it.
    after: Desk,
}

impl<'a> Facts<'a> {
    /// The facts of a script and of its job. The error says that memory ran out.
    pub fn new(alloc: Global, script: &'a [u8], job: &'a Job) -> Result<Facts<'a>, NoMemory>
        requires { length script.now ≤ INPUT_BYTES }
        ensures job { IfOk result (λ facts. facts.names ≡ job.entry.now) }
        ensures new { IfOk result AreNew }
    {
        let names = Names::new(alloc, job)?;
        let modules = ModuleNames::new(alloc, job.table())?;
        let lines = CommandLines::new(alloc, script, &names)?;
        let (before, ctls) = job.opening(alloc)?;
        let (after, _) = job.opening(alloc)?;
        Ok(Facts {
            names,
            modules,
            lines,
            ctls,
            before,
            after,
        })
    }

    /// Puts the fact of each line, and of each thing that is declared.
    pub fn put_declared<K: Sink>(&self, pieces: &mut Pieces, sink: &mut K) {
        put_declared(
            pieces,
            sink,
            &self.names,
            &self.modules,
            self.lines.lines.as_slice(),
        );
        put_lines(pieces, sink, self.lines.lines.as_slice());
    }

    /// Puts the fact of each command and wait, once.
    pub fn put_controls<K: Sink>(&mut self, pieces: &mut Pieces, sink: &mut K)
        requires { AreNew self.old }
        ensures { Puts K.holds K.faults (controls_text self.old.names (line_in self.old.lines)) sink.old pieces.old sink.new pieces.new }
    {
        put_controls(
            pieces,
            sink,
            &self.names,
            &self.lines,
            self.ctls,
            &mut self.before,
            &mut self.after,
        );
    }
}
