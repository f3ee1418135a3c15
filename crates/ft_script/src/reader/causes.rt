//! Tests of causes for which a line is refused.

use crate::declaration::Declaration;
use crate::form::{is_act, rank_of};
use crate::last_act::is_last;
use crate::reader::Reader;
use crate::reader::find::{task_number, user_number};
use ft_base::{TaskAct, raise};
use script_form::LineForm;
use std::alloc::{AllocError, Global};

impl Reader {
    ghost use Rattle.std.specs.Prelude.{◌≡◌, ◌==◌, length, Some, IfOk};
    ghost use Rattle.std.specs.List.{list_any};
    ghost use Rattle.script_text.specs.Lines.{lines_of};
    ghost use Rattle.script_form.specs.Read.{form_read};
    ghost use Rattle.ft_script.specs.Causes.{is_misplaced, has_ctl_in_no_lane, is_wrong_lane, is_out_of_place, is_absent, module_named, is_duplicate, has_pid, has_no_pid, is_unmatched, is_unbalanced};
    ghost use Rattle.ft_script.specs.Within.{IsWithinLimits};
    ghost use Rattle.func_table.specs.Modules.{modules_in};
    ghost use Rattle.ft_script.specs.ReaderInvariant.{above_of, declaration_of, HasNames};

    // ## syntax

    /// Whether a line of control above has no lane.
    fn has_ctl_in_no_lane(&self) -> bool
        ensures { result ≡ has_ctl_in_no_lane (above_of self.now) }
    {
        self.lanes.len() != self.ctls.len()
    }

    /// Whether a lane of this number can't come here.
    fn is_wrong_lane(&self, lane: u64) -> bool
        ensures { result ≡ is_wrong_lane (above_of self.now) lane }
    {
        lane != u64::from(self.lane_count) || self.has_ctl_in_no_lane() || !self.absent.is_empty()
    }

    /// Whether the line is out of place, whatever its rank.
    fn is_out_of_place(&self, form: &LineForm) -> bool
        ensures { result ≡ is_out_of_place (above_of self.now) (form_read form.now) }
    {
        match form {
            LineForm::Version { .. } => true,
            LineForm::Depth { .. } => self.frames.is_some(),
            LineForm::Tramps { .. } => self.tramps.is_some(),
            LineForm::Ring { .. } => self.ring.is_some(),
            LineForm::TracingOff => !self.tracing,
            LineForm::NewCpu { cpu, .. } => *cpu != self.quanta.len() as u64,
            LineForm::NewLane { lane } => self.is_wrong_lane(*lane),
            LineForm::Until { .. } | LineForm::Load { .. } | LineForm::Unload { .. } => {
                self.lane_count != 0
            }
            other => is_act(other) && self.tasks.is_empty(),
        }
    }

    pub fn is_misplaced(&self, form: &LineForm) -> bool
        ensures { result ≡ is_misplaced (above_of self.now) (form_read form.now) }
    {
        rank_of(form, self.rank) < self.rank || self.is_out_of_place(form)
    }

    // ## duplicate

    fn has_pid(&self, pid: u64) -> bool
        ensures { result ≡ has_pid (above_of self.now) pid }
    {
        task_number(self.tasks.as_slice(), pid).is_some()
    }

    fn has_no_pid(&self, pid: u64) -> bool
        ensures { result ≡ has_no_pid (above_of self.now) pid }
    {
        !self.has_pid(pid)
    }

    pub fn lacks_pid(&self, pids: &[u64]) -> bool
        ensures { result ≡ list_any (has_no_pid (above_of self.now)) pids.now }
    {
        pids.iter().any(|pid| self.has_no_pid(*pid))
    }

    /// Whether the module of this name is absent already.
    fn is_absent(&self, owner: &str) -> bool
        requires { self.now.names ≡ Some (modules_in self.now.functions.functions) }
        ensures { result ≡ is_absent (above_of self.now) (module_named (above_of self.now) owner.now) }
    {
        match self.module_number(owner) {
            Some(number) => self.has_absent(number),
            None => false,
        }
    }

    /// Whether the module of this number is absent already.
    fn has_absent(&self, number: u32) -> bool
        ensures { result ≡ list_any (λ other. other == number) self.now.absent.items }
    {
        self.absent.iter().any(|other| *other == number)
    }

    pub fn is_duplicate(&self, form: &LineForm) -> bool
        requires { HasNames self.now (form_read form.now) }
        ensures { result ≡ is_duplicate (above_of self.now) (form_read form.now) }
    {
        match form {
            LineForm::Func { name, .. } => self.functions.find(name).is_some(),
            LineForm::Absent { owner } => self.is_absent(owner),
            LineForm::User(user) => user_number(self.users.as_slice(), user.name).is_some(),
            LineForm::NewTask { pid, .. } => self.has_pid(*pid),
            _ => false,
        }
    }

    // ## unbalanced

    /// Whether the act has no match: a return without a call, or an interrupt that can't come or be
    /// over here.
    fn is_unmatched(&self, act: TaskAct) -> bool
        ensures { result ≡ is_unmatched self.now.levels act }
    {
        match act {
            TaskAct::Ret => self.levels.open_here() == 0,
            TaskAct::Raise(to) => raise(self.levels.present(), to).is_none(),
            TaskAct::Lower => !self.levels.is_raised() || self.levels.open_here() != 0,
            _ => false,
        }
    }

    pub fn is_unbalanced(
        &self,
        alloc: Global,
        what: &Declaration,
        below: &[u8],
    ) -> Result<bool, AllocError>
        requires { IsWithinLimits (above_of self.now) }
        ensures { IfOk result (λ b. b ≡ is_unbalanced self.now.levels (declaration_of (length self.now.tasks.items) what.now) (lines_of below.now)) }
    {
        let Declaration::Act(act) = what else {
            return Ok(false);
        };
        if self.is_unmatched(*act) {
            return Ok(true);
        }
        // Only here are the lines below read, so that reading takes time in proportion to the bytes.
        if self.levels.after(*act).is_unfinished() {
            return is_last(alloc, below);
        }
        Ok(false)
    }
}
