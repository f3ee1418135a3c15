//! The spans of a task's calls, found in one walk through its acts.

ghost use Rattle.std.specs.Prelude.{◌≡◌, ◌≤◌, ◌↔◌, ℕ, suc, List, [], ◌∷◌, Contains, IfOk, OnOk};
ghost use Rattle.script_waits.specs.declared.script.LinedAct.{LinedAct};
ghost use Rattle.module_coverage.specs.declared.span.Span.{Span};
ghost use Rattle.module_coverage.specs.Spans.{IsSpan};
ghost use Rattle.module_coverage.specs.Walks.{Leads, Finds};

use crate::span::{Entered, Span, span_to, spans_to};
use crate::until::{Place, until};
use ft_base::TaskAct;
use script_waits::{ControlLine, LinedAct};
use std::alloc::{AllocError, Global};

/// What is known of a task's acts above.
#[derive(Drop)]
pub struct Walk {
    /// The greatest number of commands that the task waits for among them.
    from: u32,
    /// The calls among them that haven't returned, the latest last.
    entered: Vec<Entered>,
    /// Control waits for none of the acts below before this place.
    place: Place,
    /// The spans of the calls that have returned.
    spans: Vec<Span>,
}

impl Walk {
    /// No act is above.
    fn new(alloc: Global) -> Walk
        ensures from { result.from ≡ 0 }
        ensures entered { result.entered.items ≡ [] }
        ensures place { result.place ≡ record { lines = 0; commands = 0 } }
        ensures spans { result.spans.items ≡ [] }
    {
        Walk {
            from: 0,
            entered: Vec::new(alloc),
            place: Place {
                lines: 0,
                commands: 0,
            },
            spans: Vec::new(alloc),
        }
    }

    /// The act of this number is a return: that of the latest open call, if there is one.
    fn leave(
        &mut self,
        control: &[ControlLine],
        task: usize,
        number: usize,
    ) -> Result<(), AllocError>
        requires { self.old.place.commands ≤ self.old.place.lines }
        ensures few { OnOk result (self.new.place.commands ≤ self.new.place.lines) }
        ensures leads { OnOk result ((a : ℕ) → number ≡ suc a → Leads control.now task a self.old.place → Leads control.now task number self.new.place) }
        ensures finds { OnOk result ((a : ℕ) → number ≡ suc a → Leads control.now task a self.old.place → (line : ℕ) (rest : List LinedAct) (s : Span)
            → Finds control.now task a self.old (record { act = TaskAct.Ret; line = line } ∷ rest) s ↔ Finds control.now task number self.new rest s) }
    {
        self.place = until(control, self.place, task, number);
        if let Some(call) = self.entered.pop() {
            self.spans.push(span_to(self.place.commands, call))?;
        }
        Ok(())
    }

    /// Goes past the act of this number.
    fn pass(
        &mut self,
        control: &[ControlLine],
        task: usize,
        number: usize,
        act: LinedAct,
    ) -> Result<(), AllocError>
        requires { self.old.place.commands ≤ self.old.place.lines }
        ensures few { OnOk result (self.new.place.commands ≤ self.new.place.lines) }
        ensures leads { OnOk result ((a : ℕ) → number ≡ suc a → Leads control.now task a self.old.place → Leads control.now task number self.new.place) }
        ensures finds { OnOk result ((a : ℕ) → number ≡ suc a → Leads control.now task a self.old.place → (rest : List LinedAct) (s : Span)
            → Finds control.now task a self.old (act ∷ rest) s ↔ Finds control.now task number self.new rest s) }
    {
        match act.act {
            TaskAct::Call(func) => self.entered.push(Entered {
                line: act.line,
                func,
                from: self.from,
            })?,
            TaskAct::Ret => self.leave(control, task, number)?,
            TaskAct::After(commands) => self.from = self.from.max(commands),
            TaskAct::Raise(_) | TaskAct::Lower => {}
        }
        Ok(())
    }

    /// The spans of all calls, if there is no further act. A call that never returns counts as if the last act were its return.
    fn finish(
        self,
        alloc: Global,
        control: &[ControlLine],
        task: usize,
        number: usize,
    ) -> Result<Vec<Span>, AllocError>
        requires { self.place.commands ≤ self.place.lines }
        ensures { IfOk result (λ v. Leads control.now task number self.place → (s : Span) → Contains v.items s ↔ Finds control.now task number self [] s) }
    {
        let place = until(control, self.place, task, number);
        let entered = spans_to(alloc, place.commands, self.entered.as_slice())?;
        let mut spans = self.spans;
        spans.extend_from_slice(entered.as_slice())?;
        Ok(spans)
    }
}

/// The spans of a task's calls.
pub fn spans_of(
    alloc: Global,
    control: &[ControlLine],
    task: usize,
    acts: &[LinedAct],
) -> Result<Vec<Span>, AllocError>
    ensures { IfOk result (λ v. (s : Span) → Contains v.items s ↔ IsSpan control.now task acts.now s) }
{
    let mut walk = Walk::new(alloc);
    for i in 0..acts.len() {
        walk.pass(control, task, i + 1, acts[i])?;
    }
    walk.finish(alloc, control, task, acts.len())
}
