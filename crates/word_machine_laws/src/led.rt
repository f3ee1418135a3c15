//! Jobs whose lines of control are led while the machine runs, one after the other: in the kernel,
//! the order in which several tasks get the lock settles which command comes first.
//!
//! The rule of the word machine speaks of a job, with all its lines. While lines are led, the machine
//! is that of each job that may still come of it. So here are the laws that what comes later is read
//! by nobody: control that isn't at its end does and becomes the same whatever lines come after those
//! that were led, and a CPU reads no line at all. Each law is a function with an empty body, whose
//! clauses say it.

ghost use Rattle.std.specs.Prelude.{◌≡◌, ◌≤◌, ℕ, suc, List, [], ◌∷◌, ◌++◌, length, Some, None};
ghost use Rattle.std.specs.List.{range_with_len};
ghost use Rattle.ft_base.specs.declared.item.Item.TheVariants.{Begin};
ghost use Rattle.ft_base.specs.Desk.{desk};
ghost use Rattle.ft_base.specs.Job.{Job as PlainJob, Command, Ctl, Run, LinePlan, commands};
ghost use Rattle.word_map.specs.Ops.{WordOp, Mark};
ghost use Rattle.word_machine.specs.Control.{Control, Line, control_got, control_next, control_start};
ghost use Rattle.word_machine.specs.Cpu.{Cpu, cpu_got, cpu_next, cpu_start};
ghost use Rattle.word_machine.specs.Limits.{IsLimited};
ghost use Rattle.word_machine.specs.Rule.{ControlLines};
ghost use Rattle.word_machine_laws.specs.Led.{in_order, later, more_to_come, with_lines, with_next};
ghost use Rattle.word_machine_laws.specs.Orders.{AreLed};

/// Whatever lines come, control starts as it does without them. While it isn't at its end its next
/// operation is the same, and so is what it becomes, with these lines to come. The desk after commands
/// that were led is the same, too.
pub fn lines_to_come_change_nothing()
    ensures start { (job : PlainJob) (more : List Ctl) (plan : LinePlan) → control_start (later job more plan) ≡ more_to_come more (control_start job) }
    ensures next { (job : PlainJob) (more : List Ctl) (plan : LinePlan) (s : Control) (gone : ℕ → ℕ) (op : WordOp)
        → ControlLines job s.commands_done s.position s.remaining gone → control_next job s ≡ Some op
        → control_next (later job more plan) (more_to_come more s) ≡ Some op }
    ensures got { (job : PlainJob) (more : List Ctl) (plan : LinePlan) (s : Control) (gone : ℕ → ℕ) (op : WordOp) (v : ℕ)
        → ControlLines job s.commands_done s.position s.remaining gone → control_next job s ≡ Some op
        → control_got (later job more plan) (more_to_come more s) v ≡ more_to_come more (control_got job s v) }
    ensures desk { (job : PlainJob) (more : List Ctl) (plan : LinePlan) (k : ℕ) → k ≤ length (commands job)
        → desk (later job more plan) k ≡ desk job k }
{}

/// Control without an operation is at a line, and none is left. With a command to come its next
/// operation is the mark of that command's Begin.
pub fn a_command_that_is_led_begins()
    ensures ended { (job : PlainJob) (s : Control) → control_next job s ≡ None → (s.position ≡ Line) × (s.remaining ≡ []) }
    ensures begins { (job : PlainJob) (more : List Ctl) (plan : LinePlan) (c : Command) (s : Control) → control_next job s ≡ None
        → control_next (later job (Run c ∷ more) plan) (more_to_come (Run c ∷ more) s) ≡ Some (Mark (Begin (suc s.commands_done))) }
{}

/// A CPU reads no line.
pub fn no_cpu_reads_lines()
    ensures start { (job : PlainJob) (ctls : List Ctl) (plan : LinePlan) (c : ℕ) → cpu_start (with_lines job ctls plan) c ≡ cpu_start job c }
    ensures next { (job : PlainJob) (ctls : List Ctl) (plan : LinePlan) (me : Cpu) → cpu_next (with_lines job ctls plan) me ≡ cpu_next job me }
    ensures got { (job : PlainJob) (ctls : List Ctl) (plan : LinePlan) (me : Cpu) (v : ℕ) → cpu_got (with_lines job ctls plan) me v ≡ cpu_got job me v }
{}

/// A job with some of its lines, each at most once, is within the limits of scripts as the job is.
pub fn led_jobs_are_limited()
    ensures { (job : PlainJob) (order : List ℕ) → IsLimited job → AreLed (length job.ctls) order → IsLimited (in_order job order) }
{}

/// An order grows by the line that is led next; the order of all lines as they stand is the job.
pub fn orders_grow_line_by_line()
    ensures grows { (job : PlainJob) (order : List ℕ) (k : ℕ) → in_order job (order ++ k ∷ []) ≡ with_next job (in_order job order) k }
    ensures all { (job : PlainJob) → length job.lines.lanes ≤ length job.ctls → in_order job (range_with_len 0 (length job.ctls)) ≡ job }
{}
