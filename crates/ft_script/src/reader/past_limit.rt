//! Whether a line is past a limit.

use crate::form::{
    any_bad_pid, has_long_name, is_above, is_bad_count, is_bad_depth, is_bad_pid, is_bad_quantum,
    is_bad_ring, is_big, is_full, is_long, is_long_or_none,
};
use crate::reader::Reader;
use ft_base::limits::{
    ACTS, COMMANDS, CPUS, GRAPH_DEPTH, ITEMS, LANES, LEVELS, Limits, TASKS, TRIGGERS, UNTILS,
};
use script_form::LineForm;
use user_specs::call_bound;

impl Reader {
    ghost use Rattle.std.specs.Prelude.{◌≡◌, ◌<◌, ◌^◌, None};
    ghost use Rattle.std.specs.Option.{option_copied};
    ghost use Rattle.ft_base.specs.Versions.{limits_of};
    ghost use Rattle.script_form.specs.Read.{form_read};
    ghost use Rattle.script_form.specs.Forms.{func, new_task, until};
    ghost use Rattle.ft_script.specs.Causes.{is_past_limit, is_full_of_acts, is_full_of_calls, is_full_of_commands, has_no_room};
    ghost use Rattle.ft_script.specs.Within.{IsWithinLimits};
    ghost use Rattle.ft_script.specs.Expansion.{command_count};
    ghost use Rattle.ft_script.specs.ReaderInvariant.{above_of, ReaderInvariant};

    /// What differs by version, of what there may be.
    fn limits(&self) -> Limits
        ensures { result ≡ limits_of self.now.version }
    {
        Limits::of(self.version)
    }

    /// Whether one more act is too many.
    fn is_full_of_acts(&self) -> bool
        ensures { result ≡ is_full_of_acts (above_of self.now) }
    {
        self.acts >= ACTS
    }

    /// How many commands the lines of control so far come to, those with which control opens among them.
    pub fn command_count(&self) -> u32
        requires few { self.now.expansion ≡ None → command_count (above_of self.now) < 2 ^ 32 }
        requires kept { ReaderInvariant self.now }
        ensures { result ≡ command_count (above_of self.now) }
    {
        match &self.expansion {
            Some(expansion) => expansion.commands(),
            None => self.unexpanded_count(),
        }
    }

    /// The same, as long as the reader hasn't what they come to.
    fn unexpanded_count(&self) -> u32
        requires few { command_count (above_of self.now) < 2 ^ 32 }
        requires none { self.now.expansion ≡ None }
        requires kept { ReaderInvariant self.now }
        ensures { result ≡ command_count (above_of self.now) }
    {
        if self.lane_count > 0 {
            // Each line is a command.
            return self.ctls.len() as u32;
        }
        // There is no line yet. With an absent module control opens with a command for each user.
        if self.absent.is_empty() {
            0
        } else {
            self.users.len() as u32
        }
    }

    /// Whether one more command is too many.
    fn is_full_of_commands(&self) -> bool
        requires within { IsWithinLimits (above_of self.now) }
        requires kept { ReaderInvariant self.now }
        ensures { result ≡ is_full_of_commands (above_of self.now) }
    {
        self.command_count() >= COMMANDS
    }

    /// Whether the calls, with one more, could make more items than a history may have.
    fn has_no_room(&self) -> bool
        requires { IsWithinLimits (above_of self.now) }
        ensures { result ≡ has_no_room (above_of self.now) }
    {
        let levels = u32::from(self.limits().levels);
        let bound = u64::from(call_bound(self.users.as_slice(), levels));
        is_above(bound * (u64::from(self.calls) + 1), ITEMS)
    }

    /// Whether one more call is too many.
    fn is_full_of_calls(&self) -> bool
        requires { IsWithinLimits (above_of self.now) }
        ensures { result ≡ is_full_of_calls (above_of self.now) }
    {
        self.is_full_of_acts()
            || self.levels.open_calls() >= u64::from(LEVELS)
            || self.has_no_room()
    }

    /// Whether the line of a function is past a limit.
    fn is_func_past_limit(&self, name: &str, owner: Option<&str>) -> bool
        ensures { result ≡ is_past_limit (above_of self.now) (func name.now (option_copied owner.entry)) }
    {
        is_long(name) || is_long_or_none(owner) || self.functions.len() >= self.limits().funcs
    }

    /// Whether the line of a task is past a limit.
    fn is_task_past_limit(&self, pid: u64, cpu: u64) -> bool
        ensures { result ≡ is_past_limit (above_of self.now) (new_task pid cpu) }
    {
        is_bad_pid(pid) || is_big(cpu) || is_full(self.tasks.len(), TASKS)
    }

    /// Whether a wait of control is past a limit.
    fn is_until_past_limit(&self, pid: u64, acts: u64) -> bool
        ensures { result ≡ is_past_limit (above_of self.now) (until pid acts) }
    {
        is_bad_pid(pid) || is_bad_count(acts) || self.waits >= UNTILS
    }

    /// Whether a name or a number of the line is outside its limits, or there is one too many of what
    /// it declares.
    pub fn is_past_limit(&self, form: &LineForm) -> bool
        requires within { IsWithinLimits (above_of self.now) }
        requires kept { ReaderInvariant self.now }
        ensures { result ≡ is_past_limit (above_of self.now) (form_read form.now) }
    {
        match form {
            LineForm::Skip | LineForm::Version { .. } | LineForm::TracingOff => false,
            LineForm::Func { name, owner } => self.is_func_past_limit(name, *owner),
            LineForm::Depth { frames } => is_bad_depth(*frames),
            LineForm::Tramps { slots } => is_above(*slots, u32::from(self.limits().tramps)),
            LineForm::Absent { owner } => is_long(owner),
            LineForm::Ring { entries } => is_bad_ring(*entries),
            LineForm::Trigger { .. } => is_full(self.triggers.len(), TRIGGERS),
            LineForm::User(user) => {
                has_long_name(user) || is_full(self.users.len(), self.limits().users)
            }
            LineForm::NewCpu { quantum, .. } => {
                is_bad_quantum(*quantum) || is_full(self.quanta.len(), CPUS)
            }
            LineForm::NewTask { pid, cpu } => self.is_task_past_limit(*pid, *cpu),
            LineForm::NewLane { .. } => self.lane_count >= LANES,
            LineForm::Call { function } => is_long(function) || self.is_full_of_calls(),
            LineForm::Ret | LineForm::Raise { .. } | LineForm::Lower => self.is_full_of_acts(),
            LineForm::After { commands } => is_bad_count(*commands) || self.is_full_of_acts(),
            LineForm::Register { user }
            | LineForm::Unregister { user }
            | LineForm::Write { user, .. }
            | LineForm::Enable { user }
            | LineForm::Disable { user } => is_long(user) || self.is_full_of_commands(),
            LineForm::Load { owner } | LineForm::Unload { owner } => {
                is_long(owner) || self.is_full_of_commands()
            }
            LineForm::Pids { pids, .. } => any_bad_pid(pids) || self.is_full_of_commands(),
            LineForm::MaxDepth { depth } => {
                is_above(*depth, GRAPH_DEPTH) || self.is_full_of_commands()
            }
            LineForm::Until { pid, acts } => self.is_until_past_limit(*pid, *acts),
            // Its steps are counted once it is known that all else of the line is right.
            LineForm::Sched { .. } => false,
        }
    }
}
