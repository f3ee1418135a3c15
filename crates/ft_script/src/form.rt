//! What the form of a line says by itself: its rank, whether it is an act, and whether its names
//! and numbers are within their limits.

ghost use Rattle.std.specs.Prelude.{◌≡◌, nat_le, nat_lt, option_map};
ghost use Rattle.std.specs.List.{list_any};
ghost use Rattle.std.specs.Option.{option_copied};
ghost use Rattle.script_form.specs.Read.{form_read, user_read};
ghost use Rattle.ft_script.specs.ReaderInvariant.{names_module};
ghost use Rattle.ft_script.specs.Causes.{rank_of, is_act, is_long, is_long_or_none, has_long_name, act_name, is_big, is_bad_count, is_bad_pid, is_bad_depth, is_bad_ring, is_bad_quantum};

use ft_base::limits::{FRAMES, NAME_BYTES, PID, QUANTUM, RING};
use script_form::{LineForm, UserAct, UserLine};

/// Whether it is an act of a task.
pub fn is_act(form: &LineForm) -> bool
    ensures { result ≡ is_act (form_read form.now) }
{
    matches!(
        form,
        LineForm::Call { .. }
            | LineForm::Ret
            | LineForm::Raise { .. }
            | LineForm::Lower
            | LineForm::After { .. }
    )
}

/// The rank of the line, or the one before if it says nothing. Lines come in the order of their
/// ranks.
pub fn rank_of(form: &LineForm, before: u8) -> u8
    ensures { result ≡ rank_of (form_read form.now) before }
{
    match form {
        LineForm::Skip => before,
        LineForm::Version { .. } => 0,
        LineForm::Func { .. } => 1,
        LineForm::Depth { .. }
        | LineForm::Tramps { .. }
        | LineForm::Absent { .. }
        | LineForm::Ring { .. }
        | LineForm::TracingOff
        | LineForm::Trigger { .. } => 2,
        LineForm::User(_) => 3,
        LineForm::NewCpu { .. } => 4,
        LineForm::NewTask { .. }
        | LineForm::Call { .. }
        | LineForm::Ret
        | LineForm::Raise { .. }
        | LineForm::Lower
        | LineForm::After { .. } => 5,
        LineForm::Sched { .. } => 7,
        _ => 6,
    }
}

/// Whether the line says the name of a module by which it is looked up.
pub fn names_module(form: &LineForm) -> bool
    ensures { result ≡ names_module (form_read form.now) }
{
    matches!(
        form,
        LineForm::Absent { .. } | LineForm::Load { .. } | LineForm::Unload { .. }
    )
}

// ## limits

/// Whether a number is above a limit.
pub fn is_above(n: u64, limit: u32) -> bool
    ensures { result ≡ nat_lt limit n }
{
    n > u64::from(limit)
}

/// Whether there are as many as there may be.
pub fn is_full(count: usize, limit: u32) -> bool
    ensures { result ≡ nat_le limit count }
{
    count >= limit as usize
}

/// Whether a name is too long.
pub fn is_long(name: &str) -> bool
    ensures { result ≡ is_long name.now }
{
    name.len() > NAME_BYTES as usize
}

/// Whether there is a name, and it is too long.
pub fn is_long_or_none(name: Option<&str>) -> bool
    ensures { result ≡ is_long_or_none (option_copied name.entry) }
{
    match name {
        None => false,
        Some(name) => is_long(name),
    }
}

/// The function that a user's line names for its act.
pub fn act_name<'a>(user: &UserLine<'a>) -> Option<&'a str>
    ensures { option_copied result ≡ option_map act_name (user_read user.now).act }
{
    match user.act {
        None => None,
        Some(UserAct::Call { function }) => Some(function),
        Some(UserAct::Irq { function }) => Some(function),
    }
}

/// Whether a name of a user's line is too long.
pub fn has_long_name(user: &UserLine) -> bool
    ensures { result ≡ has_long_name (user_read user.now) }
{
    is_long(user.name) || is_long_or_none(user.ipmodify) || is_long_or_none(act_name(user))
}

/// Whether a number doesn't fit in 32 bits.
pub fn is_big(n: u64) -> bool
    ensures { result ≡ is_big n }
{
    n > u64::from(u32::MAX)
}

/// Whether nobody can wait for this many acts or commands.
pub fn is_bad_count(n: u64) -> bool
    ensures { result ≡ is_bad_count n }
{
    n == 0 || is_big(n)
}

/// Whether no task can have this pid.
pub fn is_bad_pid(pid: u64) -> bool
    ensures { result ≡ is_bad_pid pid }
{
    pid == 0 || is_above(pid, PID)
}

/// Whether no task can have one of the pids.
pub fn any_bad_pid(list: &[u64]) -> bool
    ensures { result ≡ list_any is_bad_pid list.now }
{
    list.iter().any(|pid| is_bad_pid(*pid))
}

/// Whether no shadow stack can have this many frames.
pub fn is_bad_depth(frames: u64) -> bool
    ensures { result ≡ is_bad_depth frames }
{
    frames == 0 || is_above(frames, FRAMES)
}

/// Whether no trace ring can have this many entries.
pub fn is_bad_ring(entries: u64) -> bool
    ensures { result ≡ is_bad_ring entries }
{
    entries == 0 || is_above(entries, RING)
}

/// Whether no CPU can have this quantum.
pub fn is_bad_quantum(quantum: u64) -> bool
    ensures { result ≡ is_bad_quantum quantum }
{
    quantum == 0 || is_above(quantum, QUANTUM)
}
