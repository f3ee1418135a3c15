//! Laws of the printed log.

ghost use Rattle.std.specs.Prelude.{◌≡◌, ◌<◌, ◌^◌, Bool, List, length};
ghost use Rattle.std.specs.List.{AllByRecursion as Each};
ghost use Rattle.ft_base.specs.Job.{Job as PlainJob};
ghost use Rattle.ft_base.specs.declared.item.Item.{Item};
ghost use Rattle.trace_lines.specs.LogItems.{AreInLanesAlike, AreNamedAlike, IsItemOf, IsNamedApart};
ghost use Rattle.trace_views.specs.LogText.{log_text};

/// The log tells its history: for a job whose names and pids differ, and items that have numbers of the
/// job, equal texts come from equal histories and equal ends. `script_jobs` says that scripts have such
/// jobs and items. So what is said of a history is said of the text that was written.
pub fn log_tells_its_history()
    ensures { (job : PlainJob) (a b : List Item) (x y : Bool) → IsNamedApart job
        → Each (IsItemOf job) a → Each (IsItemOf job) b → length a < 2 ^ 64 → length b < 2 ^ 64
        → log_text job a x ≡ log_text job b y → (a ≡ b) × (x ≡ y) }
{}

/// The log tells lanes, too: if jobs have the same functions, users and tasks, whatever their lines and
/// lanes, equal texts come from equal histories, in which each command that begins has the same lane.
pub fn log_tells_its_lanes()
    ensures { (job other : PlainJob) (a b : List Item) (x y : Bool) → AreNamedAlike job other
        → IsNamedApart job → IsNamedApart other → Each (IsItemOf job) a → Each (IsItemOf other) b
        → length a < 2 ^ 64 → length b < 2 ^ 64 → log_text job a x ≡ log_text other b y
        → (a ≡ b) × (x ≡ y) × AreInLanesAlike job other a }
{}
