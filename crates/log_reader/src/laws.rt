//! The laws of reading.

ghost use Rattle.std.specs.Prelude.{◌≡◌, ℕ, suc, ◌<◌, ◌^◌, ◌==◌, Bool, List, length, count_by};
ghost use Rattle.std.specs.List.{AllByRecursion as Each};
ghost use Rattle.ft_base.specs.Job.{Job as PlainJob};
ghost use Rattle.ft_base.specs.declared.item.Item.{Item};
ghost use Rattle.trace_lines.specs.LogItems.{IsNamedApart};
ghost use Rattle.trace_views.specs.LogText.{log_lines, log_text};
ghost use Rattle.log_reader.specs.Lanes.{lanes_begun, lanes_named};
ghost use Rattle.log_reader.specs.Refused.{IsNumbered, IsRefusedAt};

/// What is written is read: for a job whose names and pids differ, the text of items of the job is
/// refused at no line. So [`read_log`](crate::read_log) gives items and an end with that text, which by
/// the laws of `trace_lines` are those that were written, or memory ran out.
pub fn logs_are_not_refused()
    ensures { (job : PlainJob) (items : List Item) (ended : Bool) (n : ℕ) → IsNamedApart job
        → Each (IsNumbered job) items → length items < 2 ^ 64
        → ¬ IsRefusedAt job (log_text job items ended) n }
{}

/// Any other text is refused at one line alone. Its number, from 1, is one more than there are line feeds
/// in the items' lines above it.
pub fn a_text_is_refused_at_one_line()
    ensures one { (job : PlainJob) (text : List ℕ) (n m : ℕ) → IsNamedApart job → length text < 2 ^ 64
        → IsRefusedAt job text n → IsRefusedAt job text m → n ≡ m }
    ensures number { (job : PlainJob) (text : List ℕ) (n : ℕ) (refused : IsRefusedAt job text n) → IsNamedApart job
        → length text < 2 ^ 64 → suc (count_by (λ b. b == 10) (log_lines job 0 refused.items)) ≡ n }
{}

/// A log names the lanes of the commands that begin among its items, in their order, if each lane has
/// 32 bits.
pub fn a_log_names_the_lanes_that_begin()
    ensures { (job : PlainJob) (items : List Item) (ended : Bool) → IsNamedApart job
        → Each (λ lane. lane < 2 ^ 32) job.lines.lanes → Each (IsNumbered job) items → length items < 2 ^ 64
        → lanes_named (log_text job items ended) ≡ lanes_begun job items }
{}
