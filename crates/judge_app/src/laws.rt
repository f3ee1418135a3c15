//! The laws of judging.

ghost use Rattle.std.specs.Prelude.{◌≡◌, ◌<◌, ◌+◌, ◌^◌, ◌++◌, ℕ, length, count_by, Bool, true, List, codes};
ghost use Rattle.ft_base.specs.Job.{Job as PlainJob};
ghost use Rattle.ft_base.specs.declared.item.Item.{Item};
ghost use Rattle.ft_hist.specs.Rules.{IsLegal, IsWhole};
ghost use Rattle.ft_io.specs.declared.status.Status.{Status};
ghost use Rattle.ft_io.specs.declared.status.Status.TheVariants.{Done};
ghost use Rattle.script_jobs.specs.Merges.{IsMergeOf};
ghost use Rattle.ft_script.specs.Script.{IsJobOf};
ghost use Rattle.judge_app.specs.Cut.{IsCut, is_feed, log_line};
ghost use Rattle.judge_app.specs.Judged.{HasLog};
ghost use Rattle.judge_app.specs.Reply.{IsReplyTo};

/// An input has one reply: one status, and one text. The input's length has 64 bits, as that of each in
/// memory.
pub fn an_input_has_one_reply()
    ensures { (input : List ℕ) (status status' : Status) (text text' : List ℕ) → length input < 2 ^ 64
        → IsReplyTo input status text → IsReplyTo input status' text' → (status ≡ status') × (text ≡ text') }
{}

/// An input that has a script, a line `log` and a log is cut there: a script ends with a line feed, and has
/// no such line.
pub fn inputs_are_cut_below_their_scripts()
    ensures { (script log : List ℕ) (job : PlainJob) → IsJobOf script job
        → IsCut (script ++ (log_line ++ log)) script log (count_by is_feed script + 2) }
{}

/// What a replay prints is judged legal: the log of a legal history of a script's job, whose commands go as
/// the script has them, has status 0, if its last line says that it has ended only if it is whole. So it is
/// with lanes, too, and where the history was stopped early.
pub fn printed_logs_are_judged_legal()
    ensures { (input : List ℕ) (job : PlainJob) (items : List Item) (ended : Bool) (status : Status) (text : List ℕ)
        (log : HasLog input job items ended) → length input < 2 ^ 64 → job ≡ log.job → IsLegal job items
        → (ended ≡ true → IsWhole job items) → IsReplyTo input status text → status ≡ Done }
{}

/// And what is printed of a run is judged whole, in whatever order the commands of its lanes went: the log
/// tells the order.
pub fn whole_logs_are_judged_whole()
    ensures { (input : List ℕ) (led : PlainJob) (items : List Item) (ended : Bool) (status : Status) (text : List ℕ)
        (log : HasLog input led items ended) → length input < 2 ^ 64 → IsMergeOf log.job led → IsWhole led items
        → IsReplyTo input status text → (status ≡ Done) × (text ≡ codes "whole\n") }
{}

/// The other way round, a log with status 0 is that of a legal history of its script, with its commands in an
/// order of the lanes; and of a whole one if its last line says that it has ended.
pub fn what_has_status_0_is_legal()
    ensures { (input text : List ℕ) → IsReplyTo input Done text
        → (led : PlainJob) × (items : List Item) × (ended : Bool) × (log : HasLog input led items ended)
        × IsMergeOf log.job led × IsLegal led items × (ended ≡ true → IsWhole led items) }
{}

/// And a log that is called whole is that of a whole history of its script, with its commands in an order of
/// the lanes.
pub fn what_is_called_whole_is_whole()
    ensures { (input : List ℕ) → IsReplyTo input Done (codes "whole\n")
        → (led : PlainJob) × (items : List Item) × (ended : Bool) × (log : HasLog input led items ended)
        × IsMergeOf log.job led × IsWhole led items }
{}
