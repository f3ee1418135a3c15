//! What `ftcore` writes, `ftjudge` calls legal.
//!
//! `ft_app` says what a call of `ftcore` with status 0 has read and written (`HasRun`), and `judge_app`
//! what `ftjudge` answers to an input (`IsReplyTo`). Neither program knows of the other, so the law that
//! joins them stands above both. There is no code, and no definition.
#![tactic(auto)]

ghost use Rattle.std.specs.Prelude.{◌≡◌, ◌<◌, ◌^◌, ◌++◌, ℕ, List, [], Option, Some, length, codes};
ghost use Rattle.ft_io.specs.declared.status.Status.{Status};
ghost use Rattle.ft_io.specs.declared.status.Status.TheVariants.{Done};
ghost use Rattle.ft_words.specs.declared.order.Form.TheVariants.{Log};
ghost use Rattle.ft_words.specs.declared.order.Order.{Order};
ghost use Rattle.ft_words.specs.declared.order.Order.TheVariants.{Run};
ghost use Rattle.ft_app.specs.Main.{HasRun, IsLogged};
ghost use Rattle.judge_app.specs.Cut.{log_line};
ghost use Rattle.judge_app.specs.Reply.{IsReplyTo};

/// A log that `ftcore` has written, put below its script and a line `log`, has status 0, and that of a run
/// is called whole. The order asks for the form log, and the sink was empty and tells its bytes. The input's
/// length has 64 bits.
pub fn what_is_written_is_judged_legal()
    ensures legal { (order : Order) (remaining remaining' : Option (List ℕ)) (written : List ℕ)
        (run : HasRun order remaining remaining' (Some []) (Some written)) (status : Status) (text : List ℕ)
        → IsLogged order → length (run.script ++ (log_line ++ written)) < 2 ^ 64
        → IsReplyTo (run.script ++ (log_line ++ written)) status text → status ≡ Done }
    ensures whole { (remaining remaining' : Option (List ℕ)) (written : List ℕ)
        (run : HasRun (Run Log) remaining remaining' (Some []) (Some written)) (status : Status) (text : List ℕ)
        → length (run.script ++ (log_line ++ written)) < 2 ^ 64
        → IsReplyTo (run.script ++ (log_line ++ written)) status text → text ≡ codes "whole\n" }
{}
