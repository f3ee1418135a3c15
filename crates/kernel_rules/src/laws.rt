//! The laws of the profile.
//!
//! None of the functions does anything: a law is proved where a contract names it.

ghost use Rattle.std.specs.Prelude.{ℕ, ◌↔◌, List, map, reverse};
ghost use Rattle.ft_base.specs.Job.{Job as PlainJob};
ghost use Rattle.ft_base.specs.declared.item.Item.{Item};
ghost use Rattle.ft_hist.specs.Rules as strict;
ghost use Rattle.kernel_rules.specs.declared.line.ExitOrder.{ExitOrder};
ghost use Rattle.kernel_rules.specs.declared.line.ExitOrder.TheVariants.{AsEntered};
ghost use Rattle.kernel_rules.specs.declared.line.Line.{Line};
ghost use Rattle.kernel_rules.specs.Direct.{AreLegal, AreWhole, item_of};
ghost use Rattle.kernel_rules.specs.Parts.{CanKeep, KeepsFirst};
ghost use Rattle.kernel_rules.specs.Recorded.{IsLegalLog, IsWholeLog, seen_lines};
ghost use Rattle.kernel_rules.specs.Rules.{IsLegal, IsWhole};

/// Each legal history is legal under the profile, and each whole one whole.
pub fn legal_histories_are_legal_under_the_profile()
    ensures legal { (job : PlainJob) (items : List Item) → strict.IsLegal job items → IsLegal AsEntered job items }
    ensures whole { (job : PlainJob) (items : List Item) → strict.IsWhole job items → IsWhole AsEntered job items }
{}

/// So its log is legal if nothing is left out, and that of a whole one whole.
pub fn logs_of_legal_histories_are_legal()
    ensures legal { (job : PlainJob) (items : List Item) → strict.IsLegal job items → IsLegalLog AsEntered job (seen_lines items) }
    ensures whole { (job : PlainJob) (items : List Item) → strict.IsWhole job items → IsWholeLog AsEntered job (seen_lines items) }
{}

/// A log tells a legal history exactly if its lines are legal, of which each is judged by the lines before it;
/// and it tells a whole one exactly if besides they are at their end. So the first part that a line breaks, however
/// what the log lacks is filled in, is the first that it breaks by the lines alone.
pub fn a_log_is_legal_by_its_lines()
    ensures legal { (by : ExitOrder) (job : PlainJob) (log : List Line) → IsLegalLog by job log ↔ AreLegal by job (reverse log) }
    ensures whole { (by : ExitOrder) (job : PlainJob) (log : List Line) → IsWholeLog by job log ↔ AreWhole by job (reverse log) }
    ensures parts { (n : ℕ) (by : ExitOrder) (job : PlainJob) (lines : List Line) (line : Line) → AreLegal by job lines
        → CanKeep n by job lines line ↔ KeepsFirst n by job (map item_of lines) line }
{}
