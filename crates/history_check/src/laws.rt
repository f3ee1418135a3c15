//! The law of what is checked of histories.

ghost use Rattle.std.specs.Prelude.{◌≡◌, List, ◌↔◌};
ghost use Rattle.ft_base.specs.Job.{Job as PlainJob};
ghost use Rattle.ft_base.specs.declared.item.Item.{Item};
ghost use Rattle.ft_hist.specs.Rules.{IsLegal, MayFollow};
ghost use Rattle.history_check.specs.declared.verdict.Rule.{Rule};
ghost use Rattle.history_check.specs.declared.verdict.Verdict.{Verdict};
ghost use Rattle.history_check.specs.Backs.{AreBacksLegal};
ghost use Rattle.history_check.specs.Parts.{Keeps};
ghost use Rattle.history_check.specs.Verdicts.{IsVerdict};

/// Each legal history keeps the rules of callbacks and of silence, which `backs_legal` checks.
pub fn legal_histories_keep_backs()
    ensures { (job : PlainJob) (items : List Item) → IsLegal job items → AreBacksLegal job items }
{}

/// An item may stand after a past exactly if it keeps each part of legality.
pub fn legality_is_its_parts()
    ensures { (job : PlainJob) (past : List Item) (item : Item) → MayFollow job past item ↔ ((rule : Rule) → Keeps rule job past item) }
{}

/// There is one verdict at most on a history: whether it is whole, and otherwise at which place it breaks
/// which part first, if it does.
pub fn a_history_has_one_verdict()
    ensures { (job : PlainJob) (items : List Item) (v w : Verdict) → IsVerdict job items v → IsVerdict job items w → v ≡ w }
{}
