//! What a conflict means to a desk, for readers and for the layers above. The law is a function
//! whose clause says it.

ghost use Rattle.std.specs.Prelude.{◌≡◌, ℕ, List};
ghost use Rattle.ft_base.specs.Marks.{Marks};
ghost use Rattle.ft_base.specs.Job.{Job};
ghost use Rattle.ft_base.specs.Desk.{Desk, claim};
ghost use Rattle.ipmodify.specs.declared.conflicts.Holder.{Holder};
ghost use Rattle.ipmodify.specs.Conflicts.{conflict_of};
ghost use Rattle.ipmodify.specs.OnDesk.{answer_of, AreHolders, IsMatched};

/// A desk that keeps the holder of each user answers a user's claim with the first conflict, if
/// there is one.
pub fn claims_as_on_a_desk()
    ensures { (job : Job) (desk : Desk) (u : ℕ) (filter notrace on : Marks) (holders : List Holder)
        → IsMatched job filter notrace on → AreHolders job desk holders
        → answer_of (conflict_of on holders u) ≡ claim job desk u filter notrace }
{}
