//! Which items of a history may change places: how far its order can be wrong, as a recorder's may,
//! while it stays legal, and whole if it was.
//!
//! Places are counted, so two neighbours that change theirs change what later exits say of them
//! (`exchanged`), and nothing else. None of the functions does anything: a law is proved where a
//! contract names it.
ghost use Rattle.std.specs.Prelude.{◌≡◌, ◌≢◌, ℕ, false, IsSome, List, ◌∷◌, ◌++◌, Some, reverse};
ghost use Rattle.ft_base.specs.Items.{call_of};
ghost use Rattle.ft_base.specs.Job.{Job as PlainJob};
ghost use Rattle.ft_base.specs.declared.number.CallNo.{CallNo};
ghost use Rattle.ft_base.specs.declared.item.Answer.{Answer};
ghost use Rattle.ft_base.specs.declared.item.Item.{Item};
ghost use Rattle.ft_base.specs.declared.item.Item.TheVariants.{Begin, Return};
ghost use Rattle.ft_hist.specs.Finished.{AreWaitsMet};
ghost use Rattle.ft_hist.specs.Plain.{plain};
ghost use Rattle.history_order.specs.Exchange.{StaysLegal, exchanged, reads_returns, waits_for_begin};

/// The order of two tasks is asked for nowhere: two neighbouring items of different tasks may change
/// places, whatever they are.
pub fn neighbours_of_two_tasks_change_places()
    ensures { (job : PlainJob) (before after : List Item) (x y : Item) (a b : CallNo)
        → call_of x ≡ Some a → call_of y ≡ Some b → a.task.0 ≢ b.task.0
        → StaysLegal job (before ++ x ∷ y ∷ after) (before ++ y ∷ x ∷ exchanged before after) }
{}

/// A command may begin earlier: any item of a task may come after a Begin that followed it, if
/// control's waits are met without it, as they are in each script without `until`.
pub fn a_begin_may_come_earlier()
    ensures { (job : PlainJob) (before after : List Item) (x : Item) (call : CallNo) (k : ℕ)
        → call_of x ≡ Some call → AreWaitsMet job (reverse before)
        → StaysLegal job (before ++ x ∷ Begin k ∷ after) (before ++ Begin k ∷ x ∷ exchanged before after) }
{}

/// A command may begin later than an item that doesn't read what commands have begun: an Enter, the
/// end of a callback, a Miss or a Leave.
pub fn a_begin_may_come_later()
    ensures { (job : PlainJob) (before after : List Item) (x : Item) (call : CallNo) (k : ℕ)
        → call_of x ≡ Some call → waits_for_begin x ≡ false
        → StaysLegal job (before ++ Begin k ∷ x ∷ after) (before ++ x ∷ Begin k ∷ exchanged before after) }
{}

/// A command may return later: any item of a task may come before a Return that it followed, if the
/// plain run of its task has it there, as it has in each script without `after`.
pub fn a_return_may_come_later()
    ensures { (job : PlainJob) (before after : List Item) (x : Item) (call : CallNo) (k : ℕ) (answer : Answer)
        → call_of x ≡ Some call → IsSome (plain job call.task.0 (x ∷ reverse before))
        → StaysLegal job (before ++ Return k answer ∷ x ∷ after) (before ++ x ∷ Return k answer ∷ exchanged before after) }
{}

/// A command may return earlier than an item that reads no returned command and that no Return waits
/// for: a Miss, a Body or a Ret.
pub fn a_return_may_come_earlier()
    ensures { (job : PlainJob) (before after : List Item) (x : Item) (call : CallNo) (k : ℕ) (answer : Answer)
        → call_of x ≡ Some call → reads_returns x ≡ false
        → StaysLegal job (before ++ x ∷ Return k answer ∷ after) (before ++ Return k answer ∷ x ∷ exchanged before after) }
{}
