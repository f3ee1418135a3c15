//! The plain run of a task as a grammar. The rules of a history ([ft_hist]) read a task's items one
//! by one and keep a phase for each open call. Here the same is said without phases: what a
//! *dispatch* is, a *try* of a user in it, a *return*, and a *run* of a task's acts over an ordinary
//! stack of calls. The laws say that both are one: the items of a task are on its plain run exactly
//! if they are a beginning of a run of the grammar. It is a definition and its laws; it has no code.
//!
//! An item is *stamped* with the number of commands that had returned before it, since an act
//! `after N` waits for N of them. A run may stop at any act, so it is one of a beginning of the acts.

ghost use Rattle.std.specs.Prelude.{ℕ, ◌≤◌, List, ◌++◌, AllPairs, IsSome, reverse};
ghost use Rattle.ft_base.specs.Job.{Job as PlainJob};
ghost use Rattle.ft_base.specs.declared.item.Item.{Item};
ghost use Rattle.ft_hist.specs.Plain.{plain};
ghost use Rattle.ft_hist.specs.Rules.{IsLegal};
ghost use Rattle.history_laws.specs.Grammar.{Stamped, IsRunOf, items_of};

/// The items of every run of the grammar are on the task's plain run, and so are those of each
/// beginning of a run.
pub fn every_run_is_plain()
    ensures { (job : PlainJob) (t : ℕ) (past : List Item) (more : List Stamped) → IsRunOf job t (items_of t past ++ more) → IsSome (plain job t past) }
{}

/// And nothing else is: if a task is on its plain run, there are items that, put after its items so
/// far, make a run of the grammar.
pub fn every_plain_run_is_a_beginning_of_a_run()
    ensures { (job : PlainJob) (t : ℕ) (past : List Item) → IsSome (plain job t past) → (more : List Stamped) × IsRunOf job t (items_of t past ++ more) }
{}

/// So in a legal history the items of each task are a beginning of a run of the grammar.
pub fn every_legal_history_keeps_the_grammar()
    ensures { (job : PlainJob) (items : List Item) (t : ℕ) → IsLegal job items → (more : List Stamped) × IsRunOf job t (items_of t (reverse items) ++ more) }
{}

/// The stamps of a task's items never fall: so an act `after N`, for which the next item's stamp is
/// at least N, holds for all items after it.
pub fn stamps_never_fall()
    ensures { (t : ℕ) (past : List Item) → AllPairs (λ x y. x.returned ≤ y.returned) (items_of t past) }
{}
