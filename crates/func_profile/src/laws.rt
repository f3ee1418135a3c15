//! Which histories have rows, and what the rows add up to.

ghost use Rattle.std.specs.Prelude.{◌≡◌, ℕ, ◌≤◌, List, sum_by};
ghost use Rattle.ft_base.specs.Job.{Job as PlainJob, funcs};
ghost use Rattle.ft_base.specs.WellFormed.{IsWellFormed};
ghost use Rattle.ft_base.specs.declared.item.Item.{Item};
ghost use Rattle.ft_hist.specs.Counts.{backs_of};
ghost use Rattle.ft_hist.specs.Rules.{IsLegal};
ghost use Rattle.func_profile.specs.Rows.{rows_of, HasRows};

/// Each legal history of a job has rows for the job's functions.
pub fn legal_histories_have_rows()
    ensures { (job : PlainJob) (items : List Item) (n : ℕ) → IsWellFormed job → IsLegal job items → funcs job ≤ n → HasRows n items }
{}

/// The hits of the rows add up to the callbacks of the user, which `History::backs` counts: none is
/// lost, and none is counted twice.
pub fn hits_add_up()
    ensures { (items : List Item) (u n : ℕ) → HasRows n items → sum_by (λ row. row.hits) (rows_of items u n) ≡ backs_of u items }
{}
