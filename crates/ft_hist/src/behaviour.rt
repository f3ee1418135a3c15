//! What else a legal history promises, in its reader's words: in which order the users of a call
//! come, who is let in, what runs, how commands go, and what *whole* means. The sentence that the
//! laws of `theorems` quote doesn't speak of it; docs/RULES.md does.
//!
//! None of the functions does anything: a law is proved where a contract names it.
ghost use Rattle.std.specs.Prelude.{◌≡◌, ◌≢◌, ◌↔◌, ◌⊎◌, ℕ, suc, ◌<◌, ◌≤◌, true, false, ◌==◌, List, ◌∷◌, ◌++◌, Option, Some, get_or, is_some, length, reverse, slice_get};
ghost use Rattle.std.specs.List.{list_any};
ghost use Rattle.ft_base.specs.Job.{Job as PlainJob, Command, commands, no_task};
ghost use Rattle.ft_base.specs.Desk.{answer_at, spec_at};
ghost use Rattle.ft_base.specs.declared.context.Ctx.{Ctx};
ghost use Rattle.ft_base.specs.declared.number.CallNo.{CallNo};
ghost use Rattle.ft_base.specs.declared.number.FuncNo.{FuncNo};
ghost use Rattle.ft_base.specs.declared.number.UserNo.{UserNo};
ghost use Rattle.ft_base.specs.declared.item.Answer.{Answer};
ghost use Rattle.ft_base.specs.declared.item.Ran.{Ran};
ghost use Rattle.ft_base.specs.declared.item.Ran.TheVariants.{Nop, Own};
ghost use Rattle.ft_base.specs.declared.item.Item.{Item};
ghost use Rattle.ft_base.specs.declared.item.Item.TheVariants.{Begin, Return, Enter, Back, Body};
ghost use Rattle.ft_hist.specs.Finished.{calls_and_returns, finished};
ghost use Rattle.ft_hist.specs.Past.{begun, done};
ghost use Rattle.ft_hist.specs.Rules.{IsLegal, IsWhole};
ghost use Rattle.ft_hist.specs.Telling.{is_begin_by, is_command, is_end_by, is_ret_of, is_return_of, is_visit_by, since_at};

/// The users of a call come the latest registered first: of two callbacks or refusals in a call,
/// the later one is of the user that was registered by the earlier command.
pub fn users_come_the_latest_registered_first()
    ensures { (job : PlainJob) (items first second third : List Item) (x y : Item) (call : CallNo) (u v : ℕ)
        → IsLegal job items → items ≡ first ++ x ∷ (second ++ y ∷ third)
        → is_visit_by call u x ≡ true → is_visit_by call v y ≡ true
        → since_at job call v (first ++ x ∷ second) < since_at job call u first }
{}

/// A call that fetched the nop calls back and refuses nobody, and one that fetched a user's own
/// trampoline nobody but that user.
pub fn the_site_lets_in()
    ensures nop { (job : PlainJob) (items first second rest : List Item) (x : Item) (call : CallNo) (u : ℕ) (g : FuncNo)
        → IsLegal job items → items ≡ first ++ x ∷ (second ++ Body call g Nop ∷ rest) → is_visit_by call u x ≡ false }
    ensures own { (job : PlainJob) (items first second rest : List Item) (x : Item) (call : CallNo) (u : ℕ) (g : FuncNo) (user : UserNo)
        → IsLegal job items → items ≡ first ++ x ∷ (second ++ Body call g (Own user) ∷ rest) → is_visit_by call u x ≡ true → u ≡ user.0 }
{}

/// What runs: the replacement of a user that was called back in the call, if one of them has one;
/// at most one does. Else the function that was called.
pub fn the_replacement_runs()
    ensures replaced { (job : PlainJob) (items first mid rest : List Item) (call : CallNo) (user : UserNo) (g h : FuncNo) (ran : Ran)
        → IsLegal job items → items ≡ first ++ Back call user ∷ (mid ++ Body call g ran ∷ rest) → (spec_at job user.0).ipmodify ≡ Some h → g ≡ h }
    ensures once { (job : PlainJob) (items a b c d : List Item) (call : CallNo) (u v : UserNo) (g : FuncNo) (ran : Ran)
        → IsLegal job items → items ≡ a ++ Back call u ∷ (b ++ Back call v ∷ (c ++ Body call g ran ∷ d))
        → is_some (spec_at job u.0).ipmodify ≡ true → is_some (spec_at job v.0).ipmodify ≡ false }
    ensures own { (job : PlainJob) (items before mid rest : List Item) (call : CallNo) (ctx : Ctx) (f g : FuncNo) (caller : Option CallNo) (ran : Ran)
        → IsLegal job items → items ≡ before ++ Enter call ctx f caller ∷ (mid ++ Body call g ran ∷ rest)
        → ((a b : List Item) (user : UserNo) → before ++ Enter call ctx f caller ∷ mid ≡ a ++ Back call user ∷ b → is_some (spec_at job user.0).ipmodify ≡ false)
        → g ≡ f }
{}

/// Commands go one by one, in order: a Begin comes if all commands that have begun have returned,
/// and is the next one's. A Return is that of the latest Begin, with no mark of a command between,
/// and has the answer of the desk after the commands before it.
pub fn commands_go_one_by_one()
    ensures begins { (job : PlainJob) (items first rest : List Item) (k : ℕ)
        → IsLegal job items → items ≡ first ++ Begin k ∷ rest
        → (begun (reverse first) ≡ done (reverse first)) × (k ≡ suc (done (reverse first))) × (k ≤ length (commands job)) }
    ensures returns { (job : PlainJob) (items first rest : List Item) (k : ℕ) (answer : Answer)
        → IsLegal job items → items ≡ first ++ Return k answer ∷ rest
        → (a : List Item) × (b : List Item) × (first ≡ a ++ Begin k ∷ b) × (list_any is_command b ≡ false)
        × (c : Command) × (k ≡ suc (done (reverse first))) × (slice_get (commands job) (done (reverse first)) ≡ Some c) × (answer ≡ answer_at job (done (reverse first)) c) }
{}

/// A whole history has the Return of every command; each task has finished as many calls and returns
/// as its acts have, by calls that were entered outside of any callback of it; each call in it has
/// returned, and each callback has ended.
pub fn nothing_is_left_of_a_whole_history()
    ensures commands { (job : PlainJob) (items : List Item) (k : ℕ)
        → IsWhole job items → k < length (commands job) → list_any (is_return_of (suc k)) items ≡ true }
    ensures acts { (job : PlainJob) (items : List Item) (t : ℕ)
        → IsWhole job items → t < length job.tasks → finished t (reverse items) ≡ calls_and_returns (get_or job.tasks t no_task).acts }
    ensures calls { (job : PlainJob) (items a b : List Item) (call : CallNo) (ctx : Ctx) (f : FuncNo) (caller : Option CallNo)
        → IsWhole job items → items ≡ a ++ Enter call ctx f caller ∷ b → list_any (is_ret_of call) b ≡ true }
    ensures callbacks { (job : PlainJob) (items a b : List Item) (x : Item) (call : CallNo) (u : ℕ)
        → IsWhole job items → items ≡ a ++ x ∷ b → is_begin_by call u x ≡ true → list_any (is_end_by call u) b ≡ true }
{}
