//! What a legal history promises, in its reader's words. Each law says what follows if items come
//! in this order in a legal history, and quotes the part of the promise that it is:
//!
//! > each call whose dispatch is over has called back, once each, every user that was on from its
//! > entry to its dispatch and none that was off throughout, save those refused by a named
//! > recursion, pid or depth rule; no callback begins after its user's unregistration has
//! > returned, unless a new registration has begun; every return reaches its true caller; every
//! > fetched site is whole; a full shadow stack leaves that call without an exit.
//!
//! None of the functions does anything: a law is proved where a contract names it.
ghost use Rattle.std.specs.Prelude.{◌≡◌, ◌≢◌, ◌↔◌, ◌⊎◌, ℕ, suc, ◌<◌, ◌≤◌, true, false, ◌==◌, List, ◌∷◌, ◌++◌, Option, Some, length, reverse, slice_get};
ghost use Rattle.std.specs.List.{list_any};
ghost use Rattle.ft_base.specs.Job.{Job as PlainJob, Command, Register, Unregister, commands};
ghost use Rattle.ft_base.specs.Versions.{levels};
ghost use Rattle.ft_base.specs.Desk.{desk, is_on, is_allowed, is_live, spec_at, target};
ghost use Rattle.ft_base.specs.Kinds.{cancels, has_depth, has_exit, wants_frame};
ghost use Rattle.ft_base.specs.Items.{call_of};
ghost use Rattle.ft_base.specs.WellFormed.{IsWellFormed};
ghost use Rattle.ft_base.specs.declared.context.Ctx.{Ctx};
ghost use Rattle.ft_base.specs.declared.number.CallNo.{CallNo};
ghost use Rattle.ft_base.specs.declared.number.FuncNo.{FuncNo};
ghost use Rattle.ft_base.specs.declared.number.UserNo.{UserNo};
ghost use Rattle.ft_base.specs.declared.item.Answer.TheVariants.{Accepted};
ghost use Rattle.ft_base.specs.declared.item.Ran.{Ran};
ghost use Rattle.ft_base.specs.declared.item.Reason.{Reason};
ghost use Rattle.ft_base.specs.declared.item.Reason.TheVariants.{Pid as ByPid, Recursion, Depth};
ghost use Rattle.ft_base.specs.declared.item.Item.{Item};
ghost use Rattle.ft_base.specs.declared.item.Item.TheVariants.{Return, Enter, Back, Refuse, Miss, Body, Exit, Ret};
ghost use Rattle.ft_hist.specs.Past.{begun, held, is_of, open_callbacks, user_now, AreFramesHeld, IsFrameLeft};
ghost use Rattle.ft_hist.specs.Rules.{AtReturnedOrBegun, IsLegal, MayFollow};
ghost use Rattle.ft_hist.specs.Telling.{AtEachCommand, AtSomeCommand, MayLackExit, TakesOff, is_begin_by, is_end_by, is_exit_for, is_ret_of, is_visit_by, open_calls};

/// A history is legal exactly if each of its items, wherever the list is split at it, may come
/// after the items before it. What comes later plays no part.
pub fn legal_at_every_place()
    ensures { (job : PlainJob) (items : List Item) → IsLegal job items
        ↔ ((before : List Item) (item : Item) (after : List Item) → items ≡ before ++ item ∷ after → MayFollow job (reverse before) item) }
{}

/// So each beginning of a legal history is legal.
pub fn legal_beginnings()
    ensures { (job : PlainJob) (front rest : List Item) → IsLegal job (front ++ rest) → IsLegal job front }
{}

/// "called back, once each": of two callbacks or refusals in a call, no two are of one user.
pub fn visits_are_once_each()
    ensures { (job : PlainJob) (items first second third : List Item) (x y : Item) (call : CallNo) (u : ℕ)
        → IsLegal job items → items ≡ first ++ x ∷ (second ++ y ∷ third)
        → is_visit_by call u x ≡ true → is_visit_by call u y ≡ false }
{}

/// "every user that was on from its entry to its dispatch": between a call's Enter and its Body
/// there is a callback or a refusal of each user that was on after each command of that window.
pub fn visits_whoever_was_on()
    ensures { (job : PlainJob) (items before mid rest : List Item) (call : CallNo) (ctx : Ctx) (f : FuncNo) (caller : Option CallNo) (g : FuncNo) (ran : Ran) (u : ℕ)
        → IsLegal job items → items ≡ before ++ Enter call ctx f caller ∷ (mid ++ Body call g ran ∷ rest) → u < length job.users
        → let here = before ++ Enter call ctx f caller ∷ mid in AtEachCommand before here (λ k. is_on (desk job k) u f.0 ≡ true)
        → list_any (is_visit_by call u) mid ≡ true }
{}

/// "and none that was off throughout": a user that is called back or refused in a call was on
/// after some command of the window from the call's Enter to there.
pub fn visits_nobody_who_was_off()
    ensures back { (job : PlainJob) (items before mid rest : List Item) (call : CallNo) (ctx : Ctx) (f : FuncNo) (caller : Option CallNo) (user : UserNo)
        → IsLegal job items → items ≡ before ++ Enter call ctx f caller ∷ (mid ++ Back call user ∷ rest)
        → let here = before ++ Enter call ctx f caller ∷ mid in AtSomeCommand before here (λ k. is_on (desk job k) user.0 f.0 ≡ true) }
    ensures refuse { (job : PlainJob) (items before mid rest : List Item) (call : CallNo) (ctx : Ctx) (f : FuncNo) (caller : Option CallNo) (user : UserNo) (reason : Reason)
        → IsLegal job items → items ≡ before ++ Enter call ctx f caller ∷ (mid ++ Refuse call user reason ∷ rest)
        → let here = before ++ Enter call ctx f caller ∷ mid in AtSomeCommand before here (λ k. is_on (desk job k) user.0 f.0 ≡ true) }
{}

/// "save those refused by a named .. pid .. rule": the user has the pid flag, and the task was not
/// allowed after some command of the window.
pub fn refused_for_its_pid()
    ensures { (job : PlainJob) (items before mid rest : List Item) (call : CallNo) (ctx : Ctx) (f : FuncNo) (caller : Option CallNo) (user : UserNo)
        → IsLegal job items → items ≡ before ++ Enter call ctx f caller ∷ (mid ++ Refuse call user ByPid ∷ rest)
        → let here = before ++ Enter call ctx f caller ∷ mid in ((spec_at job user.0).pid ≡ true) × AtSomeCommand before here (λ k. is_allowed (desk job k) call.task.0 ≡ false) }
{}

/// Whoever is called back passed these rules: after some command of the window the task was allowed,
/// if the user has the pid flag; and a graph or profile user found a frame, and was within the graph
/// depth after some command of it.
pub fn called_back_within_the_rules()
    ensures pid { (job : PlainJob) (items before mid rest : List Item) (call : CallNo) (ctx : Ctx) (f : FuncNo) (caller : Option CallNo) (user : UserNo)
        → IsLegal job items → items ≡ before ++ Enter call ctx f caller ∷ (mid ++ Back call user ∷ rest) → (spec_at job user.0).pid ≡ true
        → let here = before ++ Enter call ctx f caller ∷ mid in AtSomeCommand before here (λ k. is_allowed (desk job k) call.task.0 ≡ true) }
    ensures depth { (job : PlainJob) (items before mid rest : List Item) (call : CallNo) (ctx : Ctx) (f : FuncNo) (caller : Option CallNo) (user : UserNo)
        → IsLegal job items → items ≡ before ++ Enter call ctx f caller ∷ (mid ++ Back call user ∷ rest) → has_depth (spec_at job user.0).kind ≡ true
        → let here = before ++ Enter call ctx f caller ∷ mid in IsFrameLeft job (reverse here) call
        × AtSomeCommand before here (λ k. ((desk job k).depth ≡ 0) ⊎ (held job call (reverse here) < (desk job k).depth)) }
{}

/// "save those refused by a named recursion .. rule": all levels of the guard are held there, by as
/// many open callbacks of the task and context; and at a callback, as at a refusal for depth, one is
/// free. There is one level in version 1, and two are there in version 2.
pub fn refused_in_a_callback()
    ensures refuse { (job : PlainJob) (items before mid rest : List Item) (call : CallNo) (ctx : Ctx) (f : FuncNo) (caller : Option CallNo) (user : UserNo)
        → IsLegal job items → items ≡ before ++ Enter call ctx f caller ∷ (mid ++ Refuse call user Recursion ∷ rest)
        → let here = before ++ Enter call ctx f caller ∷ mid in levels job ≤ open_callbacks call.task.0 ctx (reverse here) }
    ensures back { (job : PlainJob) (items before mid rest : List Item) (call : CallNo) (ctx : Ctx) (f : FuncNo) (caller : Option CallNo) (user : UserNo)
        → IsLegal job items → items ≡ before ++ Enter call ctx f caller ∷ (mid ++ Back call user ∷ rest)
        → let here = before ++ Enter call ctx f caller ∷ mid in open_callbacks call.task.0 ctx (reverse here) < levels job }
{}

/// "save those refused by a named .. depth rule": a graph or profile user, a level of the guard of the
/// task and context is free, and the task's other calls hold all frames, or as many as the graph
/// depth after some command of the window.
pub fn refused_for_depth()
    ensures { (job : PlainJob) (items before mid rest : List Item) (call : CallNo) (ctx : Ctx) (f : FuncNo) (caller : Option CallNo) (user : UserNo)
        → IsLegal job items → items ≡ before ++ Enter call ctx f caller ∷ (mid ++ Refuse call user Depth ∷ rest)
        → let here = before ++ Enter call ctx f caller ∷ mid in (open_callbacks call.task.0 ctx (reverse here) < levels job)
        × (has_depth (spec_at job user.0).kind ≡ true)
        × (AreFramesHeld job (reverse here) call
        ⊎ AtSomeCommand before here (λ k. (0 < (desk job k).depth) × ((desk job k).depth ≤ held job call (reverse here)))) }
{}

/// "no callback begins after its user's unregistration has returned, unless a new registration has
/// begun": neither an entry callback nor an exit callback.
pub fn silent_after_unregistration()
    ensures back { (job : PlainJob) (items first second third : List Item) (k : ℕ) (call : CallNo) (user : UserNo)
        → IsWellFormed job → IsLegal job items → slice_get (commands job) k ≡ Some (Unregister user.0)
        → ((j : ℕ) → suc k ≤ j → j < begun (reverse (first ++ Return (suc k) Accepted ∷ second)) → slice_get (commands job) j ≢ Some (Register user.0))
        → items ≢ first ++ Return (suc k) Accepted ∷ (second ++ Back call user ∷ third) }
    ensures exit { (job : PlainJob) (items first second third : List Item) (k : ℕ) (call : CallNo) (user : UserNo) (entry : ℕ)
        → IsWellFormed job → IsLegal job items → slice_get (commands job) k ≡ Some (Unregister user.0)
        → ((j : ℕ) → suc k ≤ j → j < begun (reverse (first ++ Return (suc k) Accepted ∷ second)) → slice_get (commands job) j ≢ Some (Register user.0))
        → items ≢ first ++ Return (suc k) Accepted ∷ (second ++ Exit call user entry ∷ third) }
{}

/// And none is open there: a callback of a user that began before its unregistration or its
/// disabling has returned has ended before that.
pub fn no_callback_outlasts_its_user()
    ensures { (job : PlainJob) (items a b rest : List Item) (x : Item) (k : ℕ) (call : CallNo) (u : ℕ) (c : Command)
        → IsLegal job items → items ≡ (a ++ x ∷ b) ++ Return (suc k) Accepted ∷ rest → is_begin_by call u x ≡ true
        → slice_get (commands job) k ≡ Some c → TakesOff c u → list_any (is_end_by call u) b ≡ true }
{}

/// An exit callback belongs to the entry callback at its entry, of the same call and user, and the
/// registration of that entry callback is live: a new registration revives no old frame.
pub fn exits_belong_to_their_registration()
    ensures { (job : PlainJob) (items first rest : List Item) (call : CallNo) (user : UserNo) (entry : ℕ)
        → IsLegal job items → items ≡ first ++ Exit call user entry ∷ rest
        → (a : List Item) × (b : List Item) × (first ≡ a ++ Back call user ∷ b) × (length a ≡ entry)
        × AtReturnedOrBegun (reverse first) (λ k. is_live (desk job k) user.0 (user_now job call user.0 (reverse a)).reg ≡ true) }
{}

/// The user of an exit has one and doesn't cancel it, and its entry callback found a frame.
pub fn exits_are_set_up()
    ensures { (job : PlainJob) (items first rest : List Item) (call : CallNo) (user : UserNo) (entry : ℕ)
        → IsLegal job items → items ≡ first ++ Exit call user entry ∷ rest
        → (wants_frame (spec_at job user.0).kind ≡ true) × (cancels (spec_at job user.0).kind ≡ false)
        × (a : List Item) × (b : List Item) × (first ≡ a ++ Back call user ∷ b) × (length a ≡ entry) × IsFrameLeft job (reverse a) call }
{}

/// An entry callback has at most one exit, and exits come in the order of their entry callbacks.
pub fn exits_come_in_order()
    ensures { (job : PlainJob) (items a b c : List Item) (call : CallNo) (user user' : UserNo) (entry entry' : ℕ)
        → IsLegal job items → items ≡ a ++ Exit call user entry ∷ (b ++ Exit call user' entry' ∷ c) → entry < entry' }
{}

/// And an exit finds a level of the guard: where it begins, fewer callbacks of its task and context
/// are open than a guard has levels. A machine whose exits take a level, as its entry callbacks do,
/// needs this, since no exit may be refused.
pub fn exits_find_a_level()
    ensures { (job : PlainJob) (items before mid rest : List Item) (call : CallNo) (ctx : Ctx) (f : FuncNo) (caller : Option CallNo) (user : UserNo) (entry : ℕ)
        → IsLegal job items → items ≡ before ++ Enter call ctx f caller ∷ (mid ++ Exit call user entry ∷ rest)
        → let here = before ++ Enter call ctx f caller ∷ mid in open_callbacks call.task.0 ctx (reverse here) < levels job }
{}

/// An exit is lacking only for a reason: at a call's Ret, each entry callback of it has had its
/// exit, or its user has none or cancels it, or the shadow stack was full, or the registration was
/// not live after some command since the Leave.
pub fn exits_lack_only_for_a_reason()
    ensures { (job : PlainJob) (items first second rest : List Item) (call : CallNo) (user : UserNo) (to : Option CallNo)
        → IsLegal job items → items ≡ first ++ Back call user ∷ (second ++ Ret call to ∷ rest)
        → (list_any (is_exit_for call (length first)) (first ++ Back call user ∷ second) ≡ true) ⊎ MayLackExit job first second call user }
{}

/// A task never has more frames than there are: its other calls hold at most these.
pub fn frames_are_never_exceeded()
    ensures { (job : PlainJob) (items : List Item) (call : CallNo) → IsLegal job items → held job call (reverse items) ≤ job.frames }
{}

/// "a full shadow stack leaves that call without an exit": if the task's other calls hold all frames
/// where a user is called back, the user is no graph or profile user, that callback never has an
/// exit, and if the user has an exit handler, its Miss is the next item of the task. A Miss comes
/// there alone.
pub fn a_full_stack_leaves_no_exit()
    ensures kind { (job : PlainJob) (items first rest : List Item) (call : CallNo) (user : UserNo)
        → IsLegal job items → items ≡ first ++ Back call user ∷ rest → AreFramesHeld job (reverse first) call
        → has_depth (spec_at job user.0).kind ≡ false }
    ensures exit { (job : PlainJob) (items first rest : List Item) (call : CallNo) (user : UserNo)
        → IsLegal job items → items ≡ first ++ Back call user ∷ rest → AreFramesHeld job (reverse first) call
        → list_any (is_exit_for call (length first)) rest ≡ false }
    ensures miss { (job : PlainJob) (items first mid rest : List Item) (call : CallNo) (user : UserNo) (x : Item)
        → IsLegal job items → items ≡ first ++ Back call user ∷ (mid ++ x ∷ rest) → AreFramesHeld job (reverse first) call
        → has_exit (spec_at job user.0).kind ≡ true → list_any (is_of call.task.0) mid ≡ false → is_of call.task.0 x ≡ true → x ≡ Miss call user }
    ensures alone { (job : PlainJob) (items first rest : List Item) (call : CallNo) (user : UserNo)
        → IsLegal job items → items ≡ first ++ Miss call user ∷ rest
        → (a : List Item) × (b : List Item) × (first ≡ a ++ Back call user ∷ b) × (list_any (is_of call.task.0) b ≡ false)
        × (has_exit (spec_at job user.0).kind ≡ true) × AreFramesHeld job (reverse a) call }
{}

/// Each call is entered once, before its other items, and these come before it has returned.
pub fn each_call_is_entered_once_and_first()
    ensures first { (job : PlainJob) (items first rest : List Item) (call : CallNo) (x : Item)
        → IsLegal job items → items ≡ first ++ x ∷ rest → call_of x ≡ Some call
        → ((ctx : Ctx) (f : FuncNo) (caller : Option CallNo) → x ≢ Enter call ctx f caller)
        → (a : List Item) × (ctx : Ctx) × (f : FuncNo) × (caller : Option CallNo) × (b : List Item)
        × (first ≡ a ++ Enter call ctx f caller ∷ b) × (list_any (is_ret_of call) b ≡ false) }
    ensures once { (job : PlainJob) (items a b c : List Item) (call : CallNo) (ctx ctx' : Ctx) (f f' : FuncNo) (caller caller' : Option CallNo)
        → IsLegal job items → items ≢ a ++ Enter call ctx f caller ∷ (b ++ Enter call ctx' f' caller' ∷ c) }
{}

/// "every return reaches its true caller": the Enter of a call names the latest call of its task
/// that is open there, or none if none is.
pub fn calls_are_entered_from_the_latest_open_one()
    ensures { (job : PlainJob) (items first rest : List Item) (call : CallNo) (ctx : Ctx) (f : FuncNo) (caller : Option CallNo)
        → IsLegal job items → items ≡ first ++ Enter call ctx f caller ∷ rest
        → caller ≡ slice_get (open_calls call.task.0 (reverse first)) 0 }
{}

/// And the Ret of a call names the call that its Enter named, and it has no Ret before.
pub fn returns_reach_their_callers()
    ensures caller { (job : PlainJob) (items before mid rest : List Item) (call : CallNo) (ctx : Ctx) (f : FuncNo) (caller to : Option CallNo)
        → IsLegal job items → items ≡ before ++ Enter call ctx f caller ∷ (mid ++ Ret call to ∷ rest) → to ≡ caller }
    ensures once { (job : PlainJob) (items before mid rest : List Item) (call : CallNo) (ctx : Ctx) (f : FuncNo) (caller to : Option CallNo)
        → IsLegal job items → items ≡ before ++ Enter call ctx f caller ∷ (mid ++ Ret call to ∷ rest) → list_any (is_ret_of call) mid ≡ false }
{}

/// And the calls of a task nest: one that is entered in another returns before it.
pub fn calls_nest()
    ensures { (job : PlainJob) (items a b c d : List Item) (outer inner : CallNo) (ctx ctx' : Ctx) (f f' : FuncNo) (caller caller' to : Option CallNo)
        → IsLegal job items → inner.task.0 ≡ outer.task.0
        → items ≡ a ++ Enter outer ctx f caller ∷ (b ++ Enter inner ctx' f' caller' ∷ (c ++ Ret outer to ∷ d))
        → list_any (is_ret_of inner) c ≡ true }
{}

/// "every fetched site is whole": what a call fetched is what its site should have been after some
/// command of the window from its Enter to its Body, and never a mixture of two.
pub fn fetches_a_target()
    ensures { (job : PlainJob) (items before mid rest : List Item) (call : CallNo) (ctx : Ctx) (f : FuncNo) (caller : Option CallNo) (g : FuncNo) (ran : Ran)
        → IsLegal job items → items ≡ before ++ Enter call ctx f caller ∷ (mid ++ Body call g ran ∷ rest)
        → let here = before ++ Enter call ctx f caller ∷ mid in AtSomeCommand before here (λ k. ran ≡ target (desk job k) f.0) }
{}
