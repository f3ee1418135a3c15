//! A check of a finished history: whether its callbacks keep the rules. It knows the job's desks and
//! the items, and nothing of the machine that made them.

ghost use Rattle.std.specs.Prelude.{◌≡◌, ℕ, ◌+◌, ◌<◌, ◌^◌, ◌==◌, ◌||◌, ◌&&◌, true, not, List, [], ◌∷◌, IfOk, OnOk, IfSome, IsTrue, ◌↔◌, if◌then◌else◌};
ghost use Rattle.ft_base.specs.declared.item.Item.{Item};
ghost use Rattle.ft_base.specs.declared.number.CallNo.{CallNo};
ghost use Rattle.ft_base.specs.Job.{Job as PlainJob, command_at};
ghost use Rattle.ft_base.specs.Desk.{is_accepted};
ghost use Rattle.ft_base.specs.Same.{same_call};
ghost use Rattle.ft_hist.specs.Past.{begun, done};
ghost use Rattle.ft_hist.specs.Rules.{IsStill, MayVisit, IsSilent};
ghost use Rattle.history_check.specs.Backs.{AreBacksLegal, KeepsBacks};
ghost use Rattle.history_check.specs.CallbackCheck.{AreCalls, HasEntered, HasVisited, IsCheck, IsNoted, entry_at, entry_in, is_before, is_visit_in, is_visited};
ghost use Rattle.history_check.specs.TaskCalls.{IsContextOf};

use crate::callbacks::Callbacks;
use crate::desks::Desks;
use ft_base::{Answer, CallNo, Ctx, FuncNo, Item, NoMemory, UserNo};
use ft_hist::History;
use ft_job::Job;
use std::alloc::Global;
use std::collections::{HashMap, HashSet};

/// Whether the callbacks of a history keep the rules of callbacks and of silence. Each callback and
/// each refusal is of a user that is on at the called function after the commands that have returned,
/// or after those that have begun; each user has at most one in a call, and those registered later
/// come first; none is open when its user's unregistration or disabling returns. Each user that has
/// none in a call was off at some command between the last that had returned at the call's entry and
/// the last that had begun at the end of its dispatch.
///
/// It goes through the items once, with the desk's answers and nothing of the machine that made them.
/// The error says that memory ran out.
pub fn backs_legal(alloc: Global, job: &Job, history: &History) -> Result<bool, NoMemory>
    ensures { IfOk result (λ b. IsTrue b ↔ AreBacksLegal job.now history.now.items) }
{
    let mut check = Check::new(alloc, job)?;
    for place in 0..history.len() {
        if !check.note(history.item(place))? {
            return Ok(false);
        }
    }
    Ok(true)
}

/// What the items so far tell of a call.
#[derive(Clone, Copy, Drop)]
pub(crate) struct Entry {
    /// Its context, if it was entered.
    ctx: Option<Ctx>,
    /// Its function.
    func: FuncNo,
    /// How many commands had returned when it was entered.
    from: u32,
    /// The command that registered the last of the users that were visited. The next to be visited has
    /// to be registered before it.
    latest: Option<u32>,
}

/// What is kept of the items so far. A history that isn't legal may have items of any call at any place,
/// so all calls are kept, and not those alone that are open, as a judge keeps them.
#[derive(Drop)]
pub(crate) struct Check {
    desks: Desks,
    /// The calls, by task and number.
    entries: HashMap<(u32, u32), Entry>,
    /// Who was visited in which call: called back, or refused.
    visited: HashSet<(u32, u32, u32)>,
    /// The open callbacks.
    callbacks: Callbacks,
    /// How many commands have returned.
    done: u32,
    /// How many have begun.
    begun: u32,
}

impl Check {
    /// Before the first item.
    fn new(alloc: Global, job: &Job) -> Result<Check, NoMemory>
        ensures { IfOk result (λ c. IsCheck job.now [] c) }
    {
        Ok(Check {
            desks: Desks::new(alloc, job)?,
            entries: HashMap::new(alloc),
            visited: HashSet::new(alloc),
            callbacks: Callbacks::new(alloc),
            done: 0,
            begun: 0,
        })
    }

    /// Whether the next item keeps the rules. If it does, it is taken in.
    fn note(&mut self, item: &Item) -> Result<bool, NoMemory>
        requires done { self.old.done + 1 < 2 ^ 32 }
        requires begun { self.old.begun + 1 < 2 ^ 32 }
        ensures { (job : PlainJob) (past : List Item) → IsCheck job past self.old → IfOk result (λ b. IsNoted job past item.now b self.new) }
    {
        let ctx = self.context_of(item);
        let keeps = self.keeps(item)?;
        self.callbacks.follow(ctx, item)?;
        self.count(item);
        Ok(keeps)
    }

    /// Whether the next item keeps the rules. If it does, what it tells of calls and visits is taken in.
    fn keeps(&mut self, item: &Item) -> Result<bool, NoMemory>
        requires { self.old.begun + 1 < 2 ^ 32 }
        ensures told { (job : PlainJob) (past : List Item) → IsCheck job past self.old → IfOk result (λ b. IsTrue b ↔ KeepsBacks job past item.now) }
        ensures kept { (job : PlainJob) (past : List Item) → IsCheck job past self.old → IfOk result (λ b. b ≡ true → AreCalls job (item.now ∷ past) self.new) }
        ensures rest { self.new ≡ record self.old { entries = self.new.entries; visited = self.new.visited } }
    {
        match *item {
            Item::Return { k, answer } => Ok(self.may_return(k, answer)),
            Item::Enter {
                call,
                ctx,
                func,
                ..
            } => {
                self.enter(call, ctx, func)?;
                Ok(true)
            }
            Item::Back { call, user } => self.visit(call, user),
            Item::Refuse { call, user, .. } => self.visit(call, user),
            Item::Body { call, .. } => Ok(self.is_silent(call)),
            _ => Ok(true),
        }
    }

    /// How many commands have returned and begun after an item.
    fn count(&mut self, item: &Item)
        requires done { self.old.done + 1 < 2 ^ 32 }
        requires begun { self.old.begun + 1 < 2 ^ 32 }
        ensures done { (past : List Item) → self.old.done ≡ done past → self.new.done ≡ done (item.now ∷ past) }
        ensures begun { (past : List Item) → self.old.begun ≡ begun past → self.new.begun ≡ begun (item.now ∷ past) }
        ensures rest { self.new ≡ record self.old { done = self.new.done; begun = self.new.begun } }
    {
        match item {
            Item::Begin { .. } => self.begun += 1,
            Item::Return { .. } => self.done += 1,
            _ => {}
        }
    }

    /// What the items so far tell of a call.
    fn entry(&self, call: CallNo) -> Entry
        ensures { result ≡ entry_at self.now call }
    {
        match self.entries.get(&(call.task.0, call.n)) {
            Some(entry) => *entry,
            None => Entry {
                ctx: None,
                func: FuncNo(0),
                from: 0,
                latest: None,
            },
        }
    }

    /// The context of the call that an item is in, if that was entered.
    fn context_of(&self, item: &Item) -> Option<Ctx>
        ensures { (job : PlainJob) (past : List Item) → IsCheck job past self.now → IsContextOf past item.now result }
    {
        self.entry(item.call()?).ctx
    }

    /// A call is entered.
    fn enter(&mut self, call: CallNo, ctx: Ctx, func: FuncNo) -> Result<(), NoMemory>
        ensures entered { OnOk result (HasEntered call ctx func.0 self.old self.new) }
        ensures rest { self.new ≡ record self.old { entries = self.new.entries } }
    {
        let entry = self.entry(call);
        let from = self.done;
        keep(
            &mut self.entries,
            call,
            Entry {
                ctx: Some(ctx),
                func,
                from,
                ..entry
            },
        )
    }

    /// A user is visited in a call, if it may be.
    fn visit(&mut self, call: CallNo, user: UserNo) -> Result<bool, NoMemory>
        ensures may { (job : PlainJob) (past : List Item) → IsCheck job past self.old
            → IfOk result (λ b. IsTrue b ↔ MayVisit job past call user.0) }
        ensures kept { (job : PlainJob) (past : List Item) → IsCheck job past self.old
            → IfOk result (λ b. b ≡ true → HasVisited job past call user.0 self.old self.new) }
        ensures rest { self.new ≡ record self.old { entries = self.new.entries; visited = self.new.visited } }
    {
        let entry = self.entry(call);
        let at = self
            .desks
            .registered_at(self.done, self.begun, user, entry.func);
        let since = self.desks.since(at, user);
        if !self.desks.is_on(at, user, entry.func) || !is_before(since, entry.latest) {
            return Ok(false);
        }
        let is_new = add_visit(&mut self.visited, call, user)?;
        let latest = Some(since);
        keep(&mut self.entries, call, Entry { latest, ..entry })?;
        Ok(is_new)
    }

    /// Whether a command may return with this answer: if it takes a user off, no callback of the user
    /// is open.
    fn may_return(&self, k: u32, answer: Answer) -> bool
        ensures { (job : PlainJob) (past : List Item) → IsCheck job past self.now
            → IsTrue result ↔ (is_accepted answer ≡ true → IfSome (command_at job k) (IsStill past)) }
    {
        match answer {
            Answer::Accepted => self.callbacks.is_still(&self.desks, k),
            Answer::Already => true,
            Answer::NotThere => true,
            Answer::Invalid => true,
            Answer::NoMatch => true,
            Answer::Busy { .. } => true,
        }
    }

    /// Whether each user that was not visited in a call was off at some time since its entry.
    fn is_silent(&self, call: CallNo) -> bool
        requires { self.now.begun + 1 < 2 ^ 32 }
        ensures { (job : PlainJob) (past : List Item) → IsCheck job past self.now → IsTrue result ↔ IsSilent job past call }
    {
        let entry = self.entry(call);
        for u in 0..self.desks.users() {
            let user = UserNo(u);
            if !self.was_visited(call, user)
                && !self.desks.was_off(entry.from, self.begun, user, entry.func)
            {
                return false;
            }
        }
        true
    }

    /// Whether a user was visited in a call.
    fn was_visited(&self, call: CallNo, user: UserNo) -> bool
        ensures { result ≡ is_visited self.now call user.0 }
    {
        self.visited.contains(&(call.task.0, call.n, user.0))
    }
}

/// Whether a command's number is below another, if there is one.
fn is_before(since: u32, latest: Option<u32>) -> bool
    ensures { result ≡ is_before since latest }
{
    match latest {
        Some(latest) => since < latest,
        None => true,
    }
}

/// Keeps what is told of a call.
fn keep(
    entries: &mut HashMap<(u32, u32), Entry>,
    call: CallNo,
    entry: Entry,
) -> Result<(), NoMemory>
    ensures { OnOk result ((c : CallNo) → entry_in entries.new c ≡ (if same_call call c then entry else entry_in entries.old c)) }
{
    match entries.insert((call.task.0, call.n), entry) {
        Ok(_) => Ok(()),
        Err(_) => Err(NoMemory),
    }
}

/// Keeps a visit. Whether it is the first of the user in the call.
fn add_visit(
    visited: &mut HashSet<(u32, u32, u32)>,
    call: CallNo,
    user: UserNo,
) -> Result<bool, NoMemory>
    ensures first { IfOk result (λ b. b ≡ not (is_visit_in visited.old call user.0)) }
    ensures kept { OnOk result ((c : CallNo) (u : ℕ) → is_visit_in visited.new c u
        ≡ (same_call call c && (user.0 == u)) || is_visit_in visited.old c u) }
{
    match visited.insert((call.task.0, call.n, user.0)) {
        Ok(added) => Ok(added),
        Err(_) => Err(NoMemory),
    }
}
