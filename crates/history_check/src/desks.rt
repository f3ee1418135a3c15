//! The desk after each number of a job's commands: its users, whom the pid lists allow, the graph depth,
//! what the call sites run, and the answer that led there. Each desk is worked out once, however often
//! it is asked for.

ghost use Rattle.std.specs.List.{range_with_len};
ghost use Rattle.std.specs.Prelude.{◌≡◌, ◌^◌, ◌<◌, ◌≤◌, ◌==◌, ◌&&◌, ℕ, length, map, option_map, slice_get, Some, All, IfOk, IfSome, IfNone, IsTrue, ◌↔◌, ◌+◌, if◌then◌else◌};
ghost use Rattle.ft_base.specs.Desk.{Desk as PlainDesk, desk, is_allowed, is_live, is_on, matches_by, target, user_at};
ghost use Rattle.ft_base.specs.Job.{Job as PlainJob, commands, funcs};
ghost use Rattle.ft_desk.specs.Declarations.{IsOf};
ghost use Rattle.ft_desk.specs.DeskView.{opened};
ghost use Rattle.ft_desk.specs.Lines.{IsLineIn, lines_of};
ghost use Rattle.history_check.specs.TakenOff.{answer_of, taken_off};
ghost use Rattle.history_check.specs.DeskRows.{AreOf, AreRowsOf, IsDeskOf, IsRowOfView, IsSightOf, WasOff};
ghost use Rattle.history_check.specs.DeskNumbers.{AreNumbersOf};

use crate::numbers::Numbers;
use filter_hash::HashPair;
use ft_base::limits::TASKS;
use ft_base::{Answer, FuncNo, NoMemory, Ran, TaskNo, UserNo};
use ft_desk::{Ctl, Desk};
use ft_job::Job;
use pid_filter::allowed;
use std::alloc::Global;

/// A user on a desk.
#[derive(Drop)]
struct Sight {
    registered: bool,
    /// It is registered and enabled.
    live: bool,
    /// The number of the command that registered it last; 0 if none has.
    since: u32,
    /// How often it was registered.
    reg: u32,
    /// Its filter and its notrace set.
    pair: HashPair,
}

/// A desk.
#[derive(Drop)]
struct Row {
    users: Vec<Sight>,
    /// The tasks that the pid lists allow, a bit for each.
    allowed: u64,
    /// The graph depth, 0 without a limit.
    depth: u32,
    /// What a call of each function runs.
    runs: Vec<Ran>,
    /// The answer of the command before it, if there is one.
    answer: Option<Answer>,
    /// The user that this command takes off if it is accepted.
    off: Option<UserNo>,
}

/// The desks of a job: the first before any command, and one after each command.
#[derive(Drop)]
pub struct Desks {
    /// How many users there are.
    users: u32,
    rows: Vec<Row>,
}

impl Desks {
    /// The desks of a job. The error says that memory ran out.
    pub(crate) fn new(alloc: Global, job: &Job) -> Result<Desks, NoMemory>
        ensures { IfOk result (λ d. AreOf job.now d) }
    {
        let users = job.users();
        let told = Numbers::new(alloc, users, job.tasks())?;
        let (present, lines) = job.opening(alloc)?;
        let rows = rows_of(alloc, present, told, lines)?;
        Ok(Desks { users, rows })
    }

    /// Whether a user is on at a function after `k` commands; after more than there are it is as
    /// after the last. A user that there isn't is never on.
    pub fn is_on(&self, k: u32, u: UserNo, f: FuncNo) -> bool
        ensures { (job : PlainJob) → AreOf job self.now → result ≡ is_on (desk job k) u.0 f.0 }
    {
        match self.sight(k, u) {
            Some(sight) => sight.live && matches(&sight.pair, f),
            None => false,
        }
    }

    /// The number of the command that registered a user last, after `k` commands; 0 if none has.
    pub fn since(&self, k: u32, u: UserNo) -> u32
        ensures { (job : PlainJob) → AreOf job self.now → result ≡ (user_at (desk job k) u.0).since }
    {
        match self.sight(k, u) {
            Some(sight) => sight.since,
            None => 0,
        }
    }

    /// How often a user was registered, after `k` commands.
    pub fn reg(&self, k: u32, u: UserNo) -> u32
        ensures { (job : PlainJob) → AreOf job self.now → result ≡ (user_at (desk job k) u.0).reg }
    {
        match self.sight(k, u) {
            Some(sight) => sight.reg,
            None => 0,
        }
    }

    /// The number of commands after which a user's registration is read, where `done` commands have
    /// returned and `begun` have begun: those that have returned if it is on then, else those that have
    /// begun.
    pub fn registered_at(&self, done: u32, begun: u32, u: UserNo, f: FuncNo) -> u32
        ensures { (job : PlainJob) → AreOf job self.now → result ≡ (if is_on (desk job done) u.0 f.0 then done else begun) }
    {
        if self.is_on(done, u, f) { done } else { begun }
    }

    /// Whether a user is off at a function after some number of commands, from one on up to another.
    pub fn was_off(&self, from: u32, last: u32, u: UserNo, f: FuncNo) -> bool
        requires { last + 1 < 2 ^ 32 }
        ensures { (job : PlainJob) → AreOf job self.now → IsTrue result ↔ WasOff job from last u.0 f.0 }
    {
        for k in from..last + 1 {
            if !self.is_on(k, u, f) {
                return true;
            }
        }
        false
    }

    /// Whether a user's registration of this number is in force, and the user enabled, after `k`
    /// commands.
    pub fn is_live(&self, k: u32, u: UserNo, reg: u32) -> bool
        ensures { (job : PlainJob) → AreOf job self.now → result ≡ is_live (desk job k) u.0 reg }
    {
        match self.sight(k, u) {
            Some(sight) => sight.live && sight.reg == reg,
            None => false,
        }
    }

    /// Whether a user is registered under this number, enabled or not, after `k` commands.
    pub fn is_registered(&self, k: u32, u: UserNo, reg: u32) -> bool
        ensures { (job : PlainJob) → AreOf job self.now → result ≡ (user_at (desk job k) u.0).registered && ((user_at (desk job k) u.0).reg == reg) }
    {
        match self.sight(k, u) {
            Some(sight) => sight.registered && sight.reg == reg,
            None => false,
        }
    }

    /// Whether the pid lists allow a task of the job, after `k` commands.
    pub fn is_allowed(&self, k: u32, task: TaskNo) -> bool
        ensures { (job : PlainJob) → AreOf job self.now → task.0 < length job.tasks → result ≡ is_allowed (desk job k) task.0 }
    {
        if task.0 >= TASKS {
            return false;
        }
        match self.row(k) {
            Some(row) if task.0 < TASKS => allowed(row.allowed, task),
            _ => false,
        }
    }

    /// The graph depth after `k` commands, 0 without a limit.
    pub(crate) fn depth(&self, k: u32) -> u32
        ensures { (job : PlainJob) → AreOf job self.now → result ≡ (desk job k).depth }
    {
        match self.row(k) {
            Some(row) => row.depth,
            None => 0,
        }
    }

    /// What a call of a function of the job runs, after `k` commands.
    pub fn ran(&self, k: u32, f: FuncNo) -> Ran
        ensures { (job : PlainJob) → AreOf job self.now → f.0 < funcs job → result ≡ target (desk job k) f.0 }
    {
        match self.row(k) {
            Some(row) => row.ran(f),
            None => Ran::Nop,
        }
    }

    /// The answer of command `k`, from 1. `None` if there is no such command.
    pub(crate) fn answer(&self, k: u32) -> Option<Answer>
        ensures { (job : PlainJob) → AreOf job self.now → result ≡ answer_of job k }
    {
        match self.rows.get(k as usize) {
            Some(row) => row.answer,
            None => None,
        }
    }

    /// How many commands there are.
    pub(crate) fn commands(&self) -> usize
        ensures { (job : PlainJob) → AreOf job self.now → result ≡ length (commands job) }
    {
        self.rows.len().saturating_sub(1)
    }

    /// How many users there are.
    pub fn users(&self) -> u32
        ensures { (job : PlainJob) → AreOf job self.now → result ≡ length job.users }
    {
        self.users
    }

    /// The user that command `k`, from 1, unregisters or disables if it is accepted.
    pub fn taken_off(&self, k: u32) -> Option<UserNo>
        ensures { (job : PlainJob) → AreOf job self.now → option_map (λ u. u.0) result ≡ taken_off job k }
    {
        match self.rows.get(k as usize) {
            Some(row) => row.off,
            None => None,
        }
    }

    /// A user after `k` commands, or after all of them if there are fewer. `None` if there is no such
    /// user.
    fn sight(&self, k: u32, u: UserNo) -> Option<&Sight>
        ensures some { IfSome result (λ s. (job : PlainJob) → AreOf job self.now → IsSightOf (user_at (desk job k) u.0) s.now) }
        ensures none { IfNone result ((job : PlainJob) → AreOf job self.now → length job.users ≤ u.0) }
    {
        self.row(k)?.users.get(u.0 as usize)
    }

    /// The users after `k` commands, or after all of them if there are fewer. There is always a row.
    fn row(&self, k: u32) -> Option<&Row>
        ensures some { IfSome result (λ r. (job : PlainJob) → AreOf job self.now → IsDeskOf job (desk job k) r.now) }
        ensures none { IfNone result ((job : PlainJob) → AreOf job self.now → ⊥) }
    {
        match self.rows.get(k as usize) {
            Some(row) => Some(row),
            None => self.rows.last(),
        }
    }
}

/// The rows of a desk that was just made and of the desks that these lines make of it.
fn rows_of(
    alloc: Global,
    mut present: Desk,
    mut told: Numbers,
    lines: &[Ctl],
) -> Result<Vec<Row>, NoMemory>
    requires opened { present ≡ opened present.declared }
    requires told { AreNumbersOf present.declared.tasks present.state 0 told }
    requires named { All (IsLineIn present.declared) lines.now }
    requires few { length lines.now < 2 ^ 32 }
    ensures { IfOk result (λ rows. (job : PlainJob) → IsOf job present.declared → lines_of present.declared.tasks lines.now ≡ job.ctls
        → AreRowsOf job rows.items) }
{
    let mut rows = Vec::new(alloc);
    let first = Row::new(alloc, &present, &told, None, None)?;
    rows.push(first).map_err(|_| NoMemory)?;
    for line in lines {
        if let Ctl::Run(command) = line {
            let answer = present.plan(command);
            told.note(command, answer);
            let next = Row::new(alloc, &present, &told, Some(answer), command.takes_off())?;
            rows.push(next).map_err(|_| NoMemory)?;
        }
    }
    Ok(rows)
}

impl Row {
    /// The row of a desk, of what the commands have told, of the answer of the command before it and of
    /// whom that takes off.
    fn new(
        alloc: Global,
        desk: &Desk,
        told: &Numbers,
        answer: Option<Answer>,
        off: Option<UserNo>,
    ) -> Result<Row, NoMemory>
        requires { (n : ℕ) × AreNumbersOf desk.now.declared.tasks desk.now.state n told.now }
        ensures row { IfOk result (λ r. IsRowOfView desk.now r) }
        ensures answer { IfOk result (λ r. r.answer ≡ answer) }
        ensures off { IfOk result (λ r. r.off ≡ off) }
    {
        let users = sights(alloc, desk, told)?;
        let runs = runs_of(alloc, desk)?;
        Ok(Row {
            users,
            allowed: told.allowed(),
            depth: told.depth(),
            runs,
            answer,
            off,
        })
    }
}

impl Row {
    /// What a call of a function of the job runs.
    fn ran(&self, f: FuncNo) -> Ran
        ensures { (job : PlainJob) (d : PlainDesk) → IsDeskOf job d self.now → f.0 < funcs job → result ≡ target d f.0 }
    {
        match self.runs.get(f.0 as usize) {
            Some(ran) => *ran,
            None => Ran::Nop,
        }
    }
}

/// The users of a desk. The error says that memory ran out.
fn sights(alloc: Global, desk: &Desk, told: &Numbers) -> Result<Vec<Sight>, NoMemory>
    requires { (n : ℕ) × AreNumbersOf desk.now.declared.tasks desk.now.state n told.now }
    ensures size { IfOk result (λ v. length v.items ≡ length desk.now.declared.specs) }
    ensures each { IfOk result (λ v. (u : ℕ) (s : Sight) → slice_get v.items u ≡ Some s → IsSightOf (user_at desk.now.state u) s) }
{
    let mut users = Vec::new(alloc);
    for u in 0..desk.users() {
        let sight = Sight::new(desk, told, UserNo(u))?;
        users.push(sight).map_err(|_| NoMemory)?;
    }
    Ok(users)
}

/// What a call of each function runs. The error says that memory ran out.
fn runs_of(alloc: Global, desk: &Desk) -> Result<Vec<Ran>, NoMemory>
    ensures { IfOk result (λ v. v.items ≡ map (target desk.now.state) (range_with_len 0 desk.now.declared.funcs)) }
{
    let count = desk.functions();
    let mut runs = Vec::with_capacity(alloc, count as usize).map_err(|_| NoMemory)?;
    for f in 0..count {
        runs.push_reserved(desk.ran(FuncNo(f)));
    }
    Ok(runs)
}

impl Sight {
    /// A user of a desk.
    fn new(desk: &Desk, told: &Numbers, u: UserNo) -> Result<Sight, NoMemory>
        requires user { u.0 < length desk.now.declared.specs }
        requires told { (n : ℕ) × AreNumbersOf desk.now.declared.tasks desk.now.state n told.now }
        ensures { IfOk result (λ s. IsSightOf (user_at desk.now.state u.0) s) }
    {
        let pair = desk.pair(u).copy()?;
        Ok(Sight {
            registered: desk.is_registered(u),
            live: is_live(desk, u),
            since: desk.since(u),
            reg: told.reg(u),
            pair,
        })
    }
}

/// Whether a user is registered and enabled.
fn is_live(desk: &Desk, u: UserNo) -> bool
    requires { u.0 < length desk.now.declared.specs }
    ensures { result ≡ (user_at desk.now.state u.0).registered && (user_at desk.now.state u.0).enabled }
{
    desk.is_registered(u) && desk.is_enabled(u)
}

/// Whether a function is matched. No set holds a function that there isn't.
fn matches(pair: &HashPair, f: FuncNo) -> bool
    ensures { result ≡ matches_by pair.now.filter pair.now.notrace f.0 }
{
    if f.0 < pair.size() {
        pair.matches(f.0)
    } else {
        pair.is_open()
    }
}
