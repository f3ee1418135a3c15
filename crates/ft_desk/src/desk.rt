//! The desk.

ghost use Rattle.std.specs.Prelude.{◌≡◌, ◌≢◌, ℕ, suc, ◌+◌, ◌<◌, ◌≤◌, ◌^◌, ◌==◌, not, true, false, [], ◌∷◌, length, map, slice_set, Some, None, IfOk, IfSome, IfNone, vec_len, vec_capacity, IsTrue, ◌↔◌};
ghost use Rattle.std.specs.List.{filter};
ghost use Rattle.tramp_slots.specs.Holders.{is_free_slot};
ghost use Rattle.ft_base.specs.declared.limits.TheConstants.{USERS};
ghost use Rattle.ft_base.specs.declared.item.Answer.TheVariants.{Accepted};
ghost use Rattle.ft_base.specs.Job.{Register, Unregister, Filter, Notrace, Pid, NoPid, Enable, Disable, MaxDepth};
ghost use Rattle.ft_base.specs.Desk.{target, user_at};
ghost use Rattle.pid_filter.specs.Lists.{tasks_in};
ghost use Rattle.site_set.specs.Edits.{plain_edit};
ghost use Rattle.word_map.specs.Shapes.{IsShape};
ghost use Rattle.ft_desk.specs.Declarations.{declared_by, job_of};
ghost use Rattle.ft_desk.specs.Commands.{command_of, IsInShape, edit_command, switch_command};
ghost use Rattle.ft_desk.specs.Plans.{no_plan, plain_plan, first_of, user_after, user_before};
ghost use Rattle.word_map.specs.Instructions.{insn_at};
ghost use Rattle.ft_desk.specs.Sites.{row_at};
ghost use Rattle.ft_desk.specs.DeskView.{answer, carried_out, opened, turned_down};

use crate::command::Command;
use crate::plan::Plan;
use crate::roster::Roster;
use filter_hash::HashPair;
use ft_base::{Answer, FuncNo, Half, NoMemory, Ran, UserNo};
use pid_filter::Pids;
use site_bytes::Insn;
use site_counts::Row;
use site_set::{Edit, SiteSet};
use std::alloc::Global;
use std::marker::Model;
use tramp_slots::Slots;
use user_specs::Spec;
use word_map::Shape;

/// All users, with their sets and slots, the lists of tasks, the graph depth, and the plan of the
/// last command.
#[derive(Drop)]
pub struct Desk {
    roster: Roster,
    /// The registered users, the latest first.
    order: Vec<UserNo>,
    slots: Slots,
    pids: Pids,
    depth: u32,
    /// How many commands were planned.
    commands: u32,
    plan: Plan,
}

impl Model for Desk {
    ghost use Rattle.ft_desk.specs.DeskView.{DeskView};

    ghost Value = { DeskView };

    ghost use Rattle.ft_desk.specs.DeskInvariant.{desk_view, DeskInvariant};

    ghost view = { desk_view };

    ghost invariant = { DeskInvariant };
}

impl Desk {
    /// A desk of these users on which nobody is registered, with all the room that planning needs.
    /// The error says that memory ran out.
    pub fn new(alloc: Global, specs: &[Spec], shape: Shape) -> Result<Desk, NoMemory>
        requires shape { IsShape shape }
        requires users { length specs.now ≡ shape.users }
        ensures { IfOk result (λ desk. desk ≡ opened (declared_by specs.now shape)) }
    {
        let roster = Roster::new(alloc, specs, shape.funcs)?;
        let order = new_order(alloc, specs.len())?;
        let plan = Plan::new(alloc, shape.funcs)?;
        Ok(Desk {
            roster,
            order,
            slots: Slots::new(shape.tramps),
            pids: Pids::new(shape.tasks),
            depth: 0,
            commands: 0,
            plan,
        })
    }

    /// Answers a command. If it is accepted, the desk is the next one, and `last` tells what the
    /// command stores; after another answer the desk is as it was, and the plan is empty. It takes
    /// no memory.
    pub fn plan(&mut self, command: &Command) -> Answer
        requires numbers { IsInShape self.old.declared command.now }
        requires room { self.old.commands + 1 < 2 ^ 32 }
        ensures answer { result ≡ answer self.old (command_of self.old.declared.tasks command.now) }
        ensures accepted { result ≡ Accepted
            → self.new ≡ carried_out self.old (command_of self.old.declared.tasks command.now) }
        ensures refused { result ≢ Accepted → self.new ≡ turned_down self.old }
    {
        let answer = self.answer(command);
        if let Answer::Accepted = answer {
            self.carry_out(command);
        } else {
            self.turn_down();
        }
        answer
    }

    /// Whether all numbers of a command are in the shape, as `plan` asks.
    pub fn takes(&self, command: &Command) -> bool
        ensures { IsTrue result ↔ IsInShape self.now.declared command.now }
    {
        match command {
            Command::Register(user) => self.has_user(*user),
            Command::Unregister(user) => self.has_user(*user),
            Command::Filter(user, edit) => self.has_user(*user) && self.has_functions(&edit.set),
            Command::Notrace(user, edit) => self.has_user(*user) && self.has_functions(&edit.set),
            Command::Enable(user) => self.has_user(*user),
            Command::Disable(user) => self.has_user(*user),
            Command::Pid(_) | Command::NoPid(_) | Command::MaxDepth(_) => true,
        }
    }

    fn has_user(&self, user: UserNo) -> bool
        ensures { IsTrue result ↔ user.0 < length self.now.declared.specs }
    {
        user.0 < self.users()
    }

    /// Whether a set is one of the functions that there are.
    fn has_functions(&self, set: &SiteSet) -> bool
        ensures { IsTrue result ↔ length set.now ≡ self.now.declared.funcs }
    {
        set.size() == self.functions()
    }

    /// How many users there are.
    pub fn users(&self) -> u32
        ensures { result ≡ length self.now.declared.specs }
    {
        self.roster.users()
    }

    /// How many functions there are.
    pub fn functions(&self) -> u32
        ensures { result ≡ self.now.declared.funcs }
    {
        self.roster.funcs()
    }

    /// What the last command stores. It is empty if there was none or it was refused.
    pub fn last(&self) -> &Plan
        ensures { plain_plan result.now ≡ self.now.plan }
    {
        &self.plan
    }

    /// How many commands were planned.
    pub fn commands(&self) -> u32
        ensures { result ≡ self.now.commands }
    {
        self.commands
    }

    /// The instruction that the call site of the function should have.
    pub fn target(&self, f: FuncNo) -> Insn
        requires { f.0 < self.now.declared.funcs }
        ensures { result ≡ insn_at self.now.state f.0 }
    {
        self.roster.insn(f)
    }

    /// What a call of the function runs: nothing, one user's own trampoline, or the list caller.
    pub fn ran(&self, f: FuncNo) -> Ran
        requires { f.0 < self.now.declared.funcs }
        ensures { result ≡ target self.now.state f.0 }
    {
        self.roster.ran(f)
    }

    /// How many users are sited at the function, and how many of them get the registers and replace
    /// the function.
    pub fn row(&self, f: FuncNo) -> Row
        requires { f.0 < self.now.declared.funcs }
        ensures { result ≡ row_at (job_of self.now.declared) self.now.state f.0 }
    {
        self.roster.row(f)
    }

    /// The two sets of the user.
    pub fn pair(&self, u: UserNo) -> &HashPair
        requires { u.0 < length self.now.declared.specs }
        ensures filter { result.now.filter ≡ (user_at self.now.state u.0).filter }
        ensures notrace { result.now.notrace ≡ (user_at self.now.state u.0).notrace }
    {
        &self.roster.user(u).pair
    }

    /// Whether the user is registered.
    pub fn is_registered(&self, u: UserNo) -> bool
        requires { u.0 < length self.now.declared.specs }
        ensures { result ≡ (user_at self.now.state u.0).registered }
    {
        self.roster.user(u).registered
    }

    /// Whether the user is enabled (`fprobe.rst`, `disable_fprobe`). It says nothing of a user that
    /// isn't registered.
    pub fn is_enabled(&self, u: UserNo) -> bool
        requires { u.0 < length self.now.declared.specs }
        ensures { result ≡ (user_at self.now.state u.0).enabled }
    {
        self.roster.user(u).enabled
    }

    /// The number of the command, from 1, that registered the user last; 0 if none has.
    pub fn since(&self, u: UserNo) -> u32
        requires { u.0 < length self.now.declared.specs }
        ensures { result ≡ (user_at self.now.state u.0).since }
    {
        self.roster.user(u).since
    }

    /// The answer to a command.
    fn answer(&mut self, command: &Command) -> Answer
        requires { IsInShape self.old.declared command.now }
        ensures answer { result ≡ answer self.old (command_of self.old.declared.tasks command.now) }
        ensures same { self.new ≡ self.old }
    {
        match command {
            Command::Register(user) => self.answer_to_register(*user),
            Command::Unregister(user) => self.answer_to_unregister(*user),
            Command::Filter(user, edit) => self.answer_to_edit(*user, Half::Filter, edit),
            Command::Notrace(user, edit) => self.answer_to_edit(*user, Half::Notrace, edit),
            Command::Enable(user) | Command::Disable(user) => self.answer_to_switch(*user),
            Command::Pid(_) | Command::NoPid(_) | Command::MaxDepth(_) => Answer::Accepted,
        }
    }

    fn answer_to_register(&mut self, user: UserNo) -> Answer
        requires { user.0 < length self.old.declared.specs }
        ensures answer { result ≡ answer self.old (Register user.0) }
        ensures same { self.new ≡ self.old }
    {
        let this = self.roster.user(user);
        if this.registered {
            return Answer::Already;
        }
        if !this.modifies() {
            return Answer::Accepted;
        }
        if !this.regs || this.pair.is_open() {
            return Answer::Invalid;
        }
        self.roster.claim(user)
    }

    fn answer_to_unregister(&self, user: UserNo) -> Answer
        requires { user.0 < length self.now.declared.specs }
        ensures { result ≡ answer self.now (Unregister user.0) }
    {
        if self.roster.user(user).registered {
            Answer::Accepted
        } else {
            Answer::NotThere
        }
    }

    fn answer_to_edit(&mut self, user: UserNo, half: Half, edit: &Edit) -> Answer
        requires user { user.0 < length self.old.declared.specs }
        requires size { length edit.now.set ≡ self.old.declared.funcs }
        ensures answer { result ≡ answer self.old (edit_command user.0 half (plain_edit edit.now)) }
        ensures same { self.new ≡ self.old }
    {
        if !edit.clear && edit.set.is_empty() {
            return Answer::NoMatch;
        }
        let this = self.roster.user(user);
        if !this.registered || !this.modifies() {
            return Answer::Accepted;
        }
        self.roster.claim_after(user, half, edit)
    }

    /// The answer to enable and to disable.
    fn answer_to_switch(&self, user: UserNo) -> Answer
        requires { user.0 < length self.now.declared.specs }
        ensures enable { result ≡ answer self.now (Enable user.0) }
        ensures disable { result ≡ answer self.now (Disable user.0) }
    {
        let this = self.roster.user(user);
        if !this.registered {
            return Answer::NotThere;
        }
        if this.kind.is_fprobe() {
            Answer::Accepted
        } else {
            Answer::Invalid
        }
    }

    /// Carries out a command that was accepted.
    fn carry_out(&mut self, command: &Command)
        requires numbers { IsInShape self.old.declared command.now }
        requires room { self.old.commands + 1 < 2 ^ 32 }
        requires accepted { answer self.old (command_of self.old.declared.tasks command.now) ≡ Accepted }
        ensures { self.new ≡ carried_out self.old (command_of self.old.declared.tasks command.now) }
    {
        match command {
            Command::Register(user) => self.register(*user),
            Command::Unregister(user) => self.unregister(*user),
            Command::Filter(user, edit) => self.edit(*user, Half::Filter, edit),
            Command::Notrace(user, edit) => self.edit(*user, Half::Notrace, edit),
            Command::Pid(mask) => self.set_pids(*mask),
            Command::NoPid(mask) => self.set_nopids(*mask),
            Command::Enable(user) => self.switch(*user, true),
            Command::Disable(user) => self.switch(*user, false),
            Command::MaxDepth(depth) => self.set_depth(*depth),
        }
    }

    /// A command was refused: only the plan is empty.
    fn turn_down(&mut self)
        requires { self.old.commands + 1 < 2 ^ 32 }
        ensures { self.new ≡ turned_down self.old }
    {
        begin(&mut self.commands, &mut self.plan);
    }

    fn register(&mut self, user: UserNo)
        requires user { user.0 < length self.old.declared.specs }
        requires room { self.old.commands + 1 < 2 ^ 32 }
        requires unregistered { (user_at self.old.state user.0).registered ≡ false }
        ensures { self.new ≡ carried_out self.old (Register user.0) }
    {
        begin(&mut self.commands, &mut self.plan);
        let slot = self.slots.take(user);
        self.roster
            .register(user, self.commands, slot, &mut self.plan.sites);
        let first = first_in(self.order.as_slice());
        self.plan.enroll(user, self.roster.user(user), slot, first);
        push_first(&mut self.order, user);
    }

    fn unregister(&mut self, user: UserNo)
        requires user { user.0 < length self.old.declared.specs }
        requires room { self.old.commands + 1 < 2 ^ 32 }
        requires registered { (user_at self.old.state user.0).registered ≡ true }
        ensures { self.new ≡ carried_out self.old (Unregister user.0) }
    {
        begin(&mut self.commands, &mut self.plan);
        let slot = self.roster.user(user).slot;
        self.roster.unregister(user, &mut self.plan.sites);
        give_back(&mut self.slots, slot);
        let (before, after) = unlink(&mut self.order, user);
        self.plan
            .retire(user, self.roster.user(user), slot, before, after);
    }

    fn edit(&mut self, user: UserNo, half: Half, edit: &Edit)
        requires user { user.0 < length self.old.declared.specs }
        requires size { length edit.now.set ≡ self.old.declared.funcs }
        requires room { self.old.commands + 1 < 2 ^ 32 }
        ensures { self.new ≡ carried_out self.old (edit_command user.0 half (plain_edit edit.now)) }
    {
        begin(&mut self.commands, &mut self.plan);
        self.roster.edit(user, half, edit, &mut self.plan.sites);
        self.plan.rewrite(user, self.roster.user(user));
    }

    fn switch(&mut self, user: UserNo, enabled: bool)
        requires user { user.0 < length self.old.declared.specs }
        requires room { self.old.commands + 1 < 2 ^ 32 }
        ensures { self.new ≡ carried_out self.old (switch_command user.0 enabled) }
    {
        begin(&mut self.commands, &mut self.plan);
        self.roster.switch(user, enabled);
        self.plan.user = Some(user);
        self.plan.sel = Some(self.roster.user(user).sel());
        self.plan.quiet = !enabled;
    }

    fn set_pids(&mut self, mask: u64)
        requires room { self.old.commands + 1 < 2 ^ 32 }
        ensures { self.new ≡ carried_out self.old (Pid (tasks_in self.old.declared.tasks mask)) }
    {
        begin(&mut self.commands, &mut self.plan);
        self.pids.set(mask);
        self.plan.pids = Some(self.pids.mask());
        self.plan.quiet = true;
    }

    fn set_nopids(&mut self, mask: u64)
        requires room { self.old.commands + 1 < 2 ^ 32 }
        ensures { self.new ≡ carried_out self.old (NoPid (tasks_in self.old.declared.tasks mask)) }
    {
        begin(&mut self.commands, &mut self.plan);
        self.pids.set_not(mask);
        self.plan.pids = Some(self.pids.mask());
        self.plan.quiet = true;
    }

    fn set_depth(&mut self, depth: u32)
        requires room { self.old.commands + 1 < 2 ^ 32 }
        ensures { self.new ≡ carried_out self.old (MaxDepth depth) }
    {
        begin(&mut self.commands, &mut self.plan);
        self.depth = depth;
        self.plan.depth = Some(depth);
        self.plan.quiet = true;
    }
}

/// One more command; nothing is planned yet.
fn begin(commands: &mut u32, plan: &mut Plan)
    requires { commands.old + 1 < 2 ^ 32 }
    ensures commands { commands.new ≡ suc commands.old }
    ensures plan { plain_plan plan.new ≡ no_plan }
    ensures room { vec_capacity plan.new.sites ≡ vec_capacity plan.old.sites }
{
    *commands += 1;
    plan.clear();
}

/// A user gives its slot back, if it has one.
fn give_back(slots: &mut Slots, slot: Option<u8>)
    requires { IfSome slot (λ s. is_free_slot slots.old s ≡ false) }
    ensures some { IfSome slot (λ s. slots.new ≡ slice_set slots.old s None) }
    ensures none { IfNone slot (slots.new ≡ slots.old) }
    ensures size { length slots.new ≡ length slots.old }
{
    if let Some(slot) = slot {
        slots.give(slot);
    }
}

/// Takes a user out of the list of registered users. The answer is the users before it and after it.
fn unlink(order: &mut Vec<UserNo>, user: UserNo) -> (Option<UserNo>, Option<UserNo>)
    ensures order { order.new.items ≡ filter (λ v. not (v.0 == user.0)) order.old.items }
    ensures before { result.0 ≡ user_before None user.0 (map (λ v. v.0) order.old.items) }
    ensures after { result.1 ≡ user_after user.0 (map (λ v. v.0) order.old.items) }
    ensures capacity { vec_capacity order.new ≡ vec_capacity order.old }
{
    let (before, after) = neighbours(order.as_slice(), user);
    order.retain(|v| v.0 != user.0);
    (before, after)
}

/// The users before and after a user in a list.
fn neighbours(order: &[UserNo], user: UserNo) -> (Option<UserNo>, Option<UserNo>)
    ensures before { result.0 ≡ user_before None user.0 (map (λ v. v.0) order.now) }
    ensures after { result.1 ≡ user_after user.0 (map (λ v. v.0) order.now) }
{
    let mut before = None;
    for (at, v) in order.iter().enumerate() {
        if v.0 == user.0 {
            return (before, order.get(at + 1).copied());
        }
        before = Some(*v);
    }
    (before, None)
}

fn new_order(alloc: Global, users: usize) -> Result<Vec<UserNo>, NoMemory>
    ensures empty { IfOk result (λ v. v.items ≡ []) }
    ensures room { IfOk result (λ v. users ≤ vec_capacity v) }
{
    Vec::with_capacity(alloc, users).map_err(|_| NoMemory)
}

/// The first of a list of users.
fn first_in(order: &[UserNo]) -> Option<UserNo>
    ensures { result ≡ first_of (map (λ v. v.0) order.now) }
{
    order.first().copied()
}

/// Puts a user before all others. There is room for it.
fn push_first(order: &mut Vec<UserNo>, user: UserNo)
    requires { vec_len order.old < vec_capacity order.old }
    ensures items { order.new.items ≡ user ∷ order.old.items }
    ensures room { vec_capacity order.old ≤ vec_capacity order.new }
{
    let _ = order.insert(0, user);
}
