//! A desk on the bench: it knows how many users and functions it has, and so asks its desk only what
//! is in the shape.

ghost use Rattle.std.specs.Prelude.{◌≡◌, ◌<◌, IfOk, length};
ghost use Rattle.ft_desk.specs.Commands.{IsInShape};

use ft_base::limits::{FUNCS, TRAMPS, USERS};
use ft_base::{Answer, FuncNo, Kind, UserNo};
use ft_desk::{Command, Desk, Plan, Shape};
use site_set::{Edit, SiteSet};
use std::alloc::{AllocError, Global};
use std::marker::Model;
use std::process::Abort;
use std::test::Fail;
use user_specs::Spec;

/// How many tasks there are.
const TASKS: u32 = 3;

/// More commands than a test has.
const COMMANDS: u32 = 1_000;

/// What is declared of a user: its kind, whether it gets the registers, and what it puts in the place
/// of the functions that it traces.
pub type User = (Kind, bool, Option<FuncNo>);

/// How an edit begins: whether it appends, removes and clears.
pub type Mark = (bool, bool, bool);

pub const REPLACE: Mark = (false, false, false);

pub const APPEND: Mark = (true, false, false);

pub const CLEAR: Mark = (false, false, true);

/// A command. The functions that an edit selects are bits, function 0 in bit 0.
#[derive(Clone, Copy)]
pub enum Line {
    Register(u32),
    Unregister(u32),
    Filter(u32, Mark, u64),
    Notrace(u32, Mark, u64),
    Enable(u32),
    Disable(u32),
    Pid(u64),
    NoPid(u64),
    MaxDepth(u32),
}

/// A desk, and how many users and functions it has.
#[derive(Drop)]
pub struct Bench {
    desk: Desk,
    users: u32,
    funcs: u32,
}

impl Model for Bench {
    ghost use Rattle.std.specs.Prelude.{◌≡◌, length};
    ghost use Rattle.ft_desk.specs.DeskView.{DeskView};

    ghost Value = { DeskView };

    ghost view = { λ b. b.desk };

    ghost invariant = { λ b. (length b.desk.declared.specs ≡ b.users) × (b.desk.declared.funcs ≡ b.funcs) };
}

impl Bench {
    /// A desk of these users and so many functions and trampoline slots.
    pub fn new(
        rt: &impl Abort,
        alloc: Global,
        users: &[User],
        funcs: u32,
        tramps: u8,
    ) -> Result<Bench, Fail> {
        let mut specs = Vec::new(alloc);
        put_specs(alloc, &mut specs, users)?;
        Bench::of(rt, alloc, specs.as_slice(), funcs, tramps)
    }

    /// A desk of users with these declarations and so many functions and trampoline slots.
    fn of(
        rt: &impl Abort,
        alloc: Global,
        specs: &[Spec],
        funcs: u32,
        tramps: u8,
    ) -> Result<Bench, Fail> {
        assert!(rt; specs.len() <= USERS as usize && funcs <= FUNCS && u32::from(tramps) <= TRAMPS);
        let users = specs.len() as u32;
        let shape = Shape {
            funcs,
            users,
            cpus: 1,
            tasks: TASKS,
            tramps,
        };
        let desk = Desk::new(alloc, specs, shape)?;
        Ok(Bench { desk, users, funcs })
    }

    /// The answer to a command.
    pub fn ask(&mut self, rt: &impl Abort, alloc: Global, line: Line) -> Result<Answer, Fail> {
        assert!(rt; self.desk.commands() < COMMANDS);
        let command = self.command(rt, alloc, line)?;
        Ok(self.desk.plan(&command))
    }

    fn command(&self, rt: &impl Abort, alloc: Global, line: Line) -> Result<Command, Fail>
        ensures { IfOk result (λ command. IsInShape self.now.declared command) }
    {
        match line {
            Line::Register(u) => Ok(Command::Register(self.user(rt, u))),
            Line::Unregister(u) => Ok(Command::Unregister(self.user(rt, u))),
            Line::Filter(u, mark, bits) => self.filter(rt, alloc, u, mark, bits),
            Line::Notrace(u, mark, bits) => self.notrace(rt, alloc, u, mark, bits),
            Line::Enable(u) => Ok(Command::Enable(self.user(rt, u))),
            Line::Disable(u) => Ok(Command::Disable(self.user(rt, u))),
            Line::Pid(mask) => Ok(Command::Pid(mask)),
            Line::NoPid(mask) => Ok(Command::NoPid(mask)),
            Line::MaxDepth(depth) => Ok(Command::MaxDepth(depth)),
        }
    }

    /// An edit of the filter of a user.
    fn filter(
        &self,
        rt: &impl Abort,
        alloc: Global,
        u: u32,
        mark: Mark,
        bits: u64,
    ) -> Result<Command, Fail>
        ensures { IfOk result (λ command. IsInShape self.now.declared command) }
    {
        let edit = self.edit(rt, alloc, mark, bits)?;
        Ok(Command::Filter(self.user(rt, u), edit))
    }

    /// An edit of the notrace set of a user.
    fn notrace(
        &self,
        rt: &impl Abort,
        alloc: Global,
        u: u32,
        mark: Mark,
        bits: u64,
    ) -> Result<Command, Fail>
        ensures { IfOk result (λ command. IsInShape self.now.declared command) }
    {
        let edit = self.edit(rt, alloc, mark, bits)?;
        Ok(Command::Notrace(self.user(rt, u), edit))
    }

    fn user(&self, rt: &impl Abort, user: u32) -> UserNo
        ensures { result.0 < length self.now.declared.specs }
    {
        assert!(rt; user < self.users);
        UserNo(user)
    }

    fn edit(&self, rt: &impl Abort, alloc: Global, mark: Mark, bits: u64) -> Result<Edit, Fail>
        ensures { IfOk result (λ edit. length edit.set ≡ self.now.declared.funcs) }
    {
        let (append, remove, clear) = mark;
        let set = set_of(rt, alloc, self.funcs, bits)?;
        Ok(Edit {
            append,
            remove,
            clear,
            set,
        })
    }

    pub fn last(&self) -> &Plan {
        self.desk.last()
    }
}

/// The declaration of a user.
fn spec_of(alloc: Global, user: &User) -> Result<Spec, AllocError> {
    let name = String::from_str(alloc, "user")?;
    let (kind, regs, ipmodify) = *user;
    Ok(Spec {
        name,
        kind,
        regs,
        ipmodify,
        pid: false,
        act: None,
    })
}

/// Puts the declarations of these users last.
fn put_specs(alloc: Global, specs: &mut Vec<Spec>, users: &[User]) -> Result<(), AllocError> {
    for user in users.iter() {
        let spec = spec_of(alloc, user)?;
        specs.push(spec)?;
    }
    Ok(())
}

/// The set of the functions below a size whose bits are set.
pub fn set_of(rt: &impl Abort, alloc: Global, size: u32, bits: u64) -> Result<SiteSet, Fail>
    ensures { IfOk result (λ set. length set ≡ size) }
{
    let mut set = SiteSet::empty(alloc, size)?;
    for f in 0..64 {
        if (bits >> f) & 1 == 1 && f < set.size() {
            set.add(f);
        }
    }
    assert!(rt; set.size() == size);
    Ok(set)
}
