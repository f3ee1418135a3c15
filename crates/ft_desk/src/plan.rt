//! What an accepted command stores.

ghost use Rattle.std.specs.Prelude.{◌≡◌, ◌≤◌, true, false, Some, IfOk, vec_capacity};
ghost use Rattle.ft_desk.specs.declared.plan.ListChange.TheVariants.{Push, Unlink};
ghost use Rattle.word_map.specs.Contents.{digit, sel_of};
ghost use Rattle.ft_desk.specs.Plans.{given_by, no_plan, plain_plan, taken_by};
ghost use Rattle.ft_desk.specs.Users.{state_of};

use crate::user::User;
use ft_base::{NoMemory, UserNo};
use site_bytes::SiteChange;
use std::alloc::Global;

/// What happens to a trampoline's word.
#[derive(Clone, Copy, PartialEq, Eq)]
pub enum TrampChange {
    /// Nothing is stored.
    Keep,
    /// The user of the command takes the slot, under this registration number.
    Set { slot: u8, reg: u32 },
    /// The slot is free again.
    Clear { slot: u8 },
}

/// What happens to the list of registered users, of which the latest is the first.
#[derive(Clone, Copy, PartialEq, Eq)]
pub enum ListChange {
    /// It stays.
    Keep,
    /// The user of the command comes before the user that was the first, if there was one.
    Push {
        first: Option<UserNo>,
    },
    /// The user of the command is taken out. Here are the users before it and after it.
    Unlink {
        before: Option<UserNo>,
        after: Option<UserNo>,
    },
}

/// What an accepted command stores: the values of the words that change, and what is waited for.
#[derive(Drop)]
pub struct Plan {
    /// The user whose words change.
    pub user: Option<UserNo>,
    /// Whether its two sets are written, into the copy that isn't in use.
    pub pair: bool,
    /// The new state of the user: in the high half its registration number, in bits 0 to 3 whether
    /// it is registered, whether it is enabled, which copy of its sets is in use, and whether its
    /// filter is empty.
    pub sel: Option<u64>,
    /// The word of a trampoline.
    pub tramp: TrampChange,
    /// The list of registered users.
    pub list: ListChange,
    /// A bit for each task, 1 if the task is traced for users with the pid flag.
    pub pids: Option<u64>,
    /// The graph depth.
    pub depth: Option<u32>,
    /// The call sites that change, the lowest function first, with their new instructions.
    pub sites: Vec<SiteChange>,
    /// Whether the command waits until every task was at a quiet point.
    pub quiet: bool,
}

impl Plan {
    /// The empty plan, with room for the sites of this many functions.
    pub(crate) fn new(alloc: Global, funcs: u32) -> Result<Plan, NoMemory>
        ensures plan { IfOk result (λ p. plain_plan p ≡ no_plan) }
        ensures room { IfOk result (λ p. funcs ≤ vec_capacity p.sites) }
    {
        let sites = Vec::with_capacity(alloc, funcs as usize).map_err(|_| NoMemory)?;
        Ok(Plan {
            user: None,
            pair: false,
            sel: None,
            tramp: TrampChange::Keep,
            list: ListChange::Keep,
            pids: None,
            depth: None,
            sites,
            quiet: false,
        })
    }

    /// Makes it empty.
    pub(crate) fn clear(&mut self)
        ensures plan { plain_plan self.new ≡ no_plan }
        ensures room { vec_capacity self.new.sites ≡ vec_capacity self.old.sites }
    {
        self.user = None;
        self.pair = false;
        self.sel = None;
        self.tramp = TrampChange::Keep;
        self.list = ListChange::Keep;
        self.pids = None;
        self.depth = None;
        self.sites.clear();
        self.quiet = false;
    }

    /// A user was registered; this one was the first of the list before.
    pub(crate) fn enroll(
        &mut self,
        user: UserNo,
        this: &User,
        slot: Option<u8>,
        first: Option<UserNo>,
    )
        ensures plan { plain_plan self.new ≡ record (plain_plan self.old) {
          user = Some user;
          pair = true;
          sel = Some (sel_of (state_of this.now) (digit this.now.second));
          tramp = taken_by slot this.now.reg (plain_plan self.old).tramp;
          list = Push first;
        } }
        ensures room { vec_capacity self.new.sites ≡ vec_capacity self.old.sites }
    {
        self.user = Some(user);
        self.pair = true;
        self.sel = Some(this.sel());
        if let Some(slot) = slot {
            let reg = this.reg;
            self.tramp = TrampChange::Set { slot, reg };
        }
        self.list = ListChange::Push { first };
    }

    /// A user was unregistered, which had this slot and stood between these two.
    pub(crate) fn retire(
        &mut self,
        user: UserNo,
        this: &User,
        slot: Option<u8>,
        before: Option<UserNo>,
        after: Option<UserNo>,
    )
        ensures plan { plain_plan self.new ≡ record (plain_plan self.old) {
          user = Some user;
          sel = Some (sel_of (state_of this.now) (digit this.now.second));
          tramp = given_by slot (plain_plan self.old).tramp;
          list = Unlink before after;
          quiet = true;
        } }
        ensures room { vec_capacity self.new.sites ≡ vec_capacity self.old.sites }
    {
        self.user = Some(user);
        self.sel = Some(this.sel());
        if let Some(slot) = slot {
            self.tramp = TrampChange::Clear { slot };
        }
        self.list = ListChange::Unlink { before, after };
        self.quiet = true;
    }

    /// The sets of a user were edited: they are written if it is registered.
    pub(crate) fn rewrite(&mut self, user: UserNo, this: &User)
        ensures registered { this.now.registered ≡ true → plain_plan self.new ≡ record (plain_plan self.old) {
          user = Some user;
          pair = true;
          sel = Some (sel_of (state_of this.now) (digit this.now.second));
          quiet = true;
        } }
        ensures unregistered { this.now.registered ≡ false → plain_plan self.new ≡ plain_plan self.old }
        ensures room { vec_capacity self.new.sites ≡ vec_capacity self.old.sites }
    {
        if this.registered {
            self.user = Some(user);
            self.pair = true;
            self.sel = Some(this.sel());
            self.quiet = true;
        }
    }
}
