//! The users, and what is counted of them.

ghost use Rattle.std.specs.Prelude.{◌≡◌, ℕ, ◌+◌, ◌≤◌, ◌<◌, ◌^◌, true, false, ◌&&◌, [], length, map, set, slice_index, slice_index_or, All, IfOk, vec_capacity};
ghost use Rattle.ft_base.specs.declared.limits.TheConstants.{USERS};
ghost use Rattle.word_map.specs.Instructions.{insn_at};
ghost use Rattle.ft_desk.specs.Sites.{changed_sites};
ghost use Rattle.ft_base.specs.Marks.{empty, holds};
ghost use Rattle.ft_base.specs.Desk.{claim, matches_by, target};
ghost use Rattle.filter_hash.specs.Pair.{size_of};
ghost use Rattle.site_set.specs.Edits.{plain_edit};
ghost use Rattle.ipmodify.specs.Conflicts.{conflict_of};
ghost use Rattle.ipmodify.specs.OnDesk.{answer_of};
ghost use Rattle.ft_desk.specs.Users.{declared_as, desk_by, edited_pair, edited_user, enrolled, retired, row_by, switched, user_of};
ghost use Rattle.ft_desk.specs.Rosters.{claim_of, job_by};
ghost use Rattle.ft_desk.specs.RosterInvariant.{IsRoom, IsSized, no_holder};

use crate::sites::{insn_by, ran_by, resite};
use crate::user::User;
use filter_hash::HashPair;
use ft_base::{Answer, FuncNo, Half, NoMemory, Ran, UserNo};
use ipmodify::{Holder, check};
use site_bytes::{Insn, SiteChange};
use site_counts::{Counts, Row};
use site_set::{Edit, SiteSet};
use std::alloc::Global;
use std::marker::Model;
use user_specs::Spec;

/// All users. Contracts see them as a list, and the number of functions.
#[derive(Drop)]
pub(crate) struct Roster {
    users: Vec<User>,
    /// How many users are sited at each function.
    counts: Counts,
    /// For each function the sum of the numbers, from 1, of the users that are sited there.
    totals: Vec<u32>,
    /// For each user the functions that it replaces.
    holders: Vec<Holder>,
    room: Room,
}

/// Sets that a command has to look at. What they hold between two commands says nothing.
#[derive(Drop)]
struct Room {
    /// A user's sets before an edit, or as they would be after one.
    trial: HashPair,
    /// The functions that the user of a command comes to.
    came: SiteSet,
    /// The functions that it leaves.
    left: SiteSet,
    /// Any others.
    reach: SiteSet,
}

impl Model for Roster {
    ghost use Rattle.ft_desk.specs.Rosters.{Users};

    ghost Value = { Users };

    ghost use Rattle.ft_desk.specs.RosterInvariant.{users_of, RosterInvariant};

    ghost view = { users_of };

    ghost invariant = { RosterInvariant };
}

impl Roster {
    /// How many users there are.
    pub(crate) fn users(&self) -> u32
        ensures { result ≡ length self.now.users }
    {
        self.users.len() as u32
    }

    /// How many functions there are.
    pub(crate) fn funcs(&self) -> u32
        ensures { result ≡ self.now.funcs }
    {
        self.room.came.size()
    }

    /// A user.
    pub(crate) fn user(&self, u: UserNo) -> &User
        requires { u.0 < length self.now.users }
        ensures user { result.now ≡ user_of self.now.users u.0 }
        ensures sized { IsSized self.now.funcs result.now.pair }
    {
        &self.users[u.0 as usize]
    }

    /// The row of a function.
    pub(crate) fn row(&self, f: FuncNo) -> Row
        requires { f.0 < self.now.funcs }
        ensures { result ≡ row_by self.now.users f.0 }
    {
        self.counts.row(f.0)
    }

    /// The instruction that the site of a function should have.
    pub(crate) fn insn(&self, f: FuncNo) -> Insn
        requires { f.0 < self.now.funcs }
        ensures { result ≡ insn_at (desk_by self.now.users) f.0 }
    {
        insn_by(
            self.counts.row(f.0).count,
            self.totals[f.0 as usize],
            self.users.as_slice(),
        )
    }

    /// What a call of the function runs.
    pub(crate) fn ran(&self, f: FuncNo) -> Ran
        requires { f.0 < self.now.funcs }
        ensures { result ≡ target (desk_by self.now.users) f.0 }
    {
        ran_by(
            self.counts.row(f.0).count,
            self.totals[f.0 as usize],
            self.users.as_slice(),
        )
    }

    /// Registers a user, by a command of this number and with this slot. The sites that change are
    /// written down.
    pub(crate) fn register(
        &mut self,
        user: UserNo,
        since: u32,
        slot: Option<u8>,
        sites: &mut Vec<SiteChange>,
    )
        requires user { user.0 < length self.old.users }
        requires unregistered { (user_of self.old.users user.0).registered ≡ false }
        requires number { (user_of self.old.users user.0).reg + 1 < 2 ^ 32 }
        requires empty { sites.old.items ≡ [] }
        requires room { self.old.funcs ≤ vec_capacity sites.old }
        ensures users { self.new.users ≡ set self.old.users user.0 (enrolled since slot (user_of self.old.users user.0)) }
        ensures funcs { self.new.funcs ≡ self.old.funcs }
        ensures sites { sites.new.items
            ≡ changed_sites (insn_at (desk_by self.old.users)) (insn_at (desk_by self.new.users)) 0 self.old.funcs }
        ensures capacity { vec_capacity sites.new ≡ vec_capacity sites.old }
    {
        let at = user.0 as usize;
        self.users[at].enroll(since, slot);
        self.users[at].pair.matched_into(&mut self.room.came);
        self.room.left.clear();
        resite(
            sites,
            &mut self.counts,
            self.totals.as_mut_slice(),
            &mut self.holders[at],
            self.users.as_slice(),
            user,
            &self.room.came,
            &self.room.left,
        );
    }

    /// Unregisters a user. The sites that change are written down.
    pub(crate) fn unregister(&mut self, user: UserNo, sites: &mut Vec<SiteChange>)
        requires user { user.0 < length self.old.users }
        requires registered { (user_of self.old.users user.0).registered ≡ true }
        requires empty { sites.old.items ≡ [] }
        requires room { self.old.funcs ≤ vec_capacity sites.old }
        ensures users { self.new.users ≡ set self.old.users user.0 (retired (user_of self.old.users user.0)) }
        ensures funcs { self.new.funcs ≡ self.old.funcs }
        ensures sites { sites.new.items
            ≡ changed_sites (insn_at (desk_by self.old.users)) (insn_at (desk_by self.new.users)) 0 self.old.funcs }
        ensures capacity { vec_capacity sites.new ≡ vec_capacity sites.old }
    {
        let at = user.0 as usize;
        self.users[at].pair.matched_into(&mut self.room.left);
        self.room.came.clear();
        resite(
            sites,
            &mut self.counts,
            self.totals.as_mut_slice(),
            &mut self.holders[at],
            self.users.as_slice(),
            user,
            &self.room.came,
            &self.room.left,
        );
        self.users[at].retire();
    }

    /// Edits one of a user's sets. If the user is registered, the sites that change are written down.
    pub(crate) fn edit(
        &mut self,
        user: UserNo,
        half: Half,
        edit: &Edit,
        sites: &mut Vec<SiteChange>,
    )
        requires user { user.0 < length self.old.users }
        requires size { length edit.now.set ≡ self.old.funcs }
        requires empty { sites.old.items ≡ [] }
        requires room { self.old.funcs ≤ vec_capacity sites.old }
        ensures sized { IsSized self.old.funcs (user_of self.old.users user.0).pair }
        ensures users { self.new.users
            ≡ set self.old.users user.0 (edited_user half (plain_edit edit.now) (user_of self.old.users user.0)) }
        ensures funcs { self.new.funcs ≡ self.old.funcs }
        ensures sites { sites.new.items
            ≡ changed_sites (insn_at (desk_by self.old.users)) (insn_at (desk_by self.new.users)) 0 self.old.funcs }
        ensures capacity { vec_capacity sites.new ≡ vec_capacity sites.old }
    {
        let at = user.0 as usize;
        let registered = self.users[at].registered;
        reach_of(&self.users[at], registered, &mut self.room.left);
        reach_of(&self.users[at], registered, &mut self.room.reach);
        self.users[at].edit(half, edit);
        reach_of(&self.users[at], registered, &mut self.room.came);
        self.room.left.subtract(&self.room.came);
        self.room.came.subtract(&self.room.reach);
        resite(
            sites,
            &mut self.counts,
            self.totals.as_mut_slice(),
            &mut self.holders[at],
            self.users.as_slice(),
            user,
            &self.room.came,
            &self.room.left,
        );
    }

    /// Enables or disables a user. No site changes.
    pub(crate) fn switch(&mut self, user: UserNo, enabled: bool)
        requires user { user.0 < length self.old.users }
        ensures users { self.new.users ≡ set self.old.users user.0 (switched enabled (user_of self.old.users user.0)) }
        ensures funcs { self.new.funcs ≡ self.old.funcs }
        ensures sites { (f : ℕ) → insn_at (desk_by self.new.users) f ≡ insn_at (desk_by self.old.users) f }
    {
        self.users[user.0 as usize].enabled = enabled;
    }

    /// What stands in the way of a user that replaces what its sets match.
    pub(crate) fn claim(&mut self, user: UserNo) -> Answer
        requires { user.0 < length self.old.users }
        ensures answer { result ≡ claim (job_by self.old) (desk_by self.old.users) user.0
            (user_of self.old.users user.0).pair.filter (user_of self.old.users user.0).pair.notrace }
        ensures same { self.new ≡ self.old }
    {
        self.users[user.0 as usize]
            .pair
            .matched_into(&mut self.room.reach);
        answer_to_claim(&self.room.reach, self.holders.as_slice(), user)
    }

    /// The same of a user that replaces what its sets match after an edit. It needs a filter that
    /// isn't empty then.
    pub(crate) fn claim_after(&mut self, user: UserNo, half: Half, edit: &Edit) -> Answer
        requires user { user.0 < length self.old.users }
        requires size { length edit.now.set ≡ self.old.funcs }
        ensures answer { result ≡ claim_of (job_by self.old) (desk_by self.old.users) user.0
            (edited_pair half (plain_edit edit.now) (user_of self.old.users user.0).pair) }
        ensures same { self.new ≡ self.old }
    {
        let room = &mut self.room;
        room.trial.copy_from(&self.users[user.0 as usize].pair);
        room.trial.edit(half, edit);
        if room.trial.is_open() {
            return Answer::Invalid;
        }
        room.trial.matched_into(&mut room.reach);
        answer_to_claim(&room.reach, self.holders.as_slice(), user)
    }

    /// All users that were declared, with empty sets of functions below `funcs`.
    pub(crate) fn new(alloc: Global, specs: &[Spec], funcs: u32) -> Result<Roster, NoMemory>
        requires { length specs.now ≤ USERS }
        ensures users { IfOk result (λ r. r.users ≡ map (declared_as funcs) specs.now) }
        ensures funcs { IfOk result (λ r. r.funcs ≡ funcs) }
    {
        let users = new_users(alloc, specs, funcs)?;
        let counts = Counts::new(alloc, funcs)?;
        let totals = new_totals(alloc, funcs)?;
        let holders = new_holders(alloc, specs.len() as u32, funcs)?;
        let room = new_room(alloc, funcs)?;
        Ok(Roster {
            users,
            counts,
            totals,
            holders,
            room,
        })
    }
}

/// The functions that a user is sited at, or none if it isn't registered.
fn reach_of(user: &User, registered: bool, out: &mut SiteSet)
    requires { length out.old ≡ size_of user.now.pair }
    ensures members { (f : ℕ) → f < size_of user.now.pair → holds out.new f
        ≡ (registered && matches_by user.now.pair.filter user.now.pair.notrace f) }
    ensures size { length out.new ≡ length out.old }
{
    if registered {
        user.pair.matched_into(out);
    } else {
        out.clear();
    }
}

/// The answer to the claim of a user that would replace these functions.
fn answer_to_claim(on: &SiteSet, holders: &[Holder], user: UserNo) -> Answer
    requires { All (λ h. length on.now ≡ length h.on) holders.now }
    ensures { result ≡ answer_of (conflict_of on.now holders.now user.0) }
{
    match check(on, holders, user) {
        None => Answer::Accepted,
        Some(conflict) => Answer::Busy {
            func: conflict.func,
            holder: conflict.holder,
        },
    }
}

fn new_users(alloc: Global, specs: &[Spec], funcs: u32) -> Result<Vec<User>, NoMemory>
    ensures { IfOk result (λ v. v.items ≡ map (declared_as funcs) specs.now) }
{
    let mut users = Vec::new(alloc);
    for spec in specs {
        let user = User::new(alloc, spec, funcs)?;
        users.push(user).map_err(|_| NoMemory)?;
    }
    Ok(users)
}

/// For each user a holder of nothing.
fn new_holders(alloc: Global, users: u32, funcs: u32) -> Result<Vec<Holder>, NoMemory>
    ensures size { IfOk result (λ v. length v.items ≡ users) }
    ensures each { IfOk result (λ v. (u : ℕ) → u < users
        → slice_index_or v.items u no_holder ≡ record { user = record { 0 = u }; on = empty funcs }) }
{
    let mut holders = Vec::new(alloc);
    for n in 0..users {
        let user = UserNo(n);
        let on = new_set(alloc, funcs)?;
        holders.push(Holder { user, on }).map_err(|_| NoMemory)?;
    }
    Ok(holders)
}

fn new_room(alloc: Global, funcs: u32) -> Result<Room, NoMemory>
    ensures { IfOk result (IsRoom funcs) }
{
    let trial = HashPair::new(alloc, funcs)?;
    let came = new_set(alloc, funcs)?;
    let left = new_set(alloc, funcs)?;
    let reach = new_set(alloc, funcs)?;
    Ok(Room {
        trial,
        came,
        left,
        reach,
    })
}

fn new_set(alloc: Global, funcs: u32) -> Result<SiteSet, NoMemory>
    ensures members { IfOk result (λ set. set ≡ empty funcs) }
    ensures size { IfOk result (λ set. length set ≡ funcs) }
{
    SiteSet::empty(alloc, funcs).map_err(|_| NoMemory)
}

fn new_totals(alloc: Global, funcs: u32) -> Result<Vec<u32>, NoMemory>
    ensures size { IfOk result (λ v. length v.items ≡ funcs) }
    ensures zero { IfOk result (λ v. (f : ℕ) → slice_index v.items f ≡ 0) }
{
    vec![in alloc; 0u32; funcs as usize].map_err(|_| NoMemory)
}
