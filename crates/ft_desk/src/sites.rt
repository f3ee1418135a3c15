//! The call sites that change with a user, by counts.
//!
//! A user is *sited* at a function if it is registered and matches it. Of each function the desk keeps
//! how many users are sited there, and the *total* of their numbers, each counted from 1. So if one
//! user alone is sited, the total says which.

ghost use Rattle.std.specs.Prelude.{◌≡◌, ◌≢◌, ℕ, suc, ◌+◌, ◌-◌, ◌≤◌, ◌<◌, ◌^◌, true, [], length, slice_index, is_some, not, List, false, ◌∷◌, ◌++◌, vec_len, vec_capacity, if◌then◌else◌};
ghost use Rattle.ft_base.specs.declared.item.Ran.TheVariants.{List as ByList, Own};
ghost use Rattle.ft_base.specs.Marks.{holds, union, difference};
ghost use Rattle.site_counts.specs.Rows.{row_of, HasRoom, HasUser};
ghost use Rattle.ft_desk.specs.Sites.{changed_sites, same_insn};
ghost use Rattle.ft_desk.specs.Users.{insn_by, ran_by, user_of};
ghost use Rattle.ft_desk.specs.declared.user.User.{User};
ghost use Rattle.ft_desk.specs.Moves.{MayMove, TellsOne, moved, moved_row, insn_before, insn_after};

use crate::user::User;
use ft_base::{FuncNo, Ran, UserNo};
use ipmodify::Holder;
use site_bytes::{Insn, SiteChange};
use site_counts::Counts;
use site_set::SiteSet;

/// The instruction of a site at which this many users are sited, with this total.
pub(crate) fn insn_by(count: u32, total: u32, users: &[User]) -> Insn
    requires { TellsOne (length users.now) count total }
    ensures { result ≡ insn_by users.now count total }
{
    match count {
        0 => Insn::Nop,
        1 => match users[(total - 1) as usize].slot {
            Some(slot) => Insn::Own(slot),
            None => Insn::List,
        },
        _ => Insn::List,
    }
}

/// What a call of a function runs at which this many users are sited, with this total.
pub(crate) fn ran_by(count: u32, total: u32, users: &[User]) -> Ran
    requires { TellsOne (length users.now) count total }
    ensures { result ≡ ran_by users.now count total }
{
    match count {
        0 => Ran::Nop,
        1 => ran_alone(UserNo(total - 1), users),
        _ => Ran::List,
    }
}

/// What a call of a function runs at which this user alone is sited.
fn ran_alone(user: UserNo, users: &[User]) -> Ran
    requires { user.0 < length users.now }
    ensures { result ≡ (if is_some (user_of users.now user.0).slot then Own user else ByList) }
{
    if users[user.0 as usize].slot.is_some() {
        Ran::Own(user)
    } else {
        Ran::List
    }
}

/// The same after the user has come, or has left.
fn insn_moved(count: u32, total: u32, users: &[User], user: UserNo, comes: bool) -> Insn
    requires there { comes ≡ false → (1 ≤ count) × (suc user.0 ≤ total) }
    requires room { comes ≡ true → count + 1 < 2 ^ 32 }
    requires small { total + suc user.0 < 2 ^ 32 }
    requires one { TellsOne (length users.now) (moved comes (not comes) 1 count) (moved comes (not comes) (suc user.0) total) }
    ensures { result ≡ insn_by users.now (moved comes (not comes) 1 count) (moved comes (not comes) (suc user.0) total) }
{
    if comes {
        insn_by(count + 1, total + (user.0 + 1), users)
    } else {
        insn_by(count - 1, total - (user.0 + 1), users)
    }
}

/// Writes a site down if its instruction changes.
fn push_change(sites: &mut Vec<SiteChange>, f: u32, old: Insn, new: Insn)
    requires { vec_len sites.old < vec_capacity sites.old }
    ensures items { sites.new.items ≡ (if same_insn old new then sites.old.items
        else sites.old.items ++ record { func = record { 0 = f }; insn = new } ∷ []) }
    ensures len { vec_len sites.new ≤ vec_len sites.old + 1 }
    ensures capacity { vec_capacity sites.new ≡ vec_capacity sites.old }
{
    if !is_same(old, new) {
        let func = FuncNo(f);
        sites.push_reserved(SiteChange { func, insn: new });
    }
}

/// Whether two instructions are the same.
fn is_same(one: Insn, other: Insn) -> bool
    ensures { result ≡ same_insn one other }
{
    match (one, other) {
        (Insn::Nop, Insn::Nop) | (Insn::List, Insn::List) => true,
        (Insn::Own(slot), Insn::Own(other_slot)) => slot == other_slot,
        _ => false,
    }
}

/// Whether a site calls the list caller before the user comes or leaves, and after it, if this many
/// users are sited there before. It is so at most sites if many users are registered.
fn stays_listed(count: u32, comes: bool) -> bool
    ensures { result ≡ true → (users : List User) (before after : ℕ)
        → same_insn (insn_by users count before) (insn_by users (moved comes (not comes) 1 count) after) ≡ true }
{
    if comes { count >= 2 } else { count >= 3 }
}

/// Writes a site down if its instruction changes when the user comes there, or leaves it.
fn list_change(
    sites: &mut Vec<SiteChange>,
    f: u32,
    count: u32,
    total: u32,
    users: &[User],
    user: UserNo,
    comes: bool,
)
    requires before { TellsOne (length users.now) count total }
    requires there { comes ≡ false → (1 ≤ count) × (suc user.0 ≤ total) }
    requires room { comes ≡ true → count + 1 < 2 ^ 32 }
    requires small { total + suc user.0 < 2 ^ 32 }
    requires after { TellsOne (length users.now) (moved comes (not comes) 1 count) (moved comes (not comes) (suc user.0) total) }
    requires space { vec_len sites.old < vec_capacity sites.old }
    ensures items { sites.new.items ≡ (if same_insn (insn_by users.now count total)
        (insn_by users.now (moved comes (not comes) 1 count) (moved comes (not comes) (suc user.0) total)) then sites.old.items
        else sites.old.items ++ record {
          func = record { 0 = f };
          insn = insn_by users.now (moved comes (not comes) 1 count) (moved comes (not comes) (suc user.0) total);
        } ∷ []) }
    ensures len { vec_len sites.new ≤ vec_len sites.old + 1 }
    ensures capacity { vec_capacity sites.new ≡ vec_capacity sites.old }
{
    if stays_listed(count, comes) {
        return;
    }
    let old = insn_by(count, total, users);
    let new = insn_moved(count, total, users, user, comes);
    push_change(sites, f, old, new);
}

/// The user comes to one function, or leaves it: in the counts and the totals.
fn move_at(counts: &mut Counts, totals: &mut [u32], f: u32, this: &User, user: UserNo, comes: bool)
    requires within { f < length counts.old }
    requires totals { length totals.old ≡ length counts.old }
    requires room { comes ≡ true → HasRoom (row_of counts.old f) }
    requires there { comes ≡ false → HasUser this.now.regs (is_some this.now.ipmodify) (row_of counts.old f) }
    requires numbered { comes ≡ false → suc user.0 ≤ slice_index totals.old f }
    requires small { slice_index totals.old f + suc user.0 < 2 ^ 32 }
    ensures row { row_of counts.new f
        ≡ moved_row comes (not comes) this.now.regs (is_some this.now.ipmodify) (row_of counts.old f) }
    ensures rows { (g : ℕ) → g ≢ f → row_of counts.new g ≡ row_of counts.old g }
    ensures size { length counts.new ≡ length counts.old }
    ensures total { slice_index totals.new f ≡ moved comes (not comes) (suc user.0) (slice_index totals.old f) }
    ensures totals { (g : ℕ) → g ≢ f → slice_index totals.new g ≡ slice_index totals.old g }
{
    if comes {
        counts.add_at(f, this.regs, this.modifies());
        totals[f as usize] += user.0 + 1;
    } else {
        counts.drop_at(f, this.regs, this.modifies());
        totals[f as usize] -= user.0 + 1;
    }
}

/// The user comes to the functions of one set and leaves those of another: in the counts and the
/// totals. The sites that change are written down. All is done at a function before the next one is
/// looked at, so that the sets are gone through once.
fn move_user(
    sites: &mut Vec<SiteChange>,
    counts: &mut Counts,
    totals: &mut [u32],
    users: &[User],
    user: UserNo,
    came: &SiteSet,
    left: &SiteSet,
)
    requires empty { sites.old.items ≡ [] }
    requires room { length counts.old ≤ vec_capacity sites.old }
    requires totals { length totals.old ≡ length counts.old }
    requires came { length came.now ≡ length counts.old }
    requires left { length left.now ≡ length counts.old }
    requires user { user.0 < length users.now }
    requires moves { (f : ℕ) → f < length counts.old
        → MayMove (length users.now) user.0 (holds came.now f) (holds left.now f)
        (user_of users.now user.0).regs (is_some (user_of users.now user.0).ipmodify)
        (row_of counts.old f) (slice_index totals.old f) }
    ensures sites { sites.new.items ≡ changed_sites (insn_before users.now counts.old totals.old)
        (insn_after users.now counts.old totals.old user.0 came.now left.now) 0 (length counts.old) }
    ensures capacity { vec_capacity sites.new ≡ vec_capacity sites.old }
    ensures rows { (f : ℕ) → f < length counts.old → row_of counts.new f
        ≡ moved_row (holds came.now f) (holds left.now f) (user_of users.now user.0).regs
        (is_some (user_of users.now user.0).ipmodify) (row_of counts.old f) }
    ensures totals { (f : ℕ) → f < length counts.old → slice_index totals.new f
        ≡ moved (holds came.now f) (holds left.now f) (suc user.0) (slice_index totals.old f) }
    ensures size { length counts.new ≡ length counts.old }
{
    let this = &users[user.0 as usize];
    let mut from = 0;
    while let Some(f) = SiteSet::next_of_two(came, left, from) {
        let comes = came.contains(f);
        let count = counts.row(f).count;
        let total = totals[f as usize];
        list_change(sites, f, count, total, users, user, comes);
        move_at(counts, totals, f, this, user, comes);
        from = f + 1;
    }
}

/// The user comes to the functions of one set and leaves those of another: in the counts, the totals
/// and what it holds. The sites that change are written down.
pub(crate) fn resite(
    sites: &mut Vec<SiteChange>,
    counts: &mut Counts,
    totals: &mut [u32],
    holder: &mut Holder,
    users: &[User],
    user: UserNo,
    came: &SiteSet,
    left: &SiteSet,
)
    requires empty { sites.old.items ≡ [] }
    requires room { length counts.old ≤ vec_capacity sites.old }
    requires totals { length totals.old ≡ length counts.old }
    requires came { length came.now ≡ length counts.old }
    requires left { length left.now ≡ length counts.old }
    requires on { length holder.old.on ≡ length counts.old }
    requires user { user.0 < length users.now }
    requires moves { (f : ℕ) → f < length counts.old
        → MayMove (length users.now) user.0 (holds came.now f) (holds left.now f)
        (user_of users.now user.0).regs (is_some (user_of users.now user.0).ipmodify)
        (row_of counts.old f) (slice_index totals.old f) }
    ensures sites { sites.new.items ≡ changed_sites (insn_before users.now counts.old totals.old)
        (insn_after users.now counts.old totals.old user.0 came.now left.now) 0 (length counts.old) }
    ensures capacity { vec_capacity sites.new ≡ vec_capacity sites.old }
    ensures rows { (f : ℕ) → f < length counts.old → row_of counts.new f
        ≡ moved_row (holds came.now f) (holds left.now f) (user_of users.now user.0).regs
        (is_some (user_of users.now user.0).ipmodify) (row_of counts.old f) }
    ensures totals { (f : ℕ) → f < length counts.old → slice_index totals.new f
        ≡ moved (holds came.now f) (holds left.now f) (suc user.0) (slice_index totals.old f) }
    ensures size { length counts.new ≡ length counts.old }
    ensures holder { holder.new.user ≡ holder.old.user }
    ensures on { holder.new.on
        ≡ (if is_some (user_of users.now user.0).ipmodify then union (difference holder.old.on left.now) came.now else holder.old.on) }
{
    move_user(sites, counts, totals, users, user, came, left);
    hold(holder, users[user.0 as usize].modifies(), came, left);
}

/// What a user holds after it has moved, if it replaces functions.
fn hold(holder: &mut Holder, modifies: bool, came: &SiteSet, left: &SiteSet)
    requires came { length came.now ≡ length holder.old.on }
    requires left { length left.now ≡ length holder.old.on }
    ensures user { holder.new.user ≡ holder.old.user }
    ensures on { holder.new.on
        ≡ (if modifies then union (difference holder.old.on left.now) came.now else holder.old.on) }
{
    if modifies {
        holder.on.subtract(left);
        holder.on.unite(came);
    }
}
