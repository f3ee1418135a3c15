//! The lines of the view profile: the rows of each profile user, and the counts of the fprobes.

ghost use Rattle.std.specs.Prelude.{◌≡◌, ◌+◌, ◌<◌, ◌≤◌, ◌^◌, ◌∷◌, ◌++◌, [], ℕ, List, length, map, filter, reverse, slice_get, slice_set, IfOk, OnOk, Some};
ghost use Rattle.ft_base.specs.declared.item.Item.{Item};
ghost use Rattle.ft_base.specs.Desk.{spec_at};
ghost use Rattle.ft_base.specs.Job.{Job as PlainJob, funcs};
ghost use Rattle.ft_hist.specs.Rules.{IsLegal, IsLegalPast};
ghost use Rattle.func_profile.specs.Rows.{has_hit};
ghost use Rattle.trace_views.specs.Words.{lines_text, numbered_texts};
ghost use Rattle.trace_views.specs.ProfileText.{profile_line_text, user_profile, fprobe_line};
ghost use Rattle.trace_views.specs.ProfileViews.{AreUserTallies, HasProfile, IsMissOf, IsUserTally};
ghost use Rattle.trace_views.specs.declared.profile.ProfileLine.TheVariants.{User, Row};

use crate::named::Named;
use crate::open_calls::OpenCalls;
use ft_base::{FuncNo, Item, Kind, NoMemory, Reason, UserNo};
use ft_hist::History;
use func_profile::{ProfileRow, Table};
use std::alloc::{AllocError, Global};

/// A line.
#[derive(Clone, Copy)]
pub enum ProfileLine {
    /// The name of the profile user whose rows follow.
    User(UserNo),
    /// A function's hits and time.
    Row(ProfileRow),
    /// How often an fprobe was called back, and how often it missed.
    Fprobe {
        user: UserNo,
        hits: u32,
        missed: u32,
    },
}

/// What is kept of a user.
#[derive(Drop)]
struct UserTally {
    /// The row of each function if it is a profile user, no rows otherwise.
    table: Table,
    /// How often it was called back at the entry of a call.
    hits: u32,
    /// How often it missed.
    missed: u32,
}

impl UserTally {
    ghost use Rattle.func_profile.specs.Tallies.{row_at, with_hit, with_time};

    /// Before the first item. The error says that memory ran out.
    fn new(alloc: Global, kind: Kind, functions: u32) -> Result<UserTally, NoMemory>
        ensures { IfOk result (λ tally. (job : PlainJob) (u : ℕ) → kind ≡ (spec_at job u).kind → functions ≡ funcs job
            → IsUserTally job [] u tally) }
    {
        let rows = match kind {
            Kind::Profile => functions,
            _ => 0,
        };
        Ok(UserTally {
            table: Table::new(alloc, rows)?,
            hits: 0,
            missed: 0,
        })
    }

    /// Counts an entry callback in a call of a function.
    fn back(&mut self, func: FuncNo)
        requires row { (row_at self.old.table.rows.items func.0).hits + 1 < 2 ^ 32 }
        requires all { self.old.hits + 1 < 2 ^ 32 }
        ensures rows { self.new.table.rows.items ≡ slice_set self.old.table.rows.items func.0 (with_hit (row_at self.old.table.rows.items func.0)) }
        ensures hits { self.new.hits ≡ self.old.hits + 1 }
        ensures missed { self.new.missed ≡ self.old.missed }
    {
        self.hits += 1;
        self.table.add_hit(func);
    }

    /// Counts an exit callback in a call of a function, which came this long after its entry.
    fn exit(&mut self, func: FuncNo, time: u32)
        requires { (row_at self.old.table.rows.items func.0).time + time < 2 ^ 64 }
        ensures rows { self.new.table.rows.items ≡ slice_set self.old.table.rows.items func.0 (with_time time (row_at self.old.table.rows.items func.0)) }
        ensures counts { (self.new.hits ≡ self.old.hits) × (self.new.missed ≡ self.old.missed) }
    {
        self.table.add_time(func, time);
    }

    /// Counts a miss.
    fn miss(&mut self)
        requires { self.old.missed + 1 < 2 ^ 32 }
        ensures rest { (self.new.table ≡ self.old.table) × (self.new.hits ≡ self.old.hits) }
        ensures missed { self.new.missed ≡ self.old.missed + 1 }
    {
        self.missed += 1;
    }
}

/// What each user of a job was called back for so far. It takes the job's items one after the other, each
/// when it is marked, and no memory for them.
#[derive(Drop)]
pub struct ProfileView {
    /// The calls that are open.
    open: OpenCalls,
    /// The place of the next item.
    place: u32,
    /// What is kept of each user.
    users: Vec<UserTally>,
}

impl ProfileView {
    /// Before the first item of a job. The error says that memory ran out.
    pub fn new<N: Named>(alloc: Global, names: &N) -> Result<ProfileView, NoMemory>
        ensures { IfOk result (λ view. HasProfile (N.job names.now) [] view) }
    {
        let open = OpenCalls::new(alloc, names)?;
        let count = names.users();
        let mut users = Vec::with_capacity(alloc, count as usize).map_err(|_| NoMemory)?;
        for u in 0..count {
            let user = UserNo(u);
            let tally = UserTally::new(alloc, names.kind(user), names.functions())?;
            users.push_reserved(tally);
        }
        Ok(ProfileView {
            open,
            place: 0,
            users,
        })
    }

    /// Takes the next item of the job.
    pub fn take(&mut self, item: &Item)
        requires { (job : PlainJob) × (past : List Item) × HasProfile job past self.old
            × IsLegalPast job (item.now ∷ past) × (length past + 1 < 2 ^ 32) }
        ensures { (job : PlainJob) (past : List Item) → HasProfile job past self.old
            → IsLegalPast job (item.now ∷ past) → length past + 1 < 2 ^ 32 → HasProfile job (item.now ∷ past) self.new }
    {
        self.count(item);
        self.open.follow(item);
        self.place += 1;
    }

    /// The lines: those of the profile users in order, then those of the fprobes. The error says that
    /// memory ran out.
    pub fn lines<N: Named>(&self, alloc: Global, names: &N) -> Result<Vec<ProfileLine>, NoMemory>
        requires { (past : List Item) × HasProfile (N.job names.now) past self.now }
        ensures { IfOk result (λ lines. (past : List Item) → HasProfile (N.job names.now) past self.now
            → lines_text (profile_line_text (N.job names.now)) lines.items
            ≡ numbered_texts (user_profile (N.job names.now) (reverse past)) 0 (N.job names.now).users
            ++ numbered_texts (fprobe_line (reverse past)) 0 (N.job names.now).users) }
    {
        let mut lines = Vec::new(alloc);
        let users = self.users.as_slice();
        push_profiles(&mut lines, names, users).map_err(|_| NoMemory)?;
        push_fprobes(&mut lines, names, users).map_err(|_| NoMemory)?;
        Ok(lines)
    }

    /// Counts the next item of the job for its user.
    fn count(&mut self, item: &Item)
        requires { (job : PlainJob) × (past : List Item) × HasProfile job past self.old
            × IsLegalPast job (item.now ∷ past) × (length past + 1 < 2 ^ 32) }
        ensures users { (job : PlainJob) (past : List Item) → HasProfile job past self.old
            → IsLegalPast job (item.now ∷ past) → length past + 1 < 2 ^ 32
            → AreUserTallies job (item.now ∷ past) self.new.users.items }
        ensures rest { (self.new.open ≡ self.old.open) × (self.new.place ≡ self.old.place) }
    {
        match *item {
            Item::Back { call, user } => {
                let func = self.open.top(call.task).func;
                if let Some(tally) = self.users.get_mut(user.0 as usize) {
                    tally.back(func);
                }
            }
            Item::Exit { call, user, entry } => {
                let func = self.open.top(call.task).func;
                let time = self.place - entry;
                if let Some(tally) = self.users.get_mut(user.0 as usize) {
                    tally.exit(func, time);
                }
            }
            Item::Refuse { user, reason, .. } => {
                if reason == Reason::Recursion {
                    self.count_miss(user);
                }
            }
            Item::Miss { user, .. } => self.count_miss(user),
            _ => {}
        }
    }

    /// Counts a miss of a user.
    fn count_miss(&mut self, user: UserNo)
        requires { (tally : UserTally) → slice_get self.old.users.items user.0 ≡ Some tally → tally.missed + 1 < 2 ^ 32 }
        ensures users { (job : PlainJob) (item : Item) (past : List Item) → (length past + 1 < 2 ^ 32) → AreUserTallies job past self.old.users.items
            → IsMissOf user.0 item → AreUserTallies job (item ∷ past) self.new.users.items }
        ensures rest { (self.new.open ≡ self.old.open) × (self.new.place ≡ self.old.place) }
    {
        if let Some(tally) = self.users.get_mut(user.0 as usize) {
            tally.miss();
        }
    }
}

/// Adds the lines of the rows with a hit.
fn push_rows(lines: &mut Vec<ProfileLine>, rows: &[ProfileRow]) -> Result<(), AllocError>
    ensures { OnOk result (lines.new.items ≡ lines.old.items ++ map Row (filter has_hit rows.now)) }
{
    for row in rows {
        if row.hits > 0 {
            lines.push(ProfileLine::Row(*row))?;
        }
    }
    Ok(())
}

/// Adds a line with a user's name, and the lines of its rows.
fn push_user(
    lines: &mut Vec<ProfileLine>,
    user: UserNo,
    rows: &[ProfileRow],
) -> Result<(), AllocError>
    ensures { OnOk result (lines.new.items ≡ lines.old.items ++ User user ∷ map Row (filter has_hit rows.now)) }
{
    lines.push(ProfileLine::User(user))?;
    push_rows(lines, rows)
}

/// Adds the lines of a user if it is a profile user.
fn push_profile<N: Named>(
    lines: &mut Vec<ProfileLine>,
    names: &N,
    user: UserNo,
    tally: &UserTally,
) -> Result<(), AllocError>
    ensures { OnOk result ((past : List Item) → IsUserTally (N.job names.now) past user.0 tally.now
        → lines_text (profile_line_text (N.job names.now)) lines.new.items
        ≡ lines_text (profile_line_text (N.job names.now)) lines.old.items
        ++ user_profile (N.job names.now) (reverse past) user.0 (spec_at (N.job names.now) user.0)) }
{
    match names.kind(user) {
        Kind::Profile => push_user(lines, user, tally.table.rows()),
        _ => Ok(()),
    }
}

/// Adds the line of a user if it is an fprobe.
fn push_fprobe<N: Named>(
    lines: &mut Vec<ProfileLine>,
    names: &N,
    user: UserNo,
    tally: &UserTally,
) -> Result<(), AllocError>
    ensures { OnOk result ((past : List Item) → IsUserTally (N.job names.now) past user.0 tally.now
        → lines_text (profile_line_text (N.job names.now)) lines.new.items
        ≡ lines_text (profile_line_text (N.job names.now)) lines.old.items
        ++ fprobe_line (reverse past) user.0 (spec_at (N.job names.now) user.0)) }
{
    if !names.kind(user).is_fprobe() {
        return Ok(());
    }
    let hits = tally.hits;
    let missed = tally.missed;
    lines.push(ProfileLine::Fprobe { user, hits, missed })?;
    Ok(())
}

/// Adds the lines of the profile users, in order.
fn push_profiles<N: Named>(
    lines: &mut Vec<ProfileLine>,
    names: &N,
    users: &[UserTally],
) -> Result<(), AllocError>
    requires { length users.now ≡ length (N.job names.now).users }
    ensures { OnOk result ((past : List Item) → AreUserTallies (N.job names.now) past users.now
        → lines_text (profile_line_text (N.job names.now)) lines.new.items
        ≡ lines_text (profile_line_text (N.job names.now)) lines.old.items
        ++ numbered_texts (user_profile (N.job names.now) (reverse past)) 0 (N.job names.now).users) }
{
    for u in 0..names.users() {
        push_profile(lines, names, UserNo(u), &users[u as usize])?;
    }
    Ok(())
}

/// Adds the lines of the fprobes, in order.
fn push_fprobes<N: Named>(
    lines: &mut Vec<ProfileLine>,
    names: &N,
    users: &[UserTally],
) -> Result<(), AllocError>
    requires { length users.now ≡ length (N.job names.now).users }
    ensures { OnOk result ((past : List Item) → AreUserTallies (N.job names.now) past users.now
        → lines_text (profile_line_text (N.job names.now)) lines.new.items
        ≡ lines_text (profile_line_text (N.job names.now)) lines.old.items
        ++ numbered_texts (fprobe_line (reverse past)) 0 (N.job names.now).users) }
{
    for u in 0..names.users() {
        push_fprobe(lines, names, UserNo(u), &users[u as usize])?;
    }
    Ok(())
}

/// The lines: those of the profile users in order, then those of the fprobes. The error says that
/// memory ran out.
pub fn profile_lines<N: Named>(
    alloc: Global,
    names: &N,
    history: &History,
) -> Result<Vec<ProfileLine>, NoMemory>
    requires { IsLegal (N.job names.now) history.now.items }
    ensures { IfOk result (λ lines. lines_text (profile_line_text (N.job names.now)) lines.items
        ≡ numbered_texts (user_profile (N.job names.now) history.now.items) 0 (N.job names.now).users
        ++ numbered_texts (fprobe_line history.now.items) 0 (N.job names.now).users) }
{
    let mut view = ProfileView::new(alloc, names)?;
    for place in 0..history.len() {
        view.take(history.item(place));
    }
    view.lines(alloc, names)
}
